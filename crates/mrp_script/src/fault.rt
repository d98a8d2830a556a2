//! Why the shop of a bundle was not opened.

use mrp_rows::Fault;
use thiserror::Error;

/// Why the shop of a bundle was not opened.
#[derive(Clone, Copy, Debug, PartialEq, Eq, Error)]
pub enum OpenFault {
    /// The bundle has this fault, which is never out of memory.
    #[error("refused")]
    Refused(Fault),
    /// Out of memory.
    #[error("no memory")]
    NoMemory,
}
