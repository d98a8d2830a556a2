//! Why a run has no plan.

use mrp_qty::NoMemory;
use thiserror::Error;

/// Why a run has no plan.
#[derive(Clone, Copy, Debug, PartialEq, Eq, Error)]
pub enum RunFault {
    /// Out of memory.
    #[error("no memory")]
    NoMemory,
    /// The first item in table order whose quantities get too large while those of no item above it
    /// do; by its place in the table.
    #[error("too large")]
    TooLarge { item: usize },
}

impl From<NoMemory> for RunFault {
    ghost use Rattle.std.specs.Prelude.{◌≡◌};
    ghost use Rattle.mrp_explode.specs.declared.fault.RunFault.TheVariants as fault;

    ghost from_gives = { λ _ given. given ≡ fault.NoMemory };

    fn from(_refused: NoMemory) -> RunFault {
        RunFault::NoMemory
    }
}
