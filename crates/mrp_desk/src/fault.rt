//! Why an office was not opened.

use mrp_qty::NoMemory;
use thiserror::Error;

/// Why an office was not opened.
#[derive(Clone, Copy, Debug, PartialEq, Eq, Error)]
pub enum OfficeFault {
    /// The number of desks is 0 or over 64.
    #[error("not 1 to 64 desks")]
    Desks,
    /// An allocation failed.
    #[error("no memory")]
    NoMemory,
}

impl From<NoMemory> for OfficeFault {
    ghost use Rattle.std.specs.Prelude.{◌≡◌};
    ghost use Rattle.mrp_desk.specs.declared.fault.OfficeFault.TheVariants.{NoMemory};

    ghost from_gives = { λ _ e. e ≡ NoMemory };

    fn from(_refused: NoMemory) -> OfficeFault {
        OfficeFault::NoMemory
    }
}
