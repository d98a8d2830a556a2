//! Why a row cannot be made.

ghost use Rattle.std.specs.Prelude.{◌≡◌};
ghost use Rattle.mrp_phase.specs.declared.fault.PhaseFault.TheVariants.{NoMemory};

use std::alloc::{AllocError, AllocFailed};
use thiserror::Error;

/// Why a row over weeks could not be made, also one of an item's net requirements or receipts.
#[derive(Clone, Copy, Debug, PartialEq, Eq, Error)]
pub enum PhaseFault {
    /// A sum passes the greatest quantity.
    #[error("a sum over weeks is too large")]
    TooLarge,
    /// An allocation failed.
    #[error("no memory")]
    NoMemory,
}

impl From<mrp_qty::NoMemory> for PhaseFault {
    ghost from_gives = { λ _ e. e ≡ NoMemory };

    fn from(_refused: mrp_qty::NoMemory) -> PhaseFault {
        PhaseFault::NoMemory
    }
}

impl From<AllocError> for PhaseFault {
    ghost from_gives = { λ _ e. e ≡ NoMemory };

    fn from(_refused: AllocError) -> PhaseFault {
        PhaseFault::NoMemory
    }
}

impl<T: Drop> From<AllocFailed<T>> for PhaseFault {
    ghost from_gives = { λ _ e. e ≡ NoMemory };

    fn from(_refused: AllocFailed<T>) -> PhaseFault {
        PhaseFault::NoMemory
    }
}
