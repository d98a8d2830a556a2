//! Why no bookings were carried.

use jiff::civil::Date;
use mrp_qty::NoMemory;
use mrp_rows::Fault;
use mrp_script::OpenFault;
use thiserror::Error;

/// Why no bookings were carried.
#[derive(Clone, Copy, Debug, PartialEq, Eq, Error)]
pub enum CarryFault {
    /// The bundle has this fault, which is never out of memory.
    #[error("refused")]
    Refused(Fault),
    /// The start is no Monday of the horizon, whose first and last Monday are these.
    #[error("no such start")]
    NoSuchStart { first: Date, last: Date },
    /// Out of memory.
    #[error("no memory")]
    NoMemory,
}

impl From<OpenFault> for CarryFault {
    ghost use Rattle.std.specs.Prelude.{◌≡◌};
    ghost use Rattle.mrp_carry.specs.Carries.{opening_fault};

    ghost from_gives = { λ fault given. given ≡ opening_fault fault };

    fn from(fault: OpenFault) -> CarryFault {
        match fault {
            OpenFault::Refused(fault) => CarryFault::Refused(fault),
            OpenFault::NoMemory => CarryFault::NoMemory,
        }
    }
}

impl From<NoMemory> for CarryFault {
    ghost use Rattle.std.specs.Prelude.{◌≡◌};
    ghost use Rattle.mrp_carry.specs.declared.fault.CarryFault.TheVariants as fault;

    ghost from_gives = { λ _ given. given ≡ fault.NoMemory };

    fn from(_refused: NoMemory) -> CarryFault {
        CarryFault::NoMemory
    }
}
