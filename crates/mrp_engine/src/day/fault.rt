//! Why a day was not written whole.

use mrp_qty::NoMemory;
use mrp_report::ReportFault;
use mrp_rows::{Fault, Name, ReadFault};
use mrp_script::OpenFault;
use std::alloc::{AllocError, AllocFailed};
use thiserror::Error;

/// Why a day was not written whole.
#[derive(Clone, Copy, Debug, PartialEq, Eq, Error)]
pub enum DayFault {
    /// The bundle has this fault, which is never out of memory. Nothing was written.
    #[error("refused")]
    Refused(Fault),
    /// In the first run that is refused, this is the first item in table order whose quantities get
    /// too large while those of no item above it do. Nothing was written.
    #[error("too large")]
    TooLarge(Name),
    /// The reader failed, or passed a limit. Nothing was written.
    #[error("read failed")]
    Read,
    /// The writer failed, or was interrupted too often. A prefix of the text has been written.
    #[error("write failed")]
    Write,
    /// Out of memory. Nothing, or a prefix of the text, has been written.
    #[error("no memory")]
    NoMemory,
}

impl From<NoMemory> for DayFault {
    ghost use Rattle.std.specs.Prelude.{◌≡◌};
    ghost use Rattle.mrp_engine.specs.declared.day.fault.DayFault.TheVariants as fault;

    ghost from_gives = { λ _ given. given ≡ fault.NoMemory };

    fn from(_refused: NoMemory) -> DayFault {
        DayFault::NoMemory
    }
}

impl From<AllocError> for DayFault {
    ghost use Rattle.std.specs.Prelude.{◌≡◌};
    ghost use Rattle.mrp_engine.specs.declared.day.fault.DayFault.TheVariants as fault;

    ghost from_gives = { λ _ given. given ≡ fault.NoMemory };

    fn from(_refused: AllocError) -> DayFault {
        DayFault::NoMemory
    }
}

impl<T: Drop> From<AllocFailed<T>> for DayFault {
    ghost use Rattle.std.specs.Prelude.{◌≡◌};
    ghost use Rattle.mrp_engine.specs.declared.day.fault.DayFault.TheVariants as fault;

    ghost from_gives = { λ _ given. given ≡ fault.NoMemory };

    fn from(_refused: AllocFailed<T>) -> DayFault {
        DayFault::NoMemory
    }
}

impl From<OpenFault> for DayFault {
    ghost use Rattle.std.specs.Prelude.{◌≡◌};
    ghost use Rattle.mrp_engine.specs.day.Fault.{opening_fault};

    ghost from_gives = { λ fault given. given ≡ opening_fault fault };

    fn from(fault: OpenFault) -> DayFault {
        match fault {
            OpenFault::Refused(fault) => DayFault::Refused(fault),
            OpenFault::NoMemory => DayFault::NoMemory,
        }
    }
}

impl From<ReadFault> for DayFault {
    ghost use Rattle.std.specs.Prelude.{◌≡◌};
    ghost use Rattle.mrp_engine.specs.day.Fault.{reading_fault};

    ghost from_gives = { λ fault given. given ≡ reading_fault fault };

    fn from(fault: ReadFault) -> DayFault {
        match fault {
            ReadFault::Read => DayFault::Read,
            ReadFault::NoMemory => DayFault::NoMemory,
        }
    }
}

impl From<ReportFault> for DayFault {
    ghost use Rattle.std.specs.Prelude.{◌≡◌};
    ghost use Rattle.mrp_engine.specs.day.Fault.{writing_fault};

    ghost from_gives = { λ fault given. given ≡ writing_fault fault };

    fn from(fault: ReportFault) -> DayFault {
        match fault {
            ReportFault::Write => DayFault::Write,
            ReportFault::NoMemory => DayFault::NoMemory,
        }
    }
}
