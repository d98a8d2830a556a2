//! Why a report was not written whole.

use mrp_qty::NoMemory;
use mrp_rows::WriteFault;
use thiserror::Error;

/// Why a report was not written whole. A prefix of its text has been written.
#[derive(Clone, Copy, Debug, PartialEq, Eq, Error)]
pub enum ReportFault {
    /// The writer failed, or was interrupted too often.
    #[error("write failed")]
    Write,
    /// Out of memory.
    #[error("no memory")]
    NoMemory,
}

impl From<NoMemory> for ReportFault {
    ghost use Rattle.std.specs.Prelude.{◌≡◌};
    ghost use Rattle.mrp_report.specs.declared.fault.ReportFault.TheVariants as fault;

    ghost from_gives = { λ _ given. given ≡ fault.NoMemory };

    fn from(_refused: NoMemory) -> ReportFault {
        ReportFault::NoMemory
    }
}

impl From<WriteFault> for ReportFault {
    ghost use Rattle.std.specs.Prelude.{◌≡◌};
    ghost use Rattle.mrp_report.specs.declared.fault.ReportFault.TheVariants as fault;

    ghost from_gives = { λ _ given. given ≡ fault.Write };

    fn from(_refused: WriteFault) -> ReportFault {
        ReportFault::Write
    }
}
