//! Why a text is not a right day of a bundle.

use mrp_qty::NoMemory;
use mrp_rows::Fault;
use mrp_script::OpenFault;
use std::alloc::AllocFailed;
use thiserror::Error;

/// Why a text is not a right day of a bundle, in the order in which faults are looked for.
#[derive(Clone, Copy, Debug, PartialEq, Eq, Error)]
pub enum AuditFault {
    /// The bundle has this fault, which is never out of memory.
    #[error("refused")]
    Input(Fault),
    /// The text does not begin with a history that is spelled as a day's.
    #[error("shape")]
    Shape,
    /// The entry with this number is the first whose reply is not the one that the entries before
    /// it decide.
    #[error("history {entry}")]
    HistoryNotLegal { entry: u64 },
    /// This desk is the least whose entries are not its script records in order.
    #[error("desk {desk}")]
    DeskRows { desk: u64 },
    /// The run with this number, counted from 1, is the first whose report is not what comes next
    /// in the text. One past the last run: bytes are left over after the last report.
    #[error("report {run}")]
    ReportDiffers { run: u64 },
    /// Out of memory; nothing was found out.
    #[error("no memory")]
    NoMemory,
}

impl From<OpenFault> for AuditFault {
    ghost use Rattle.std.specs.Prelude.{◌≡◌};
    ghost use Rattle.mrp_audit.specs.Input.{input_fault};

    ghost from_gives = { λ fault given. given ≡ input_fault fault };

    fn from(fault: OpenFault) -> AuditFault {
        match fault {
            OpenFault::Refused(fault) => AuditFault::Input(fault),
            OpenFault::NoMemory => AuditFault::NoMemory,
        }
    }
}

impl From<NoMemory> for AuditFault {
    ghost use Rattle.std.specs.Prelude.{◌≡◌};
    ghost use Rattle.mrp_audit.specs.declared.fault.AuditFault.TheVariants as fault;

    ghost from_gives = { λ _ given. given ≡ fault.NoMemory };

    fn from(_refused: NoMemory) -> AuditFault {
        AuditFault::NoMemory
    }
}

impl<T: Drop> From<AllocFailed<T>> for AuditFault {
    ghost use Rattle.std.specs.Prelude.{◌≡◌};
    ghost use Rattle.mrp_audit.specs.declared.fault.AuditFault.TheVariants as fault;

    ghost from_gives = { λ _ given. given ≡ fault.NoMemory };

    fn from(_refused: AllocFailed<T>) -> AuditFault {
        AuditFault::NoMemory
    }
}
