//! Why a page was not made.

ghost use Rattle.std.specs.Prelude.{◌≡◌};
ghost use Rattle.csv.specs.Reading.{error_kind};
ghost use Rattle.mrp_page.specs.Reading.{stopped_as, told_as};

use csv::ErrorKind;
use mrp_qty::NoMemory;
use mrp_rows::WriteFault;
use thiserror::Error;

/// Why a page was not made, or not written whole.
#[derive(Clone, Copy, Debug, PartialEq, Eq, Error)]
pub enum PageFault {
    /// The text is no day.
    #[error("wrong: shape")]
    Shape,
    /// The day has fewer runs than the number asked for.
    #[error("no such run")]
    NoRun,
    /// The tables cannot be those that the day was planned from.
    #[error("wrong: tables")]
    Tables,
    /// Out of memory.
    #[error("no memory")]
    NoMemory,
    /// The reader failed.
    #[error("read failed")]
    Read,
    /// The writer failed, or was interrupted too often. A prefix of the page has been written.
    #[error("write failed")]
    Write,
}

impl From<NoMemory> for PageFault {
    ghost use Rattle.std.specs.Prelude.{◌≡◌};
    ghost use Rattle.mrp_page.specs.declared.fault.PageFault.TheVariants as fault;

    ghost from_gives = { λ _ given. given ≡ fault.NoMemory };

    fn from(_refused: NoMemory) -> PageFault {
        PageFault::NoMemory
    }
}

impl From<WriteFault> for PageFault {
    ghost use Rattle.std.specs.Prelude.{◌≡◌};
    ghost use Rattle.mrp_page.specs.declared.fault.PageFault.TheVariants as fault;

    ghost from_gives = { λ _ given. given ≡ fault.Write };

    fn from(_refused: WriteFault) -> PageFault {
        PageFault::Write
    }
}

// The fault for an error of the reader of records: `Read` if the input underneath stopped, otherwise
// `NoMemory`, the only other cause.
pub(crate) fn read_fault(error: &csv::Error, stopped: bool) -> PageFault
    ensures { result ≡ told_as (error_kind error.now) stopped }
{
    match error.kind() {
        ErrorKind::Io(_) if stopped => PageFault::Read,
        _ => PageFault::NoMemory,
    }
}

// The fault for an error of the input: `Read` if it stopped. No other error is known.
pub(crate) fn stopped_fault(stopped: bool) -> PageFault
    ensures { result ≡ stopped_as stopped }
{
    if stopped {
        PageFault::Read
    } else {
        PageFault::NoMemory
    }
}
