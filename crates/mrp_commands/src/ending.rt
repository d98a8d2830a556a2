//! How a command ended.

ghost use Rattle.std.specs.Prelude.{◌≡◌, ◌++◌, ◌∷◌, [], OnOk, OnErr, MatchResult};
ghost use Rattle.mrp_report.specs.Written.{HasGivenUp, HasTakenFront};
ghost use Rattle.mrp_report.specs.Taken.{HasTakenAll};

use crate::status::Status;
use mrp_page::PageFault;
use mrp_qty::NoMemory;
use mrp_rows::{Name, ReadFault, Told, Tries, WRITE_TRIES, WriteFault, fault_text, write_text};
use mrp_script::OpenFault;
use std::alloc::Global;
use std::io::Write;

/// How a command ended, with what there is to say about it.
#[derive(Drop)]
pub enum Ending {
    /// The command succeeded.
    Done,
    /// Bookings were carried, but not all; this text says how many are not.
    LeftBehind(String),
    /// The bundle has a fault; this text names it.
    Refused(String),
    /// The quantities of the item with this name get too large.
    TooLarge(Name),
    /// The text is no day.
    WrongShape,
    /// The tables cannot be those of the day.
    WrongTables,
    /// Another order desk is open on the folder.
    InUse,
    /// The tables are others than those that the calls of the journal were answered from.
    TablesChanged,
    /// The day that was checked is wrong, or tables that were inspected have faults; the output says how.
    Wrong,
    /// The day has fewer runs than the number asked for.
    NoRun,
    /// Bookings cannot be carried from the day that was named; they can from the Mondays of this range.
    NoStart(String),
    /// The words are wrong; this text says how.
    Usage(String),
    /// Out of memory.
    NoMemory,
    /// The input failed, or passed a limit.
    Read,
    /// The output failed, or was interrupted too often.
    Write,
}

/// Writes a text.
///
/// Errors: if a write failed. A prefix of the text has been written then.
pub fn write_whole<E: Write>(errors: &mut Told<E>, text: &[u8]) -> Result<(), WriteFault>
    ensures whole { OnOk result (HasTakenAll E.contents errors.old errors.new text.now) }
    ensures front { OnErr result (HasTakenFront E.contents errors.old errors.new text.now) }
    ensures gave_up { OnErr result (HasGivenUp errors.old errors.new WRITE_TRIES) }
{
    write_text(errors, text, &mut Tries::new())
}

/// Writes a line of two parts.
///
/// Errors: if a write failed. A prefix of the line has been written then.
pub fn write_line<E: Write>(
    errors: &mut Told<E>,
    head: &[u8],
    rest: &[u8],
) -> Result<(), WriteFault>
    ensures whole { OnOk result (HasTakenAll E.contents errors.old errors.new (head.now ++ rest.now ++ 10 ∷ [])) }
    ensures front { OnErr result (HasTakenFront E.contents errors.old errors.new (head.now ++ rest.now ++ 10 ∷ [])) }
    ensures gave_up { OnErr result (HasGivenUp errors.old errors.new WRITE_TRIES) }
{
    write_whole(errors, head)?;
    write_whole(errors, rest)?;
    write_whole(errors, b"\n")
}

impl Ending {
    ghost use Rattle.std.specs.Prelude.{◌≡◌, MatchResult, OnOk, OnErr};
    ghost use Rattle.mrp_report.specs.Written.{HasGivenUp, HasTakenFront};
    ghost use Rattle.mrp_report.specs.Taken.{HasTakenAll};
    ghost use Rattle.mrp_commands.specs.Telling.{words_of};
    ghost use Rattle.mrp_commands.specs.PageEnds.{end_of};
    ghost use Rattle.mrp_commands.specs.Refusal.{TellsOpening, end_of_read};
    ghost use Rattle.mrp_commands.specs.Status.{status_of};

    /// How it ended that a bundle was refused: with the text of its fault, or out of memory for the text.
    pub fn of_text(text: Result<String, NoMemory>) -> Ending
        ensures { MatchResult text (λ t. result ≡ Ending.Refused t) (λ _. result ≡ Ending.NoMemory) }
    {
        match text {
            Ok(text) => Ending::Refused(text),
            Err(NoMemory) => Ending::NoMemory,
        }
    }

    /// How it ended that the shop of a bundle was not opened. The text of a fault takes memory.
    pub fn of_open(alloc: Global, fault: &OpenFault) -> Ending
        ensures { TellsOpening fault.now result }
    {
        match fault {
            OpenFault::Refused(fault) => Ending::of_text(fault_text(alloc, fault)),
            OpenFault::NoMemory => Ending::NoMemory,
        }
    }

    /// How a read that failed ended.
    pub fn of_read(fault: ReadFault) -> Ending
        ensures { result ≡ end_of_read fault }
    {
        match fault {
            ReadFault::Read => Ending::Read,
            ReadFault::NoMemory => Ending::NoMemory,
        }
    }

    // How making a page ended.
    pub(crate) fn of_page(page: Result<(), PageFault>) -> Ending
        ensures { MatchResult page (λ _. result ≡ Ending.Done) (λ fault. result ≡ end_of fault) }
    {
        match page {
            Ok(()) => Ending::Done,
            Err(PageFault::Shape) => Ending::WrongShape,
            Err(PageFault::Tables) => Ending::WrongTables,
            Err(PageFault::NoRun) => Ending::NoRun,
            Err(PageFault::NoMemory) => Ending::NoMemory,
            Err(PageFault::Read) => Ending::Read,
            Err(PageFault::Write) => Ending::Write,
        }
    }

    /// The exit status.
    pub fn status(&self) -> Status
        ensures { result ≡ status_of self.now }
    {
        match self {
            Ending::Done | Ending::LeftBehind(_) => Status::Done,
            Ending::Refused(_) | Ending::TooLarge(_) => Status::Refused,
            Ending::WrongShape | Ending::WrongTables | Ending::Wrong => Status::Refused,
            Ending::TablesChanged => Status::Refused,
            Ending::NoRun => Status::Usage,
            Ending::NoStart(_) => Status::Usage,
            Ending::Usage(_) => Status::Usage,
            Ending::NoMemory => Status::NoMemory,
            Ending::InUse | Ending::Read | Ending::Write => Status::Stream,
        }
    }

    /// Writes to the error stream how the command ended: nothing if it succeeded, or if the output says it; but how many
    /// bookings were not carried.
    ///
    /// Errors: if a write failed. A prefix of the line has been written then.
    pub fn tell<E: Write>(&self, errors: &mut Told<E>) -> Result<(), WriteFault>
        ensures whole { OnOk result (HasTakenAll E.contents errors.old errors.new (words_of self.now)) }
        ensures front { OnErr result (HasTakenFront E.contents errors.old errors.new (words_of self.now)) }
        ensures gave_up { OnErr result (HasGivenUp errors.old errors.new WRITE_TRIES) }
    {
        match self {
            Ending::Done | Ending::Wrong => Ok(()),
            Ending::LeftBehind(text) => write_line(errors, text.as_bytes(), b""),
            Ending::Refused(text) => write_line(errors, b"refused: ", text.as_bytes()),
            Ending::TooLarge(name) => write_line(errors, b"too large: ", name.as_bytes()),
            Ending::WrongShape => write_line(errors, b"wrong: shape", b""),
            Ending::WrongTables => write_line(errors, b"wrong: tables", b""),
            Ending::InUse => write_line(errors, b"in use", b""),
            Ending::TablesChanged => write_line(errors, b"tables changed", b""),
            Ending::NoRun => write_line(errors, b"no such run", b""),
            Ending::NoStart(range) => write_line(
                errors,
                b"no such start: expected a Monday from ",
                range.as_bytes(),
            ),
            Ending::Usage(text) => write_whole(errors, text.as_bytes()),
            Ending::NoMemory => write_line(errors, b"no memory", b""),
            Ending::Read => write_line(errors, b"read failed", b""),
            Ending::Write => write_line(errors, b"write failed", b""),
        }
    }
}
