//! Why a run has no report.

ghost use Rattle.std.specs.Prelude.{◌++◌, ◌∷◌, [], OnErr, OnOk};
ghost use Rattle.mrp_report.specs.Taken.{HasTakenAll};
ghost use Rattle.mrp_report.specs.Written.{HasGivenUp, HasTakenFront};
ghost use Rattle.mrp_rows.specs.declared.streams.TheConstants.{WRITE_TRIES};

use mrp_engine::DayFault;
use mrp_rows::{Name, Told, Tries, WRITE_TRIES, WriteFault, write_text};
use std::io::Write;

/// Why a run has no report.
#[derive(Clone, Copy, Debug, PartialEq, Eq)]
pub enum Refusal {
    /// The quantities of the item with this name get too large; it is the first in table order.
    TooLarge(Name),
    /// Out of memory for its plan or its report.
    NoMemory,
}

// Writes a text.
pub(crate) fn write_whole<W: Write>(writer: &mut Told<W>, text: &[u8]) -> Result<(), WriteFault>
    ensures whole { OnOk result (HasTakenAll W.contents writer.old writer.new text.now) }
    ensures front { OnErr result (HasTakenFront W.contents writer.old writer.new text.now) }
    ensures gave_up { OnErr result (HasGivenUp writer.old writer.new WRITE_TRIES) }
{
    write_text(writer, text, &mut Tries::new())
}

// Writes a line of two parts.
pub(crate) fn write_line<W: Write>(
    writer: &mut Told<W>,
    head: &[u8],
    rest: &[u8],
) -> Result<(), WriteFault>
    ensures whole { OnOk result (HasTakenAll W.contents writer.old writer.new (head.now ++ rest.now ++ 10 ∷ [])) }
    ensures front { OnErr result (HasTakenFront W.contents writer.old writer.new (head.now ++ rest.now ++ 10 ∷ [])) }
    ensures gave_up { OnErr result (HasGivenUp writer.old writer.new WRITE_TRIES) }
{
    write_whole(writer, head)?;
    write_whole(writer, rest)?;
    write_whole(writer, b"\n")
}

impl Refusal {
    ghost use Rattle.std.specs.Prelude.{◌≡◌, OnErr, OnOk};
    ghost use Rattle.mrp_report.specs.Taken.{HasTakenAll};
    ghost use Rattle.mrp_report.specs.Written.{HasGivenUp, HasTakenFront};
    ghost use Rattle.mrp_rows.specs.declared.streams.TheConstants.{WRITE_TRIES};
    ghost use Rattle.mrp_runs.specs.File.{refusal_of, refusal_text};

    // Why a run has no report, by why its day would be refused. A plan fails for no other reason.
    pub(crate) fn of(fault: DayFault) -> Refusal
        ensures { result ≡ refusal_of fault }
    {
        match fault {
            DayFault::TooLarge(name) => Refusal::TooLarge(name),
            _ => Refusal::NoMemory,
        }
    }

    // Writes the line that says why, as `too large: FRAME` or `no memory`.
    pub(crate) fn write<W: Write>(&self, writer: &mut Told<W>) -> Result<(), WriteFault>
        ensures whole { OnOk result (HasTakenAll W.contents writer.old writer.new (refusal_text self.now)) }
        ensures front { OnErr result (HasTakenFront W.contents writer.old writer.new (refusal_text self.now)) }
        ensures gave_up { OnErr result (HasGivenUp writer.old writer.new WRITE_TRIES) }
    {
        match self {
            Refusal::TooLarge(name) => write_line(writer, b"too large: ", name.as_bytes()),
            Refusal::NoMemory => write_line(writer, b"no memory", b""),
        }
    }
}
