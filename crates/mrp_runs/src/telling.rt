//! What is told of runs.

ghost use Rattle.std.specs.Prelude.{◌≡◌, OnErr, OnOk};
ghost use Rattle.mrp_report.specs.Taken.{HasTakenAll};
ghost use Rattle.mrp_report.specs.Written.{HasGivenUp, HasTakenFront};
ghost use Rattle.mrp_rows.specs.declared.streams.TheConstants.{WRITE_TRIES};
ghost use Rattle.mrp_runs.specs.Notes.{note_text, rest_of};

use crate::fault::MakeFault;
use crate::refusal::{Refusal, write_line, write_whole};
use itoa::Buffer;
use mrp_rows::{Told, WRITE_TRIES, WriteFault};
use std::io::Write;

/// What is told of a run: nothing where its report stands in its file.
#[derive(Clone, Copy, Debug, PartialEq, Eq)]
pub enum Note {
    /// It has no report, for this reason.
    Refused(Refusal),
    /// Its file could not be written.
    Write,
}

impl Note {
    ghost use Rattle.std.specs.Prelude.{◌≡◌};
    ghost use Rattle.mrp_runs.specs.Notes.{note_of};

    /// What is told of a run, by what came of it.
    pub fn of<P>(made: &Result<Option<Refusal>, MakeFault<P>>) -> Option<Note>
        ensures { result ≡ note_of made.now }
    {
        match made {
            Ok(None) => None,
            Ok(Some(refusal)) => Some(Note::Refused(*refusal)),
            Err(MakeFault::NoMemory) => Some(Note::Refused(Refusal::NoMemory)),
            Err(_) => Some(Note::Write),
        }
    }
}

// Writes a note behind the number of its run.
fn write_note<W: Write>(note: Note, writer: &mut Told<W>) -> Result<(), WriteFault>
    ensures whole { OnOk result (HasTakenAll W.contents writer.old writer.new (rest_of note)) }
    ensures front { OnErr result (HasTakenFront W.contents writer.old writer.new (rest_of note)) }
    ensures gave_up { OnErr result (HasGivenUp writer.old writer.new WRITE_TRIES) }
{
    match note {
        Note::Refused(refusal) => refusal.write(writer),
        Note::Write => write_line(writer, b"write failed", b""),
    }
}

/// Tells of a run, by its number: `run 7: too large: FRAME`, `run 7: no memory` or `run 7: write failed`.
///
/// Errors: if a write failed. A prefix of the line has been written then.
pub fn tell_run<W: Write>(front: u64, note: Note, writer: &mut Told<W>) -> Result<(), WriteFault>
    ensures whole { OnOk result (HasTakenAll W.contents writer.old writer.new (note_text front note)) }
    ensures front { OnErr result (HasTakenFront W.contents writer.old writer.new (note_text front note)) }
    ensures gave_up { OnErr result (HasGivenUp writer.old writer.new WRITE_TRIES) }
{
    let mut digits = Buffer::new();
    write_whole(writer, b"run ")?;
    write_whole(writer, digits.format(front).as_bytes())?;
    write_whole(writer, b": ")?;
    write_note(note, writer)
}
