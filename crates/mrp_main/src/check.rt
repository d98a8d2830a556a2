//! Checking a day, as the words of the command line ask.

ghost use Rattle.std.specs.Prelude.{◌++◌, ◌∷◌, [], decimal};
ghost use Rattle.std.specs.Result.{result_map_both};
ghost use Rattle.mrp_main.specs.CheckEnds.{AreRead, CheckEnds, TellsAudit, TellsFound};
ghost use Rattle.mrp_commands.specs.Telling.{Says};
ghost use Rattle.mrp_commands.specs.declared.ending.Ending.TheVariants as end;

use itoa::Buffer;
use mrp_audit::{AuditFault, check};
use mrp_commands::{Ending, write_line};
use mrp_rows::{READ_CALLS, ReadFault, Told, fault_text, read_within};
use mrp_words::{FileStore, read_folder};
use std::alloc::Global;
use std::io::{Read, Write};
use std::thread::Threads;

// The bundle of a folder's files, and then everything that an input has left, of any length.
fn read_both<F: FileStore, R: Read>(
    files: &F,
    alloc: Global,
    folder: &str,
    input: &mut Told<R>,
) -> Result<(Vec<u8>, Vec<u8>), ReadFault>
    ensures { AreRead (F.known files.now) folder.now R.remaining input.old input.new (result_map_both (λ both. (both.0.items, both.1.items)) (λ fault. fault) result) }
{
    let bundle = read_folder(files, alloc, folder)?;
    let day = read_within(alloc, input, usize::MAX, READ_CALLS)?;
    Ok((bundle, day))
}

// Writes a line of two parts to the output. A check that has written it has this ending.
fn say<W: Write>(head: &[u8], rest: &[u8], end: Ending, output: &mut Told<W>) -> Ending
    ensures { Says W.contents output.old output.new (head.now ++ rest.now ++ 10 ∷ []) end result }
{
    match write_line(output, head, rest) {
        Ok(()) => end,
        Err(_) => Ending::Write,
    }
}

// Writes that a day is wrong, and at which entry, desk or run.
fn say_at<W: Write>(head: &[u8], number: u64, output: &mut Told<W>) -> Ending
    ensures { Says W.contents output.old output.new (head.now ++ decimal number ++ 10 ∷ []) end.Wrong result }
{
    let mut digits = Buffer::new();
    let number = digits.format(number).as_bytes();
    say(head, number, Ending::Wrong, output)
}

// Reports why a day was not found right: what is wrong with it, on the output; or, as the ending, that its
// bundle was refused or that memory ran out.
fn tell_fault<W: Write>(alloc: Global, fault: AuditFault, output: &mut Told<W>) -> Ending
    ensures { TellsAudit W.contents output.old output.new fault result }
{
    match fault {
        AuditFault::Input(fault) => Ending::of_text(fault_text(alloc, &fault)),
        AuditFault::Shape => say(b"wrong: shape", b"", Ending::Wrong, output),
        AuditFault::HistoryNotLegal { entry } => say_at(b"wrong: history ", entry, output),
        AuditFault::DeskRows { desk } => say_at(b"wrong: desk ", desk, output),
        AuditFault::ReportDiffers { run } => say_at(b"wrong: report ", run, output),
        AuditFault::NoMemory => Ending::NoMemory,
    }
}

// Reports what a check found.
fn tell_found<W: Write>(
    alloc: Global,
    found: Result<(), AuditFault>,
    output: &mut Told<W>,
) -> Ending
    ensures { TellsFound W.contents output.old output.new found result }
{
    match found {
        Ok(()) => say(b"right", b"", Ending::Done, output),
        Err(fault) => tell_fault(alloc, fault, output),
    }
}

/// Checks the day that an input has left against the bundle of a folder's files, writes to the
/// output what was found, and returns how that ended.
pub(crate) fn check_day<F: FileStore, R: Read, W: Write>(
    rt: &(impl Alloc + Threads + Sync),
    alloc: Global,
    files: &F,
    folder: &str,
    input: &mut Told<R>,
    output: &mut Told<W>,
) -> Ending
    ensures { CheckEnds (F.known files.now) folder.now R.remaining W.contents input.old input.new output.old output.new result }
{
    match read_both(files, alloc, folder, input) {
        Ok((bundle, day)) => {
            let found = check(rt, alloc, bundle.as_slice(), day.as_slice());
            tell_found(alloc, found, output)
        }
        Err(fault) => Ending::of_read(fault),
    }
}
