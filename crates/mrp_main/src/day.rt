//! Making a day, as the words of the command line ask.

ghost use Rattle.std.specs.Prelude.{◌≡◌, ◌≤◌, MatchResult, Ok, vec_len};
ghost use Rattle.std.specs.Int.{IsInRange};
ghost use Rattle.mrp_rows.specs.declared.streams.TheConstants.{GREATEST_BUNDLE};
ghost use Rattle.mrp_commands.specs.declared.ending.Ending.TheVariants as end;
ghost use Rattle.mrp_main.specs.Ends.{BundleEnds, DayEnds, FolderEnds, IsEndOf};
ghost use Rattle.mrp_words.specs.declared.day.DayCommand.TheVariants as day;

use mrp_commands::Ending;
use mrp_engine::{DayFault, MOST_WORKERS, live_bundle, live_day, run_bundle, run_day};
use mrp_rows::{Told, fault_text};
use mrp_words::{DayCommand, FileStore, read_folder};
use std::alloc::Global;
use std::io::{Read, Write};
use std::sync::Wait;
use std::thread::Threads;

// How it ended that a day was not written whole. The text of a fault takes memory.
fn end_of_fault(alloc: Global, fault: &DayFault) -> Ending
    ensures { IsEndOf fault.now result }
{
    match fault {
        DayFault::Refused(fault) => Ending::of_text(fault_text(alloc, fault)),
        DayFault::TooLarge(name) => Ending::TooLarge(*name),
        DayFault::Read => Ending::Read,
        DayFault::Write => Ending::Write,
        DayFault::NoMemory => Ending::NoMemory,
    }
}

// How making a day ended. The text of a fault takes memory.
fn end_of_day(alloc: Global, day: Result<(), DayFault>) -> Ending
    ensures { MatchResult day (λ _. result ≡ end.Done) (λ fault. IsEndOf fault result) }
{
    match day {
        Ok(()) => Ending::Done,
        Err(fault) => end_of_fault(alloc, &fault),
    }
}

// Plans the bundle on the input, with its script in row order.
fn plan_input<R: Read, W: Write>(
    rt: &(impl Alloc + Threads + Wait + Sync),
    alloc: Global,
    workers: usize,
    input: &mut Told<R>,
    output: &mut Told<W>,
) -> Ending
    requires workers { IsInRange 1 MOST_WORKERS workers }
    ensures { DayEnds day.Plan R.remaining W.contents input.old input.new output.old output.new result }
{
    let day = run_day(rt, alloc, input, output, workers);
    end_of_day(alloc, day)
}

// Makes a live day of the bundle on the input.
fn live_input<R: Read, W: Write>(
    rt: &(impl Alloc + Threads + Wait + Sync),
    alloc: Global,
    workers: usize,
    input: &mut Told<R>,
    output: &mut Told<W>,
) -> Ending
    requires workers { IsInRange 1 MOST_WORKERS workers }
    ensures { DayEnds day.Live R.remaining W.contents input.old input.new output.old output.new result }
{
    let day = live_day(rt, alloc, input, output, workers);
    end_of_day(alloc, day)
}

/// Makes a day of the bundle on the input, and returns how that ended.
pub(crate) fn make_day<R: Read, W: Write>(
    rt: &(impl Alloc + Threads + Wait + Sync),
    alloc: Global,
    command: DayCommand,
    workers: usize,
    input: &mut Told<R>,
    output: &mut Told<W>,
) -> Ending
    requires workers { IsInRange 1 MOST_WORKERS workers }
    ensures { DayEnds command R.remaining W.contents input.old input.new output.old output.new result }
{
    match command {
        DayCommand::Plan => plan_input(rt, alloc, workers, input, output),
        DayCommand::Live => live_input(rt, alloc, workers, input, output),
    }
}

// Makes a day of a bundle that was read.
fn make_day_of_bundle<W: Write>(
    rt: &(impl Alloc + Threads + Wait + Sync),
    alloc: Global,
    command: DayCommand,
    workers: usize,
    bundle: Vec<u8>,
    output: &mut Told<W>,
) -> Ending
    requires bundle { vec_len bundle ≤ GREATEST_BUNDLE }
    requires workers { IsInRange 1 MOST_WORKERS workers }
    ensures { BundleEnds command W.contents output.old output.new (Ok bundle.items) result }
{
    match command {
        DayCommand::Plan => end_of_day(alloc, run_bundle(rt, alloc, bundle, output, workers)),
        DayCommand::Live => end_of_day(alloc, live_bundle(rt, alloc, bundle, output, workers)),
    }
}

/// Makes a day of the bundle of a folder's files, and returns how that ended.
pub(crate) fn make_day_of_folder<F: FileStore, W: Write>(
    rt: &(impl Alloc + Threads + Wait + Sync),
    alloc: Global,
    files: &F,
    command: DayCommand,
    workers: usize,
    folder: &str,
    output: &mut Told<W>,
) -> Ending
    requires workers { IsInRange 1 MOST_WORKERS workers }
    ensures { FolderEnds command (F.known files.now) folder.now W.contents output.old output.new result }
{
    match read_folder(files, alloc, folder) {
        Ok(bundle) => make_day_of_bundle(rt, alloc, command, workers, bundle, output),
        Err(fault) => Ending::of_read(fault),
    }
}
