//! Carrying bookings, as the words of the command line ask.

ghost use Rattle.std.specs.Prelude.{◌≡◌, ◌++◌, IfOk, codes, decimal, option_map, string_bytes};
ghost use Rattle.mrp_commands.specs.CarryEnds.{CarryEnds, CarryEndsBy, IsEndBehind, TellsCarried, TellsRefusal, TellsStart, WritesCarried, form_of, left_behind_text};

use crate::ending::{Ending, write_whole};
use jiff::civil::Date;
use mrp_carry::{Carried, CarryFault, CarryForm, carry};
use mrp_qty::NoMemory;
use mrp_rows::{Told, fault_text};
use mrp_words::{CarryWords, FileStore, read_folder};
use std::alloc::Global;
use std::io::Write;
use std::thread::Threads;

// The form that is asked for.
fn form_of(numbers: bool) -> CarryForm
    ensures { result ≡ form_of numbers }
{
    if numbers {
        CarryForm::Numbers
    } else {
        CarryForm::Script
    }
}

// What is said of a booking that is not carried.
fn one_left(alloc: Global, start: &str) -> Result<String, NoMemory>
    ensures { IfOk result (λ text. string_bytes text ≡ codes "1 standing booking was due before " ++ start.now ++ codes " and is not carried") }
{
    Ok(format!(in alloc; "1 standing booking was due before {start} and is not carried")?)
}

// What is said of several bookings that are not carried.
fn many_left(alloc: Global, count: usize, start: &str) -> Result<String, NoMemory>
    ensures { IfOk result (λ text. string_bytes text ≡ decimal count ++ codes " standing bookings were due before " ++ start.now ++ codes " and are not carried") }
{
    Ok(format!(in alloc; "{count} standing bookings were due before {start} and are not carried")?)
}

// What is said of bookings that are not carried.
fn left_behind_text(alloc: Global, count: usize, start: &str) -> Result<String, NoMemory>
    ensures { IfOk result (λ text. string_bytes text ≡ left_behind_text count start.now) }
{
    if count == 1 {
        one_left(alloc, start)
    } else {
        many_left(alloc, count, start)
    }
}

// How a command ends that has written what is carried, by how many bookings are not.
fn end_behind(alloc: Global, count: usize, start: &str) -> Result<Ending, NoMemory>
    ensures { IfOk result (IsEndBehind count start.now) }
{
    if count == 0 {
        return Ok(Ending::Done);
    }
    Ok(Ending::LeftBehind(left_behind_text(alloc, count, start)?))
}

// Writes what is carried.
fn write_carried<W: Write>(
    alloc: Global,
    carried: &Carried,
    start: &str,
    output: &mut Told<W>,
) -> Ending
    ensures { WritesCarried W.contents output.old output.new carried.now.text.items (IsEndBehind carried.now.left_behind start.now) result }
{
    let Ok(end) = end_behind(alloc, carried.left_behind, start) else {
        return Ending::NoMemory;
    };
    match write_whole(output, &carried.text) {
        Ok(()) => end,
        Err(_) => Ending::Write,
    }
}

// A start is refused. The text of the days on which a period may start takes memory.
fn no_start(alloc: Global, first: Date, last: Date) -> Ending
    ensures { TellsStart first last result }
{
    match format!(in alloc; "{first} to {last}") {
        Ok(range) => Ending::NoStart(range),
        Err(_) => Ending::NoMemory,
    }
}

// Why nothing is carried. The text of a fault takes memory.
fn refusal(alloc: Global, fault: &CarryFault) -> Ending
    ensures { TellsRefusal fault.now result }
{
    match fault {
        CarryFault::Refused(fault) => Ending::of_text(fault_text(alloc, fault)),
        CarryFault::NoSuchStart { first, last } => no_start(alloc, *first, *last),
        CarryFault::NoMemory => Ending::NoMemory,
    }
}

// Writes what is carried, or tells why nothing is.
fn tell_carried<W: Write>(
    alloc: Global,
    carried: &Result<Carried, CarryFault>,
    start: &str,
    output: &mut Told<W>,
) -> Ending
    ensures { TellsCarried W.contents output.old output.new start.now carried.now result }
{
    match carried {
        Ok(carried) => write_carried(alloc, carried, start, output),
        Err(fault) => refusal(alloc, fault),
    }
}

// Carries the bookings of a folder's files.
fn carry_folder<F: FileStore, W: Write>(
    rt: &impl Threads,
    alloc: Global,
    files: &F,
    folder: &str,
    start: &str,
    form: CarryForm,
    output: &mut Told<W>,
) -> Ending
    ensures { CarryEnds (F.known files.now) folder.now start.now form W.contents output.old output.new result }
{
    match read_folder(files, alloc, folder) {
        Ok(bundle) => {
            let carried = carry(rt, alloc, bundle.as_slice(), start.as_bytes(), form);
            tell_carried(alloc, &carried, start, output)
        }
        Err(fault) => Ending::of_read(fault),
    }
}

/// Carries the bookings of a folder's files into the next period, writes them to the output, and
/// returns how that ended.
pub fn carry_asked<F: FileStore, W: Write>(
    rt: &impl Threads,
    alloc: Global,
    files: &F,
    words: &CarryWords,
    output: &mut Told<W>,
) -> Ending
    ensures { CarryEndsBy (F.known files.now) words.now W.contents output.old output.new result }
{
    let Some(folder) = &words.folder else {
        return Ending::Usage(String::new(alloc));
    };
    let Some(start) = &words.start else {
        return Ending::Usage(String::new(alloc));
    };
    let form = form_of(words.numbers);
    carry_folder(rt, alloc, files, folder, start, form, output)
}
