//! Reading a day record by record.

ghost use Rattle.std.specs.Prelude.{◌≡◌, ◌≢◌, ◌||◌, ℕ, List, Err, IfErr, IfOk, OnOk, Some, false, true};
ghost use Rattle.csv.specs.Reading.{ReadRecord};
ghost use Rattle.csv.specs.Records.{fields_of};
ghost use Rattle.mrp_lines.specs.Left.{left_of};
ghost use Rattle.mrp_page.specs.Notes.{has_run, noted, noted_from, notes_of};
ghost use Rattle.mrp_page.specs.Reading.{HasNotFailed, HasRecords, HasStopped, HasWrongFront, HasWrongRecord, IsKeptOf, IsNoDay, IsReading, LacksRun, has_risen_by, is_reading_fault, is_write_fault};
ghost use Rattle.mrp_page.specs.Spot.{is_wrong, place_after};
ghost use Rattle.mrp_rows.specs.Told.{calls_of, failures_of, inner_of};

use crate::fault::{PageFault, read_fault, stopped_fault};
use crate::notes::Notes;
use crate::steady::Steady;
use csv::{ByteRecord, Reader, ReaderBuilder};
use mrp_lines::{Cells, Lines, Next};
use mrp_qty::NoMemory;
use mrp_rows::{READ_CALLS, Told};
use std::alloc::Global;
use std::io;
use std::io::Read;

// Reads the next record into the memory of the one before it; false at the end.
pub(crate) fn read_cells<R: Read>(
    reader: &mut Reader<R>,
    cells: &mut ByteRecord,
) -> Result<bool, csv::Error>
    requires { IsReading reader.old }
    ensures reads { IfOk result (λ found. ReadRecord R.remaining reader.old reader.new found (fields_of cells.new)) }
    ensures reading { OnOk result (IsReading reader.new) }
{
    match reader.read_byte_record(cells) {
        Ok(found) => Ok(found),
        Err(error) => Err(error),
    }
}

// Why nothing is kept of a text. A `csv::Error` is only ever made by `csv`.
#[derive(Drop)]
enum Unread {
    // No day begins with what was read.
    Shape,
    // Out of memory.
    NoMemory,
    // The input failed.
    Input,
    // The reader of records failed.
    Records(csv::Error),
}

impl From<NoMemory> for Unread {
    ghost use Rattle.std.specs.Prelude.{◌≡◌};
    ghost use Rattle.mrp_page.specs.declared.read.Unread.TheVariants as unread;

    ghost from_gives = { λ _ given. given ≡ unread.NoMemory };

    fn from(_refused: NoMemory) -> Unread {
        Unread::NoMemory
    }
}

impl From<io::Error> for Unread {
    ghost use Rattle.std.specs.Prelude.{◌≡◌};
    ghost use Rattle.mrp_page.specs.declared.read.Unread.TheVariants as unread;

    ghost from_gives = { λ _ given. given ≡ unread.Input };

    fn from(_error: io::Error) -> Unread {
        Unread::Input
    }
}

impl From<csv::Error> for Unread {
    ghost use Rattle.std.specs.Prelude.{◌≡◌};
    ghost use Rattle.mrp_page.specs.declared.read.Unread.TheVariants as unread;

    ghost from_gives = { λ error given. given ≡ unread.Records error };

    fn from(error: csv::Error) -> Unread {
        Unread::Records(error)
    }
}

// Takes a record, and keeps its row if the page has room for it.
//
// Errors: `Shape` if no day has the record there, `NoMemory`.
fn note_record<C: Cells>(
    notes: &mut Notes,
    items: &[&[u8]],
    asked: Option<u64>,
    cells: &C,
) -> Result<(), Unread>
    ensures noted { OnOk result (notes.new ≡ noted items.now asked notes.old (C.cells cells.now)) }
    ensures right { OnOk result (is_wrong notes.new.spot.place ≡ false) }
    ensures wrong { result ≡ Err Unread.Shape → is_wrong (place_after notes.old.spot.place (C.cells cells.now)) ≡ true }
{
    notes.note(items, asked, cells)?;
    if notes.spot().is_wrong() {
        return Err(Unread::Shape);
    }
    Ok(())
}

// Takes all records of an input that csv finds.
fn note_records<R: Read + Drop>(
    alloc: Global,
    input: R,
    notes: &mut Notes,
    items: &[&[u8]],
    asked: Option<u64>,
) -> Result<(), Unread>
    ensures noted { OnOk result ((text : List ℕ) → R.remaining input ≡ Some text → HasRecords text (λ records. notes.new ≡ noted_from items.now asked notes.old records)) }
    ensures right { OnOk result (is_wrong notes.old.spot.place ≡ false → is_wrong notes.new.spot.place ≡ false) }
    ensures wrong { result ≡ Err Unread.Shape → (text : List ℕ) → R.remaining input ≡ Some text → HasWrongRecord notes.old.spot.place text }
{
    let mut reader = ReaderBuilder::new()
        .has_headers(false)
        .flexible(true)
        .from_reader(alloc, input);
    let mut cells = ByteRecord::new(alloc);
    for _ in 0..u64::MAX {
        if !read_cells(&mut reader, &mut cells)? {
            return Ok(());
        }
        note_record(notes, items, asked, &cells)?;
    }
    // Not reached: no memory has room for so many records.
    Err(Unread::NoMemory)
}

// Takes all records of an input. Lines without quotes are taken as they are; csv reads others, in pieces,
// so that a reader of csv, which is dear to make, is made for many lines, and holds few. It finds a line
// feed in front of each piece but the first, which it skips, so that it finds no byte order mark there.
fn note_lines<R: Read>(
    alloc: Global,
    lines: &mut Lines<R>,
    notes: &mut Notes,
    items: &[&[u8]],
    asked: Option<u64>,
) -> Result<(), Unread>
    requires { is_wrong notes.old.spot.place ≡ false }
    ensures noted { OnOk result ((text : List ℕ) → left_of R.remaining lines.old ≡ Some text → HasRecords text (λ records. notes.new ≡ noted_from items.now asked notes.old records)) }
    ensures wrong { result ≡ Err Unread.Shape → (text : List ℕ) → left_of R.remaining lines.old ≡ Some text → HasWrongRecord notes.old.spot.place text }
{
    let mut front: &'static [u8] = b"";
    for _ in 0..u64::MAX {
        match lines.find()? {
            Next::Line(len) => {
                let line = lines.line(len);
                note_record(notes, items, asked, &line)?;
                lines.advance(len + 1);
            }
            Next::Lines(len) => {
                let piece = front.chain(lines.front(len));
                note_records(alloc, piece, notes, items, asked)?;
                lines.advance(len);
            }
            Next::Rest(len) => {
                let rest = front.chain(lines.front(len));
                return note_records(alloc, rest, notes, items, asked);
            }
            Next::Long => return Err(Unread::Shape),
        }
        front = b"\n";
    }
    // Not reached: no input has so many lines.
    Err(Unread::NoMemory)
}

// What is kept of the records of a text.
fn read_records<R: Read + Drop>(
    alloc: Global,
    input: R,
    items: &[&[u8]],
    asked: Option<u64>,
) -> Result<Notes, Unread>
    ensures noted { IfOk result (λ notes. (text : List ℕ) → R.remaining input ≡ Some text → HasRecords text (λ records. notes ≡ notes_of items.now asked records)) }
    ensures wrong { result ≡ Err Unread.Shape → (text : List ℕ) → R.remaining input ≡ Some text → HasWrongFront text }
{
    let mut lines = Lines::new(alloc, input)?;
    let mut notes = Notes::new(alloc);
    note_lines(alloc, &mut lines, &mut notes, items, asked)?;
    Ok(notes)
}

// Whether a count has risen by this number.
fn has_risen_by(count: u32, before: u64, after: u64) -> bool
    ensures { result ≡ has_risen_by count before after }
{
    before.saturating_add(u64::from(count)) <= after
}

// Whether an input has failed, or has taken all the calls that a day may take, since its counts
// were these.
fn has_stopped<R: Read>(input: &Told<R>, calls: u64, failures: u64) -> bool
    ensures { result ≡ (has_risen_by 1 failures (failures_of input.now) || has_risen_by READ_CALLS calls (calls_of input.now)) }
{
    has_risen_by(1, failures, input.failures()) || has_risen_by(READ_CALLS, calls, input.calls())
}

// What is kept of the remaining records of an input.
//
// Errors: `Shape` if no day begins with what was read, `Read` if the input failed or needed more
// calls, `NoMemory`.
fn read_notes<R: Read>(
    alloc: Global,
    input: &mut Told<R>,
    items: &[&[u8]],
    asked: Option<u64>,
) -> Result<Notes, PageFault>
    ensures noted { IfOk result (λ notes. (text : List ℕ) → R.remaining (inner_of input.old) ≡ Some text → HasRecords text (λ records. notes ≡ notes_of items.now asked records)) }
    ensures wrong { result ≡ Err PageFault.Shape → (text : List ℕ) → R.remaining (inner_of input.old) ≡ Some text → HasWrongFront text }
    ensures stopped { result ≡ Err PageFault.Read → HasStopped input.old input.new }
    ensures read { result ≢ Err PageFault.Read → HasNotFailed input.old input.new }
    ensures fault { IfErr result (λ fault. is_reading_fault fault ≡ true) }
{
    let calls = input.calls();
    let failures = input.failures();
    let steady = Steady {
        reader: &mut *input,
        calls_left: READ_CALLS,
    };
    let outcome = read_records(alloc, steady, items, asked);
    // A read that failed is reported as such, whatever the reader of records made of it.
    if failures < input.failures() {
        return Err(PageFault::Read);
    }
    match outcome {
        Ok(notes) => Ok(notes),
        Err(Unread::Shape) => Err(PageFault::Shape),
        Err(Unread::NoMemory) => Err(PageFault::NoMemory),
        Err(Unread::Input) => Err(stopped_fault(has_stopped(input, calls, failures))),
        Err(Unread::Records(error)) => {
            Err(read_fault(&error, has_stopped(input, calls, failures)))
        }
    }
}

// Whether the run asked for has begun. Each day has a last run.
fn has_run(asked: Option<u64>, runs: u64) -> bool
    ensures { result ≡ has_run asked runs }
{
    match asked {
        Some(number) => 1 <= number && number <= runs,
        None => true,
    }
}

// What is kept of a day.
//
// Errors: `Shape` if the text is no day, `NoRun` if it has fewer runs than the number asked for,
// `Read` and `NoMemory`.
pub(crate) fn read_day<R: Read>(
    alloc: Global,
    input: &mut Told<R>,
    items: &[&[u8]],
    asked: Option<u64>,
) -> Result<Notes, PageFault>
    ensures kept { IfOk result (λ notes. (text : List ℕ) → R.remaining (inner_of input.old) ≡ Some text → IsKeptOf items.now asked text notes) }
    ensures wrong { result ≡ Err PageFault.Shape → (text : List ℕ) → R.remaining (inner_of input.old) ≡ Some text → IsNoDay text }
    ensures run { result ≡ Err PageFault.NoRun → (text : List ℕ) → R.remaining (inner_of input.old) ≡ Some text → LacksRun items.now asked text }
    ensures stopped { result ≡ Err PageFault.Read → HasStopped input.old input.new }
    ensures read { result ≢ Err PageFault.Read → HasNotFailed input.old input.new }
    ensures fault { IfErr result (λ fault. is_write_fault fault ≡ false) }
    ensures tables { result ≢ Err PageFault.Tables }
{
    let notes = read_notes(alloc, input, items, asked)?;
    let spot = notes.spot();
    if !spot.is_end() {
        return Err(PageFault::Shape);
    }
    if !has_run(asked, spot.run) {
        return Err(PageFault::NoRun);
    }
    Ok(notes)
}
