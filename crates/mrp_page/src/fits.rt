//! Whether tables can be those of a day, by what is kept of it.

ghost use Rattle.std.specs.Prelude.{◌≡◌, ◌<◌, length, map};
ghost use Rattle.std.specs.List.{list_all, range_with_len};
ghost use Rattle.std.specs.Option.{option_copied};
ghost use Rattle.mrp_page.specs.Fits.{are_all, begins_at, fits, has_item, is_same, known_if, numbers_of, shape_of, weeks_of};

use crate::amounts::amount;
use crate::frame::last_week;
use crate::notes::Notes;
use crate::row::Row;
use crate::rows::rows_in;
use crate::summary::count_with;
use crate::template::has_word;
use mrp_day::Section;
use mrp_facts::{DayShape, Facts};

// Whether two pegs have the same item, and the same texts in two columns.
fn is_same(kind: usize, number: usize, peg: &Row, other: &Row) -> bool
    ensures { result ≡ is_same kind number peg.now other.now }
{
    other.is_of(peg.name())
        && has_word(kind, peg.cell(kind), other)
        && has_word(number, peg.cell(number), other)
}

// Whether a peg has a word in a column, and is of another supply or requirement than the peg before it.
fn begins_at(pegs: &[Row], kind: usize, word: &[u8], number: usize, place: usize) -> bool
    requires { place < length pegs.now }
    ensures { result ≡ begins_at pegs.now kind word.now number place }
{
    has_word(kind, word, &pegs[place])
        && (place == 0 || !is_same(kind, number, &pegs[place - 1], &pegs[place]))
}

// How many supplies or requirements with a word have pegs, whose pegs stand together.
fn numbers_of(pegs: &[Row], kind: usize, word: &[u8], number: usize) -> usize
    ensures { result ≡ numbers_of pegs.now kind word.now number }
{
    let mut count = 0;
    for place in 0..pegs.len() {
        count += usize::from(begins_at(pegs, kind, word, number, place));
    }
    count
}

// A count, if it is known.
fn known_if(known: bool, count: u64) -> Option<u64>
    ensures { result ≡ known_if known count }
{
    if known { Some(count) } else { None }
}

// The weeks of a report, if it has a plan or loads.
fn weeks_of(report: &[Row]) -> Option<u64>
    ensures { result ≡ weeks_of report.now }
{
    let some = !rows_in(report, Section::Plan).is_empty()
        || !rows_in(report, Section::Loads).is_empty();
    known_if(some, amount(last_week(report)))
}

// Whether all rows of a section are kept, given whether those of all items are asked for.
fn are_all(all: bool, missed: u64) -> bool
    ensures { result ≡ are_all all missed }
{
    all && missed == 0
}

// What is known of a day's tables by what is kept of it, given whether that is of all items.
fn shape_of(all: bool, notes: &Notes) -> DayShape
    ensures { result ≡ shape_of all notes.now }
{
    let report = notes.report();
    let counts = notes.counts();
    let orders = rows_in(report, Section::Orders);
    let pegs = rows_in(report, Section::Pegs);
    let ordered = are_all(all, counts.orders);
    let pegged = are_all(all, counts.pegs);
    let receipts = numbers_of(pegs, 6, b"open", 7);
    let services = numbers_of(pegs, 2, b"service", 3);
    DayShape {
        items: known_if(all, counts.items),
        weeks: weeks_of(report),
        firm_rows: known_if(ordered, count_with(2, b"firm", orders) as u64),
        receipts: known_if(pegged, receipts as u64),
        service_rows: known_if(pegged, services as u64),
    }
}

// Whether the tables have the item of a row.
fn has_item(facts: &Facts<'_>, row: &Row) -> bool
    ensures { result ≡ has_item facts.now row.now }
{
    facts.item(row.name()).is_some()
}

// Whether the tables have the items of rows.
fn has_items(facts: &Facts<'_>, rows: &[Row]) -> bool
    ensures { result ≡ list_all (has_item facts.now) rows.now }
{
    rows.iter().all(|row| has_item(facts, row))
}

// Whether tables can be those of a day of which this is kept; without tables nothing speaks against it.
pub(crate) fn fits(tables: Option<&Facts<'_>>, items: &[&[u8]], notes: &Notes) -> bool
    ensures { result ≡ fits (option_copied tables.entry) items.now notes.now }
{
    match tables {
        Some(facts) => {
            facts.can_be_of(&shape_of(items.is_empty(), notes))
                && has_items(facts, rows_in(notes.report(), Section::Plan))
        }
        None => true,
    }
}
