//! What is said of a record as a whole.

ghost use Rattle.std.specs.Prelude.{◌≡◌, ◌++◌, OnOk, string_bytes};
ghost use Rattle.mrp_advice.specs.Records.{at_most_words, blank_words, cells_counted, columns_words, few_words, has_line_end, last_words, many_words, missing_words, quote_words, row_words, run_words, too_many_words, wanted_words};

use crate::expected::among_words;
use crate::header::push_commas;
use crate::sign::push_shown;
use crate::text::{push_counted, push_number};
use mrp_rows::{Record, is_line_end};
use mrp_survey::{Words, are_empty_from, cell_in};
use std::alloc::AllocError;

// Adds that records up to one that begins in this line have empty cells alone.
fn push_run(last: u64, text: &mut String) -> Result<(), AllocError>
    ensures { OnOk result (string_bytes text.new ≡ string_bytes text.old ++ run_words last) }
{
    text.push_str("empty cells alone, up to line ")?;
    push_number(last, text)
}

// Adds that records from one line to another have empty cells alone.
pub(crate) fn push_blank(first: u64, last: u64, text: &mut String) -> Result<(), AllocError>
    ensures { OnOk result (string_bytes text.new ≡ string_bytes text.old ++ blank_words first last) }
{
    if first == last {
        text.push_str("empty cells alone")
    } else {
        push_run(last, text)
    }
}

fn has_line_end(cell: &[u8]) -> bool
    ensures { result ≡ has_line_end cell.now }
{
    cell.iter().any(|byte| is_line_end(*byte))
}

// What is said of a quote that was left open.
fn quote_words(cell: &[u8]) -> &'static str
    ensures { result.now ≡ quote_words cell.now }
{
    if has_line_end(cell) {
        " (is a double quote not closed)"
    } else {
        ""
    }
}

fn push_last(cell: &[u8], text: &mut String) -> Result<(), AllocError>
    ensures { OnOk result (string_bytes text.new ≡ string_bytes text.old ++ last_words cell.now) }
{
    if cell.is_empty() {
        return text.push_str(", the last is empty");
    }
    text.push_str(", the last is ")?;
    push_shown(cell, text)?;
    text.push_str(quote_words(cell))
}

fn push_few(row: &Record, text: &mut String) -> Result<(), AllocError>
    ensures { OnOk result (string_bytes text.new ≡ string_bytes text.old ++ few_words row.now) }
{
    let count = row.count();
    push_counted(count as u64, "cell", text)?;
    push_last(cell_in(row, count.saturating_sub(1)), text)
}

fn push_many(row: &Record, wanted: usize, text: &mut String) -> Result<(), AllocError>
    ensures { OnOk result (string_bytes text.new ≡ string_bytes text.old ++ many_words wanted row.now) }
{
    let count = row.count();
    if are_empty_from(row, wanted) {
        return push_commas(count.saturating_sub(wanted), text);
    }
    push_counted(count as u64, "cell", text)?;
    text.push_str(" (one that has a comma stands in double quotes)")
}

// Adds that a record has another count of cells than is wanted.
pub(crate) fn push_columns(row: &Record, wanted: usize, text: &mut String) -> Result<(), AllocError>
    ensures { OnOk result (string_bytes text.new ≡ string_bytes text.old ++ columns_words wanted row.now) }
{
    if wanted < row.count() {
        push_many(row, wanted, text)
    } else {
        push_few(row, text)
    }
}

// Adds how many cells are wanted.
pub(crate) fn push_wanted(wanted: usize, text: &mut String) -> Result<(), AllocError>
    ensures { OnOk result (string_bytes text.new ≡ string_bytes text.old ++ wanted_words wanted) }
{
    push_number(wanted as u64, text)?;
    text.push_str(" cells")
}

// Adds that the record of this number is the first past the limit.
pub(crate) fn push_too_many(number: usize, text: &mut String) -> Result<(), AllocError>
    ensures { OnOk result (string_bytes text.new ≡ string_bytes text.old ++ too_many_words number) }
{
    text.push_str("this is row ")?;
    push_number(number as u64, text)
}

// Adds how many records there may be, one less than this.
pub(crate) fn push_at_most(number: usize, text: &mut String) -> Result<(), AllocError>
    ensures { OnOk result (string_bytes text.new ≡ string_bytes text.old ++ at_most_words number) }
{
    text.push_str("at most ")?;
    push_number(number.saturating_sub(1) as u64, text)?;
    text.push_str(" rows")
}

// Adds that the calendar's record with this key is missing.
pub(crate) fn push_missing(key: Words, text: &mut String) -> Result<(), AllocError>
    ensures { OnOk result (string_bytes text.new ≡ string_bytes text.old ++ missing_words key) }
{
    text.push_str("the row of ")?;
    text.push_str(among_words(key))?;
    text.push_str(" is missing")
}

// What that record has to be.
pub(crate) fn row_words(key: Words) -> &'static str
    ensures { result.now ≡ row_words key }
{
    match key {
        Words::Version => "version and 1 to 3",
        Words::Start => "start and a Monday",
        Words::Weeks => "weeks and 1 to 104",
        Words::Workdays => "workdays and seven of 0 and 1",
        Words::Holiday => "holiday and a date",
        Words::Classes | Words::LotRules | Words::RowKinds(_) | Words::Calls => among_words(key),
    }
}
