//! What is said of a record beside others.

ghost use Rattle.std.specs.Prelude.{◌≡◌, ◌++◌, OnOk, option_map, string_bytes};
ghost use Rattle.mrp_advice.specs.Rules.{like_words, of_item, once_words, outside_told, outside_words, overdue_words, own_words, range_words, receipt_range, repeated_words, side, unknown_words, within_told, within_words};

use crate::date::{ends_of, is_before, push_date};
use crate::sign::push_shown;
use crate::text::{push_number, push_of};
use mrp_cal::Calendar;
use mrp_rows::{Name, Record, Table};
use mrp_survey::cell_in;
use std::alloc::{AllocError, Global};

fn push_of_item(row: &Record, column: usize, text: &mut String) -> Result<(), AllocError>
    ensures { OnOk result (string_bytes text.new ≡ string_bytes text.old ++ of_item row.now column) }
{
    push_shown(cell_in(row, column), text)?;
    text.push_str(" of ")?;
    push_shown(cell_in(row, 0), text)
}

// Adds what a record has to itself.
fn push_own(table: Table, row: &Record, column: usize, text: &mut String) -> Result<(), AllocError>
    ensures { OnOk result (string_bytes text.new ≡ string_bytes text.old ++ own_words table row.now column) }
{
    match table {
        Table::Receipts | Table::Routings => push_of_item(row, column, text),
        _ => push_shown(cell_in(row, column), text),
    }
}

// Adds that an earlier record, in this line, has what a record has to itself.
pub(crate) fn push_repeated(
    table: Table,
    row: &Record,
    column: usize,
    line: u64,
    text: &mut String,
) -> Result<(), AllocError>
    ensures { OnOk result (string_bytes text.new ≡ string_bytes text.old ++ repeated_words table row.now column line) }
{
    push_own(table, row, column, text)?;
    text.push_str(" stands in line ")?;
    push_number(line, text)?;
    text.push_str(" already")
}

// What no two records of a table have.
pub(crate) fn once_words(table: Table) -> &'static str
    ensures { result.now ≡ once_words table }
{
    match table {
        Table::Items | Table::Stock => "each item once",
        Table::Centres => "each centre once",
        Table::Receipts => "each order of an item once",
        Table::Routings => "each operation of an item once",
        _ => "each row once",
    }
}

fn push_like(like: Option<&Name>, text: &mut String) -> Result<(), AllocError>
    ensures { OnOk result (string_bytes text.new ≡ string_bytes text.old ++ like_words (option_map (λ name. name.now) like.entry)) }
{
    match like {
        Some(name) => {
            text.push_str(", but ")?;
            push_shown(name.as_bytes(), text)?;
            text.push_str(" is")
        }
        None => Ok(()),
    }
}

// Adds that a name is not known, as this says, and the name that differs from it in capitals alone.
pub(crate) fn push_unknown(
    cell: &[u8],
    absent: &str,
    like: Option<&Name>,
    text: &mut String,
) -> Result<(), AllocError>
    ensures { OnOk result (string_bytes text.new ≡ string_bytes text.old ++ unknown_words cell.now absent.now (option_map (λ name. name.now) like.entry)) }
{
    push_shown(cell, text)?;
    text.push_str(absent)?;
    push_like(like, text)
}

fn side(before: bool) -> &'static str
    ensures { result.now ≡ side before }
{
    if before {
        " is before the horizon"
    } else {
        " is behind the horizon"
    }
}

// Adds where a date is that is outside the horizon.
pub(crate) fn push_outside(
    calendar: Option<&Calendar>,
    cell: &[u8],
    text: &mut String,
) -> Result<(), AllocError>
    ensures { OnOk result (string_bytes text.new ≡ string_bytes text.old ++ outside_told (option_map (λ c. c.now) calendar.entry) cell.now) }
{
    match calendar {
        Some(calendar) => push_of(cell, side(is_before(calendar, cell)), text),
        None => push_of(cell, " is outside the horizon", text),
    }
}

fn push_range(alloc: Global, calendar: &Calendar, text: &mut String) -> Result<(), AllocError>
    ensures { OnOk result (string_bytes text.new ≡ string_bytes text.old ++ range_words calendar.now) }
{
    let (first, last) = ends_of(calendar);
    push_date(alloc, first, text)?;
    text.push_str(" to ")?;
    push_date(alloc, last, text)
}

// Adds what an overdue receipt has for its date.
fn push_overdue(
    alloc: Global,
    calendar: &Calendar,
    before: bool,
    text: &mut String,
) -> Result<(), AllocError>
    ensures { OnOk result (string_bytes text.new ≡ string_bytes text.old ++ overdue_words calendar.now before) }
{
    if !before {
        return Ok(());
    }
    let (first, _) = ends_of(calendar);
    text.push_str(" (one that is overdue has ")?;
    push_date(alloc, first, text)?;
    text.push_str(")")
}

fn push_receipt_range(
    alloc: Global,
    calendar: &Calendar,
    cell: &[u8],
    text: &mut String,
) -> Result<(), AllocError>
    ensures { OnOk result (string_bytes text.new ≡ string_bytes text.old ++ receipt_range calendar.now cell.now) }
{
    push_range(alloc, calendar, text)?;
    push_overdue(alloc, calendar, is_before(calendar, cell), text)
}

// Adds the days of the horizon, in which a date of a table has to be.
pub(crate) fn push_within(
    alloc: Global,
    table: Table,
    calendar: Option<&Calendar>,
    cell: &[u8],
    text: &mut String,
) -> Result<(), AllocError>
    ensures { OnOk result (string_bytes text.new ≡ string_bytes text.old ++ within_told table (option_map (λ c. c.now) calendar.entry) cell.now) }
{
    match (table, calendar) {
        (_, None) => text.push_str("a date of the horizon"),
        (Table::Receipts, Some(calendar)) => push_receipt_range(alloc, calendar, cell, text),
        (_, Some(calendar)) => push_range(alloc, calendar, text),
    }
}
