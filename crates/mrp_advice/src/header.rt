//! What is said of a table whose first record is not its header.

ghost use Rattle.std.specs.Prelude.{◌≡◌, ◌++◌, ◌==◌, OnOk, drop, map, string_bytes};
ghost use Rattle.std.specs.List.{list_all, list_any};
ghost use Rattle.mrp_survey.specs.Forms.{cell_in};
ghost use Rattle.mrp_advice.specs.Headers.{cause_of, cause_words, cells_cause, column_at, column_cause, commas_words, difference, differs_words, excess_words, first_other, has_alone, has_commas, has_like, header_words, in_place_words, is_header_of, is_of_other, is_shuffled, lacks_words, other_words, place_words, same_count, strange_words, tables, there_words};

use crate::sign::push_shown;
use crate::text::push_counted;
use itoa::Buffer;
use mrp_rows::{Record, Table};
use mrp_survey::{Front, are_columns, are_empty_from, are_like, cell_in, column_names, is_like};
use mrp_tables::Version;
use std::alloc::AllocError;

// Why a record is not its table's header.
#[derive(Clone, Copy)]
pub(crate) enum Cause {
    Utf16,
    Workbook,
    // There is no record.
    Empty,
    Semicolons,
    Tabs,
    // All cells are empty.
    Blank,
    // It is the header of another table.
    OtherTable(Table),
    // So many empty cells follow the columns.
    Commas(usize),
    // The columns stand in another order.
    Shuffled,
    // No cell is a column.
    Strange,
    // The cell at this place is the first that is not its column.
    Differs(usize),
    // The column at this place is missing.
    Lacks(usize),
    // The cell at this place stands behind all columns.
    Excess(usize),
}

const TABLES: [Table; 9] = [
    Table::Calendar,
    Table::Items,
    Table::Centres,
    Table::Stock,
    Table::Receipts,
    Table::Bills,
    Table::Routings,
    Table::Master,
    Table::Script,
];

fn has_alone(byte: u8, row: &Record) -> bool
    ensures { result ≡ has_alone byte row.now }
{
    row.count() == 1 && has_byte(cell_in(row, 0), byte)
}

fn has_byte(cell: &[u8], byte: u8) -> bool
    ensures { result ≡ list_any (λ b. b == byte) cell.now }
{
    cell.iter().any(|own| *own == byte)
}

fn is_header_of(row: &Record, table: Table) -> bool
    ensures { result ≡ is_header_of row.now table }
{
    are_columns(row, column_names(table, Version::One))
        || are_columns(row, column_names(table, Version::Three))
}

fn is_of_other(own: Table, row: &Record, table: Table) -> bool
    ensures { result ≡ is_of_other own row.now table }
{
    table.index() != own.index() && is_header_of(row, table)
}

// The first table but its own whose header a record is.
fn first_other(own: Table, row: &Record) -> Option<Table>
    ensures { result ≡ first_other own row.now tables }
{
    for table in &TABLES {
        if is_of_other(own, row, *table) {
            return Some(*table);
        }
    }
    None
}

// How many of the first cells are their columns.
fn same_count(row: &Record, columns: &[&str]) -> usize
    ensures { result ≡ same_count row.now.first (map (λ c. c.now) columns.now) }
{
    for (place, column) in columns.iter().enumerate() {
        if place == row.kept() || cell_in(row, place) != column.as_bytes() {
            return place;
        }
    }
    columns.len()
}

// Whether some cell of those that are looked at is a column, capitals and spaces at its ends put aside.
fn has_like(row: &Record, name: &str) -> bool
    ensures { result ≡ has_like row.now.first name.now }
{
    for column in 0..row.kept() {
        if is_like(cell_in(row, column), name) {
            return true;
        }
    }
    false
}

fn has_each(row: &Record, columns: &[&str]) -> bool
    ensures { result ≡ list_all (has_like row.now.first) (map (λ c. c.now) columns.now) }
{
    for column in columns {
        if !has_like(row, column) {
            return false;
        }
    }
    true
}

fn has_some(row: &Record, columns: &[&str]) -> bool
    ensures { result ≡ list_any (has_like row.now.first) (map (λ c. c.now) columns.now) }
{
    for column in columns {
        if has_like(row, column) {
            return true;
        }
    }
    false
}

fn is_shuffled(row: &Record, columns: &[&str]) -> bool
    ensures { result ≡ is_shuffled (map (λ c. c.now) columns.now) row.now }
{
    row.count() == columns.len() && has_each(row, columns) && !are_like(row, columns)
}

fn has_commas(row: &Record, columns: &[&str]) -> bool
    ensures { result ≡ has_commas (map (λ c. c.now) columns.now) row.now }
{
    same_count(row, columns) == columns.len() && are_empty_from(row, columns.len())
}

fn difference(row: &Record, columns: &[&str], place: usize) -> Cause
    ensures { result ≡ difference (map (λ c. c.now) columns.now) row.now place }
{
    if place == row.count() {
        Cause::Lacks(place)
    } else if place == columns.len() {
        Cause::Excess(place)
    } else {
        Cause::Differs(place)
    }
}

fn column_cause(row: &Record, columns: &[&str]) -> Cause
    ensures { result ≡ column_cause (map (λ c. c.now) columns.now) row.now }
{
    if has_commas(row, columns) {
        Cause::Commas(row.count().saturating_sub(columns.len()))
    } else if is_shuffled(row, columns) {
        Cause::Shuffled
    } else if !has_some(row, columns) {
        Cause::Strange
    } else {
        difference(row, columns, same_count(row, columns))
    }
}

fn cells_cause(own: Table, row: &Record, columns: &[&str]) -> Cause
    ensures { result ≡ cells_cause own (map (λ c. c.now) columns.now) row.now }
{
    if row.count() == 0 {
        return Cause::Empty;
    }
    if has_alone(b';', row) {
        return Cause::Semicolons;
    }
    if has_alone(b'\t', row) {
        return Cause::Tabs;
    }
    if are_empty_from(row, 0) {
        return Cause::Blank;
    }
    match first_other(own, row) {
        Some(table) => Cause::OtherTable(table),
        None => column_cause(row, columns),
    }
}

// Why a record is not the header of its table, by how the text begins and by its cells.
fn cause_of(own: Table, row: &Record, columns: &[&str], front: Front) -> Cause
    ensures { result ≡ cause_of own (map (λ c. c.now) columns.now) row.now front }
{
    match front {
        Front::Utf16 => Cause::Utf16,
        Front::Workbook => Cause::Workbook,
        Front::Other => cells_cause(own, row, columns),
    }
}

// A column, by its place from 0.
pub(crate) fn column_at<'a>(columns: &[&'a str], place: usize) -> &'a str
    ensures { result.now ≡ column_at (map (λ c. c.now) columns.now) place }
{
    match columns.get(place) {
        Some(column) => *column,
        None => "",
    }
}

// Adds a column's place, from 1.
fn push_place(place: usize, text: &mut String) -> Result<(), AllocError>
    ensures { OnOk result (string_bytes text.new ≡ string_bytes text.old ++ place_words place) }
{
    let mut digits = Buffer::new();
    text.push_str("column ")?;
    text.push_str(digits.format(place as u128 + 1))
}

// Adds what stands there.
fn push_there(row: &Record, place: usize, text: &mut String) -> Result<(), AllocError>
    ensures { OnOk result (string_bytes text.new ≡ string_bytes text.old ++ there_words row.now place) }
{
    push_place(place, text)?;
    text.push_str(" is ")?;
    push_shown(cell_in(row, place), text)
}

fn push_in_place(columns: &[&str], place: usize, text: &mut String) -> Result<(), AllocError>
    ensures { OnOk result (string_bytes text.new ≡ string_bytes text.old ++ in_place_words (map (λ c. c.now) columns.now) place) }
{
    text.push_str(" in place of '")?;
    text.push_str(column_at(columns, place))?;
    text.push_str("'")
}

fn push_differs(
    row: &Record,
    columns: &[&str],
    place: usize,
    text: &mut String,
) -> Result<(), AllocError>
    ensures { OnOk result (string_bytes text.new ≡ string_bytes text.old ++ differs_words (map (λ c. c.now) columns.now) row.now place) }
{
    push_there(row, place, text)?;
    push_in_place(columns, place, text)
}

fn push_excess(row: &Record, place: usize, text: &mut String) -> Result<(), AllocError>
    ensures { OnOk result (string_bytes text.new ≡ string_bytes text.old ++ excess_words row.now place) }
{
    push_there(row, place, text)?;
    text.push_str(", which is too many")
}

fn push_other(table: Table, text: &mut String) -> Result<(), AllocError>
    ensures { OnOk result (string_bytes text.new ≡ string_bytes text.old ++ other_words table) }
{
    text.push_str("these are the columns of ")?;
    text.push_str(table.name())?;
    text.push_str(".csv")
}

// Adds that a record has so many commas too many.
pub(crate) fn push_commas(count: usize, text: &mut String) -> Result<(), AllocError>
    ensures { OnOk result (string_bytes text.new ≡ string_bytes text.old ++ commas_words count) }
{
    push_counted(count as u64, "comma", text)?;
    text.push_str(" too many at the end")
}

fn push_strange(row: &Record, text: &mut String) -> Result<(), AllocError>
    ensures { OnOk result (string_bytes text.new ≡ string_bytes text.old ++ strange_words row.now) }
{
    text.push_str("no column's name is in this line, which begins with ")?;
    push_shown(cell_in(row, 0), text)
}

fn push_lacks(place: usize, text: &mut String) -> Result<(), AllocError>
    ensures { OnOk result (string_bytes text.new ≡ string_bytes text.old ++ lacks_words place) }
{
    push_place(place, text)?;
    text.push_str(" is missing")
}

fn push_cause(
    row: &Record,
    columns: &[&str],
    cause: Cause,
    text: &mut String,
) -> Result<(), AllocError>
    ensures { OnOk result (string_bytes text.new ≡ string_bytes text.old ++ cause_words (map (λ c. c.now) columns.now) row.now cause) }
{
    match cause {
        Cause::Utf16 => text.push_str("the file is UTF-16 (save it as CSV UTF-8)"),
        Cause::Workbook => text.push_str("the file is a workbook (save it as CSV UTF-8)"),
        Cause::Empty => text.push_str("the table is empty"),
        Cause::Semicolons => {
            text.push_str("semicolons stand between the cells (save it with commas)")
        }
        Cause::Tabs => text.push_str("tabs stand between the cells (save it with commas)"),
        Cause::Blank => text.push_str("this line has empty cells alone"),
        Cause::OtherTable(table) => push_other(table, text),
        Cause::Commas(count) => push_commas(count, text),
        Cause::Shuffled => text.push_str("the columns stand in another order"),
        Cause::Strange => push_strange(row, text),
        Cause::Differs(place) => push_differs(row, columns, place, text),
        Cause::Lacks(place) => push_lacks(place, text),
        Cause::Excess(place) => push_excess(row, place, text),
    }
}

// Adds what is said of a wrong header.
pub(crate) fn push_header(
    own: Table,
    row: &Record,
    columns: &[&str],
    front: Front,
    text: &mut String,
) -> Result<(), AllocError>
    ensures { OnOk result (string_bytes text.new ≡ string_bytes text.old ++ header_words own (map (λ c. c.now) columns.now) row.now front) }
{
    push_cause(row, columns, cause_of(own, row, columns, front), text)
}
