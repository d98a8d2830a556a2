//! The columns of a table, its header, and how many records it may have.

ghost use Rattle.std.specs.Prelude.{◌≡◌, map};
ghost use Rattle.mrp_tables.specs.Versions.{item_columns};
ghost use Rattle.mrp_survey.specs.Headers.{are_columns, are_like_columns, can_be_read, columns_in, is_header, is_like, limit_of, table_columns};

use crate::form::{Form, cell_in};
use crate::known::trimmed;
use mrp_rows::{Record, Table};
use mrp_tables::Version;
use mrp_tables::limits::{
    MOST_CALENDAR_RECORDS, MOST_CENTRES, MOST_ITEMS, MOST_OPERATIONS, MOST_ROWS,
};

/// The most cells of a header that are looked at: as many as a spreadsheet has columns.
pub const HEADER_CELLS: usize = 16_384;

// The names of the columns of items.
fn item_columns(version: Version) -> &'static [&'static str]
    ensures { map (λ c. c.now) result.now ≡ item_columns version }
{
    match version {
        Version::One | Version::Two => &["item", "class", "lead", "scrap", "lot", "size", "safety"],
        Version::Three => &[
            "item", "class", "lead", "scrap", "lot", "size", "safety", "least", "step",
        ],
    }
}

/// The names of a table's columns in a version, in order.
pub fn column_names(table: Table, version: Version) -> &'static [&'static str]
    ensures { map (λ c. c.now) result.now ≡ table_columns version table }
{
    match table {
        Table::Calendar => &["key", "value"],
        Table::Items => item_columns(version),
        Table::Centres => &["centre", "minutes"],
        Table::Stock => &["item", "onhand"],
        Table::Receipts => &["item", "order", "date", "quantity"],
        Table::Bills => &["parent", "component", "per"],
        Table::Routings => &["item", "op", "centre", "setup", "run", "offset"],
        Table::Master => &["item", "row", "date", "quantity"],
        Table::Script => &["desk", "call", "item", "date", "quantity", "number"],
        Table::Bundle => &[],
    }
}

pub(crate) fn columns(form: Form) -> &'static [&'static str]
    ensures { map (λ c. c.now) result.now ≡ columns_in form }
{
    column_names(form.table, form.version)
}

// The most records of a table, if it has a limit.
pub(crate) fn most_records(form: Form) -> Option<usize>
    ensures { result ≡ limit_of form }
{
    match form.table {
        Table::Calendar => {
            let versions = if form.has_version { 1 } else { 0 };
            Some(MOST_CALENDAR_RECORDS as usize + versions)
        }
        Table::Items => Some(MOST_ITEMS as usize),
        Table::Centres => Some(MOST_CENTRES as usize),
        Table::Receipts | Table::Bills | Table::Master | Table::Script => Some(MOST_ROWS as usize),
        Table::Routings => Some(MOST_OPERATIONS as usize),
        Table::Stock | Table::Bundle => None,
    }
}

/// Whether a record's cells are these names, in order.
pub fn are_columns(row: &Record, names: &[&str]) -> bool
    ensures { result ≡ are_columns row.now (map (λ c. c.now) names.now) }
{
    if row.count() != names.len() || row.kept() != names.len() {
        return false;
    }
    for (column, name) in names.iter().enumerate() {
        if cell_in(row, column) != name.as_bytes() {
            return false;
        }
    }
    true
}

// Whether a record is the table's header.
pub(crate) fn is_header(form: Form, row: &Record) -> bool
    ensures { result ≡ is_header form row.now }
{
    are_columns(row, columns(form))
}

/// Whether a cell is a name, but for capitals and spaces at its ends.
pub fn is_like(cell: &[u8], name: &str) -> bool
    ensures { result ≡ is_like cell.now name.now }
{
    trimmed(cell).eq_ignore_ascii_case(name.as_bytes())
}

/// Whether a record's cells are these names, in order, but for capitals and spaces at their ends.
pub fn are_like(row: &Record, names: &[&str]) -> bool
    ensures { result ≡ are_like_columns row.now (map (λ c. c.now) names.now) }
{
    if row.count() != names.len() || row.kept() != names.len() {
        return false;
    }
    for (column, name) in names.iter().enumerate() {
        if !is_like(cell_in(row, column), name) {
            return false;
        }
    }
    true
}

// Whether the records below a header can be read.
pub(crate) fn can_be_read(form: Form, header: &Record) -> bool
    ensures { result ≡ can_be_read form header.now }
{
    are_like(header, columns(form))
}
