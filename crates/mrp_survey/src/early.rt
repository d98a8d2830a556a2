//! Whether a survey that is begun will probably tell of many faults.

use crate::begun::Begun;
use crate::finding::Place;
use crate::form::Form;
use crate::header::{HEADER_CELLS, can_be_read, columns};
use crate::record::Record;
use crate::rule::{Beside, look_up};
use crate::seen::Seen;
use crate::source::Source;
use crate::tell::tell_record;
use mrp_qty::NoMemory;
use mrp_rows::{Records, Table};
use mrp_tables::Version;
use std::alloc::Global;

// The tables that look at others.
const OTHERS: [Table; 6] = [
    Table::Stock,
    Table::Receipts,
    Table::Bills,
    Table::Routings,
    Table::Master,
    Table::Script,
];

// Whether a record would be told of as the first of its table.
fn is_told(
    alloc: Global,
    form: Form,
    beside: &Beside,
    file: Table,
    row: &mrp_rows::Record,
) -> Result<bool, NoMemory> {
    let place = Place {
        file,
        table: form.table,
        number: 1,
        line: 1,
    };
    let entry = Record::of(form, place, row);
    let named = look_up(&beside.items, &entry);
    let seen = Seen::new(alloc);
    let mut findings = Vec::new(alloc);
    tell_record(
        columns(form).len(),
        beside,
        &named,
        &seen,
        &entry,
        &mut findings,
    )?;
    Ok(!findings.is_empty())
}

// Whether a table's header cannot be read, or its first record is wrong.
fn begins_wrong(
    alloc: Global,
    form: Form,
    beside: &Beside,
    source: Source<'_>,
) -> Result<bool, NoMemory> {
    let mut records = Records::of(source.text);
    let mut row = mrp_rows::Record::new(alloc);
    if !records.next(HEADER_CELLS, &mut row)? || !can_be_read(form, &row) {
        return Ok(true);
    }
    if !records.next(columns(form).len(), &mut row)? {
        return Ok(false);
    }
    is_told(alloc, form, beside, source.file, &row)
}

// Whether a table begins wrong, where it has a text.
fn is_table_suspect(
    alloc: Global,
    sources: &[Option<Source<'_>>; 9],
    begun: &Begun,
    table: Table,
) -> Result<bool, NoMemory> {
    let form = Form {
        table,
        version: begun.version.unwrap_or(Version::One),
        has_version: false,
    };
    match sources.get(table.index()) {
        Some(Some(source)) => begins_wrong(alloc, form, &begun.beside, *source),
        _ => Ok(true),
    }
}

// Whether faults were told, or another table has no text or begins wrong. Then there are probably many faults, as where a column is
// of another kind. No contract says more of it: it decides only when the other tables are surveyed.
pub(crate) fn is_suspect(
    alloc: Global,
    sources: &[Option<Source<'_>>; 9],
    begun: &Begun,
) -> Result<bool, NoMemory> {
    if !begun.findings.is_empty() {
        return Ok(true);
    }
    for table in OTHERS {
        if is_table_suspect(alloc, sources, begun, table)? {
            return Ok(true);
        }
    }
    Ok(false)
}
