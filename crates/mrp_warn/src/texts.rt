//! What the texts of accepted tables say that the tables do not keep.

ghost use Rattle.std.specs.Prelude.{◌≡◌, ◌<◌, ◌≤◌, IfOk, Ok, length, map};
ghost use Rattle.mrp_rows.specs.Bundle.{text_in};
ghost use Rattle.mrp_rows.specs.Columns.{layout_of, width};
ghost use Rattle.mrp_rows.specs.Left.{Left};
ghost use Rattle.mrp_rows.specs.Next.{GivesUnless, memory_fault, opened};
ghost use Rattle.mrp_tables.specs.Versions.{items_layout};
ghost use Rattle.mrp_warn.specs.Texts.{TakesWide, is_version, size_in, workdays_among};

use mrp_qty::{NoMemory, read_number};
use mrp_rows::{Cursor, Fault, Row, Sections, Table};
use mrp_tables::Tables;
use mrp_tables::limits::MOST_PIECES;
use std::alloc::Global;

// The records of the items.
fn item_records<'s>(
    alloc: Global,
    sections: &Sections<'s>,
    tables: &Tables,
) -> Result<Cursor<'s>, Fault>
    ensures { GivesUnless (memory_fault Table.Items 0) result (opened (items_layout tables.now.version) (text_in sections.now Table.Items)) }
{
    if tables.version() == 3 {
        Cursor::stepped_items(alloc, sections)
    } else {
        Cursor::new(alloc, sections, Table::Items)
    }
}

// The next record of a table that was read once, and so is refused for nothing but memory.
fn next_of(records: &mut Cursor<'_>) -> Result<Option<Row>, NoMemory>
    ensures { IfOk result (λ next. TakesWide records.old next records.new) }
{
    match records.next() {
        Ok(next) => Ok(next),
        Err(_) => Err(NoMemory),
    }
}

// The lot size in a record of the items.
fn size_in(row: &Row) -> u64
    requires { 5 < length row.now.cells }
    ensures { result ≡ size_in row.now.cells }
{
    read_number(row.cell(5), MOST_PIECES).unwrap_or(0)
}

// The lot sizes in the records that are left.
fn sizes_left(alloc: Global, records: &mut Cursor<'_>) -> Result<Vec<u64>, NoMemory>
    requires { 6 ≤ width records.old.layout }
    ensures { IfOk result (λ sizes. sizes.items ≡ map size_in records.old.left) }
{
    let mut sizes = Vec::new(alloc);
    while let Some(row) = next_of(records)? {
        sizes.push(size_in(&row))?;
        records.reuse(row);
    }
    Ok(sizes)
}

// The lot sizes in the records of the items.
pub(crate) fn lot_sizes(
    alloc: Global,
    sections: &Sections<'_>,
    tables: &Tables,
) -> Result<Vec<u64>, NoMemory>
    ensures { IfOk result (λ sizes. (all : Left) × (opened (items_layout tables.now.version) (text_in sections.now Table.Items) ≡ Ok all) × (sizes.items ≡ map size_in all.left)) }
{
    let Ok(mut records) = item_records(alloc, sections, tables) else {
        return Err(NoMemory);
    };
    sizes_left(alloc, &mut records)
}

// Whether a record is a calendar's version.
fn is_version(row: &Row) -> bool
    requires { 0 < length row.now.cells }
    ensures { result ≡ is_version row.now.cells }
{
    row.cell(0) == b"version".as_slice()
}

// The place of the workdays among the records that are left.
fn workdays_left(records: &mut Cursor<'_>) -> Result<usize, NoMemory>
    requires { 1 ≤ width records.old.layout }
    ensures { IfOk result (λ place. place ≡ workdays_among records.old.left) }
{
    match next_of(records)? {
        Some(row) if is_version(&row) => Ok(3),
        _ => Ok(2),
    }
}

// The place of the record of the workdays.
pub(crate) fn workdays_place(alloc: Global, sections: &Sections<'_>) -> Result<usize, NoMemory>
    ensures { IfOk result (λ place. (all : Left) × (opened (layout_of Table.Calendar) (text_in sections.now Table.Calendar) ≡ Ok all) × (place ≡ workdays_among all.left)) }
{
    let Ok(mut records) = Cursor::new(alloc, sections, Table::Calendar) else {
        return Err(NoMemory);
    };
    workdays_left(&mut records)
}
