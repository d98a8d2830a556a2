//! The text of a record, as a day spells it.

ghost use Rattle.std.specs.Prelude.{◌≡◌, IfOk, IsTrue};
ghost use Rattle.csv.specs.Records.{fields_of};
ghost use Rattle.mrp_report.specs.page.Rows.{row};
ghost use Rattle.mrp_claims.specs.Reading.{ArePlain};

use crate::record::{LONGEST, cell_of};
use csv::{ByteRecord, WriterBuilder};
use mrp_qty::NoMemory;
use mrp_report::is_quoted_text;
use std::alloc::Global;

// Whether a record has more than one cell, none of them written between quotes.
fn is_plain(cells: &ByteRecord) -> bool
    ensures { IsTrue result → ArePlain (fields_of cells.now) }
{
    for column in 0..cells.len() {
        if is_quoted_text(cell_of(cells, column)) {
            return false;
        }
    }
    cells.len() > 1
}

// The text of such a record: its cells as they are, with commas between them.
fn plain_row(alloc: Global, cells: &ByteRecord) -> Result<Vec<u8>, NoMemory>
    requires { ArePlain (fields_of cells.now) }
    ensures { IfOk result (λ text. text.items ≡ row (fields_of cells.now)) }
{
    let mut text = Vec::with_capacity(alloc, LONGEST)?;
    text.extend_from_slice(cell_of(cells, 0))?;
    for column in 1..cells.len() {
        text.push(b',')?;
        text.extend_from_slice(cell_of(cells, column))?;
    }
    text.push(b'\n')?;
    Ok(text)
}

// The text of any record, made by a csv writer.
fn written_row(alloc: Global, cells: &ByteRecord) -> Result<Vec<u8>, NoMemory>
    ensures { IfOk result (λ text. text.items ≡ row (fields_of cells.now)) }
{
    let mut rows = WriterBuilder::new().from_writer(Vec::new(alloc));
    if rows.write_byte_record(cells).is_err() {
        return Err(NoMemory);
    }
    match rows.into_inner() {
        Ok(text) => Ok(text),
        Err(_) => Err(NoMemory),
    }
}

/// The text of a record as a day spells it. A csv writer is expensive to make, and most records have no
/// quotes.
pub(crate) fn text_of(alloc: Global, cells: &ByteRecord) -> Result<Vec<u8>, NoMemory>
    ensures { IfOk result (λ text. text.items ≡ row (fields_of cells.now)) }
{
    if is_plain(cells) {
        plain_row(alloc, cells)
    } else {
        written_row(alloc, cells)
    }
}
