//! A text's only record.

ghost use Rattle.std.specs.Prelude.{◌≡◌, ◌==◌, [], IfOk, length, not};
ghost use Rattle.csv.specs.declared.parser.State.TheVariants as st;
ghost use Rattle.mrp_rows.specs.Only.{only_of};
ghost use Rattle.mrp_rows.specs.Records.{records_in, records_of};

use crate::bundle::after_mark;
use crate::cell_texts::CellTexts;
use crate::column::columns;
use crate::cutting::first_record;
use crate::fault::Table;
use crate::row::Row;
use mrp_qty::NoMemory;
use std::alloc::Global;

// Whether a text has a record.
fn has_record(alloc: Global, text: &[u8]) -> Result<bool, NoMemory>
    ensures { IfOk result (λ some. some ≡ not (length (records_in st.StartRecord [] [] text.now) == 0)) }
{
    match first_record(alloc, text, 0, None) {
        Ok(Some(_)) => Ok(true),
        Ok(None) => Ok(false),
        Err(refused) => Err(refused),
    }
}

// The memory of a record that was given back.
fn texts_of(spare: Option<Row>) -> Option<CellTexts> {
    match spare {
        Some(row) => Some(row.into_cells()),
        None => None,
    }
}

/// The only record of a text as a record of a table, with its number, as csv reads it: of one line, for
/// example. `None` if the text has none or more, or if the record has not exactly the table's columns. A byte
/// order mark in front is not part of it, and line ends around it are none. A spare record's memory is reused.
///
/// Errors: `NoMemory` if an allocation fails.
pub fn only_row(
    alloc: Global,
    text: &[u8],
    table: Table,
    number: u32,
    spare: Option<Row>,
) -> Result<Option<Row>, NoMemory>
    ensures { IfOk result (λ row. row ≡ only_of table number (records_of text.now)) }
{
    let width = columns(table).len();
    let cut = match first_record(alloc, after_mark(text), width, texts_of(spare)) {
        Ok(Some(cut)) => cut,
        Ok(None) => return Ok(None),
        Err(refused) => return Err(refused),
    };
    if cut.count != width || has_record(alloc, cut.rest)? {
        return Ok(None);
    }
    Ok(Some(Row::new(table, number, cut.cells)))
}
