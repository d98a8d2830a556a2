//! Where the records of tables stand whose texts are known.

ghost use Rattle.std.specs.Prelude.{◌≡◌, IfOk, None, drop};
ghost use Rattle.std.specs.List.{slice_index_or};
ghost use Rattle.mrp_rows.specs.Tables.{table_index};
ghost use Rattle.mrp_inspect.specs.Sheets.{AreSheets, lines_in, sheet_lines};

use crate::stray::TABLES;
use mrp_qty::NoMemory;
use mrp_rows::Table;
use mrp_survey::{Source, record_lines};
use mrp_warn::Sheet;
use std::alloc::Global;

// Lines without the first, which is the header's.
fn below_first(alloc: Global, lines: &[u64]) -> Result<Vec<u64>, NoMemory>
    ensures { IfOk result (λ below. below.items ≡ drop 1 lines.now) }
{
    let mut below = Vec::new(alloc);
    if let [_, others @ ..] = lines {
        below.extend_from_slice(others)?;
    }
    Ok(below)
}

// The text of a table, among those of all tables.
fn source_at<'a>(sources: &[Option<Source<'a>>; 9], table: Table) -> Option<Source<'a>>
    ensures { result ≡ slice_index_or sources.now (table_index table) None }
{
    match sources.get(table.index()) {
        Some(source) => *source,
        None => None,
    }
}

// Where the records of a table stand.
fn sheet_of(alloc: Global, table: Table, source: Option<Source<'_>>) -> Result<Sheet, NoMemory>
    ensures { IfOk result (λ sheet. sheet_lines sheet ≡ lines_in table source.entry) }
{
    let Some(source) = source else {
        return Ok(Sheet {
            file: table,
            lines: Vec::new(alloc),
        });
    };
    let lines = record_lines(alloc, source.text, source.line)?;
    Ok(Sheet {
        file: source.file,
        lines: below_first(alloc, &lines)?,
    })
}

// The sheets of the tables, in the order of the tables.
pub(crate) fn sheets_of(
    alloc: Global,
    sources: &[Option<Source<'_>>; 9],
) -> Result<Vec<Sheet>, NoMemory>
    ensures { IfOk result (λ sheets. AreSheets sources.now sheets.items) }
{
    let mut sheets = Vec::with_capacity(alloc, TABLES.len())?;
    for table in TABLES {
        let source = source_at(sources, table);
        let sheet = sheet_of(alloc, table, source)?;
        sheets.push(sheet)?;
    }
    Ok(sheets)
}
