//! The call of a line.

ghost use Rattle.std.specs.Prelude.{◌≡◌, IfOk, length};
ghost use Rattle.mrp_rows.specs.declared.fault.Table.{Table};
ghost use Rattle.mrp_rows.specs.Next.{columns_fault};
ghost use Rattle.mrp_tables.specs.Facts.{IsScriptRow};
ghost use Rattle.mrp_calls.specs.LineCall.{ReadsCells, ReadsLine, is_whole};

use crate::fault::LineFault;
use mrp_intake::LONGEST_LINE;
use mrp_rows::faults::COLUMNS;
use mrp_rows::{Fault, Row, Table, only_row};
use mrp_tables::{ScriptRow, Tables};
use std::alloc::Global;

// Whether a line ends with its line feed, and is not too long.
fn is_whole(line: &[u8]) -> bool
    ensures { result ≡ is_whole line.now }
{
    !line.is_empty() && line.len() <= LONGEST_LINE && line[line.len() - 1] == b'\n'
}

// A line is not one record with a cell for each column.
fn columns_fault(number: u32) -> Fault
    ensures { result ≡ columns_fault Table.Script number }
{
    Fault {
        code: COLUMNS,
        table: Table::Script,
        row: number,
    }
}

// The record of a line, which would have this number. A spare record's memory is reused.
fn line_row(alloc: Global, number: u32, line: &[u8], spare: Option<Row>) -> Result<Row, LineFault>
    ensures { ReadsCells number line.now result }
{
    if !is_whole(line) {
        return Err(LineFault::Refused(columns_fault(number)));
    }
    match only_row(alloc, line, Table::Script, number, spare)? {
        Some(row) => Ok(row),
        None => Err(LineFault::Refused(columns_fault(number))),
    }
}

/// The record of a line, which would have this number, and its call. A spare record's memory is reused.
pub(crate) fn line_call(
    alloc: Global,
    tables: &Tables,
    number: u32,
    line: &[u8],
    spare: &mut Option<Row>,
) -> Result<(Row, ScriptRow), LineFault>
    ensures call { ReadsLine tables.now number line.now result }
    ensures cells { IfOk result (λ call. length call.0.cells ≡ 6) }
    ensures within { IfOk result (λ call. IsScriptRow tables.now.calendar.weeks tables.now.items call.1) }
{
    let row = line_row(alloc, number, line, spare.take())?;
    match tables.script_row(&row) {
        Ok(call) => Ok((row, call)),
        Err(fault) => {
            *spare = Some(row);
            Err(LineFault::Refused(fault))
        }
    }
}
