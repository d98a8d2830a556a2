//! The record of a call, as it is journalled.

ghost use Rattle.std.specs.Prelude.{◌≡◌, OnOk, length, map};
ghost use Rattle.mrp_calls.specs.CallRecord.{kept_cells, record_text};

use mrp_qty::NoMemory;
use mrp_report::Page;
use mrp_rows::Row;
use mrp_tables::ScriptCall;

// The columns, from 0.
const DESK: usize = 0;

const CALL: usize = 1;

const ITEM: usize = 2;

const DATE: usize = 3;

const QUANTITY: usize = 4;

const NUMBER: usize = 5;

// The cells that a call uses, as they came; the others are empty.
fn kept_cells<'a>(row: &'a Row, call: &ScriptCall) -> [&'a [u8]; 6]
    requires { length row.now.cells ≡ 6 }
    ensures { map (λ cell. cell.now) result ≡ kept_cells call.now row.now }
{
    let desk = row.cell(DESK);
    let word = row.cell(CALL);
    match call {
        ScriptCall::Book { .. } => [
            desk,
            word,
            row.cell(ITEM),
            row.cell(DATE),
            row.cell(QUANTITY),
            b"",
        ],
        ScriptCall::Cancel { .. } => [desk, word, b"", b"", b"", row.cell(NUMBER)],
        ScriptCall::Ask { .. } => [desk, word, row.cell(ITEM), row.cell(DATE), b"", b""],
        ScriptCall::When { .. } => [desk, word, row.cell(ITEM), b"", row.cell(QUANTITY), b""],
        ScriptCall::Run => [desk, word, b"", b"", b"", b""],
    }
}

/// Makes a page of the record of a call alone.
pub(crate) fn spell(page: &mut Page, row: &Row, call: &ScriptCall) -> Result<(), NoMemory>
    requires { length row.now.cells ≡ 6 }
    ensures { OnOk result (page.new ≡ record_text call.now row.now) }
{
    page.clear();
    page.row(&kept_cells(row, call))
}
