//! Open orders, by their receipts in the tables.

ghost use Rattle.std.specs.Prelude.{◌≡◌, ◌++◌, IfOk, OnOk};
ghost use Rattle.std.specs.Option.{option_copied};
ghost use Rattle.mrp_page.specs.Receipts.{receipt_html, receipt_of, receipt_row};

use crate::html::Html;
use crate::layout::todo::open_receipt;
use crate::row::Row;
use crate::template::{has_word, put_dated};
use csv::ByteRecord;
use itoa::Buffer;
use mrp_day::Section;
use mrp_facts::Facts;
use mrp_qty::NoMemory;
use mrp_tables::Receipt;
use std::alloc::Global;

// The receipt of the open order that a message is about, if the tables are given and have it.
pub(crate) fn receipt_of<'f>(tables: Option<&'f Facts<'_>>, message: &Row) -> Option<&'f Receipt>
    ensures { option_copied result ≡ receipt_of (option_copied tables.entry) message.now }
{
    let facts = tables?;
    if has_word(1, b"open", message) {
        facts.open_order(message.name(), message.cell(2))
    } else {
        None
    }
}

// The pieces and the week of a receipt.
pub(crate) fn receipt_row(alloc: Global, receipt: &Receipt) -> Result<Row, NoMemory>
    ensures { IfOk result (λ row. row ≡ receipt_row receipt.now) }
{
    let mut pieces = Buffer::new();
    let mut week = Buffer::new();
    let cells = ByteRecord::from_fields(
        alloc,
        &[
            pieces.format(receipt.quantity.value()).as_bytes(),
            week.format(receipt.week).as_bytes(),
        ],
    )?;
    Ok(Row::new(Section::Run, cells))
}

// Adds the cells of an open order, by its receipt.
pub(crate) fn put_receipt(
    alloc: Global,
    page: &mut Html,
    tables: Option<&Facts<'_>>,
    receipt: &Receipt,
) -> Result<(), NoMemory>
    ensures { OnOk result (page.new ≡ page.old ++ receipt_html (option_copied tables.entry) receipt.now) }
{
    let row = receipt_row(alloc, receipt)?;
    put_dated(page, tables, open_receipt(), &row)
}
