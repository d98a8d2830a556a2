//! The names of items, open receipts and parents in a shop's tables.

ghost use Rattle.std.specs.Prelude.{◌≡◌, ◌<◌, ℕ, [], All, IfOk, None, map, replicate};
ghost use Rattle.mrp_report.specs.section.Cells.{name_at, parent_name};
ghost use Rattle.mrp_report.specs.section.ReceiptNames.{AreNamesOf, receipt_name};

use crate::page::CsvName;
use mrp_qty::NoMemory;
use mrp_tables::{Item, Receipt, Tables};
use std::alloc::Global;

// A shop's tables, with the names of the items and of the open receipts' orders as cells, the
// latter by the numbers of their records.
#[derive(Drop)]
pub(crate) struct ShopNames<'a> {
    pub tables: &'a Tables,
    items: Vec<CsvName>,
    no_name: CsvName,
    receipts: Vec<Option<CsvName>>,
    ghost named: { items.items ≡ map (λ item. item.name) tables.now.items },
    ghost empty: { no_name ≡ [] },
    ghost known: { AreNamesOf receipts.items tables.now.receipts },
}

// A number greater than those of all records.
fn past_all(receipts: &[Receipt]) -> usize
    ensures { All (λ r. r.number < result) receipts.now }
{
    let mut past = 0;
    for receipt in receipts {
        past = past.max(receipt.number as usize + 1);
    }
    past
}

// Numbers without a name.
fn no_names(alloc: Global, count: usize) -> Result<Vec<Option<CsvName>>, NoMemory>
    ensures { IfOk result (λ names. names.items ≡ replicate count None) }
{
    let mut names = Vec::with_capacity(alloc, count)?;
    for _ in 0..count {
        names.push(None)?;
    }
    Ok(names)
}

// The names of the receipts' orders, each at the number of its record.
fn receipt_names(alloc: Global, receipts: &[Receipt]) -> Result<Vec<Option<CsvName>>, NoMemory>
    ensures { IfOk result (λ names. AreNamesOf names.items receipts.now) }
{
    let mut names = no_names(alloc, past_all(receipts))?;
    for receipt in receipts {
        let place = receipt.number as usize;
        if names[place].is_none() {
            names[place] = Some(CsvName::of(&receipt.order));
        }
    }
    Ok(names)
}

// The items' names.
fn item_names(alloc: Global, items: &[Item]) -> Result<Vec<CsvName>, NoMemory>
    ensures { IfOk result (λ names. names.items ≡ map (λ item. item.name) items.now) }
{
    let mut names = Vec::with_capacity(alloc, items.len())?;
    for item in items {
        names.push(CsvName::of(&item.name))?;
    }
    Ok(names)
}

impl<'a> ShopNames<'a> {
    pub(crate) fn of(alloc: Global, tables: &'a Tables) -> Result<ShopNames<'a>, NoMemory>
        ensures { IfOk result (λ names. names.tables.now ≡ tables.now) }
    {
        Ok(ShopNames {
            tables,
            items: item_names(alloc, tables.items())?,
            no_name: CsvName::new(b""),
            receipts: receipt_names(alloc, tables.receipts())?,
        })
    }

    // The name of the item at a place; an empty name if there is none.
    pub(crate) fn item(&self, item: usize) -> &CsvName
        ensures { result.now ≡ name_at self.now.tables.now item }
    {
        match self.items.get(item) {
            Some(name) => name,
            None => &self.no_name,
        }
    }

    // The name of the parent of a bill line, by the line's number from 1; an empty name if there is
    // none.
    pub(crate) fn parent(&self, line: usize) -> &CsvName
        ensures { result.now ≡ parent_name self.now.tables.now line }
    {
        match self.tables.bills().get(line.saturating_sub(1)) {
            Some(line) => self.item(line.parent),
            None => &self.no_name,
        }
    }

    // The name of the order of an open receipt, by the number of its record; an empty name if there
    // is none.
    pub(crate) fn receipt(&self, number: u64) -> &CsvName
        ensures { result.now ≡ receipt_name self.now.tables.now number }
    {
        match self.receipts.get(number as usize) {
            Some(Some(name)) => name,
            _ => &self.no_name,
        }
    }
}
