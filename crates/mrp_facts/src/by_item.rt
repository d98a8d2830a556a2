//! Rows of the tables, grouped by their items.

ghost use Rattle.std.specs.Prelude.{◌≡◌, ◌<◌, ◌==◌, ℕ, All, IfOk, filter, length, map};
ghost use Rattle.mrp_bill.specs.Grouped.{listed};
ghost use Rattle.mrp_facts.specs.Facts.{of_receipt, of_stock, receipts_of, stock_of};

use mrp_bill::{Grouped, Numbered};
use mrp_qty::NoMemory;
use mrp_tables::{Receipt, StockRow};
use std::alloc::Global;

// The pieces on hand of a stock record, numbered by its item.
fn of_stock(row: &StockRow) -> Numbered<u64>
    ensures { result ≡ of_stock row.now }
{
    Numbered {
        number: row.item,
        value: row.on_hand.value(),
    }
}

// An open receipt, numbered by its item.
fn of_receipt(row: &Receipt) -> Numbered<Receipt>
    ensures { result ≡ of_receipt row.now }
{
    Numbered {
        number: row.item,
        value: *row,
    }
}

// Stock records, numbered by their items.
fn numbered_stock(alloc: Global, rows: &[StockRow]) -> Result<Vec<Numbered<u64>>, NoMemory>
    ensures { IfOk result (λ numbered. numbered.items ≡ map of_stock rows.now) }
{
    let numbered = rows.iter().map(|row| of_stock(row)).collect(alloc)?;
    Ok(numbered)
}

// Open receipts, numbered by their items.
fn numbered_receipts(alloc: Global, rows: &[Receipt]) -> Result<Vec<Numbered<Receipt>>, NoMemory>
    ensures { IfOk result (λ numbered. numbered.items ≡ map of_receipt rows.now) }
{
    let numbered = rows.iter().map(|row| of_receipt(row)).collect(alloc)?;
    Ok(numbered)
}

// The pieces on hand in the stock records of each item.
pub(crate) fn stock_by_item(
    alloc: Global,
    count: usize,
    rows: &[StockRow],
) -> Result<Grouped<u64>, NoMemory>
    requires { All (λ r. r.item < count) rows.now }
    ensures size { IfOk result (λ groups. length groups ≡ count) }
    ensures groups { IfOk result (λ groups. (i : ℕ) → i < count → listed groups i ≡ stock_of rows.now i) }
{
    let numbered = numbered_stock(alloc, rows)?;
    Grouped::of(alloc, count, &numbered)
}

// The open receipts of each item.
pub(crate) fn receipts_by_item(
    alloc: Global,
    count: usize,
    rows: &[Receipt],
) -> Result<Grouped<Receipt>, NoMemory>
    requires { All (λ r. r.item < count) rows.now }
    ensures size { IfOk result (λ groups. length groups ≡ count) }
    ensures groups { IfOk result (λ groups. (i : ℕ) → i < count → listed groups i ≡ receipts_of rows.now i) }
{
    let numbered = numbered_receipts(alloc, rows)?;
    Grouped::of(alloc, count, &numbered)
}
