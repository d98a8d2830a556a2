//! The stock's table.

ghost use Rattle.std.specs.Prelude.{◌≡◌, length, IfOk};
ghost use Rattle.mrp_tables.specs.Facts.{IsStockRow};
ghost use Rattle.mrp_tables.specs.Stock.{stock_cells};

use crate::cells::quantity;
use crate::items::Items;
use crate::limits::{MOST_PIECES, most_records};
use crate::reading::{TableRows, read_table};
use crate::rows::StockRow;
use indexmap::IndexSet;
use mrp_rows::faults::{NO_MEMORY, REPEATED, UNKNOWN_ITEM};
use mrp_rows::{Fault, Row, Sections, Table};
use std::alloc::Global;
use std::marker::Model;

/// The stock rows so far, with their items.
#[derive(Drop)]
pub(crate) struct Stock<'a> {
    items: &'a Items,
    rows: Vec<StockRow>,
    seen: IndexSet<usize>,
}

impl<'a> Model for Stock<'a> {
    ghost use Rattle.std.specs.Prelude.{◌≡◌, All};
    ghost use Rattle.mrp_tables.specs.Facts.{AllDiffer, IsStockRow};
    ghost use Rattle.mrp_tables.specs.Gathered.{Gathered};
    ghost use Rattle.mrp_tables.specs.declared.rows.StockRow.{StockRow};
    ghost use Rattle.mrp_tables.specs.Stock.{items_in_stock};

    ghost Value = { Gathered StockRow };

    ghost view = { λ t. record { items = t.items.now; rows = t.rows.items } };

    ghost invariant = { λ t. record {
      keys : t.seen.keys ≡ items_in_stock t.rows.items;
      within : All (IsStockRow t.items.now) t.rows.items;
      distinct : AllDiffer (items_in_stock t.rows.items);
    } };
}

impl<'a> TableRows for Stock<'a> {
    type Line = StockRow;

    ghost use Rattle.std.specs.Prelude.{◌≡◌};
    ghost use Rattle.mrp_rows.specs.declared.fault.Table.TheVariants as own;
    ghost use Rattle.mrp_tables.specs.Gathered.{beside_items};
    ghost use Rattle.mrp_tables.specs.Reading.{reads_of};
    ghost use Rattle.mrp_tables.specs.Stock.{stock_row};

    ghost takes = { λ given count. count ≡ 2 };

    ghost rows = { λ t. t.rows };

    ghost reads = { λ t. reads_of own.Stock (stock_row t.items) };

    ghost beside = { λ t. beside_items t.items };

    fn most_records(&self) -> Option<u32> {
        most_records(Table::Stock)
    }

    fn add(&mut self, row: &Row) -> Result<(), Fault> {
        let stock = stock_cells(row, self.items)?;
        if self.seen.contains(&stock.item) {
            return Err(row.fault(REPEATED));
        }
        if self.rows.push(stock).is_err() {
            return Err(row.fault(NO_MEMORY));
        }
        if self.seen.insert(stock.item).is_err() {
            let _ = self.rows.pop();
            return Err(row.fault(NO_MEMORY));
        }
        Ok(())
    }
}

#[tactic(auto, unfolding(crate::specs::Stock::stock_cells))]
fn stock_cells(row: &Row, items: &Items) -> Result<StockRow, Fault>
    requires { length row.now.cells ≡ 2 }
    ensures cells { result ≡ stock_cells items.now row.now }
    ensures within { IfOk result (IsStockRow items.now) }
{
    let name = row.name(0)?;
    let on_hand = quantity(row, 1, 0, MOST_PIECES)?;
    match items.find(&name) {
        Some(item) => Ok(StockRow { item, on_hand }),
        None => Err(row.fault(UNKNOWN_ITEM)),
    }
}

impl<'a> Stock<'a> {
    ghost use Rattle.std.specs.Prelude.{◌≡◌, [], All, IfOk, Ok};
    ghost use Rattle.mrp_tables.specs.Facts.{AllDiffer, IsStockRow};
    ghost use Rattle.mrp_tables.specs.Readers.{GivesTable, items_in};
    ghost use Rattle.mrp_tables.specs.Stock.{items_in_stock};

    pub(crate) fn read(
        alloc: Global,
        sections: &Sections<'_>,
        items: &'a Items,
    ) -> Result<Vec<StockRow>, Fault>
        requires { items_in sections.now ≡ Ok items.now }
        ensures table { GivesTable sections.now Table.Stock result (λ rows. rows.items) }
        ensures within { IfOk result (λ rows. All (IsStockRow items.now) rows.items) }
        ensures once { IfOk result (λ rows. AllDiffer (items_in_stock rows.items)) }
    {
        let stock = read_table(alloc, sections, Table::Stock, Stock::new(alloc, items))?;
        Ok(stock.into_rows())
    }

    fn new(alloc: Global, items: &'a Items) -> Stock<'a>
        ensures { result ≡ record { items = items.now; rows = [] } }
    {
        Stock {
            items,
            rows: Vec::new(alloc),
            seen: IndexSet::new(alloc),
        }
    }

    fn into_rows(self) -> Vec<StockRow>
        ensures rows { result.items ≡ self.entry.rows }
        ensures within { All (IsStockRow self.entry.items) result.items }
        ensures distinct { AllDiffer (items_in_stock result.items) }
    {
        let Stock {
            items: _,
            rows,
            seen: _,
        } = self;
        rows
    }
}
