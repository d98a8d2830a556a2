//! The tables from the stock to the routings.

ghost use Rattle.mrp_tables.specs.Parts.{AreFirst, GivesStockToRoutings, GivesSupplies};
ghost use Rattle.mrp_tables.specs.Readers.{GivesTable};

use crate::bills::Bills;
use crate::first_tables::FirstTables;
use crate::receipts::Receipts;
use crate::routings::Routings;
use crate::rows::{BillLine, Operation, Receipt, StockRow};
use crate::stock::Stock;
use mrp_rows::{Fault, Sections, Table};
use std::alloc::Global;
use std::thread;
use std::thread::Threads;

// The rows of the stock, the open receipts, the bills and the routings.
#[derive(Drop)]
pub(crate) struct StockToRoutings {
    pub(crate) stock: Vec<StockRow>,
    pub(crate) receipts: Vec<Receipt>,
    pub(crate) bills: Vec<BillLine>,
    pub(crate) routings: Vec<Operation>,
}

// The rows of the stock and of the open receipts, or the bundle's refusal.
fn read_supplies(
    alloc: Global,
    sections: &Sections<'_>,
    first: &FirstTables,
) -> Result<(Vec<StockRow>, Vec<Receipt>), Fault>
    requires { AreFirst sections.now first.now }
    ensures { GivesSupplies sections.now result }
{
    let stock = Stock::read(alloc, sections, &first.items)?;
    let receipts = Receipts::read(alloc, sections, &first.calendar, &first.items)?;
    Ok((stock, receipts))
}

impl StockToRoutings {
    // These tables' rows, given the bundle's first tables, or the bundle's refusal.
    pub(crate) fn read(
        alloc: Global,
        sections: &Sections<'_>,
        first: &FirstTables,
    ) -> Result<StockToRoutings, Fault>
        requires { AreFirst sections.now first.now }
        ensures { GivesStockToRoutings sections.now result }
    {
        let stock = Stock::read(alloc, sections, &first.items)?;
        let receipts = Receipts::read(alloc, sections, &first.calendar, &first.items)?;
        let bills = Bills::read(alloc, sections, &first.items)?;
        let routings = Routings::read(alloc, sections, &first.items, &first.centres)?;
        Ok(StockToRoutings {
            stock,
            receipts,
            bills,
            routings,
        })
    }

    // The same, with the bills read in a thread of its own, if one can be started. Of several refusals that of the
    // earliest table is still the one returned.
    pub(crate) fn read_parallel(
        rt: &impl Threads,
        alloc: Global,
        sections: &Sections<'_>,
        first: &FirstTables,
    ) -> Result<StockToRoutings, Fault>
        requires { AreFirst sections.now first.now }
        ensures { GivesStockToRoutings sections.now result }
    {
        let read_bills = move || -> Result<Vec<BillLine>, Fault>
            requires { AreFirst sections.now first.now }
            ensures { GivesTable sections.entry.now Table.Bills result (λ lines. lines.items) }
        { Bills::read(alloc, sections, &first.items) };
        let read_others = move || -> (
            Result<(Vec<StockRow>, Vec<Receipt>), Fault>,
            Result<Vec<Operation>, Fault>,
        )
            requires { AreFirst sections.now first.now }
            ensures supplies { GivesSupplies sections.entry.now result.0 }
            ensures routings { GivesTable sections.entry.now Table.Routings result.1 (λ rows. rows.items) }
        {
            let supplies = read_supplies(alloc, sections, first);
            let routings = Routings::read(alloc, sections, &first.items, &first.centres);
            (supplies, routings)
        };
        let (bills, (supplies, routings)) = thread::join(rt, read_bills, read_others);
        let supplies = supplies?;
        let bills = bills?;
        let routings = routings?;
        let (stock, receipts) = supplies;
        Ok(StockToRoutings {
            stock,
            receipts,
            bills,
            routings,
        })
    }
}
