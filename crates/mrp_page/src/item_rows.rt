//! The rows of a report that belong to items.

ghost use Rattle.std.specs.Prelude.{◌≡◌, IfOk};
ghost use Rattle.mrp_page.specs.ItemRows.{item_lists};

use crate::pegs::Pegs;
use crate::places::Places;
use crate::row::Row;
use crate::rows::rows_in;
use mrp_day::Section;
use mrp_qty::NoMemory;
use std::alloc::Global;
use std::marker::Model;

// The rows of a report that belong to items, section by section, found by their items.
#[derive(Drop)]
pub(crate) struct ItemRows<'a> {
    promises: Places<'a>,
    plan: Places<'a>,
    orders: Places<'a>,
    pegs: Pegs<'a>,
    messages: Places<'a>,
}

impl<'a> Model for ItemRows<'a> {
    ghost use Rattle.mrp_page.specs.ItemRows.{ItemLists};

    ghost Value = { ItemLists };

    ghost view = { λ r. record { promises = r.promises; plan = r.plan; orders = r.orders; pegs = r.pegs; messages = r.messages } };
}

impl<'a> ItemRows<'a> {
    // The rows of a report that belong to items.
    pub(crate) fn of(alloc: Global, report: &'a [Row]) -> Result<ItemRows<'a>, NoMemory>
        ensures { IfOk result (λ rows. rows ≡ item_lists report.now) }
    {
        let promises = Places::of(alloc, rows_in(report, Section::Promises))?;
        let plan = Places::of(alloc, rows_in(report, Section::Plan))?;
        let orders = Places::of(alloc, rows_in(report, Section::Orders))?;
        let pegs = Pegs::of(alloc, rows_in(report, Section::Pegs))?;
        let messages = Places::of(alloc, rows_in(report, Section::Messages))?;
        Ok(ItemRows {
            promises,
            plan,
            orders,
            pegs,
            messages,
        })
    }

    pub(crate) fn promises(&self) -> &Places<'a>
        ensures { result.now ≡ self.now.promises }
    {
        &self.promises
    }

    pub(crate) fn plan(&self) -> &Places<'a>
        ensures { result.now ≡ self.now.plan }
    {
        &self.plan
    }

    pub(crate) fn orders(&self) -> &Places<'a>
        ensures { result.now ≡ self.now.orders }
    {
        &self.orders
    }

    pub(crate) fn pegs(&self) -> &Pegs<'a>
        ensures { result.now ≡ self.now.pegs }
    {
        &self.pegs
    }

    pub(crate) fn messages(&self) -> &Places<'a>
        ensures { result.now ≡ self.now.messages }
    {
        &self.messages
    }
}
