//! The cells that many rows of the section `pegs` share.

ghost use Rattle.std.specs.Prelude.{◌≡◌, ◌≤◌, ◌++◌, None, Some, IfOk, IfSome, length};
ghost use Rattle.std.specs.List.{slice_index_or};
ghost use Rattle.mrp_item.specs.declared.order.OrderKind.TheVariants as kind;
ghost use Rattle.mrp_report.specs.declared.section.peg_shares.Shared.TheVariants as shared;
ghost use Rattle.mrp_report.specs.page.CsvCells.{next_cell};
ghost use Rattle.mrp_report.specs.page.Put.{IsPut};
ghost use Rattle.mrp_report.specs.section.PegShares.{AreReady, shared_cells};
ghost use Rattle.mrp_report.specs.section.SourceText.{source_name, source_word};

use crate::page::{ReadyCells, Word, put_number, put_word};
use crate::section::orders::kind_word;
use crate::section::shop_names::ShopNames;
use mrp_item::{Order, OrderKind, Supplied};
use mrp_qty::NoMemory;
use mrp_tables::Tables;
use std::alloc::Global;

// Room for cells with a number: for a name between quotes, or a word, and the number.
const ROOM: usize = 96;

// An item's orders from this number on do not stand ready.
const ORDERS: usize = 128;

// What rows share, by a number: a week in which parents' orders require pieces, a bill line, or an order that
// supplies them.
#[derive(Clone, Copy)]
pub(crate) enum Shared {
    Week,
    Line,
    Order(OrderKind),
}

// The cells that rows of pegs share, by their numbers. Cells that are too long do not stand ready.
#[derive(Drop)]
pub(crate) struct PegShares<'a> {
    pub tables: &'a Tables,
    weeks: Vec<Option<ReadyCells>>,
    lines: Vec<Option<ReadyCells>>,
    firm: Vec<Option<ReadyCells>>,
    planned: Vec<Option<ReadyCells>>,
    ghost weekly: { AreReady tables.now shared.Week weeks.items },
    ghost lined: { AreReady tables.now shared.Line lines.items },
    ghost firmly: { AreReady tables.now (shared.Order kind.Firm) firm.items },
    ghost by_plan: { AreReady tables.now (shared.Order kind.Planned) planned.items },
}

// Puts the cells with a number at the front of a text.
fn put_shared(names: &ShopNames<'_>, what: Shared, number: usize, text: &mut [u8]) -> usize
    requires { 96 ≤ length text.old }
    ensures put { IsPut text.old text.new 0 (shared_cells names.now.tables.now what number) result }
    ensures near { result ≤ 96 }
{
    match what {
        Shared::Week => {
            let end = put_number(text, 0, number as u64);
            put_word(text, end, Word::Parent)
        }
        Shared::Line => {
            let end = names.parent(number).put_next(text, 0);
            put_number(text, end, number as u64)
        }
        Shared::Order(kind) => {
            let end = put_word(text, 0, kind_word(kind));
            put_number(text, end, number as u64)
        }
    }
}

// The cells with a number, unless they are too long.
fn ready(names: &ShopNames<'_>, what: Shared, number: usize) -> Option<ReadyCells>
    ensures { IfSome result (λ cells. cells ≡ shared_cells names.now.tables.now what number) }
{
    let mut text = [0; ROOM];
    let end = put_shared(names, what, number, &mut text);
    ReadyCells::of(&text[..end])
}

// The cells with the numbers below a count.
fn ready_below(
    alloc: Global,
    names: &ShopNames<'_>,
    what: Shared,
    count: usize,
) -> Result<Vec<Option<ReadyCells>>, NoMemory>
    ensures { IfOk result (λ all. AreReady names.now.tables.now what all.items) }
{
    let mut all = Vec::with_capacity(alloc, count)?;
    for number in 0..count {
        all.push(ready(names, what, number))?;
    }
    Ok(all)
}

// The cells with a number, if they stand ready.
#[inline(always)]
fn ready_at(all: &[Option<ReadyCells>], number: usize) -> Option<&ReadyCells>
    ensures { IfSome result (λ cells. slice_index_or all.now number None ≡ Some cells.now) }
{
    match all.get(number) {
        Some(Some(cells)) => Some(cells),
        _ => None,
    }
}

impl<'a> PegShares<'a> {
    pub(crate) fn of(alloc: Global, names: &ShopNames<'a>) -> Result<PegShares<'a>, NoMemory>
        ensures { IfOk result (λ shares. shares.tables.now ≡ names.now.tables.now) }
    {
        let tables = names.tables;
        let weeks = usize::from(tables.calendar().weeks()) + 1;
        let lines = tables.bills().len() + 1;
        Ok(PegShares {
            tables,
            weeks: ready_below(alloc, names, Shared::Week, weeks)?,
            lines: ready_below(alloc, names, Shared::Line, lines)?,
            firm: ready_below(alloc, names, Shared::Order(OrderKind::Firm), ORDERS)?,
            planned: ready_below(alloc, names, Shared::Order(OrderKind::Planned), ORDERS)?,
        })
    }

    // The cells of a week, if they stand ready.
    #[inline(always)]
    pub(crate) fn week(&self, week: u16) -> Option<&ReadyCells>
        ensures { IfSome result (λ cells. cells.now ≡ shared_cells self.now.tables.now shared.Week week) }
    {
        ready_at(&self.weeks, usize::from(week))
    }

    // The cells of a bill line, if they stand ready.
    #[inline(always)]
    pub(crate) fn line(&self, line: usize) -> Option<&ReadyCells>
        ensures { IfSome result (λ cells. cells.now ≡ shared_cells self.now.tables.now shared.Line line) }
    {
        ready_at(&self.lines, line)
    }

    // The cells of an order, if they stand ready.
    #[inline(always)]
    fn order(&self, kind: OrderKind, number: usize) -> Option<&ReadyCells>
        ensures { IfSome result (λ cells. cells.now ≡ shared_cells self.now.tables.now (shared.Order kind) number) }
    {
        match kind {
            OrderKind::Firm => ready_at(&self.firm, number),
            OrderKind::Planned => ready_at(&self.planned, number),
        }
    }

    // The cells of a supply of an item with these orders, if they stand ready.
    #[inline(always)]
    pub(crate) fn source(&self, supply: Supplied, orders: &[Order]) -> Option<&ReadyCells>
        ensures { IfSome result (λ cells. cells.now ≡ next_cell (source_word orders.now supply) ++ next_cell (source_name self.now.tables.now supply)) }
    {
        let Supplied::Order(number) = supply else {
            return None;
        };
        match orders.get(number.saturating_sub(1)) {
            Some(order) => self.order(order.kind, number),
            None => None,
        }
    }
}
