//! The open receipts' table.

ghost use Rattle.std.specs.Prelude.{◌≡◌, false, length, IfOk};
ghost use Rattle.std.specs.List.{list_any};
ghost use Rattle.mrp_tables.specs.Facts.{IsOpenOrder, IsReceiptIfAny};
ghost use Rattle.mrp_tables.specs.Receipts.{order_cells, receipt_beside, receipt_placed, receipts_that_count, same_order};

use crate::cells::quantity;
use crate::items::Items;
use crate::limits::{MOST_PIECES, most_records};
use crate::reading::{TableRows, read_table};
use crate::rows::Receipt;
use indexmap::IndexSet;
use jiff::civil::Date;
use mrp_cal::Calendar;
use mrp_qty::Qty;
use mrp_rows::faults::{DATE_OUTSIDE, MASTER_RECEIPT, NO_MEMORY, REPEATED, UNKNOWN_ITEM};
use mrp_rows::{Fault, Name, Row, Sections, Table};
use std::alloc::Global;
use std::marker::Model;

/// An open order as in its record, with the place of its item.
#[derive(Clone, Copy)]
pub(crate) struct OpenOrder {
    item: usize,
    order: Name,
    date: Date,
    quantity: Qty,
}

/// The open receipts so far, including those of quantity 0, with their items and orders.
#[derive(Drop)]
pub(crate) struct Receipts<'a> {
    calendar: &'a Calendar,
    items: &'a Items,
    rows: Vec<Receipt>,
    seen: IndexSet<(usize, Name)>,
}

impl<'a> Model for Receipts<'a> {
    ghost use Rattle.std.specs.Prelude.{◌≡◌, All};
    ghost use Rattle.mrp_tables.specs.Facts.{AllDiffer, IsReceiptIfAny};
    ghost use Rattle.mrp_tables.specs.Gathered.{GatheredByDate};
    ghost use Rattle.mrp_tables.specs.declared.rows.Receipt.{Receipt};
    ghost use Rattle.mrp_tables.specs.Receipts.{orders_of};

    ghost Value = { GatheredByDate Receipt };

    ghost view = { λ t. record { calendar = t.calendar.now; items = t.items.now; rows = t.rows.items } };

    ghost invariant = { λ t. record {
      keys : t.seen.keys ≡ orders_of t.rows.items;
      within : All (IsReceiptIfAny t.calendar.now.weeks t.items.now) t.rows.items;
      distinct : AllDiffer (orders_of t.rows.items);
    } };
}

impl<'a> TableRows for Receipts<'a> {
    type Line = Receipt;

    ghost use Rattle.std.specs.Prelude.{◌≡◌};
    ghost use Rattle.mrp_rows.specs.declared.fault.Table.TheVariants as own;
    ghost use Rattle.mrp_tables.specs.Gathered.{beside_dates};
    ghost use Rattle.mrp_tables.specs.Reading.{reads_of};
    ghost use Rattle.mrp_tables.specs.Receipts.{receipt_row};

    ghost takes = { λ given count. count ≡ 4 };

    ghost rows = { λ t. t.rows };

    ghost reads = { λ t. reads_of own.Receipts (receipt_row t.calendar t.items) };

    ghost beside = { λ t. beside_dates t.calendar t.items };

    fn most_records(&self) -> Option<u32> {
        most_records(Table::Receipts)
    }

    fn add(&mut self, row: &Row) -> Result<(), Fault> {
        let receipt = receipt_of(row, self.calendar, self.items, &self.seen)?;
        let named = (receipt.item, receipt.order);
        if self.rows.push(receipt).is_err() {
            return Err(row.fault(NO_MEMORY));
        }
        if self.seen.insert(named).is_err() {
            let _ = self.rows.pop();
            return Err(row.fault(NO_MEMORY));
        }
        Ok(())
    }
}

#[tactic(auto, unfolding(crate::specs::Receipts::order_cells))]
fn order_cells(row: &Row, items: &Items) -> Result<OpenOrder, Fault>
    requires { length row.now.cells ≡ 4 }
    ensures cells { result ≡ order_cells items.now row.now }
    ensures within { IfOk result (IsOpenOrder items.now) }
{
    let name = row.name(0)?;
    let order = row.name(1)?;
    let date = row.date(2)?;
    let quantity = quantity(row, 3, 0, MOST_PIECES)?;
    match items.find(&name) {
        Some(item) => Ok(OpenOrder {
            item,
            order,
            date,
            quantity,
        }),
        None => Err(row.fault(UNKNOWN_ITEM)),
    }
}

// A record as an open receipt whose item and order are new.
fn receipt_of(
    row: &Row,
    calendar: &Calendar,
    items: &Items,
    seen: &IndexSet<(usize, Name)>,
) -> Result<Receipt, Fault>
    requires { length row.now.cells ≡ 4 }
    ensures cells { result ≡ receipt_beside calendar.now items.now seen.now.keys row.now }
    ensures fresh { IfOk result (λ r. list_any (same_order (r.item, r.order)) seen.now.keys ≡ false) }
    ensures within { IfOk result (IsReceiptIfAny calendar.now.weeks items.now) }
{
    let order = order_cells(row, items)?;
    if seen.contains(&(order.item, order.order)) {
        return Err(row.fault(REPEATED));
    }
    receipt_placed(row, calendar, items, &order)
}

// An open order as a receipt of a week.
#[tactic(auto, unfolding(crate::specs::Receipts::receipt_placed))]
fn receipt_placed(
    row: &Row,
    calendar: &Calendar,
    items: &Items,
    order: &OpenOrder,
) -> Result<Receipt, Fault>
    requires { IsOpenOrder items.now order.now }
    ensures placed { result ≡ receipt_placed calendar.now items.now row.now order.now }
    ensures item { IfOk result (λ row. row.item ≡ order.now.item) }
    ensures order { IfOk result (λ row. row.order ≡ order.now.order) }
    ensures within { IfOk result (IsReceiptIfAny calendar.now.weeks items.now) }
{
    let Some(week) = calendar.week_of(order.date) else {
        return Err(row.fault(DATE_OUTSIDE));
    };
    if items.is_master(order.item) {
        return Err(row.fault(MASTER_RECEIPT));
    }
    Ok(Receipt {
        number: row.record(),
        item: order.item,
        order: order.order,
        week,
        quantity: order.quantity,
    })
}

impl<'a> Receipts<'a> {
    ghost use Rattle.std.specs.Prelude.{◌≡◌, ◌≤◌, [], All, IfOk, Ok, length};
    ghost use Rattle.mrp_tables.specs.declared.limits.TheConstants.{MOST_ROWS};
    ghost use Rattle.mrp_tables.specs.Facts.{AllDiffer, IsReceipt, NumbersRise};
    ghost use Rattle.mrp_tables.specs.Readers.{GivesTable, calendar_in, items_in};
    ghost use Rattle.mrp_tables.specs.Receipts.{orders_of, receipts_that_count};

    pub(crate) fn read(
        alloc: Global,
        sections: &Sections<'_>,
        calendar: &'a Calendar,
        items: &'a Items,
    ) -> Result<Vec<Receipt>, Fault>
        requires calendar { calendar_in sections.now ≡ Ok calendar.now }
        requires items { items_in sections.now ≡ Ok items.now }
        ensures table { GivesTable sections.now Table.Receipts result (λ rows. rows.items) }
        ensures within { IfOk result (λ rows. All (IsReceipt calendar.now.weeks items.now) rows.items) }
        ensures numbers { IfOk result (λ rows. NumbersRise rows.items) }
        ensures once { IfOk result (λ rows. AllDiffer (orders_of rows.items)) }
        ensures count { IfOk result (λ rows. length rows.items ≤ MOST_ROWS) }
    {
        let empty = Receipts::new(alloc, calendar, items);
        let receipts = read_table(alloc, sections, Table::Receipts, empty)?;
        Ok(receipts.into_rows())
    }

    fn new(alloc: Global, calendar: &'a Calendar, items: &'a Items) -> Receipts<'a>
        ensures { result ≡ record { calendar = calendar.now; items = items.now; rows = [] } }
    {
        Receipts {
            calendar,
            items,
            rows: Vec::new(alloc),
            seen: IndexSet::new(alloc),
        }
    }

    // The rows of at least one piece: a row of quantity 0 counts as none.
    fn into_rows(self) -> Vec<Receipt>
        ensures rows { result.items ≡ receipts_that_count self.entry.rows }
        ensures count { length result.items ≤ length self.entry.rows }
        ensures within { All (IsReceipt self.entry.calendar.weeks self.entry.items) result.items }
        ensures distinct { AllDiffer (orders_of result.items) }
    {
        let Receipts {
            calendar: _,
            items: _,
            rows,
            seen: _,
        } = self;
        that_count(rows)
    }
}

fn that_count(mut rows: Vec<Receipt>) -> Vec<Receipt>
    ensures { result.items ≡ receipts_that_count rows.items }
{
    rows.retain(|row| row.quantity.value() > 0);
    rows
}
