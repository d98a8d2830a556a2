//! The orders of an item, from its firm rows and its planned receipts.

ghost use Rattle.std.specs.Prelude.{◌≡◌, ◌≤◌, ◌<◌, ◌+◌, ◌-◌, ◌++◌, ◌∷◌, [], length, map, max, sum_by, IfOk, OnOk, IfErr, MatchOption};
ghost use Rattle.std.specs.Int.{IsInRange};
ghost use Rattle.mrp_qty.specs.Quantity.{greatest_quantity, start_of};
ghost use Rattle.mrp_tables.specs.declared.limits.TheConstants.{MOST_LEAD, MOST_SCRAP};
ghost use Rattle.mrp_tables.specs.Versions.{lead_unit};
ghost use Rattle.mrp_item.specs.Limits.{IsPlannable};
ghost use Rattle.mrp_item.specs.Inputs.{count, horizon};
ghost use Rattle.mrp_item.specs.Dues.{due_in};
ghost use Rattle.mrp_item.specs.Orders.{order_of, orders_due, orders_of, planned_order};
ghost use Rattle.mrp_item.specs.declared.order.OrderKind.TheVariants.{Firm};

use crate::due::Due;
use crate::inputs::Inputs;
use crate::order::{Order, OrderKind};
use crate::over::or_over;
use crate::release::release_for;
use mrp_phase::{PhaseFault, Weeks};
use mrp_qty::{NoMemory, Qty};
use mrp_tables::{Item, LeadUnit, Tables};
use std::alloc::Global;
use std::marker::Model;

// Orders, and the sum of their starts.
#[derive(Drop)]
pub struct OrderList {
    orders: Vec<Order>,
    started: Qty,
}

impl Model for OrderList {
    ghost use Rattle.std.specs.Prelude.{◌≡◌, ◌≤◌, List, sum_by};
    ghost use Rattle.mrp_qty.specs.Quantity.{greatest_quantity};
    ghost use Rattle.mrp_item.specs.declared.order.Order.{Order};

    ghost Value = { List Order };

    ghost view = { λ o. o.orders.items };

    ghost invariant = { λ o. (o.started ≡ sum_by (λ x. x.start) o.orders.items) × (o.started ≤ greatest_quantity) };
}

// What an item's orders are made by: its record, and the unit of its lead time, which is asked once for
// all of them.
#[derive(Clone, Copy)]
pub struct Terms<'a> {
    tables: &'a Tables,
    item: &'a Item,
    unit: LeadUnit,
    ghost counted: { unit ≡ lead_unit tables.now.version },
    ghost scrap: { item.now.scrap ≤ MOST_SCRAP },
    ghost lead: { item.now.lead ≤ MOST_LEAD },
}

impl<'a> Terms<'a> {
    // The terms of an item of the tables.
    fn of(tables: &'a Tables, item: &'a Item) -> Terms<'a>
        requires { IsPlannable item.now }
        ensures tables { result.tables.now ≡ tables.now }
        ensures item { result.item.now ≡ item.now }
    {
        Terms {
            tables,
            item,
            unit: tables.lead_unit(),
        }
    }

    // An order for a quantity that is due in a week; `None` if its start overflows.
    #[inline(always)]
    fn order(&self, kind: OrderKind, due: u16, quantity: Qty) -> Option<Order>
        requires { IsInRange 1 self.now.tables.now.calendar.weeks due }
        ensures { MatchOption result (greatest_quantity < start_of self.now.item.now.scrap quantity) (λ order. order ≡ order_of self.now.tables.now self.now.item.now kind due quantity) }
    {
        let start = quantity.start_for(self.item.scrap)?;
        let calendar = self.tables.calendar();
        let release = release_for(calendar, self.unit, due, self.item.lead as u16);
        Some(Order {
            kind,
            due,
            quantity,
            start,
            release: release.week,
            late: release.late,
        })
    }
}

impl OrderList {
    // No orders, with room for a number of them.
    fn with_room(alloc: Global, room: usize) -> Result<OrderList, NoMemory>
        ensures { IfOk result (λ list. list ≡ []) }
    {
        Ok(OrderList {
            orders: Vec::with_capacity(alloc, room)?,
            started: Qty::new(0).unwrap(),
        })
    }

    // The orders.
    pub fn into_vec(self) -> Vec<Order>
        ensures orders { result.items ≡ self }
        ensures within { sum_by (λ order. order.start) self ≤ greatest_quantity }
    {
        self.orders
    }

    // Appends an order.
    fn push(&mut self, order: Order) -> Result<(), PhaseFault>
        ensures added { OnOk result (self.new ≡ self.old ++ order ∷ []) }
        ensures over { IfErr result (λ fault. fault ≡ PhaseFault.TooLarge → greatest_quantity < sum_by (λ x. x.start) self.old + order.start) }
    {
        let started = or_over(self.started.add(order.start))?;
        self.orders.push(order)?;
        self.started = started;
        Ok(())
    }

    // Appends an order of an item.
    #[inline(always)]
    fn add(
        &mut self,
        terms: &Terms<'_>,
        kind: OrderKind,
        due: u16,
        quantity: Qty,
    ) -> Result<(), PhaseFault>
        requires { IsInRange 1 terms.now.tables.now.calendar.weeks due }
        ensures added { OnOk result (self.new ≡ self.old ++ order_of terms.now.tables.now terms.now.item.now kind due quantity ∷ []) }
        ensures over { IfErr result (λ fault. fault ≡ PhaseFault.TooLarge → greatest_quantity < sum_by (λ x. x.start) self.old + start_of terms.now.item.now.scrap quantity) }
    {
        self.push(or_over(terms.order(kind, due, quantity))?)
    }

    // Appends the firm orders of a week.
    fn add_firm(&mut self, terms: &Terms<'_>, week: u16, dues: &[Due]) -> Result<(), PhaseFault>
        requires { IsInRange 1 terms.now.tables.now.calendar.weeks week }
        ensures added { OnOk result (self.new ≡ self.old ++ map (order_of terms.now.tables.now terms.now.item.now Firm week) (due_in week dues.now)) }
        ensures over { IfErr result (λ fault. fault ≡ PhaseFault.TooLarge → greatest_quantity < sum_by (λ x. x.start) (self.old ++ map (order_of terms.now.tables.now terms.now.item.now Firm week) (due_in week dues.now))) }
    {
        for due in dues {
            if due.week == week {
                self.add(terms, OrderKind::Firm, week, due.quantity)?;
            }
        }
        Ok(())
    }

    // Appends the planned order of a week, if there is one.
    fn add_planned(
        &mut self,
        terms: &Terms<'_>,
        week: u16,
        before: Qty,
        received: Qty,
    ) -> Result<(), PhaseFault>
        requires { IsInRange 1 terms.now.tables.now.calendar.weeks week }
        ensures added { OnOk result (self.new ≡ self.old ++ planned_order terms.now.tables.now terms.now.item.now week before received) }
        ensures over { IfErr result (λ fault. fault ≡ PhaseFault.TooLarge → greatest_quantity < sum_by (λ x. x.start) (self.old ++ planned_order terms.now.tables.now terms.now.item.now week before received)) }
    {
        let more = received.value().saturating_sub(before.value());
        if more == 0 {
            return Ok(());
        }
        let quantity = Qty::new(more).unwrap();
        self.add(terms, OrderKind::Planned, week, quantity)
    }

    // Appends the orders of a week: the firm ones, then the planned one.
    fn add_week(
        &mut self,
        terms: &Terms<'_>,
        week: u16,
        dues: &[Due],
        before: Qty,
        received: Qty,
    ) -> Result<(), PhaseFault>
        requires { IsInRange 1 terms.now.tables.now.calendar.weeks week }
        ensures added { OnOk result (self.new ≡ self.old ++ (map (order_of terms.now.tables.now terms.now.item.now Firm week) (due_in week dues.now) ++ planned_order terms.now.tables.now terms.now.item.now week before received)) }
        ensures over { IfErr result (λ fault. fault ≡ PhaseFault.TooLarge → greatest_quantity < sum_by (λ x. x.start) (self.old ++ (map (order_of terms.now.tables.now terms.now.item.now Firm week) (due_in week dues.now) ++ planned_order terms.now.tables.now terms.now.item.now week before received))) }
    {
        self.add_firm(terms, week, dues)?;
        self.add_planned(terms, week, before, received)
    }
}

// The number of weeks in which cumulative receipts rise.
fn rises(receipts: &[Qty]) -> usize {
    receipts
        .windows(2)
        .filter(|pair| pair[0] != pair[1])
        .count()
        + 1
}

// The orders of an item, from its cumulative planned receipts.
pub fn orders_for(
    alloc: Global,
    inputs: &Inputs,
    item: usize,
    receipts: &[Qty],
) -> Result<OrderList, PhaseFault>
    requires item { item < count inputs.now }
    requires weeks { length receipts.now ≡ horizon inputs.now }
    ensures value { IfOk result (λ list. list ≡ orders_of inputs.now item receipts.now) }
    ensures over { IfErr result (λ fault. fault ≡ PhaseFault.TooLarge → greatest_quantity < sum_by (λ order. order.start) (orders_of inputs.now item receipts.now)) }
{
    let entry = inputs.entry(item);
    let terms = Terms::of(inputs.shop().tables(), &entry);
    let dues = inputs.firm(item);
    let mut list = OrderList::with_room(alloc, dues.len().saturating_add(rises(receipts)))?;
    let mut before = Qty::new(0).unwrap();
    for place in 0..inputs.weeks() {
        let received = receipts[usize::from(place)];
        list.add_week(&terms, place + 1, dues, before, received)?;
        before = received;
    }
    Ok(list)
}
