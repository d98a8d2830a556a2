//! The walk up from a requirement to what it ends in.

ghost use Rattle.std.specs.Prelude.{◌≡◌, ◌<◌, true, None, filter, fold, Contains, IfOk, OnOk};
ghost use Rattle.mrp_item.specs.Inputs.{count};
ghost use Rattle.mrp_peg.specs.Causes as causes;
ghost use Rattle.mrp_peg.specs.Causes.{ends_in, is_need_of, same_cause};
ghost use Rattle.mrp_peg.specs.Walk as walk;
ghost use Rattle.mrp_peg.specs.Walk.{item_of, order_served, same_number, same_order, with_any, with_item, with_order, with_told, AreAmong, AreMarked};
ghost use Rattle.mrp_peg.specs.Ends.{AreEnds};

use crate::peg::{Cause, Need, NeedKind, Peg};
use crate::pegging::item_pegs;
use crate::sourcing::order_for;
use indexmap::IndexSet;
use mrp_item::{Plan, Supplied};
use mrp_qty::NoMemory;
use mrp_tables::BillLine;
use std::alloc::Global;

/// What a requirement ends in, and the items that were visited for it.
#[derive(Drop)]
pub struct Ends {
    pub causes: IndexSet<Cause>,
    pub items: IndexSet<usize>,
}

// A booking, a forecast or a service row is its own cause.
pub fn own_cause(need: &Need) -> Option<Cause>
    ensures { result ≡ causes.own_cause need.now need.now.kind }
{
    let item = need.item;
    match need.kind {
        NeedKind::Booking(number) => Some(Cause::Booking { item, number }),
        NeedKind::Forecast => Some(Cause::Forecast {
            item,
            week: need.week,
        }),
        NeedKind::Service(row) => Some(Cause::Service { item, row }),
        NeedKind::Parent { .. } => None,
    }
}

// The cause that a peg ends in, if it ends in one.
pub fn cause_of(peg: &Peg) -> Option<Cause>
    ensures { result ≡ ends_in peg.now }
{
    match (peg.need, peg.supply) {
        (Some(need), _) => own_cause(&need),
        (None, Supplied::Order(order)) => {
            let item = peg.item;
            Some(Cause::Surplus { item, order })
        }
        (None, _) => None,
    }
}

// The parent's order whose requirement a peg serves, by the parent's place and the order's number.
fn order_of(bills: &[BillLine], peg: &Peg) -> Option<(usize, usize)>
    ensures { result ≡ order_served bills.now peg.now.need }
{
    match peg.need {
        Some(need) => order_for(bills, need.kind),
        None => None,
    }
}

// Adds a cause, if there is one.
#[tactic(auto, using(crate::proofs::Same::grown))]
pub fn add_cause(causes: &mut IndexSet<Cause>, cause: Option<Cause>) -> Result<(), NoMemory>
    ensures { OnOk result (causes.new.keys ≡ with_any same_cause causes.old.keys cause) }
{
    if let Some(cause) = cause {
        causes.insert(cause)?;
    }
    Ok(())
}

// Adds an order and its item, if there is one.
fn add_order(
    orders: &mut IndexSet<(usize, usize)>,
    items: &mut IndexSet<usize>,
    order: Option<(usize, usize)>,
) -> Result<(), NoMemory>
    ensures orders { OnOk result (orders.new.keys ≡ with_any same_order orders.old.keys order) }
    ensures items { OnOk result (items.new.keys ≡ with_any same_number items.old.keys (item_of order)) }
{
    if let Some(order) = order {
        orders.insert(order)?;
        items.insert(order.0)?;
    }
    Ok(())
}

// Adds the causes that pegs end in.
#[tactic(auto, using(std::proofs::lemmas::List::Sums::fold_more))]
fn add_causes(causes: &mut IndexSet<Cause>, pegs: &[Peg]) -> Result<(), NoMemory>
    ensures { OnOk result (causes.new.keys ≡ fold with_told causes.old.keys pegs.now) }
{
    for peg in pegs {
        add_cause(causes, cause_of(peg))?;
    }
    Ok(())
}

// Adds the parents' orders whose requirements pegs serve, and their items.
#[tactic(auto, using(std::proofs::lemmas::List::Sums::fold_more))]
fn add_orders(
    orders: &mut IndexSet<(usize, usize)>,
    items: &mut IndexSet<usize>,
    bills: &[BillLine],
    pegs: &[Peg],
) -> Result<(), NoMemory>
    ensures orders { OnOk result (orders.new.keys ≡ fold (with_order bills.now) orders.old.keys pegs.now) }
    ensures items { OnOk result (items.new.keys ≡ fold (with_item bills.now) items.old.keys pegs.now) }
{
    for peg in pegs {
        add_order(orders, items, order_of(bills, peg))?;
    }
    Ok(())
}

// Whether an item's supply is one of the orders.
fn is_reached(orders: &IndexSet<(usize, usize)>, item: usize, supply: Supplied) -> bool
    ensures { result ≡ walk.is_reached orders.now.keys item supply }
{
    match supply {
        Supplied::Order(number) => orders.contains(&(item, number)),
        Supplied::Stock | Supplied::Receipt(_) => false,
    }
}

// The pegs of an item whose supply is an order that was reached.
#[tactic(auto, using(std::proofs::lemmas::List::Elements::filter_more))]
fn of_reached(
    alloc: Global,
    orders: &IndexSet<(usize, usize)>,
    item: usize,
    pegs: &[Peg],
) -> Result<Vec<Peg>, NoMemory>
    ensures { IfOk result (λ own. own.items ≡ filter (λ g. walk.is_reached orders.now.keys item g.supply) pegs.now) }
{
    let mut own = Vec::new(alloc);
    for peg in pegs {
        if is_reached(orders, item, peg.supply) {
            own.push(*peg)?;
        }
    }
    Ok(own)
}

// Follows the orders of an item that were reached: to what their pegs end in, and to the parents'
// orders whose requirements they serve. An item without such orders is skipped.
fn follow(
    alloc: Global,
    plan: &Plan,
    item: usize,
    orders: &mut IndexSet<(usize, usize)>,
    items: &mut IndexSet<usize>,
    causes: &mut IndexSet<Cause>,
) -> Result<(), NoMemory>
    requires item { item < count plan.now.inputs }
    requires marked { AreMarked orders.old.keys items.old.keys }
    ensures orders { OnOk result (orders.new.keys ≡ fold (with_order plan.now.inputs.tables.bills) orders.old.keys (walk.followed plan.now.inputs orders.old.keys item)) }
    ensures items { OnOk result (items.new.keys ≡ fold (with_item plan.now.inputs.tables.bills) items.old.keys (walk.followed plan.now.inputs orders.old.keys item)) }
    ensures causes { OnOk result (causes.new.keys ≡ fold with_told causes.old.keys (walk.followed plan.now.inputs orders.old.keys item)) }
{
    if !items.contains(&item) {
        return Ok(());
    }
    let all = item_pegs(alloc, plan, item)?;
    let pegs = of_reached(alloc, orders, item, &all)?;
    let bills = plan.inputs().shop().tables().bills();
    add_orders(orders, items, bills, &pegs)?;
    add_causes(causes, &pegs)
}

// What the sources of a requirement of the plan, followed upwards, end in, and the items on the
// way: from components to parents, each item once.
pub fn ends_of(alloc: Global, plan: &Plan, need: &Need) -> Result<Ends, NoMemory>
    requires { is_need_of plan.now.inputs need.now ≡ true }
    ensures ends { IfOk result (λ ends. AreEnds plan.now.inputs need.now ends.causes.keys) }
    ensures among { IfOk result (λ ends. AreAmong ends.causes.keys ends.items.keys) }
    ensures some { IfOk result (λ ends. causes.own_cause need.now need.now.kind ≡ None → (c : _) × Contains ends.causes.keys c) }
{
    let shop = plan.inputs().shop();
    let order = shop.order();
    let mut orders = IndexSet::new(alloc);
    let mut items = IndexSet::new(alloc);
    let mut causes = IndexSet::new(alloc);
    let tables = shop.tables();
    let bills = tables.bills();
    // Each row of the master schedule has pieces, so each order has.
    let _rows = tables.master();
    add_order(&mut orders, &mut items, order_for(bills, need.kind))?;
    let mut left = order.len();
    while left > 0 {
        left -= 1;
        follow(
            alloc,
            plan,
            order[left],
            &mut orders,
            &mut items,
            &mut causes,
        )?;
    }
    Ok(Ends { causes, items })
}
