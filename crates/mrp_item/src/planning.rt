//! The plan of an item, from its parents' outcomes.

ghost use Rattle.std.specs.Prelude.{◌≡◌, ◌≤◌, ◌<◌, ◌+◌, ◌↔◌, ℕ, true, IsTrue, length, sum, sum_by, IfOk, OnOk, IfErr, IsErrOf, MatchResult};
ghost use Rattle.std.specs.List.{list_all};
ghost use Rattle.mrp_qty.specs.Quantity.{greatest_quantity, quantity_of};
ghost use Rattle.mrp_phase.specs.Weeks.{in_week, row};
ghost use Rattle.mrp_lots.specs.Lots.{IsStepped, receipts, stepped};
ghost use Rattle.mrp_bill.specs.Bill.{parents_of};
ghost use Rattle.mrp_item.specs.Limits.{IsPlannable};
ghost use Rattle.mrp_item.specs.Inputs.{count, horizon};
ghost use Rattle.mrp_item.specs.Lot.{rule_of};
ghost use Rattle.mrp_item.specs.Kept.{AreRowsOf};
ghost use Rattle.mrp_item.specs.Made.{item_from, parents_from};
ghost use Rattle.mrp_item.specs.Orders.{started_in};
ghost use Rattle.mrp_item.specs.ParentOutcomes.{HasParentsOf};
ghost use Rattle.mrp_item.specs.Own.{AreWithin, ArePast, IsReady, own_gross};
ghost use Rattle.mrp_item.specs.Rows.{stock_of};
ghost use Rattle.mrp_item.specs.Plan as plan;
ghost use Rattle.mrp_item.specs.Plan.{is_planned, outcome_of, receipts_of};

use crate::dependent::part_gross;
use crate::due::{add_in, zero_weeks};
use crate::inputs::Inputs;
use crate::order::Order;
use crate::orders::orders_for;
use crate::outcome::Outcome;
use crate::over::or_over;
use crate::parent_outcomes::{Listed, ParentOutcomes};
use crate::planned::{PlanRows, Planned};
use crate::supply::{independent_demand, stock_for};
use mrp_lots::{Fixed, LotForLot, Period, Stepped, receipts};
use mrp_net::{NeedRow, Stock, need};
use mrp_phase::{PhaseFault, Weeks};
use mrp_qty::{NoMemory, Qty};
use mrp_tables::{Item, LotRule};
use std::alloc::Global;
use std::sync::Arc;

// The gross requirements of an item.
fn gross_row<P: ParentOutcomes>(
    alloc: Global,
    inputs: &Inputs,
    item: usize,
    parents: &P,
) -> Result<Weeks<Qty>, PhaseFault>
    requires item { item < count inputs.now }
    requires parents { HasParentsOf P.has parents.now inputs.now item }
    requires ready { IsReady inputs.now item }
    ensures value { IfOk result (λ w. w ≡ own_gross inputs.now item) }
    ensures over { IfErr result (λ fault. fault ≡ PhaseFault.TooLarge → greatest_quantity < sum (own_gross inputs.now item)) }
{
    if inputs.entry(item).class.is_master() {
        independent_demand(alloc, inputs, item)
    } else {
        part_gross(alloc, inputs, item, parents)
    }
}

// The planned receipts of orders for a number of weeks, with an item's minimum order quantity and order
// multiple.
fn stepped_receipts(
    alloc: Global,
    needs: &NeedRow,
    weeks: u64,
    item: &Item,
) -> Result<Weeks<Qty>, PhaseFault>
    requires { IsStepped weeks item.now.least item.now.step }
    ensures value { IfOk result (λ w. w ≡ row (length needs.now) (receipts (stepped weeks item.now.least item.now.step) (length needs.now) (in_week needs.now))) }
    ensures too_large { IfErr result (λ fault. fault ≡ PhaseFault.TooLarge → greatest_quantity < receipts (stepped weeks item.now.least item.now.step) (length needs.now) (in_week needs.now) (length needs.now)) }
{
    match Stepped::new(weeks, item.least, item.step) {
        Some(lot) => receipts(alloc, needs, &lot),
        None => unreachable!(),
    }
}

// Whether an item has no minimum order quantity and no order multiple.
fn orders_pieces(item: &Item) -> bool
    ensures { IsTrue result ↔ ((item.now.least ≡ 0) × (item.now.step ≡ 1)) }
{
    item.least == 0 && item.step == 1
}

// The planned receipts, by an item's lot rule, from net requirements. Orders of single pieces have rules
// of their own, which divide nothing.
fn lot_receipts(alloc: Global, needs: &NeedRow, item: &Item) -> Result<Weeks<Qty>, PhaseFault>
    requires { IsPlannable item.now }
    ensures value { IfOk result (λ w. w ≡ row (length needs.now) (receipts (rule_of item.now) (length needs.now) (in_week needs.now))) }
    ensures too_large { IfErr result (λ fault. fault ≡ PhaseFault.TooLarge → greatest_quantity < receipts (rule_of item.now) (length needs.now) (in_week needs.now) (length needs.now)) }
{
    // Net requirements do not fall.
    let _rises = needs.as_slice();
    let by_piece = orders_pieces(item);
    match item.lot {
        LotRule::LotForLot if by_piece => receipts(alloc, needs, &LotForLot),
        LotRule::LotForLot => stepped_receipts(alloc, needs, 1, item),
        LotRule::Fixed(size) => receipts(alloc, needs, &Fixed::new(size)),
        LotRule::Period(weeks) if by_piece => receipts(alloc, needs, &Period::new(weeks)),
        LotRule::Period(weeks) => stepped_receipts(alloc, needs, weeks, item),
    }
}

// What is there, what is scheduled and what is planned to come; overflow yields `None`.
fn supplies(stock: &Stock, received: Qty) -> Option<Qty>
    ensures { result ≡ quantity_of (stock.now.on_hand + sum stock.now.scheduled + received) }
{
    stock.scheduled.sum_from(stock.on_hand)?.add(received)
}

// The starts of orders in each week.
fn started_row(alloc: Global, weeks: u16, orders: &[Order]) -> Result<Weeks<Qty>, PhaseFault>
    ensures value { IfOk result (λ w. w ≡ row weeks (started_in orders.now)) }
    ensures over { IfErr result (λ fault. fault ≡ PhaseFault.TooLarge → greatest_quantity < sum_by (λ order. order.start) orders.now) }
{
    let mut started = zero_weeks(alloc, weeks)?;
    for order in orders {
        or_over(add_in(&mut started, weeks, order.release, order.start))?;
    }
    Ok(started)
}

// The planned receipts of an item, from its gross requirements, stock and scheduled receipts.
fn receipts_row(
    alloc: Global,
    inputs: &Inputs,
    item: usize,
    gross: &Weeks<Qty>,
    stock: &Stock,
) -> Result<Weeks<Qty>, PhaseFault>
    requires item { item < count inputs.now }
    requires weeks { length gross.now ≡ horizon inputs.now }
    requires stock { stock.now ≡ stock_of inputs.now item }
    ensures value { IfOk result (λ w. w ≡ receipts_of inputs.now item gross.now) }
    ensures within { OnOk result (AreWithin inputs.now item gross.now) }
    ensures over { IfErr result (λ fault. fault ≡ PhaseFault.TooLarge → ArePast inputs.now item gross.now) }
{
    let weeks = inputs.weeks();
    let needs = need(alloc, gross, stock)?;
    let received = lot_receipts(alloc, &needs, &inputs.entry(item))?;
    or_over(supplies(stock, received.at(weeks)))?;
    Ok(received)
}

// The same, from the gross requirements alone. The stock is given back before orders are made.
fn own_receipts(
    alloc: Global,
    inputs: &Inputs,
    item: usize,
    gross: &Weeks<Qty>,
) -> Result<Weeks<Qty>, PhaseFault>
    requires item { item < count inputs.now }
    requires weeks { length gross.now ≡ horizon inputs.now }
    ensures value { IfOk result (λ w. w ≡ receipts_of inputs.now item gross.now) }
    ensures within { OnOk result (AreWithin inputs.now item gross.now) }
    ensures over { IfErr result (λ fault. fault ≡ PhaseFault.TooLarge → ArePast inputs.now item gross.now) }
{
    let stock = stock_for(alloc, inputs, item)?;
    receipts_row(alloc, inputs, item, gross, &stock)
}

// Whether all parents of an item are planned.
fn are_planned<P: ParentOutcomes>(inputs: &Inputs, item: usize, parents: &P) -> bool
    requires item { item < count inputs.now }
    requires parents { HasParentsOf P.has parents.now inputs.now item }
    ensures { result ≡ list_all (λ p. is_planned (outcome_of inputs.now p)) (parents_of inputs.now.tables.bills (count inputs.now) item) }
{
    let above = inputs.shop().parents(item);
    for parent in above {
        if !parents.outcome(*parent).is_planned() {
            return false;
        }
    }
    true
}

// The rows of an item whose parents are all planned.
fn own_rows<P: ParentOutcomes>(
    alloc: Global,
    inputs: &Inputs,
    item: usize,
    parents: &P,
) -> Result<Arc<PlanRows>, PhaseFault>
    requires item { item < count inputs.now }
    requires parents { HasParentsOf P.has parents.now inputs.now item }
    requires ready { IsReady inputs.now item }
    ensures rows { IfOk result (λ rows. AreRowsOf inputs.now item rows.value) }
    ensures over { IfErr result (λ fault. fault ≡ PhaseFault.TooLarge → outcome_of inputs.now item ≡ plan.Over) }
{
    // Its codes rank the items, parents above their components.
    let _ranked = inputs.shop();
    let gross = gross_row(alloc, inputs, item, parents)?;
    let receipts = own_receipts(alloc, inputs, item, &gross)?;
    let orders = orders_for(alloc, inputs, item, receipts.as_slice())?.into_vec();
    let started = started_row(alloc, inputs.weeks(), orders.as_slice())?;
    let rows = PlanRows {
        gross,
        receipts,
        orders,
        started,
    };
    Ok(Arc::new(alloc, rows)?)
}

// The outcome of planning an item, from its rows, or from why they cannot be finished.
fn outcome_from(
    source: Arc<Inputs>,
    item: usize,
    rows: Result<Arc<PlanRows>, PhaseFault>,
) -> Result<Outcome, NoMemory>
    requires item { item < count source.value }
    requires rows { IfOk rows (λ rows. AreRowsOf source.value item rows.value) }
    requires over { IfErr rows (λ fault. fault ≡ PhaseFault.TooLarge → outcome_of source.value item ≡ plan.Over) }
    ensures { MatchResult result (λ o. o ≡ item_from source.value item) (λ _. IsErrOf rows PhaseFault.NoMemory) }
{
    match rows {
        Ok(rows) => Ok(Outcome::planned(Planned::new(source, item, rows))),
        Err(PhaseFault::TooLarge) => Ok(Outcome::over(source, item)),
        Err(PhaseFault::NoMemory) => Err(NoMemory),
    }
}

/// The outcome of planning an item: its plan, or that it is over, or blocked by one above it (profile).
/// It plans by netting, the item's lot rule, scrap and lead time (Orlicky).
///
/// It needs the outcomes of the item's parents, of equal inputs, where they are kept.
///
/// Errors: `NoMemory` if an allocation fails, or a reference count cannot rise.
pub fn plan_among<P: ParentOutcomes>(
    alloc: Global,
    inputs: &Arc<Inputs>,
    item: usize,
    parents: &P,
) -> Result<Outcome, NoMemory>
    requires item { item < count inputs.now.value }
    requires parents { HasParentsOf P.has parents.now inputs.now.value item }
    ensures { IfOk result (λ o. o ≡ item_from inputs.now.value item) }
{
    let source = inputs.clone()?;
    // Its codes rank the items, parents above their components.
    let _ranked = source.shop();
    if !are_planned(inputs, item, parents) {
        return Ok(Outcome::blocked(source, item));
    }
    outcome_from(source, item, own_rows(alloc, inputs, item, parents))
}

/// The outcome of planning an item, as by [`plan_among`], from the outcomes of its distinct parents, in table
/// order, of equal inputs.
///
/// Errors: `NoMemory` if an allocation fails, or a reference count cannot rise.
pub fn plan_item(
    alloc: Global,
    inputs: &Arc<Inputs>,
    item: usize,
    parents: &[Outcome],
) -> Result<Outcome, NoMemory>
    requires item { item < count inputs.now.value }
    requires parents { parents.now ≡ parents_from inputs.now.value item }
    ensures { IfOk result (λ o. o ≡ item_from inputs.now.value item) }
{
    let listed = Listed {
        items: inputs.shop().parents(item),
        outcomes: parents,
    };
    plan_among(alloc, inputs, item, &listed)
}
