//! The projected available balance of an item at the end of each week.

ghost use Rattle.std.specs.Prelude.{◌≡◌, ◌≤◌, ◌<◌, ◌+◌, ◌⊎◌, ◌↔◌, length, sum, IfOk, OnOk, IsErrOf, IsTrue};
ghost use Rattle.mrp_qty.specs.Quantity.{greatest_quantity};
ghost use Rattle.mrp_phase.specs.Weeks.{in_week, row, sum_to};
ghost use Rattle.mrp_net.specs.Need.{balance, supply, IsNeed};

use crate::needs::{SoFar, are_within};
use crate::stock::Stock;
use mrp_phase::{PhaseFault as NetFault, Weeks};
use mrp_qty::{NoMemory, Qty};
use std::alloc::Global;

/// The balance at the end of each week, from the gross requirements of each week and the cumulative
/// planned receipts, which do not fall (APICS Dictionary: projected available balance). It is 0 where
/// requirements exceed all supplies.
///
/// Errors: `TooLarge` exactly where gross requirements and safety stock, or what is on hand,
/// scheduled and planned, add up to more than the greatest quantity, before anything is allocated, and
/// `NoMemory` if the row cannot be allocated.
pub fn balance_row(
    alloc: Global,
    gross: &Weeks<Qty>,
    stock: &Stock,
    receipts: &Weeks<Qty>,
) -> Result<Weeks<Qty>, NetFault>
    requires scheduled { length stock.now.scheduled ≡ length gross.now }
    requires receipts { length receipts.now ≡ length gross.now }
    requires rises { IsNeed (length gross.now) (in_week receipts.now) }
    ensures value { IfOk result (λ w. w ≡ row (length gross.now) (λ week. balance stock.now gross.now (in_week receipts.now week) week)) }
    ensures requirements { OnOk result (sum gross.now + stock.now.safety ≤ greatest_quantity) }
    ensures supplies { OnOk result (supply stock.now (in_week receipts.now (length gross.now)) (length gross.now) ≤ greatest_quantity) }
    ensures too_large { IsErrOf result NetFault.TooLarge ↔ ((greatest_quantity < sum gross.now + stock.now.safety) ⊎ (greatest_quantity < supply stock.now (in_week receipts.now (length gross.now)) (length gross.now))) }
{
    if !are_within(gross, stock) || !is_supply_within(stock, receipts) {
        return Err(NetFault::TooLarge);
    }
    Ok(balances_within(alloc, gross, stock, receipts)?)
}

// The planned receipts up to the last week.
#[tactic(auto, using(mrp_phase::proofs::WeekRows::in_week_at), unfolding(mrp_phase::specs::Weeks::in_week))]
fn received_in_all(receipts: &[Qty]) -> Qty
    ensures { result ≡ in_week receipts.now (length receipts.now) }
{
    match receipts.last() {
        Some(received) => *received,
        None => Qty::new(0).unwrap(),
    }
}

// Whether what is on hand, scheduled and planned is within the greatest quantity.
#[tactic(auto, using(mrp_phase::proofs::WeekRows::sum_to_whole))]
fn is_supply_within(stock: &Stock, receipts: &Weeks<Qty>) -> bool
    requires { length stock.now.scheduled ≡ length receipts.now }
    ensures { IsTrue result ↔ (supply stock.now (in_week receipts.now (length receipts.now)) (length receipts.now) ≤ greatest_quantity) }
{
    let received = received_in_all(receipts.as_slice());
    match stock.scheduled.sum_from(stock.on_hand) {
        Some(supplied) => supplied.add(received).is_some(),
        None => false,
    }
}

// The balance at the end of each week, of requirements and supplies that are within the greatest
// quantity.
#[tactic(auto, using(mrp_phase::proofs::WeekRows::row_none, mrp_phase::proofs::WeekRows::row_more, mrp_phase::proofs::WeekRows::sum_to_whole, mrp_phase::proofs::WeekRows::sum_to_next, mrp_phase::proofs::WeekRows::in_week_next))]
fn balances_within(
    alloc: Global,
    gross: &Weeks<Qty>,
    stock: &Stock,
    receipts: &Weeks<Qty>,
) -> Result<Weeks<Qty>, NoMemory>
    requires scheduled { length stock.now.scheduled ≡ length gross.now }
    requires receipts { length receipts.now ≡ length gross.now }
    requires rises { IsNeed (length gross.now) (in_week receipts.now) }
    requires requirements { sum gross.now + stock.now.safety ≤ greatest_quantity }
    requires supplies { supply stock.now (in_week receipts.now (length gross.now)) (length gross.now) ≤ greatest_quantity }
    ensures { IfOk result (λ w. w ≡ row (length gross.now) (λ week. balance stock.now gross.now (in_week receipts.now week) week)) }
{
    let gross = gross.as_slice();
    let scheduled = stock.scheduled.as_slice();
    let received = receipts.as_slice();
    let mut balances = Vec::with_capacity(alloc, gross.len())?;
    let mut so_far = SoFar::start(stock.safety, stock.on_hand);
    for i in 0..gross.len() {
        so_far = so_far.with(gross[i], scheduled[i]);
        balances.push(so_far.balance(stock.safety, received[i]))?;
    }
    Ok(Weeks::from_vec(balances))
}

/// Whether cumulative planned receipts, from week 1 on, never fall, as `balance_row` requires.
#[tactic(auto, using(mrp_phase::proofs::WeekRows::in_week_next))]
pub fn never_fall(receipts: &[Qty]) -> bool
    ensures { IsTrue result ↔ IsNeed (length receipts.now) (in_week receipts.now) }
{
    let mut before = 0;
    for quantity in receipts {
        if quantity.value() < before {
            return false;
        }
        before = quantity.value();
    }
    true
}
