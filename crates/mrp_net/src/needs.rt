//! The net requirements of an item up to each week.

ghost use Rattle.std.specs.Prelude.{◌≡◌, ◌≤◌, ◌<◌, ◌+◌, ◌-◌, ◌⊎◌, ◌↔◌, length, sum, IfOk, OnOk, IsErrOf, IsTrue};
ghost use Rattle.mrp_qty.specs.Quantity.{greatest_quantity};
ghost use Rattle.mrp_phase.specs.Weeks.{in_week, row};
ghost use Rattle.mrp_net.specs.Need.{IsNeed, need};

use crate::stock::Stock;
use mrp_phase::{PhaseFault as NetFault, Weeks};
use mrp_qty::{NoMemory, Qty};
use std::alloc::Global;
use std::marker::Model;

/// Net requirements up to each week. They do not fall.
#[derive(Drop)]
pub struct NeedRow {
    needs: Vec<Qty>,
}

impl Model for NeedRow {
    ghost use Rattle.std.specs.Prelude.{ℕ, List, length};
    ghost use Rattle.mrp_phase.specs.Weeks.{in_week};
    ghost use Rattle.mrp_net.specs.Need.{IsNeed};

    ghost Value = { List ℕ };

    ghost view = { λ n. n.needs.items };

    ghost invariant = { λ n. IsNeed (length n.needs.items) (in_week n.needs.items) };
}

impl NeedRow {
    /// The net requirements up to each week, from week 1 on.
    pub fn as_slice(&self) -> &[Qty]
        ensures value { result.now ≡ self.now }
        ensures rises { IsNeed (length result.now) (in_week result.now) }
    {
        self.needs.as_slice()
    }
}

// Requirements and supplies up to a week, and the greatest shortage so far.
#[derive(Clone, Copy)]
pub(crate) struct SoFar {
    required: Qty,
    supplied: Qty,
    shortage: Qty,
}

// The excess of one quantity over another, or 0.
fn excess(required: Qty, supplied: Qty) -> Qty
    ensures { result ≡ required - supplied }
{
    let more = required.value().saturating_sub(supplied.value());
    Qty::new(more).unwrap()
}

impl SoFar {
    ghost use Rattle.std.specs.Prelude.{◌≡◌, ◌≤◌, ◌+◌, ◌-◌};
    ghost use Rattle.mrp_qty.specs.Quantity.{greatest_quantity};
    ghost use Rattle.mrp_net.specs.SoFar.{AddsWeek, IsStart};

    // Before the first week.
    pub(crate) fn start(safety: Qty, on_hand: Qty) -> SoFar
        ensures { IsStart safety on_hand result }
    {
        let shortage = excess(safety, safety);
        // No quantity passes the greatest.
        let _limits = (safety.value(), on_hand.value());
        SoFar {
            required: safety,
            supplied: on_hand,
            shortage,
        }
    }

    // One more week, if neither requirements nor supplies pass the greatest quantity.
    pub(crate) fn with(self, gross: Qty, scheduled: Qty) -> SoFar
        requires required { self.required + gross ≤ greatest_quantity }
        requires supplied { self.supplied + scheduled ≤ greatest_quantity }
        ensures { AddsWeek self gross scheduled result }
    {
        let required = self.required.add(gross).unwrap();
        let supplied = self.supplied.add(scheduled).unwrap();
        SoFar {
            required,
            supplied,
            shortage: self.shortage.max(excess(required, supplied)),
        }
    }

    // The balance with the planned receipts, safety stock included, if supplies do not pass the
    // greatest quantity.
    pub(crate) fn balance(&self, safety: Qty, received: Qty) -> Qty
        requires { self.now.supplied + received ≤ greatest_quantity }
        ensures { result ≡ (self.now.supplied + received) - (self.now.required - safety) }
    {
        let supplied = self.supplied.add(received).unwrap();
        excess(supplied, excess(self.required, safety))
    }
}

// Whether gross requirements with the safety stock, and what is on hand and scheduled, are within
// the greatest quantity.
pub(crate) fn are_within(gross: &Weeks<Qty>, stock: &Stock) -> bool
    ensures { IsTrue result ↔ ((sum gross.now + stock.now.safety ≤ greatest_quantity) × (stock.now.on_hand + sum stock.now.scheduled ≤ greatest_quantity)) }
{
    gross.sum_from(stock.safety).is_some() && stock.scheduled.sum_from(stock.on_hand).is_some()
}

/// The net requirements up to each week, by the gross requirements of each (Orlicky: netting).
///
/// Errors: `TooLarge` exactly where gross requirements and safety stock, or what is on hand and
/// scheduled, add up to more than the greatest quantity, before anything is allocated, and `NoMemory`
/// if the row cannot be allocated.
pub fn need(alloc: Global, gross: &Weeks<Qty>, stock: &Stock) -> Result<NeedRow, NetFault>
    requires { length stock.now.scheduled ≡ length gross.now }
    ensures value { IfOk result (λ n. n ≡ row (length gross.now) (need stock.now gross.now)) }
    ensures requirements { OnOk result (sum gross.now + stock.now.safety ≤ greatest_quantity) }
    ensures supplies { OnOk result (stock.now.on_hand + sum stock.now.scheduled ≤ greatest_quantity) }
    ensures too_large { IsErrOf result NetFault.TooLarge ↔ ((greatest_quantity < sum gross.now + stock.now.safety) ⊎ (greatest_quantity < stock.now.on_hand + sum stock.now.scheduled)) }
{
    if !are_within(gross, stock) {
        return Err(NetFault::TooLarge);
    }
    Ok(needs_within(alloc, gross, stock)?)
}

// The net requirements up to each week, of requirements and supplies that are within the greatest
// quantity.
#[tactic(auto, using(mrp_phase::proofs::WeekRows::row_none, mrp_phase::proofs::WeekRows::row_more, mrp_phase::proofs::WeekRows::sum_to_within, mrp_phase::proofs::WeekRows::sum_to_next, mrp_phase::proofs::WeekRows::in_week_next, mrp_phase::proofs::WeekRows::greatest_none, mrp_phase::proofs::WeekRows::greatest_more))]
fn needs_within(alloc: Global, gross: &Weeks<Qty>, stock: &Stock) -> Result<NeedRow, NoMemory>
    requires weeks { length stock.now.scheduled ≡ length gross.now }
    requires requirements { sum gross.now + stock.now.safety ≤ greatest_quantity }
    requires supplies { stock.now.on_hand + sum stock.now.scheduled ≤ greatest_quantity }
    ensures { IfOk result (λ n. n ≡ row (length gross.now) (need stock.now gross.now)) }
{
    let gross = gross.as_slice();
    let scheduled = stock.scheduled.as_slice();
    let mut needs = Vec::with_capacity(alloc, gross.len())?;
    let mut so_far = SoFar::start(stock.safety, stock.on_hand);
    for i in 0..gross.len() {
        so_far = so_far.with(gross[i], scheduled[i]);
        needs.push(so_far.shortage)?;
    }
    Ok(NeedRow { needs })
}
