//! An item's stock and scheduled receipts, and the independent demand of a master item.

ghost use Rattle.std.specs.Prelude.{◌≡◌, ◌<◌, ◌+◌, ℕ, length, max, sum, IfOk, IfErr};
ghost use Rattle.mrp_qty.specs.Quantity.{greatest_quantity};
ghost use Rattle.mrp_phase.specs.Weeks.{in_week, row};
ghost use Rattle.mrp_item.specs.Inputs.{count, horizon};
ghost use Rattle.mrp_item.specs.Rows.{independent_demand, scheduled_in, stock_of};
ghost use Rattle.mrp_item.specs.Dues.{due_sum};

use crate::due::{Due, dated};
use crate::inputs::Inputs;
use crate::planned::Planned;
use mrp_net::Stock;
use mrp_phase::{PhaseFault, Weeks};
use mrp_qty::{NoMemory, Qty};
use std::alloc::Global;

// The scheduled receipts of an item: the firm rows of a master item, the open receipts of a part.
fn scheduled_dues(inputs: &Inputs, item: usize) -> &[Due]
    requires { item < count inputs.now }
    ensures { (week : ℕ) → due_sum result.now week ≡ scheduled_in inputs.now item week }
{
    if inputs.entry(item).class.is_master() {
        inputs.firm(item)
    } else {
        inputs.receipts(item)
    }
}

// An item's stock on hand, safety stock and scheduled receipts.
pub fn stock_for(alloc: Global, inputs: &Inputs, item: usize) -> Result<Stock, PhaseFault>
    requires { item < count inputs.now }
    ensures value { IfOk result (λ stock. stock ≡ stock_of inputs.now item) }
    ensures over { IfErr result (λ fault. fault ≡ PhaseFault.TooLarge → greatest_quantity < (stock_of inputs.now item).on_hand + sum (stock_of inputs.now item).scheduled) }
{
    let entry = inputs.entry(item);
    let on_hand = inputs.on_hand(item);
    let scheduled = dated(alloc, inputs.weeks(), scheduled_dues(inputs, item))?;
    Ok(Stock {
        on_hand,
        safety: entry.safety,
        scheduled,
    })
}

// The greater of two rows in each week.
#[tactic(auto, using(mrp_phase::proofs::WeekRows::row_none, mrp_phase::proofs::WeekRows::row_more, mrp_phase::proofs::WeekRows::in_week_next))]
fn higher(alloc: Global, one: &[Qty], other: &[Qty]) -> Result<Weeks<Qty>, NoMemory>
    requires { length other.now ≡ length one.now }
    ensures { IfOk result (λ w. w ≡ row (length one.now) (λ week. max (in_week one.now week) (in_week other.now week))) }
{
    let mut greater = Vec::with_capacity(alloc, one.len())?;
    for i in 0..one.len() {
        greater.push(one[i].max(other[i]))?;
    }
    Ok(Weeks::from_vec(greater))
}

// The independent demand of a master item in each week: the greater of forecast and bookings.
pub fn independent_demand(
    alloc: Global,
    inputs: &Inputs,
    item: usize,
) -> Result<Weeks<Qty>, PhaseFault>
    requires { item < count inputs.now }
    ensures value { IfOk result (λ w. w ≡ row (horizon inputs.now) (independent_demand inputs.now item)) }
    ensures over { IfErr result (λ fault. fault ≡ PhaseFault.TooLarge → greatest_quantity < sum (row (horizon inputs.now) (independent_demand inputs.now item))) }
{
    let weeks = inputs.weeks();
    let forecast = dated(alloc, weeks, inputs.forecasts(item))?;
    let booked = dated(alloc, weeks, inputs.bookings(item))?;
    Ok(higher(alloc, forecast.as_slice(), booked.as_slice())?)
}

impl Planned {
    ghost use Rattle.std.specs.Prelude.{◌≡◌, IfOk};
    ghost use Rattle.mrp_item.specs.Rows.{stock_of};

    /// The item's stock and scheduled receipts, before planning. No plan keeps them: few items have
    /// scheduled receipts, and theirs are quickly added up.
    ///
    /// Errors: `NoMemory` if an allocation fails.
    pub fn stock(&self, alloc: Global) -> Result<Stock, NoMemory>
        ensures { IfOk result (λ stock. stock ≡ stock_of self.now.inputs self.now.item) }
    {
        match stock_for(alloc, self.inputs(), self.item()) {
            Ok(stock) => Ok(stock),
            Err(PhaseFault::NoMemory) => Err(NoMemory),
            Err(PhaseFault::TooLarge) => unreachable!(),
        }
    }
}
