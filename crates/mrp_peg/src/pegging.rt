//! The pegs of an item and of a plan.

ghost use Rattle.std.specs.Prelude.{◌≡◌, ◌<◌, ◌≤◌, ℕ, IfOk, OnOk};
ghost use Rattle.mrp_item.specs.Inputs.{count, horizon, is_master, item_at};
ghost use Rattle.mrp_item.specs.Limits.{IsSized};
ghost use Rattle.mrp_peg.specs.Laws.{AddUpToRequirements, AddUpToSupplies};
ghost use Rattle.mrp_peg.specs.Units.{total};
ghost use Rattle.mrp_peg.specs.Own.{IsOwn};
ghost use Rattle.mrp_phase.specs.Weeks.{weeks};
ghost use Rattle.mrp_peg.specs.Weekly.{AreWithin, by_weeks};
ghost use Rattle.mrp_peg.specs.Matching.{amounts_required};
ghost use Rattle.mrp_peg.specs.Pegging.{pegs_for, pegs_of, plan_pegs, requirements, supplies};
ghost use Rattle.mrp_peg.specs.Rows.{all_requirements};

use crate::demand::demand_of;
use crate::matching::Requirement;
use crate::ordering::sort_needs;
use crate::part::part_needs;
use crate::peg::Peg;
use crate::peg_walk::PegWalk;
use mrp_item::{Inputs, Plan};
use mrp_qty::NoMemory;
use std::alloc::Global;

// Whether the master schedule plans an item.
pub fn is_master_item(inputs: &Inputs, item: usize) -> bool
    requires { item < count inputs.now }
    ensures class { result ≡ is_master inputs.now item }
    ensures sized { IsSized (item_at inputs.now item) }
{
    inputs.entry(item).class.is_master()
}

// The requirements of an item as rows, in order of weeks.
fn listed_needs(alloc: Global, plan: &Plan, item: usize) -> Result<Vec<Requirement>, NoMemory>
    requires item { item < count plan.now.inputs }
    requires own { IsOwn plan.now.inputs item }
    requires within { AreWithin (λ requirement. requirement.need.week) 1 (horizon plan.now.inputs) (all_requirements plan.now.inputs item) }
    ensures needs { IfOk result (λ needs. needs.items ≡ by_weeks (λ requirement. requirement.need.week) (weeks (horizon plan.now.inputs)) (all_requirements plan.now.inputs item)) }
    ensures sized { IsSized (item_at plan.now.inputs item) }
{
    let inputs: &Inputs = plan.inputs();
    if is_master_item(inputs, item) {
        let demand = plan.item(item).gross();
        let mut needs = demand_of(
            alloc,
            item,
            inputs.weeks(),
            demand.as_slice(),
            inputs.bookings(item),
        )?;
        sort_needs(&mut needs)?;
        return Ok(needs);
    }
    part_needs(alloc, plan, item)
}

// The requirements of an item, in order. The item's supplies cover them.
pub fn needs_of(alloc: Global, plan: &Plan, item: usize) -> Result<Vec<Requirement>, NoMemory>
    requires { item < count plan.now.inputs }
    ensures needs { IfOk result (λ needs. amounts_required needs.items ≡ requirements plan.now.inputs item) }
    ensures covered { OnOk result (total (requirements plan.now.inputs item) ≤ total (supplies plan.now.inputs item)) }
{
    let inputs: &Inputs = plan.inputs();
    // Codes rank the items, and what is booked and the service rows are due in weeks of the horizon.
    let _ranked = inputs.shop();
    let _booked = inputs.snapshot();
    let _services = inputs.services(item);
    listed_needs(alloc, plan, item)
}

/// The pegs of an item, by its place in the table, in order of requirement and supply, surplus last
/// (Orlicky: pegging; profile: the first piece required is served by the first piece supplied, and
/// so on). The pegs of each requirement add up to it, and those of each supply, with its surplus,
/// to the supply. The caller guarantees that the shop has the item.
///
/// Errors: `NoMemory` if an allocation fails.
pub fn item_pegs(alloc: Global, plan: &Plan, item: usize) -> Result<Vec<Peg>, NoMemory>
    requires { item < count plan.now.inputs }
    ensures pegs { IfOk result (λ pegs. pegs.items ≡ pegs_of plan.now.inputs item) }
    ensures requirements { IfOk result (λ pegs. AddUpToRequirements plan.now.inputs item pegs.items) }
    ensures supplies { IfOk result (λ pegs. AddUpToSupplies plan.now.inputs item pegs.items) }
{
    let mut walk = PegWalk::of(alloc, plan, item)?;
    let mut pegs = Vec::new(alloc);
    while let Some(peg) = walk.next()? {
        pegs.push(peg)?;
    }
    Ok(pegs)
}

/// The pegs of all items, in table order. The pegs of each requirement add up to it, and those of
/// each supply, with its surplus, to the supply.
///
/// Errors: `NoMemory` if an allocation fails.
pub fn pegs(alloc: Global, plan: &Plan) -> Result<Vec<Peg>, NoMemory>
    ensures pegs { IfOk result (λ pegs. pegs.items ≡ plan_pegs plan.now.inputs) }
    ensures requirements { IfOk result (λ pegs. (i : ℕ) → i < count plan.now.inputs → AddUpToRequirements plan.now.inputs i (pegs_for i pegs.items)) }
    ensures supplies { IfOk result (λ pegs. (i : ℕ) → i < count plan.now.inputs → AddUpToSupplies plan.now.inputs i (pegs_for i pegs.items)) }
{
    let mut all = Vec::new(alloc);
    for item in 0..plan.inputs().shop().tables().items().len() {
        let mut pegs = item_pegs(alloc, plan, item)?;
        all.append(&mut pegs)?;
    }
    Ok(all)
}
