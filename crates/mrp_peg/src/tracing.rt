//! The trace of a requirement.

ghost use Rattle.std.specs.Prelude.{◌≡◌, ◌<◌, ◌∷◌, [], true, length, fold, IfOk, OnOk};
ghost use Rattle.mrp_item.specs.Inputs.{count};
ghost use Rattle.mrp_peg.specs.Causes.{ends_in, is_need_of, IsTrace};
ghost use Rattle.mrp_peg.specs.Pegging.{pegs_of, plan_pegs};
ghost use Rattle.mrp_peg.specs.Walk as walk;
ghost use Rattle.mrp_peg.specs.Walk.{with_known, AreAmong};

use crate::peg::{Cause, Need, Peg};
use crate::pegging::item_pegs;
use crate::sourcing::has_need;
use crate::walking::{Ends, add_cause, cause_of, ends_of, own_cause};
use indexmap::IndexSet;
use mrp_item::Plan;
use mrp_qty::NoMemory;
use std::alloc::Global;

// The cause that a peg ends in, if it is among these causes.
#[tactic(auto, using(crate::proofs::Same::held))]
fn known(causes: &IndexSet<Cause>, peg: &Peg) -> Option<Cause>
    ensures { result ≡ walk.known causes.now.keys (ends_in peg.now) }
{
    match cause_of(peg) {
        Some(cause) if causes.contains(&cause) => Some(cause),
        _ => None,
    }
}

// Adds those of the causes that pegs end in.
#[tactic(auto, using(std::proofs::lemmas::List::Sums::fold_more))]
fn add_known(
    found: &mut IndexSet<Cause>,
    causes: &IndexSet<Cause>,
    pegs: &[Peg],
) -> Result<(), NoMemory>
    ensures { OnOk result (found.new.keys ≡ fold (with_known causes.now.keys) found.old.keys pegs.now) }
{
    for peg in pegs {
        add_cause(found, known(causes, peg))?;
    }
    Ok(())
}

// Adds those of the causes that an item's pegs end in. An item that was not visited has none.
fn add_item(
    alloc: Global,
    plan: &Plan,
    item: usize,
    ends: &Ends,
    found: &mut IndexSet<Cause>,
) -> Result<(), NoMemory>
    requires item { item < count plan.now.inputs }
    requires among { AreAmong ends.now.causes.keys ends.now.items.keys }
    ensures { OnOk result (found.new.keys ≡ fold (with_known ends.now.causes.keys) found.old.keys (pegs_of plan.now.inputs item)) }
{
    if !ends.items.contains(&item) {
        return Ok(());
    }
    let pegs = item_pegs(alloc, plan, item)?;
    add_known(found, &ends.causes, &pegs)
}

fn copy_of(alloc: Global, causes: &[Cause]) -> Result<Vec<Cause>, NoMemory>
    ensures { IfOk result (λ copy. copy.items ≡ causes.now) }
{
    let mut copy = Vec::with_capacity(alloc, causes.len())?;
    for cause in causes {
        copy.push(*cause)?;
    }
    Ok(copy)
}

// The causes in order of the plan's pegs, each at the first peg that ends in it.
#[tactic(auto, using(crate::proofs::Gathered::gathered))]
fn in_order(alloc: Global, plan: &Plan, ends: &Ends) -> Result<Vec<Cause>, NoMemory>
    requires { AreAmong ends.now.causes.keys ends.now.items.keys }
    ensures { IfOk result (λ trace. trace.items ≡ fold (with_known ends.now.causes.keys) [] (plan_pegs plan.now.inputs)) }
{
    let mut found = IndexSet::new(alloc);
    for item in 0..plan.inputs().shop().tables().items().len() {
        add_item(alloc, plan, item, ends, &mut found)?;
    }
    copy_of(alloc, found.as_slice())
}

// A list of a single cause.
fn alone(alloc: Global, cause: Cause) -> Result<Vec<Cause>, NoMemory>
    ensures { IfOk result (λ trace. trace.items ≡ cause ∷ []) }
{
    let mut trace = Vec::new(alloc);
    trace.push(cause)?;
    Ok(trace)
}

/// The causes of a requirement: the bookings, the forecasts, the service rows and the surplus of
/// orders that its sources, followed upwards, end in, each once, in order of item and peg (Orlicky:
/// full pegging; profile: surplus). A booking, a forecast or a service row of the plan is its own
/// cause. Each requirement of the plan has at least one cause; a requirement that is not one of the
/// plan's has none.
///
/// Errors: `NoMemory` if an allocation fails.
pub fn trace(alloc: Global, plan: &Plan, need: &Need) -> Result<Vec<Cause>, NoMemory>
    ensures causes { IfOk result (λ causes. IsTrace plan.now.inputs need.now causes.items) }
    ensures some { IfOk result (λ causes. is_need_of plan.now.inputs need.now ≡ true → 0 < length causes.items) }
{
    if !has_need(alloc, plan, need)? {
        return Ok(Vec::new(alloc));
    }
    match own_cause(need) {
        Some(cause) => alone(alloc, cause),
        None => {
            let ends = ends_of(alloc, plan, need)?;
            in_order(alloc, plan, &ends)
        }
    }
}
