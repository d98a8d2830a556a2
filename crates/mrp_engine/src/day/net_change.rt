//! Net change: the plan of other bookings, from an older plan of the shop.

ghost use Rattle.std.specs.Prelude.{◌≡◌, ◌<◌, ◌≤◌, ℕ, All, IfOk, IsSome, IsTrue, None, OnOk, Some, false, length, map, replicate, true};
ghost use Rattle.std.specs.Int.{IsInRange};
ghost use Rattle.std.specs.List.{slice_index_or};
ghost use Rattle.std.specs.Option.{option_copied};
ghost use Rattle.mrp_bill.specs.Bill.{parents_of};
ghost use Rattle.mrp_master.specs.Supply.{supply_of};
ghost use Rattle.mrp_book.specs.Booked.{AreBooked};
ghost use Rattle.mrp_item.specs.Inputs.{count, inputs_of};
ghost use Rattle.mrp_item.specs.Made.{all_from, parents_from};
ghost use Rattle.mrp_item.specs.NetChange.{RisesByTouched};
ghost use Rattle.mrp_item.specs.Plan.{first_over};
ghost use Rattle.mrp_explode.specs.Explosion.{Explodes};
ghost use Rattle.mrp_engine.specs.day.NetChange.{AreOwn, IsMade, IsRemade, KeepMarked};
ghost use Rattle.mrp_engine.specs.day.RunPlans.{IsOfShop};

use crate::day::planning::{inputs_of, plan_run_by};
use crate::day::run::MOST_WORKERS;
use mrp_book::Snapshot;
use mrp_explode::{Gate, RunFault, out_of_places, plan_from};
use mrp_item::{Inputs, Plan, Planner, ShopRows, Work};
use mrp_qty::NoMemory;
use std::alloc::Global;
use std::sync::{Arc, Wait};
use std::thread::Threads;

// Whether all of these items are marked.
fn are_marked(marks: &[bool], items: &[usize]) -> bool
    requires { All (λ i. i < length marks.now) items.now }
    ensures { IsTrue result → All (λ i. slice_index_or marks.now i false ≡ true) items.now }
{
    for item in items {
        if !marks[*item] {
            return false;
        }
    }
    true
}

// A copy of the outcome in an item's place.
fn copy_of<P: Planner>(
    planner: &P,
    made: &[Option<P::Made>],
    item: usize,
) -> Result<P::Made, NoMemory>
    requires { IsMade made.now item }
    ensures { IfOk result (λ copy. slice_index_or made.now item None ≡ Some copy) }
{
    match made.get(item) {
        Some(Some(outcome)) => planner.copy(outcome),
        _ => unreachable!(),
    }
}

// Copies of the outcomes of an item's parents.
fn copies_for<P: Planner>(
    alloc: Global,
    planner: &P,
    inputs: &Inputs,
    item: usize,
    made: &[Option<P::Made>],
) -> Result<Vec<P::Made>, NoMemory>
    requires item { item < count inputs.now }
    requires own { AreOwn P.item_of inputs.now made.now }
    requires ready { All (IsMade made.now) (parents_of inputs.now.tables.bills (count inputs.now) item) }
    ensures { IfOk result (λ copies. map P.item_of copies.items ≡ parents_from inputs.now item) }
{
    let parents = inputs.shop().parents(item);
    let mut copies = Vec::with_capacity(alloc, parents.len())?;
    for parent in parents {
        copies.push(copy_of(planner, made, *parent)?)?;
    }
    Ok(copies)
}

// The outcome of an item, carried over if it can be, and else planned; beside it whether it was carried over.
fn carry_or_plan<P: Planner>(
    alloc: Global,
    planner: &mut P,
    old: &Plan,
    inputs: &Arc<Inputs>,
    item: usize,
    parents: &[P::Made],
) -> Result<(P::Made, bool), NoMemory>
    requires tables { old.now.inputs.tables ≡ inputs.now.value.tables }
    requires item { item < count inputs.now.value }
    requires parents { map P.item_of parents.now ≡ parents_from inputs.now.value item }
    ensures { IfOk result (λ r. IsRemade old.now.inputs inputs.now.value item (P.planned planner.old) (P.planned planner.new) (P.item_of r.0) r.1) }
{
    // What net change leaves alone keeps its orders: the older plan is whole, and codes rank the items.
    let _whole = old.inputs();
    let _ranked = inputs.shop();
    match planner.carry(old, item, inputs, parents)? {
        Some(carried) => Ok((carried, true)),
        None => Ok((planner.plan(alloc, inputs, item, parents)?, false)),
    }
}

// The outcome of an item whose parents' outcomes are made, and whether it was carried over. Nothing is compared where
// all parents keep their orders.
fn remake<P: Planner>(
    alloc: Global,
    planner: &mut P,
    old: &Plan,
    inputs: &Arc<Inputs>,
    item: usize,
    made: &[Option<P::Made>],
    kept: &[bool],
) -> Result<(P::Made, bool), NoMemory>
    requires tables { old.now.inputs.tables ≡ inputs.now.value.tables }
    requires item { item < count inputs.now.value }
    requires size { length kept.now ≡ count inputs.now.value }
    requires own { AreOwn P.item_of inputs.now.value made.now }
    requires kept { KeepMarked old.now.inputs inputs.now.value kept.now }
    requires ready { All (IsMade made.now) (parents_of inputs.now.value.tables.bills (count inputs.now.value) item) }
    ensures { IfOk result (λ r. IsRemade old.now.inputs inputs.now.value item (P.planned planner.old) (P.planned planner.new) (P.item_of r.0) r.1) }
{
    let shop = inputs.shop();
    // Master items are components of none.
    let _parts = shop.tables().bills();
    let _whole = old.inputs();
    let parents = shop.parents(item);
    if !parents.is_empty() && are_marked(kept, parents) {
        return Ok((planner.keep(old, item, inputs)?, true));
    }
    let copies = copies_for(alloc, planner, inputs, item, made)?;
    carry_or_plan(alloc, planner, old, inputs, item, &copies)
}

// A place for each of a number of outcomes.
fn no_outcomes<M: Drop>(alloc: Global, count: usize) -> Result<Vec<Option<M>>, NoMemory>
    ensures { IfOk result (λ made. made.items ≡ replicate count None) }
{
    let mut made = Vec::with_capacity(alloc, count)?;
    for _ in 0..count {
        made.push(None)?;
    }
    Ok(made)
}

// A mark for each of a number of items, none of them set.
fn no_marks(alloc: Global, count: usize) -> Result<Vec<bool>, NoMemory>
    ensures { IfOk result (λ marks. marks.items ≡ replicate count false) }
{
    Ok(vec![in alloc; false; count]?)
}

/// The outcomes of all items for other inputs of an equal shop, in table order, by net change from an older plan
/// (Orlicky): items are carried over from it where they can be, and else planned. If no item is over, the planner
/// plans touched items alone. Beside that, all items and bill lines are walked once; the orders of a parent that is
/// planned are compared once for each of its components.
///
/// Errors: `NoMemory` if an allocation fails, or a reference count cannot rise.
pub fn replan<P: Planner>(
    alloc: Global,
    old: &Plan,
    inputs: &Arc<Inputs>,
    planner: &mut P,
) -> Result<Vec<P::Made>, NoMemory>
    requires { old.now.inputs.tables ≡ inputs.now.value.tables }
    ensures outcomes { IfOk result (λ made. map P.item_of made.items ≡ all_from inputs.now.value) }
    ensures touched { first_over inputs.now.value ≡ None → OnOk result (RisesByTouched old.now.inputs inputs.now.value (P.planned planner.old) (P.planned planner.new)) }
{
    let count = inputs.shop().tables().items().len();
    let mut made = no_outcomes(alloc, count)?;
    let mut kept = no_marks(alloc, count)?;
    for item in inputs.shop().order() {
        let (outcome, is_kept) = remake(alloc, planner, old, inputs, *item, &made, &kept)?;
        made[*item] = Some(outcome);
        kept[*item] = is_kept;
    }
    out_of_places(alloc, made)
}

// The plan of other inputs of an equal shop, by net change from an older plan.
fn replanned(alloc: Global, old: &Plan, inputs: Arc<Inputs>) -> Result<Plan, RunFault>
    requires { old.now.inputs.tables ≡ inputs.value.tables }
    ensures { Explodes inputs.value result }
{
    let outcomes = replan(alloc, old, &inputs, &mut Work::new())?;
    plan_from(inputs, outcomes)
}

/// The plan of a run, from the rows of a shop and a snapshot of its order book: by net change from the last plan of
/// the shop, if there is one, otherwise by `workers` workers (1 to 64, as the caller guarantees), which pass the gate
/// before each item. The caller guarantees that the snapshot and the plan are of the shop.
///
/// Errors: `NoMemory` if an allocation fails; otherwise `TooLarge` with the first item in table order whose
/// quantities get too large while those of no item above it do.
pub fn plan_next<R: Threads + Wait + Sync, G: Gate + Sync>(
    rt: &R,
    alloc: Global,
    rows: &Arc<ShopRows>,
    last: Option<&Plan>,
    snapshot: &Snapshot,
    workers: usize,
    gate: &G,
) -> Result<Plan, RunFault>
    requires booked { AreBooked (supply_of rows.now.value.tables) snapshot.now.standing }
    requires workers { IsInRange 1 MOST_WORKERS workers }
    requires last { IsOfShop rows.now.value.tables (option_copied last) }
    ensures { Explodes (inputs_of rows.now.value.tables snapshot.now) result }
{
    match last {
        Some(plan) => replanned(alloc, plan, inputs_of(alloc, rows, snapshot)?),
        None => plan_run_by(rt, alloc, rows, snapshot, workers, gate),
    }
}
