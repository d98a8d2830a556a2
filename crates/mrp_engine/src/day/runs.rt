//! Planning the runs of a history.

ghost use Rattle.std.specs.Prelude.{◌≡◌, ◌<◌, ℕ, Err, OnErr, OnOk, length};
ghost use Rattle.std.specs.Int.{IsInRange};
ghost use Rattle.std.specs.Option.{option_copied};
ghost use Rattle.mrp_master.specs.Supply.{supply_of};
ghost use Rattle.mrp_book.specs.Booked.{AreBooked};
ghost use Rattle.mrp_item.specs.Inputs.{Inputs, inputs_of};
ghost use Rattle.mrp_engine.specs.day.Day.{runs_of};
ghost use Rattle.mrp_engine.specs.day.Fault.{plan_or_fault, run_fault};
ghost use Rattle.mrp_engine.specs.day.Planned.{JudgesRun, PlansRun, PlansRuns};
ghost use Rattle.mrp_engine.specs.day.RunPlans.{AddsRun, AreOfShop, IsOfShop};

use crate::day::fault::DayFault;
use crate::day::net_change::plan_next;
use crate::day::run::MOST_WORKERS;
use crate::day::run_plans::RunPlans;
use mrp_bill::Shop;
use mrp_book::{History, Reply, Snapshot};
use mrp_explode::{Gate, OpenGate, RunFault};
use mrp_item::{Plan, ShopRows};
use std::alloc::Global;
use std::sync::{Arc, Wait};
use std::thread::Threads;

/// What came of a run: its plan, or why its day is refused.
pub type RunResult = Result<Plan, DayFault>;

// Why a day is refused, from why a run of its shop has no plan; an item that gets too large is named.
fn refusal(shop: &Shop, fault: RunFault) -> DayFault
    requires { (item : ℕ) → fault ≡ RunFault.TooLarge item → item < length shop.now.tables.items }
    ensures { (s : Inputs) → s.tables ≡ shop.now.tables → result ≡ run_fault s fault }
{
    match fault {
        RunFault::TooLarge { item } => DayFault::TooLarge(shop.tables().items()[item].name),
        RunFault::NoMemory => DayFault::NoMemory,
    }
}

// A run's plan, or why its day is refused, by what planning the run gave. It takes no memory.
fn or_refusal(shop: &Shop, planned: Result<Plan, RunFault>) -> RunResult
    requires { (item : ℕ) → planned ≡ Err (RunFault.TooLarge item) → item < length shop.now.tables.items }
    ensures { (s : Inputs) → s.tables ≡ shop.now.tables → result ≡ plan_or_fault s planned }
{
    match planned {
        Ok(plan) => Ok(plan),
        Err(fault) => Err(refusal(shop, fault)),
    }
}

/// The plan of the next run of a shop, from a snapshot of its order book: by net change from the last plan of the shop,
/// if there is one, otherwise by `workers` workers (1 to 64) that pass the gate before each item; or why its day is
/// refused. The caller guarantees that the snapshot and the plan are of that shop.
pub fn plan_or_refuse<R: Threads + Wait + Sync, G: Gate + Sync>(
    rt: &R,
    alloc: Global,
    rows: &Arc<ShopRows>,
    last: Option<&Plan>,
    snapshot: &Snapshot,
    workers: usize,
    gate: &G,
) -> RunResult
    requires booked { AreBooked (supply_of rows.now.value.tables) snapshot.now.standing }
    requires workers { IsInRange 1 MOST_WORKERS workers }
    requires last { IsOfShop rows.now.value.tables (option_copied last) }
    ensures { PlansRun (inputs_of rows.now.value.tables snapshot.now) result }
{
    or_refusal(
        rows.shop(),
        plan_next(rt, alloc, rows, last, snapshot, workers, gate),
    )
}

/// Plans one more run of a shop, from a snapshot of its order book, and keeps its plan: by `workers` workers (1 to
/// 64, as the caller guarantees), which pass the gate before each item, if no run of the shop is planned yet,
/// otherwise by net change from the last. The caller guarantees that the snapshot and the plans are of the shop.
///
/// Errors: `TooLarge` with the first item in table order whose quantities get too large; `NoMemory` if an allocation
/// fails. The plans are unchanged then.
pub fn plan_one<R: Threads + Wait + Sync, G: Gate + Sync>(
    rt: &R,
    alloc: Global,
    rows: &Arc<ShopRows>,
    plans: &mut RunPlans,
    snapshot: &Snapshot,
    workers: usize,
    gate: &G,
) -> Result<(), DayFault>
    requires booked { AreBooked (supply_of rows.now.value.tables) snapshot.now.standing }
    requires workers { IsInRange 1 MOST_WORKERS workers }
    requires plans { AreOfShop rows.now.value.tables plans.old }
    ensures judged { JudgesRun (inputs_of rows.now.value.tables snapshot.now) result }
    ensures planned { OnOk result (AddsRun (inputs_of rows.now.value.tables snapshot.now) plans.old plans.new) }
    ensures refused { OnErr result (plans.new ≡ plans.old) }
{
    let plan = plan_or_refuse(rt, alloc, rows, plans.last(), snapshot, workers, gate)?;
    plans.add(plan);
    Ok(())
}

/// Plans the runs of a history in order, each from the snapshot in its entry's reply, all over the rows of one shop,
/// as `plan_one` does, and returns the plan of the first, if there is one. The caller guarantees that the history has
/// the supply of the shop.
///
/// Errors: `TooLarge` with the first item in table order whose quantities get too large in the
/// first run with such an item; `NoMemory` if an allocation fails.
pub fn plan_runs(
    rt: &(impl Threads + Wait + Sync),
    alloc: Global,
    rows: &Arc<ShopRows>,
    history: &History,
    workers: usize,
) -> Result<Option<Plan>, DayFault>
    requires supply { history.now.supply ≡ supply_of rows.now.value.tables }
    requires workers { IsInRange 1 MOST_WORKERS workers }
    ensures { PlansRuns (runs_of rows.now.value.tables history.now.entries) result }
{
    let mut plans = RunPlans::none();
    for entry in history.entries() {
        if let Reply::Taken(snapshot) = &entry.reply {
            plan_one(rt, alloc, rows, &mut plans, snapshot, workers, &OpenGate)?;
        }
    }
    Ok(plans.into_first())
}
