//! What came of the runs of all desks, in the order of the history.

ghost use Rattle.std.specs.Prelude.{◌≡◌, ◌≢◌, ◌<◌, ◌≤◌, ◌-◌, ◌∷◌, ℕ, Err, IfOk, List, length, map, slice_get, true};
ghost use Rattle.std.specs.List.{AllZip, list_any};
ghost use Rattle.mrp_bill.specs.Lists.{listed};
ghost use Rattle.mrp_master.specs.Supply.{supply_of};
ghost use Rattle.mrp_item.specs.Inputs.{Inputs};
ghost use Rattle.mrp_engine.specs.day.Planned.{PlansHistory, PlansRun};
ghost use Rattle.mrp_engine.specs.live.Runs.{AreRunsOf, PlansAll, first_refused, lacks_memory, queued, refusal_among};

use crate::day::{Day, DayFault, RunResult};
use mrp_book::{History, Reply};
use mrp_item::{Plan, ShopRows};
use mrp_qty::NoMemory;
use std::alloc::Global;
use std::collections::VecDeque;
use std::sync::Arc;

// Why the first refused run is refused, if one is.
fn first_refused(runs: &[RunResult]) -> Option<DayFault>
    ensures { result ≡ first_refused runs.now }
{
    for run in runs {
        if let Err(fault) = run {
            return Some(*fault);
        }
    }
    None
}

// Whether a run was refused memory.
fn has_lacked(runs: &[RunResult]) -> bool
    ensures { result ≡ list_any lacks_memory runs.now }
{
    runs.iter()
        .any(|run| matches!(run, Err(DayFault::NoMemory)))
}

// Why a day with these runs is refused, if it is: out of memory if a run was refused it, otherwise as the
// first refused run is. It takes no memory.
fn refusal_among(runs: &[RunResult]) -> Option<DayFault>
    ensures { result ≡ refusal_among runs.now }
{
    if has_lacked(runs) {
        Some(DayFault::NoMemory)
    } else {
        first_refused(runs)
    }
}

// The plans of runs, or why a day with these runs is refused.
fn plans_of(alloc: Global, runs: Vec<RunResult>) -> Result<Vec<Plan>, DayFault>
    ensures plans { (all : List Inputs) → AllZip PlansRun all runs.items → PlansAll all result }
    ensures memory { list_any lacks_memory runs.items ≡ true → result ≡ Err DayFault.NoMemory }
{
    if let Some(fault) = refusal_among(runs.as_slice()) {
        return Err(fault);
    }
    let mut plans = Vec::with_capacity(alloc, runs.len())?;
    for run in runs {
        plans.push(run?)?;
    }
    Ok(plans)
}

// The first of some plans.
fn first_of(plans: Vec<Plan>) -> Option<Plan>
    ensures { result ≡ slice_get plans.items 0 }
{
    let mut plans = VecDeque::from_vec(plans);
    plans.pop_front()
}

// The same lists, as queues.
fn queues_of(alloc: Global, runs: Vec<Vec<RunResult>>) -> Result<Vec<VecDeque<RunResult>>, NoMemory>
    ensures { IfOk result (λ queues. map (λ q. q.items) queues.items ≡ map (λ list. list.items) runs.items) }
{
    let mut queues = Vec::with_capacity(alloc, runs.len())?;
    for list in runs {
        queues.push(VecDeque::from_vec(list))?;
    }
    Ok(queues)
}

// Takes the next run of a desk, of which there is one.
fn next_of(queues: &mut Vec<VecDeque<RunResult>>, desk: u64) -> RunResult
    requires desk { (1 ≤ desk) × (desk ≤ length queues.old.items) }
    requires some { 0 < length (queued queues.old.items (desk - 1)) }
    ensures size { length queues.new.items ≡ length queues.old.items }
    ensures next { queued queues.old.items (desk - 1) ≡ result ∷ queued queues.new.items (desk - 1) }
    ensures others { (place : ℕ) → place ≢ desk - 1 → queued queues.new.items place ≡ queued queues.old.items place }
{
    match queues[desk as usize - 1].pop_front() {
        Some(run) => run,
        None => unreachable!(),
    }
}

/// The day of a history over the rows of its shop, from what came of each desk's runs, desk by desk from 1 on:
/// each entry that takes a snapshot has the next run of its desk. The caller guarantees that the history has
/// the supply of the shop and that these are its runs.
///
/// Errors: `NoMemory` if a run was refused memory, or an allocation fails; otherwise `TooLarge` with the first
/// item in table order whose quantities get too large in the first run with such an item.
pub fn merge(
    alloc: Global,
    rows: Arc<ShopRows>,
    history: History,
    runs: Vec<Vec<RunResult>>,
) -> Result<Day, DayFault>
    requires supply { history.supply ≡ supply_of rows.value.tables }
    requires runs { AreRunsOf rows.value.tables history.entries runs.items }
    ensures day { PlansHistory rows.value.tables history.entries result }
    // It is out of memory if a run was, also where an earlier one is too large.
    ensures memory { (place : ℕ) → place < length runs.items → list_any lacks_memory (listed runs.items place) ≡ true → result ≡ Err DayFault.NoMemory }
{
    let mut queues = queues_of(alloc, runs)?;
    let mut all = Vec::new(alloc);
    for entry in history.entries() {
        if let Reply::Taken(_) = &entry.reply {
            all.push(next_of(&mut queues, entry.who))?;
        }
    }
    let plans = plans_of(alloc, all)?;
    Ok(Day {
        rows,
        history,
        first: first_of(plans),
    })
}
