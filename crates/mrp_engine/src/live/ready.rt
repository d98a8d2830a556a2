//! Desks that are ready to make their calls.

ghost use Rattle.std.specs.Prelude.{◌≡◌, ◌≤◌, ◌-◌, [], All, IfOk, length, map};
ghost use Rattle.mrp_engine.specs.live.DeskCalls.{calls_at};
ghost use Rattle.mrp_engine.specs.live.Runs.{runs_in};
ghost use Rattle.mrp_engine.specs.live.Begun.{IsReady};

use crate::day::RunResult;
use crate::live::desk_calls::list_of;
use mrp_book::Call;
use mrp_desk::Desk;
use mrp_qty::NoMemory;
use std::alloc::Global;

/// A desk with room for what comes of each run that its calls start.
#[derive(Drop)]
pub struct Ready {
    pub desk: Desk,
    pub runs: Vec<RunResult>,
}

// How many runs calls start.
fn runs_in(calls: &[Call]) -> usize
    ensures { result ≡ runs_in calls.now }
{
    calls
        .iter()
        .filter(|call| matches!(call, Call::Snapshot))
        .count()
}

/// Desks that have made no calls yet, with room for what comes of the runs that the calls of their lists start.
///
/// Errors: `NoMemory` if an allocation fails.
pub fn make_ready(
    alloc: Global,
    lists: &[Vec<Call>],
    desks: Vec<Desk>,
) -> Result<Vec<Ready>, NoMemory>
    requires listed { All (λ d. (1 ≤ d.number) × (d.number ≤ length lists.now)) desks.items }
    requires new { All (λ d. d.mine ≡ []) desks.items }
    ensures desks { IfOk result (λ all. map (λ r. r.desk) all.items ≡ desks.items) }
    ensures ready { IfOk result (λ all. All (λ r. IsReady (calls_at lists.now (r.desk.number - 1)) r) all.items) }
{
    let mut all = Vec::with_capacity(alloc, desks.len())?;
    for desk in desks {
        let room = runs_in(list_of(lists, desk.number()));
        let runs = Vec::with_capacity(alloc, room)?;
        all.push(Ready { desk, runs })?;
    }
    Ok(all)
}
