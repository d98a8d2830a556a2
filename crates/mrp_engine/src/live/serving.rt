//! A desk that makes its calls, and plans the runs that they start.

ghost use Rattle.std.specs.Prelude.{◌≡◌, ◌≤◌, ◌+◌, if◌then◌else◌, length, vec_capacity};
ghost use Rattle.std.specs.Int.{IsInRange};
ghost use Rattle.std.specs.List.{AllZip};
ghost use Rattle.std.specs.Option.{option_copied};
ghost use Rattle.mrp_book.specs.History.{Fits};
ghost use Rattle.mrp_desk.specs.Calls.{Tells};
ghost use Rattle.mrp_desk.specs.Offices.{supply_at};
ghost use Rattle.mrp_engine.specs.day.Planned.{PlansRun};
ghost use Rattle.mrp_script.specs.Script.{is_run};
ghost use Rattle.mrp_engine.specs.live.Runs.{last_plan, runs_at};
ghost use Rattle.mrp_engine.specs.live.Begun.{CanServe, HasDone};

use crate::day::{MOST_WORKERS, RunResult, plan_or_refuse};
use crate::live::ready::Ready;
use mrp_book::{Call, Refused, Reply};
use mrp_desk::{Desk, Office};
use mrp_explode::Gate;
use mrp_item::{Plan, ShopRows};
use std::alloc::Global;
use std::sync::{Arc, Wait};
use std::thread::Threads;

/// What the desks of a live day share: their office, the rows of its shop, how many workers plan a run, and
/// the gates that desks pass before each record and workers before each item.
#[derive_where(Clone, Copy)]
pub struct Shared<'a, D, I> {
    pub office: &'a Office,
    pub rows: &'a Arc<ShopRows>,
    pub workers: usize,
    pub desk_gate: &'a D,
    pub item_gate: &'a I,
}

/// A desk after its calls, what came of each run that they started, in order, and how the calls ended: all
/// were answered, or they stopped at the first that was refused.
#[derive(Drop)]
pub struct Served {
    pub desk: Desk,
    pub runs: Vec<RunResult>,
    pub end: Result<(), Refused>,
}

// Makes a call of a desk, and returns the entry's number and the reply, or the refusal: then no entry has been
// made.
fn make<R: Wait>(
    rt: &R,
    office: &Office,
    desk: &mut Desk,
    call: Call,
) -> Result<(u64, Reply), Refused>
    requires office { desk.old.turn ≡ office.now }
    requires fits { Fits (supply_at office.now) call }
    ensures { Tells (supply_at office.now) call desk.old result desk.new }
{
    match call {
        Call::Book(line) => office.book(rt, desk, line),
        Call::Cancel(number) => office.cancel(rt, desk, number),
        Call::Ask(spot) => office.ask(rt, desk, spot),
        Call::When(wish) => office.when(rt, desk, wish),
        Call::Snapshot => office.snapshot(rt, desk),
        Call::Front => office.front(rt, desk),
    }
}

// The plan of a desk's last run, if that has one.
fn last_plan(runs: &[RunResult]) -> Option<&Plan>
    ensures { option_copied result ≡ last_plan runs.now }
{
    match runs.last() {
        Some(Ok(plan)) => Some(plan),
        _ => None,
    }
}

/// Makes a call of a desk, and plans the run that it starts, by net change from the desk's last run if that has a
/// plan: what comes of it is the last of the desk's runs.
/// The caller guarantees that the call fits the shop, that the desk is of the office, and that there is room
/// for the run.
///
/// Errors: those of the office's calls. No entry has been made then, and no run planned.
pub fn make_and_plan<R: Threads + Wait + Sync, D, I: Gate + Sync>(
    rt: &R,
    alloc: Global,
    shared: &Shared<'_, D, I>,
    desk: &mut Desk,
    runs: &mut Vec<RunResult>,
    call: Call,
) -> Result<(u64, Reply), Refused>
    requires office { desk.old.turn ≡ shared.now.office.now }
    requires shop { shared.now.rows.now.value ≡ shared.now.office.now.about.object }
    requires workers { IsInRange 1 MOST_WORKERS shared.now.workers }
    requires fits { Fits (supply_at shared.now.office.now) call }
    requires room { length runs.old.items + (if is_run call then 1 else 0) ≤ vec_capacity runs.old }
    requires runs { AllZip PlansRun (runs_at shared.now.office.now desk.old.mine) runs.old.items }
    ensures call { Tells (supply_at shared.now.office.now) call desk.old result desk.new }
    ensures runs { AllZip PlansRun (runs_at shared.now.office.now desk.new.mine) runs.new.items }
    ensures count { length runs.new.items ≤ length runs.old.items + (if is_run call then 1 else 0) }
    ensures room { vec_capacity runs.new ≡ vec_capacity runs.old }
{
    let answer = make(rt, shared.office, desk, call)?;
    if let Reply::Taken(snapshot) = &answer.1 {
        let run = plan_or_refuse(
            rt,
            alloc,
            shared.rows,
            last_plan(runs),
            snapshot,
            shared.workers,
            shared.item_gate,
        );
        runs.push_reserved(run);
    }
    Ok(answer)
}

/// Makes the calls of a desk in order, and passes the gate before each. A run is planned, or refused, before
/// the next call.
pub fn serve<R: Threads + Wait + Sync, D: Gate, I: Gate + Sync>(
    rt: &R,
    alloc: Global,
    shared: &Shared<'_, D, I>,
    calls: &[Call],
    ready: Ready,
) -> Served
    requires { CanServe shared.now.office.now shared.now.rows.now.value shared.now.workers calls.now ready }
    ensures { HasDone shared.now.office.now calls.now ready.desk result }
{
    let Ready { mut desk, mut runs } = ready;
    let number = desk.number() as usize;
    for call in calls {
        shared.desk_gate.pass(rt, number);
        if let Err(refused) = make_and_plan(rt, alloc, shared, &mut desk, &mut runs, *call) {
            return Served {
                desk,
                runs,
                end: Err(refused),
            };
        }
    }
    Served {
        desk,
        runs,
        end: Ok(()),
    }
}
