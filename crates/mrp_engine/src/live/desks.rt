//! The history that desks make concurrently.

ghost use Rattle.std.specs.Prelude.{◌≡◌, ◌<◌, ◌≤◌, ◌+◌, All, [], Err, IfOk, Ok, OnErr, length, map};
ghost use Rattle.std.specs.Int.{IsInRange};
ghost use Rattle.mrp_book.specs.declared.refused.Refused.TheVariants as refused;
ghost use Rattle.mrp_book.specs.History.{Fits};
ghost use Rattle.mrp_turn.specs.Log.{entries_by};
ghost use Rattle.mrp_turn.specs.Seen.{HasNumber};
ghost use Rattle.mrp_tables.specs.declared.limits.TheConstants.{MOST_DESKS, MOST_ENTRIES};
ghost use Rattle.mrp_desk.specs.Offices.{Desk, supply_at};
ghost use Rattle.mrp_engine.specs.live.Desks.{AreDesksOf, EndAs, HaveServed, IsDeskCount};
ghost use Rattle.mrp_engine.specs.live.Runs.{HaveRuns};
ghost use Rattle.mrp_engine.specs.day.Planned.{PlansDay};
ghost use Rattle.mrp_engine.specs.day.RightDay.{AnswersDesks};
ghost use Rattle.mrp_script.specs.Script.{call_of, record_of, script_of, with_run};

use crate::day::{Day, DayFault, MOST_WORKERS, RunResult};
use crate::live::desk_calls::calls_by_desk;
use crate::live::merging::merge;
use crate::live::ready::make_ready;
use crate::live::serving::{Served, Shared, make_and_plan};
use crate::live::threads::serve_all;
use mrp_bill::Shop;
use mrp_book::{History, Refused};
use mrp_desk::{Desk, Office, OfficeFault};
use mrp_explode::Gate;
use mrp_item::ShopRows;
use mrp_qty::NoMemory;
use mrp_script::{ADDED_DESK, added_run};
use mrp_tables::ScriptRow;
use mrp_tables::limits::MOST_DESKS;
use std::alloc::Global;
use std::sync::Wait;
use std::thread::Threads;

// How many desks a script has: its greatest desk number, and at least the desk of an added run.
fn count_of(script: &[ScriptRow]) -> u64
    requires { All (λ r. r.desk ≤ MOST_DESKS) script.now }
    ensures most { result ≤ MOST_DESKS }
    ensures count { IsDeskCount script.now result }
{
    let mut count = ADDED_DESK;
    for row in script {
        count = count.max(row.desk);
    }
    count
}

// An office of a shop, with as many desks as its script has (`count_of`).
fn open(alloc: Global, shop: Shop) -> Result<(Office, Vec<Desk>), NoMemory>
    ensures shop { IfOk result (λ r. r.0.about.object ≡ shop) }
    ensures desks { IfOk result (λ r. AreDesksOf r.0 r.1.items) }
    ensures new { IfOk result (λ r. All (λ d. d.mine ≡ []) r.1.items) }
    ensures count { IfOk result (λ r. IsDeskCount shop.tables.script r.0.about.seats) }
{
    let count = count_of(shop.tables().script());
    match Office::open(alloc, shop, count) {
        Ok(opened) => Ok(opened),
        Err(OfficeFault::NoMemory) => Err(NoMemory),
        Err(OfficeFault::Desks) => unreachable!(),
    }
}

// Desks after their calls, what came of the runs of each, and how the calls ended: with the refusal of the
// first desk that had one, or without any.
#[derive(Drop)]
struct AllServed {
    desks: Vec<Desk>,
    runs: Vec<Vec<RunResult>>,
    end: Result<(), Refused>,
}

// What desks leave, parted.
fn parted(alloc: Global, all: Vec<Served>) -> Result<AllServed, NoMemory>
    ensures desks { IfOk result (λ r. r.desks.items ≡ map (λ s. s.desk) all.items) }
    ensures runs { IfOk result (λ r. r.runs.items ≡ map (λ s. s.runs) all.items) }
    ensures end { IfOk result (λ r. EndAs all.items r.end) }
{
    let mut desks = Vec::with_capacity(alloc, all.len())?;
    let mut lists = Vec::with_capacity(alloc, all.len())?;
    let mut end = Ok(());
    for served in all {
        let Served {
            desk,
            runs,
            end: ended,
        } = served;
        desks.push(desk)?;
        lists.push(runs)?;
        if end.is_ok() {
            end = ended;
        }
    }
    Ok(AllServed {
        desks,
        runs: lists,
        end,
    })
}

// Has the desks of an office, which have made no calls yet, make the calls of their records and plan their
// runs.
fn serve_script<R: Threads + Wait + Sync, D: Gate + Sync, I: Gate + Sync>(
    rt: &R,
    alloc: Global,
    shared: Shared<'_, D, I>,
    script: &[ScriptRow],
    desks: Vec<Desk>,
) -> Result<AllServed, NoMemory>
    requires shop { shared.rows.now.value ≡ shared.office.now.about.object }
    requires workers { IsInRange 1 MOST_WORKERS shared.workers }
    requires desks { AreDesksOf shared.office.now desks.items }
    requires new { All (λ d. d.mine ≡ []) desks.items }
    requires count { IsDeskCount script.now shared.office.now.about.seats }
    requires rows { All (λ r. 1 ≤ r.desk) script.now }
    requires fits { All (λ r. Fits (supply_at shared.office.now) (call_of r.call)) script.now }
    ensures desks { IfOk result (λ r. AreDesksOf shared.entry.office.now r.desks.items) }
    ensures served { IfOk result (λ r. HaveServed (map record_of script.now) r.desks.items r.end) }
    ensures runs { IfOk result (λ r. HaveRuns shared.entry.office.now r.desks.items r.runs.items) }
{
    let lists = calls_by_desk(alloc, shared.office.shop(), script, desks.len())?;
    let ready = make_ready(alloc, lists.as_slice(), desks)?;
    let all = serve_all(rt, alloc, shared, lists.as_slice(), ready)?;
    parted(alloc, all)
}

// Adds a run to a script without one: the last call, by the first desk, which plans it.
fn add_run<R: Threads + Wait + Sync, D, I: Gate + Sync>(
    rt: &R,
    alloc: Global,
    shared: &Shared<'_, D, I>,
    script: &[ScriptRow],
    desks: &mut [Desk],
    runs: &mut [Vec<RunResult>],
) -> Result<(), Refused>
    requires shop { shared.now.rows.now.value ≡ shared.now.office.now.about.object }
    requires workers { IsInRange 1 MOST_WORKERS shared.now.workers }
    requires desks { AreDesksOf shared.now.office.now desks.old }
    requires some { 1 ≤ length desks.old }
    requires served { HaveServed (map record_of script.now) desks.old {U = Unit {0}} (Ok tt) }
    requires runs { HaveRuns shared.now.office.now desks.old runs.old }
    ensures desks { AreDesksOf shared.now.office.now desks.new }
    ensures served { HaveServed (with_run (map record_of script.now)) desks.new result }
    ensures runs { HaveRuns shared.now.office.now desks.new runs.new }
{
    let Some((_, call)) = added_run(script) else {
        return Ok(());
    };
    // So that what comes of the run has a place once the call is answered.
    if runs[0].reserve(1).is_err() {
        return Err(Refused::NoMemory);
    }
    make_and_plan(rt, alloc, shared, &mut desks[0], &mut runs[0], call)?;
    Ok(())
}

// Has the desks of an office, which have made no calls yet, make the calls of its script, with the run that is
// added to one without any, and plan their runs.
fn serve_day<R: Threads + Wait + Sync, D: Gate + Sync, I: Gate + Sync>(
    rt: &R,
    alloc: Global,
    shared: Shared<'_, D, I>,
    desks: Vec<Desk>,
) -> Result<AllServed, NoMemory>
    requires shop { shared.rows.now.value ≡ shared.office.now.about.object }
    requires workers { IsInRange 1 MOST_WORKERS shared.workers }
    requires desks { AreDesksOf shared.office.now desks.items }
    requires new { All (λ d. d.mine ≡ []) desks.items }
    requires count { IsDeskCount shared.office.now.about.object.tables.script shared.office.now.about.seats }
    ensures desks { IfOk result (λ r. AreDesksOf shared.entry.office.now r.desks.items) }
    ensures served { IfOk result (λ r. HaveServed (with_run (script_of shared.entry.office.now.about.object.tables)) r.desks.items r.end) }
    ensures runs { IfOk result (λ r. HaveRuns shared.entry.office.now r.desks.items r.runs.items) }
{
    let script = shared.office.shop().tables().script();
    let AllServed {
        mut desks,
        mut runs,
        end,
    } = serve_script(rt, alloc, shared, script, desks)?;
    let end = match end {
        Ok(()) => add_run(rt, alloc, &shared, script, &mut desks, &mut runs),
        Err(refused) => Err(refused),
    };
    Ok(AllServed { desks, runs, end })
}

// Closes an office whose desks have made the calls of their records, and returns its history.
fn close(office: Office, desks: Vec<Desk>, end: Result<(), Refused>) -> Result<History, NoMemory>
    requires desks { AreDesksOf office desks.items }
    requires served { HaveServed (with_run (script_of office.about.object.tables)) desks.items end }
    requires count { IsDeskCount office.about.object.tables.script office.about.seats }
    requires rows { All (λ row. 1 ≤ row.desk) office.about.object.tables.script }
    requires few { length office.about.object.tables.script + 1 < MOST_ENTRIES }
    ensures supply { IfOk result (λ h. h.supply ≡ supply_at office) }
    ensures answers { IfOk result (λ h. AnswersDesks office.about.object.tables h.entries) }
    // Each desk's entries are all those under its number, and every entry is under the number of a desk.
    ensures mine { IfOk result (λ h. All (λ d. d.mine ≡ entries_by d.number h.entries) desks.items) }
    ensures callers { IfOk result (λ h. All (λ e. HasNumber desks.items e.who) h.entries) }
    // It is out of memory only if a desk was.
    ensures refused { OnErr result (end ≡ Err refused.NoMemory) }
{
    let history = office.close(desks);
    match end {
        Ok(()) => Ok(history),
        Err(Refused::NoMemory) => Err(NoMemory),
        Err(Refused::Full) => unreachable!(),
    }
}

/// The day that a shop's desks make, each in a thread of its own if one can be started. A desk makes the calls
/// of its records in order, and passes its gate with its number before each. It plans each of its runs before
/// its next call, which it makes also if the run is refused: by net change from its last run if that has a plan,
/// otherwise by `workers` workers (1 to 64, as the caller guarantees), which pass their gate with an item's place
/// before they plan it. Desks without a thread run one by one in the caller's thread, after all threaded desks
/// have finished. A script without a run is taken with one more call after all others, a run of desk 1, which
/// passes no gate of desks.
///
/// Errors: `NoMemory` if an allocation fails; otherwise `TooLarge` with the first item in table order whose
/// quantities get too large in the first run with such an item.
pub fn answer_by_desks<R: Threads + Wait + Sync, D: Gate + Sync, I: Gate + Sync>(
    rt: &R,
    alloc: Global,
    shop: Shop,
    workers: usize,
    desk_gate: &D,
    item_gate: &I,
) -> Result<Day, DayFault>
    requires workers { IsInRange 1 MOST_WORKERS workers }
    ensures { PlansDay AnswersDesks shop.tables result }
{
    let (office, desks) = open(alloc, shop)?;
    let rows = ShopRows::of(alloc, office.shop().clone()?)?;
    let shared = Shared {
        office: &office,
        rows: &rows,
        workers,
        desk_gate,
        item_gate,
    };
    let AllServed { desks, runs, end } = serve_day(rt, alloc, shared, desks)?;
    let history = close(office, desks, end)?;
    merge(alloc, rows, history, runs)
}
