//! Desks that make their calls concurrently, each in a thread of its own if one can be started.

ghost use Rattle.std.specs.Prelude.{◌≡◌, ◌<◌, ◌≤◌, All, [], ℕ, IfErr, IfOk, length, slice_index_or, vec_capacity};
ghost use Rattle.std.specs.Int.{IsInRange};
ghost use Rattle.mrp_engine.specs.live.Begun.{CanServe, EachServes, EndsAs, GivesWhat, HasDone, HaveLists, IsDone};

use crate::day::MOST_WORKERS;
use crate::live::desk_calls::list_of;
use crate::live::ready::Ready;
use crate::live::serving::{Served, Shared, serve};
use mrp_book::Call;
use mrp_desk::{Desk, Office};
use mrp_explode::Gate;
use std::alloc::{AllocError, Global};
use std::snapshot::Snapshot;
use std::sync::Wait;
use std::thread;
use std::thread::{Promise, PromisedHandle, Scope, SpawnError, Threads};

// What a desk has to do: make these calls at an office.
#[derive(Drop)]
struct Duty<'a> {
    office: &'a Office,
    calls: &'a [Call],
    desk: Snapshot<Desk>,
}

impl<'a> Promise<Served> for Duty<'a> {
    ghost kept_by = { IsDone };
}

// The work of a desk once threads are started: begun by its thread, or left over if none could be
// started.
type Begun<'a, F> = Result<PromisedHandle<Served, Duty<'a>>, SpawnError<F>>;

// The same once all threads have finished: done, or left over.
type Ended<F> = Result<Served, SpawnError<F>>;

// Waits for every thread. Work that is left over stays so.
fn join_all<'a, R: Threads, F: FnOnce() -> Served + Drop>(
    rt: &R,
    begun: Vec<Begun<'a, F>>,
    mut ended: Vec<Ended<F>>,
) -> Vec<Ended<F>>
    requires room { length begun.items ≤ vec_capacity ended }
    requires none { ended.items ≡ [] }
    ensures count { length result.items ≡ length begun.entry.items }
    ensures each { (k : ℕ) (b : _) (e : _) → k < length begun.entry.items → EndsAs (slice_index_or begun.entry.items k b) (slice_index_or result.items k e) }
{
    for work in begun {
        let end: Ended<F> = match work {
            Ok(handle) => Ok(handle.join(rt)),
            Err(left) => Err(left),
        };
        ended.push_reserved(end);
    }
    ended
}

// Does the work that is left over, one desk at a time.
fn do_left<F: FnOnce() -> Served + Drop>(ended: Vec<Ended<F>>, mut all: Vec<Served>) -> Vec<Served>
    requires room { length ended.items ≤ vec_capacity all }
    requires none { all.items ≡ [] }
    requires left { All (λ end. IfErr end (λ left. F.pre left.value)) ended.items }
    ensures count { length result.items ≡ length ended.items }
    ensures each { (k : ℕ) (e : _) (s : _) → k < length ended.items → GivesWhat F.post (slice_index_or ended.items k e) (slice_index_or result.items k s) }
{
    for end in ended {
        all.push_reserved(match end {
            Ok(served) => served,
            Err(left) => (left.value)(),
        });
    }
    all
}

// Has each desk make the calls of its list, in a thread of the scope, or, if none can be started, here after
// all threads have finished. Memory is reserved before the first thread is started, so none is left running
// when memory runs out.
fn serve_in<'a, E, R: Threads + Wait + Sync, D: Gate + Sync, I: Gate + Sync>(
    scope: &Scope<'a, E>,
    rt: &'a R,
    alloc: Global,
    shared: Shared<'a, D, I>,
    lists: &'a [Vec<Call>],
    desks: Vec<Ready>,
) -> Result<Vec<Served>, AllocError>
    requires shop { shared.rows.now.value ≡ shared.office.now.about.object }
    requires workers { IsInRange 1 MOST_WORKERS shared.workers }
    requires lists { HaveLists shared.office.now lists.now desks.items }
    ensures { IfOk result (λ all. EachServes shared.entry.office.now lists.now desks.items all.items) }
{
    let mut begun = Vec::with_capacity(alloc, desks.len())?;
    let ended = Vec::with_capacity(alloc, desks.len())?;
    let all = Vec::with_capacity(alloc, desks.len())?;
    let Shared {
        office,
        rows,
        workers,
        desk_gate,
        item_gate,
    } = shared;
    for ready in desks {
        let calls = list_of(lists, ready.desk.number());
        let duty = Duty {
            office,
            calls,
            desk: Snapshot::of(&ready.desk),
        };
        let work = move || -> Served
            requires { CanServe office.now rows.now.value workers calls.now ready }
            ensures { HasDone office.entry.now calls.entry.now ready.desk result }
        {
            // Made here, since of a struct of references that it captures no closure has a clause.
            let shared = Shared {
                office,
                rows,
                workers,
                desk_gate,
                item_gate,
            };
            serve(rt, alloc, &shared, calls, ready)
        };
        let one: Begun<_> = scope.spawn_with(duty, work);
        begun.push_reserved(one);
    }
    Ok(do_left(join_all(rt, begun, ended), all))
}

/// Has each desk make the calls of its list in a thread of its own, where it plans the runs that they start.
/// Desks for which none can be started run in this thread, after all threaded desks have finished.
///
/// Errors: `AllocError` if an allocation fails; no desk has begun then.
pub fn serve_all<'a, R: Threads + Wait + Sync, D: Gate + Sync, I: Gate + Sync>(
    rt: &'a R,
    alloc: Global,
    shared: Shared<'a, D, I>,
    lists: &'a [Vec<Call>],
    desks: Vec<Ready>,
) -> Result<Vec<Served>, AllocError>
    requires shop { shared.rows.now.value ≡ shared.office.now.about.object }
    requires workers { IsInRange 1 MOST_WORKERS shared.workers }
    requires lists { HaveLists shared.office.now lists.now desks.items }
    ensures { IfOk result (λ all. EachServes shared.entry.office.now lists.now desks.items all.items) }
{
    let Shared {
        office,
        rows,
        workers,
        desk_gate,
        item_gate,
    } = shared;
    thread::scope(
        thread::scope_env(),
        rt,
        move |scope| -> Result<Vec<Served>, AllocError>
            requires shop { rows.now.value ≡ office.now.about.object }
            requires workers { IsInRange 1 MOST_WORKERS workers }
            requires lists { HaveLists office.now lists.now desks.items }
            ensures { IfOk result (λ all. EachServes office.entry.now lists.entry.now desks.items all.items) }
        {
            let shared = Shared {
                office,
                rows,
                workers,
                desk_gate,
                item_gate,
            };
            serve_in(scope, rt, alloc, shared, lists, desks)
        },
    )
}
