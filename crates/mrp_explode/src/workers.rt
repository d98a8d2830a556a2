//! Explosion by workers, each in a thread of its own if one can be started.

ghost use Rattle.std.specs.Prelude.{◌≡◌, ◌<◌, ◌≤◌, ◌+◌, ◌*◌, ℕ, true, All, IfOk, Some, length, map, slice_get, slice_index_or, vec_len};
ghost use Rattle.std.specs.Int.{IsInRange};
ghost use Rattle.mrp_turn.specs.Seen.{newcomer};
ghost use Rattle.mrp_item.specs.Inputs.{count};
ghost use Rattle.mrp_board.specs.BoardState.{has_stored};
ghost use Rattle.mrp_explode.specs.Explosion.{Explodes};
ghost use Rattle.mrp_explode.specs.Workers.{HasWorked, HaveWorked, IsNew, LeaveFinished, done_by};

use crate::fault::RunFault;
use crate::finished::{out_of_places, plan_from, share};
use crate::gate::Gate;
use crate::serial::plan_in_turn;
use crate::working::{Worker, work};
use mrp_bill::Shop;
use mrp_board::{Board, BoardCall, BoardReply, BoardState};
use mrp_item::{Inputs, Plan};
use mrp_qty::NoMemory;
use mrp_turn::{Log, MOST_SEATS, Turn};
use std::alloc::{AllocError, Global};
use std::sync::{Arc, Wait};
use std::thread;
use std::thread::Threads;

/// The most workers of an explosion: each has a seat at its board.
pub const MOST_WORKERS: u64 = MOST_SEATS;

// How many entries a board's log has beside a take and a finish for each item: a worker ends with at most two,
// a take and giving up.
const ROOM_OF_ENDS: usize = 2 * MOST_SEATS as usize;

// A worker after its work, and how that ended.
#[derive(Drop)]
struct Worked {
    worker: Worker,
    end: Result<(), NoMemory>,
}

// Has a worker work.
fn work_alone<R: Wait, G: Gate>(
    rt: &R,
    alloc: Global,
    board: &Turn<Board>,
    inputs: &Arc<Inputs>,
    gate: &G,
    mut worker: Worker,
) -> Worked
    requires new { IsNew board.now worker }
    requires inputs { board.now.about.object ≡ inputs.now.value }
    ensures { HasWorked board.now worker result }
{
    let end = work(rt, alloc, board, &mut worker, inputs, gate);
    Worked { worker, end }
}

// Has workers work: one on this thread, each of the others in a thread of its own if one can be started,
// otherwise after those that have.
fn work_all<R: Threads + Wait + Sync, G: Gate + Sync>(
    rt: &R,
    alloc: Global,
    board: &Turn<Board>,
    inputs: &Arc<Inputs>,
    gate: &G,
    workers: Vec<Worker>,
) -> Result<Vec<Worked>, AllocError>
    requires new { All (IsNew board.now) workers.items }
    requires inputs { board.now.about.object ≡ inputs.now.value }
    ensures count { IfOk result (λ all. vec_len all ≡ vec_len workers) }
    ensures each { IfOk result (λ all. (k : ℕ) (w : _) (d : _) → k < vec_len workers → HasWorked board.now (slice_index_or workers.items k w) (slice_index_or all.items k d)) }
{
    thread::map_vec(
        rt,
        workers,
        &|worker: Worker| -> Worked
            requires { IsNew board.now worker × (board.now.about.object ≡ inputs.now.value) }
            ensures { HasWorked board.entry.now worker result }
        { work_alone(rt, alloc, board, inputs, gate, worker) },
    )
}

// The workers, if none of them was refused memory.
fn all_done(alloc: Global, all: Vec<Worked>) -> Result<Vec<Worker>, NoMemory>
    ensures { IfOk result (λ workers. all.items ≡ map done_by workers.items) }
{
    let mut workers = Vec::with_capacity(alloc, all.len())?;
    for worked in all {
        let Worked { worker, end } = worked;
        end?;
        workers.push(worker)?;
    }
    Ok(workers)
}

// Has workers work, until each was told that every item is out.
fn put_to_work<R: Threads + Wait + Sync, G: Gate + Sync>(
    rt: &R,
    alloc: Global,
    board: &Turn<Board>,
    inputs: &Arc<Inputs>,
    gate: &G,
    workers: Vec<Worker>,
) -> Result<Vec<Worker>, NoMemory>
    requires new { All (IsNew board.now) workers.items }
    requires inputs { board.now.about.object ≡ inputs.now.value }
    ensures { IfOk result (λ worked. HaveWorked board.now workers.items worked.items) }
{
    let all = work_all(rt, alloc, board, inputs, gate, workers)?;
    all_done(alloc, all)
}

// The board of a run under its lock, and its workers. Its log has places for all entries of orderly workers.
fn open(
    alloc: Global,
    inputs: &Arc<Inputs>,
    workers: usize,
) -> Result<(Turn<Board>, Vec<Worker>), NoMemory>
    requires { IsInRange 1 MOST_WORKERS workers }
    ensures board { IfOk result (λ r. r.0.about.object ≡ inputs.now.value) }
    ensures seats { IfOk result (λ r. r.0.about.seats ≡ workers) }
    ensures room { IfOk result (λ r. r.0.about.room ≡ 2 * count inputs.now.value + ROOM_OF_ENDS) }
    ensures count { IfOk result (λ r. length r.1.items ≡ workers) }
    ensures workers { IfOk result (λ r. (k : ℕ) → k < workers → slice_get r.1.items k ≡ Some (newcomer r.0 (k + 1))) }
{
    let (board, state) = Board::open(alloc, inputs)?;
    let room = 2 * inputs.shop().tables().items().len() + ROOM_OF_ENDS;
    match Turn::new(alloc, board, state, room, workers as u64) {
        Ok(opened) => Ok(opened),
        Err(_) => Err(NoMemory),
    }
}

/// Has so many workers (1 to 64, as the caller guarantees) plan all items of these inputs at one board. Returns
/// the board's state and log once each worker was told that every item is out. The calling thread is one of
/// them; each of the others has a thread of its own if one can be started, otherwise it works here, after those
/// that have. Each passes the gate before it plans an item. It may wait.
///
/// Errors: `NoMemory` if an allocation fails.
pub fn work_together<R: Threads + Wait + Sync, G: Gate + Sync>(
    rt: &R,
    alloc: Global,
    inputs: &Arc<Inputs>,
    workers: usize,
    gate: &G,
) -> Result<(BoardState, Log<BoardCall, BoardReply>), NoMemory>
    requires { IsInRange 1 MOST_WORKERS workers }
    ensures { IfOk result (λ r. LeaveFinished inputs.now.value workers r.0 r.1) }
{
    let (board, hired) = open(alloc, inputs, workers)?;
    let worked = put_to_work(rt, alloc, &board, inputs, gate, hired)?;
    Ok(board.close(worked))
}

// The plan of the outcomes that a board holds, each of which is stored.
fn plan_of(alloc: Global, inputs: &Arc<Inputs>, board: BoardState) -> Result<Plan, RunFault>
    requires inputs { board.inputs ≡ inputs.now.value }
    requires stored { (i : ℕ) → i < count inputs.now.value → has_stored board i ≡ true }
    ensures { Explodes inputs.now.value result }
{
    let all = out_of_places(alloc, board.into_outcomes())?;
    plan_from(share(inputs)?, all)
}

// Drops a board's log in a thread for which nobody waits, or here if none can be started.
fn drop_beside(rt: &impl Threads, log: Log<BoardCall, BoardReply>) {
    let _ = thread::spawn(rt, move || drop(log));
}

// The plan that workers make at one board.
fn plan_together<R: Threads + Wait + Sync, G: Gate + Sync>(
    rt: &R,
    alloc: Global,
    inputs: &Arc<Inputs>,
    workers: usize,
    gate: &G,
) -> Result<Plan, RunFault>
    requires { IsInRange 1 MOST_WORKERS workers }
    ensures { Explodes inputs.now.value result }
{
    let (board, log) = work_together(rt, alloc, inputs, workers, gate)?;
    drop_beside(rt, log);
    plan_of(alloc, inputs, board)
}

// The fewest items for which it is asked whether several workers plan them sooner than one.
const MANY: usize = 1_024;

// How many items of many a low-level code must have on average.
const WIDE: usize = 4;

// Whether a shop has many items, and so few of them to a low-level code that workers would mostly wait for one
// another.
fn is_narrow(shop: &Shop) -> bool {
    let items = shop.tables().items().len();
    items >= MANY && items / shop.depth().max(1) < WIDE
}

/// The plan of these inputs: every item is planned, by so many workers (1 to 64, as the caller guarantees). Where
/// there is one, or a shop has many items but few to a low-level code, items are planned in turn; otherwise as in
/// [`work_together`]. It is the plan that `explode_serial` gives. It passes the gate before it plans an item, once
/// for each. It may wait.
///
/// Errors: `NoMemory` if an allocation fails; otherwise `TooLarge` with the first item in table
/// order whose quantities get too large while those of no item above it do (profile).
pub fn explode<R: Threads + Wait + Sync, G: Gate + Sync>(
    rt: &R,
    alloc: Global,
    inputs: &Arc<Inputs>,
    workers: usize,
    gate: &G,
) -> Result<Plan, RunFault>
    requires { IsInRange 1 MOST_WORKERS workers }
    ensures { Explodes inputs.now.value result }
{
    if workers == 1 || is_narrow(inputs.shop()) {
        plan_in_turn(alloc, inputs, |item: usize| gate.pass(rt, item))
    } else {
        plan_together(rt, alloc, inputs, workers, gate)
    }
}
