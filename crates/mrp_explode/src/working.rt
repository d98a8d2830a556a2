//! A worker at the board of a run: it takes items, plans them and stores their outcomes.

ghost use Rattle.std.specs.Prelude.{◌≡◌, ◌<◌, [], IfOk, OnErr, OnOk};
ghost use Rattle.mrp_turn.specs.Lists.{StartsWith};
ghost use Rattle.mrp_item.specs.Inputs.{count};
ghost use Rattle.mrp_item.specs.Made.{item_from, parents_from};
ghost use Rattle.mrp_board.specs.Board.{FitsInputs};
ghost use Rattle.mrp_board.specs.Orderly.{IsCourse};
ghost use Rattle.mrp_explode.specs.Work.{Asks, GivesUp, HasGivenUp, Holds, HoldsNone, IsAfter, IsDone, IsRefused, IsTold, LacksMemory, Sees, Takes};

use crate::gate::Gate;
use crate::levels::make_room;
use crate::pauses::Pauses;
use mrp_board::{Board, BoardCall, BoardRefused, BoardReply, Parents};
use mrp_item::{Inputs, Outcome, plan_item};
use mrp_qty::NoMemory;
use mrp_turn::{CallFault, Seat, Turn};
use std::alloc::Global;
use std::sync::{Arc, Wait};

/// A worker at the board of a run; one thread at a time works with it. Contracts see its board, its number,
/// what it has seen of the board's log, and its own entries; the last two have no bytes.
pub type Worker = Seat<Board>;

// An item that a worker took, and the outcomes of its parents.
#[derive(Drop)]
struct Task {
    item: usize,
    parents: Parents,
}

// One call of a worker, which lines up for it.
fn call<R: Wait>(
    rt: &R,
    board: &Turn<Board>,
    seat: &mut Worker,
    asked: BoardCall,
) -> Result<(u64, BoardReply), CallFault<BoardRefused>>
    requires turn { seat.old.turn ≡ board.now }
    requires call { FitsInputs board.now.about.object asked }
    ensures same { (seat.new.turn ≡ seat.old.turn) × (seat.new.number ≡ seat.old.number) }
    ensures goes_on { StartsWith seat.new.seen seat.old.seen }
    ensures sees { Sees board.now.about.object seat.new }
    ensures told { IsTold board.now.about asked seat.old result seat.new }
{
    board.object().line_up(rt);
    let result = board.call(rt, seat, asked);
    board.object().leave_line();
    result
}

// Asks for an item once. `None` if none is ready yet.
fn ask<R: Wait>(
    rt: &R,
    board: &Turn<Board>,
    worker: &mut Worker,
) -> Result<Option<BoardReply>, NoMemory>
    requires board { worker.old.turn ≡ board.now }
    ensures same { (worker.new.turn ≡ worker.old.turn) × (worker.new.number ≡ worker.old.number) }
    ensures goes_on { StartsWith worker.new.seen worker.old.seen }
    ensures sees { Sees board.now.about.object worker.new }
    ensures asked { IfOk result (λ reply. Asks board.now.about.object worker.old.number worker.old.mine reply worker.new.seen worker.new.mine) }
    ensures refused { OnErr result (worker.new.mine ≡ worker.old.mine) }
    ensures memory { OnErr result (LacksMemory board.now.about worker.old.number worker.new.seen) }
{
    match call(rt, board, worker, BoardCall::Take) {
        Ok((_, reply)) => Ok(Some(reply)),
        Err(CallFault::Refused(BoardRefused::NotYet)) => Ok(None),
        Err(CallFault::Refused(BoardRefused::NoMemory)) => Err(NoMemory),
        Err(CallFault::NoMemory) => Err(NoMemory),
    }
}

// Takes the next item, once one is ready. `None` once every item was handed out.
fn take<R: Wait>(rt: &R, board: &Turn<Board>, worker: &mut Worker) -> Result<Option<Task>, NoMemory>
    requires board { worker.old.turn ≡ board.now }
    ensures same { (worker.new.turn ≡ worker.old.turn) × (worker.new.number ≡ worker.old.number) }
    ensures goes_on { StartsWith worker.new.seen worker.old.seen }
    ensures sees { Sees board.now.about.object worker.new }
    ensures taken { IfOk result (λ task. Takes board.now.about.object worker.old.number worker.old.mine task worker.new.mine) }
    ensures refused { OnErr result (worker.new.mine ≡ worker.old.mine) }
    ensures memory { OnErr result (LacksMemory board.now.about worker.old.number worker.new.seen) }
{
    let mut pauses = Pauses::new();
    for _ in rt.forever() {
        match ask(rt, board, worker)? {
            Some(BoardReply::Item(item, parents)) => return Ok(Some(Task { item, parents })),
            Some(BoardReply::AllOut) => return Ok(None),
            Some(_) => unreachable!(),
            None => pauses.pause(rt),
        }
    }
    unreachable!()
}

// Plans an item that was taken, once the gate lets it pass.
fn plan_task<R: Wait, G: Gate>(
    rt: &R,
    alloc: Global,
    inputs: &Arc<Inputs>,
    gate: &G,
    task: &Task,
) -> Result<Outcome, NoMemory>
    requires item { task.now.item < count inputs.now.value }
    requires parents { task.now.parents ≡ parents_from inputs.now.value task.now.item }
    ensures { IfOk result (λ outcome. outcome ≡ item_from inputs.now.value task.now.item) }
{
    gate.pass(rt, task.item);
    drop(make_room(alloc, task.item)?);
    plan_item(alloc, inputs, task.item, task.parents.as_slice())
}

// Stores the outcome of the item that the worker holds.
fn store<R: Wait>(
    rt: &R,
    board: &Turn<Board>,
    worker: &mut Worker,
    outcome: Outcome,
) -> Result<(), NoMemory>
    requires board { worker.old.turn ≡ board.now }
    requires inputs { outcome.inputs ≡ board.now.about.object }
    requires holds { Holds board.now.about.object worker.old.number outcome.item worker.old.mine }
    ensures same { (worker.new.turn ≡ worker.old.turn) × (worker.new.number ≡ worker.old.number) }
    ensures goes_on { StartsWith worker.new.seen worker.old.seen }
    ensures sees { Sees board.now.about.object worker.new }
    ensures stored { OnOk result (HoldsNone board.now.about.object worker.old.number worker.new.mine) }
    ensures refused { OnErr result (worker.new.mine ≡ worker.old.mine) }
{
    match call(rt, board, worker, BoardCall::Finish(outcome)) {
        Ok(_) => Ok(()),
        Err(_) => Err(NoMemory),
    }
}

// Takes an item, plans it and stores its outcome. Returns whether there was one.
fn work_once<R: Wait, G: Gate>(
    rt: &R,
    alloc: Global,
    board: &Turn<Board>,
    worker: &mut Worker,
    inputs: &Arc<Inputs>,
    gate: &G,
) -> Result<bool, NoMemory>
    requires board { worker.old.turn ≡ board.now }
    requires inputs { board.now.about.object ≡ inputs.now.value }
    requires holds { HoldsNone inputs.now.value worker.old.number worker.old.mine }
    ensures same { (worker.new.turn ≡ worker.old.turn) × (worker.new.number ≡ worker.old.number) }
    ensures goes_on { StartsWith worker.new.seen worker.old.seen }
    ensures sees { Sees board.now.about.object worker.new }
    ensures worked { IfOk result (λ more. IsAfter inputs.now.value worker.old.number more worker.new.mine) }
    ensures refused { OnErr result (IsRefused board.now.about inputs.now.value worker.old.number worker.new.seen worker.new.mine) }
{
    let Some(task) = take(rt, board, worker)? else {
        return Ok(false);
    };
    let outcome = plan_task(rt, alloc, inputs, gate, &task)?;
    store(rt, board, worker, outcome)?;
    Ok(true)
}

// Works until every item was handed out.
fn work_on<R: Wait, G: Gate>(
    rt: &R,
    alloc: Global,
    board: &Turn<Board>,
    worker: &mut Worker,
    inputs: &Arc<Inputs>,
    gate: &G,
) -> Result<(), NoMemory>
    requires board { worker.old.turn ≡ board.now }
    requires inputs { board.now.about.object ≡ inputs.now.value }
    requires holds { HoldsNone inputs.now.value worker.old.number worker.old.mine }
    ensures same { (worker.new.turn ≡ worker.old.turn) × (worker.new.number ≡ worker.old.number) }
    ensures goes_on { StartsWith worker.new.seen worker.old.seen }
    ensures sees { Sees board.now.about.object worker.new }
    ensures done { OnOk result (IsDone inputs.now.value worker.old.number worker.new.mine) }
    ensures refused { OnErr result (IsRefused board.now.about inputs.now.value worker.old.number worker.new.seen worker.new.mine) }
{
    for _ in rt.forever() {
        if !work_once(rt, alloc, board, worker, inputs, gate)? {
            return Ok(());
        }
    }
    unreachable!()
}

// Stops the run, if there is memory for the entry.
fn give_up<R: Wait>(rt: &R, board: &Turn<Board>, worker: &mut Worker)
    requires board { worker.old.turn ≡ board.now }
    ensures same { (worker.new.turn ≡ worker.old.turn) × (worker.new.number ≡ worker.old.number) }
    ensures goes_on { StartsWith worker.new.seen worker.old.seen }
    ensures sees { Sees board.now.about.object worker.new }
    ensures given_up { GivesUp board.now.about worker.old.number worker.old.mine worker.new.seen worker.new.mine }
{
    let _ = call(rt, board, worker, BoardCall::GiveUp);
}

/// Has a worker take items from the board of a run, plan each and store its outcome, until every item was
/// handed out. It passes the gate before it plans an item, once for each that it takes. The board must be
/// that of equal inputs, and the worker one of the board's that has called nothing yet. It may wait, for other
/// workers to finish the parents of items that are left.
///
/// Errors: `NoMemory` if an allocation fails. The worker has then given up the run, unless the board's log
/// was full and could not grow.
pub fn work<R: Wait, G: Gate>(
    rt: &R,
    alloc: Global,
    board: &Turn<Board>,
    worker: &mut Worker,
    inputs: &Arc<Inputs>,
    gate: &G,
) -> Result<(), NoMemory>
    requires board { worker.old.turn ≡ board.now }
    requires inputs { board.now.about.object ≡ inputs.now.value }
    requires new { worker.old.mine ≡ [] }
    ensures same { (worker.new.turn ≡ worker.old.turn) × (worker.new.number ≡ worker.old.number) }
    // What it has then seen is a legal log that continues what it had seen, and its own entries are those of the log.
    ensures goes_on { StartsWith worker.new.seen worker.old.seen }
    ensures sees { Sees board.now.about.object worker.new }
    // It takes an item and finishes it, again and again, until it is told that all are out or gives up.
    ensures orderly { IsCourse inputs.now.value worker.old.number worker.new.mine }
    ensures done { OnOk result (IsDone inputs.now.value worker.old.number worker.new.mine) }
    // It is refused memory with an item in hand, or where one is there for it or the log is full; never because no
    // item is ready yet.
    ensures given_up { OnErr result (HasGivenUp board.now.about inputs.now.value worker.old.number worker.new.seen worker.new.mine) }
{
    let worked = work_on(rt, alloc, board, worker, inputs, gate);
    if worked.is_err() {
        give_up(rt, board, worker);
    }
    worked
}
