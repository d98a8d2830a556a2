//! The board of a run with its log.

ghost use Rattle.std.specs.Prelude.{◌≡◌};
ghost use Rattle.mrp_board.specs.Board.{item_in, settles};

use mrp_board::{Board, BoardCall, BoardRefused, BoardReply, BoardState};
use mrp_item::{Inputs, Outcome, Plan, plan_item};
use mrp_qty::NoMemory;
use mrp_turn::{Entry, Object};
use std::alloc::Global;
use std::marker::Model;
use std::sync::Arc;

// Whether a reply decides what its worker holds.
fn settles(reply: &BoardReply) -> bool
    ensures { result ≡ settles reply.now }
{
    !matches!(reply, BoardReply::AllOut | BoardReply::NotOut)
}

// The item that a reply hands out.
fn item_in(reply: &BoardReply) -> Option<usize>
    ensures { result ≡ item_in reply.now }
{
    match reply {
        BoardReply::Item(item, _) => Some(*item),
        _ => None,
    }
}

/// The board of a run with its log, for one thread. Contracts see the inputs of the run, and the log.
#[derive(Drop)]
pub struct RunBoard {
    board: Board,
    state: BoardState,
    log: Vec<Entry<BoardCall, BoardReply>>,
}

impl Model for RunBoard {
    ghost use Rattle.mrp_engine.specs.event_core.Board.{RunLog};
    ghost use Rattle.mrp_engine.specs.event_core.Kept.{KeepsLog};

    ghost Value = { RunLog };

    ghost view = { λ b. record { inputs = b.board; log = b.log.items } };

    ghost invariant = { λ b. KeepsLog b.board b.state b.log.items };
}

impl RunBoard {
    ghost use Rattle.std.specs.Prelude.{◌≡◌, ◌≢◌, ◌↔◌, ◌++◌, ◌<◌, [], ℕ, true, Some, None, Ok, IfOk, IsTrue, OnErr, IsSome, option_map};
    ghost use Rattle.std.specs.Option.{option_copied};
    ghost use Rattle.mrp_turn.specs.Log.{IsSeatNumber};
    ghost use Rattle.mrp_item.specs.Inputs.{count};
    ghost use Rattle.mrp_item.specs.Made.{all_from, item_from};
    ghost use Rattle.mrp_item.specs.Plan.{first_over, is_over, outcome_of, plan_of};
    ghost use Rattle.mrp_board.specs.Board.{FitsInputs, board_reply, held, is_finished, is_stored, settled_by};
    ghost use Rattle.mrp_engine.specs.event_core.Board.{made};

    /// The board of a run that plans from these inputs, with an empty log.
    ///
    /// Errors: `NoMemory` if an allocation fails.
    pub fn open(alloc: Global, inputs: &Arc<Inputs>) -> Result<RunBoard, NoMemory>
        ensures { IfOk result (λ b. b ≡ record { inputs = inputs.now.value; log = [] }) }
    {
        let (board, state) = Board::open(alloc, inputs)?;
        Ok(RunBoard {
            board,
            state,
            log: Vec::new(alloc),
        })
    }

    /// What the run plans from.
    pub fn inputs(&self) -> &Arc<Inputs>
        ensures { result.now.value ≡ self.now.inputs }
    {
        self.board.inputs()
    }

    // How many items the run has.
    fn count(&self) -> usize
        ensures { result ≡ count self.now.inputs }
    {
        self.inputs().shop().tables().items().len()
    }

    // A worker's last entry that decides what it holds.
    fn settled_by(&self, worker: u64) -> Option<&Entry<BoardCall, BoardReply>>
        ensures { option_copied result ≡ settled_by worker self.now.log }
    {
        self.log
            .iter()
            .rev()
            .find(|entry| entry.who == worker && settles(&entry.reply))
    }

    /// The item that a worker holds.
    pub fn held(&self, worker: u64) -> Option<usize>
        ensures { result ≡ held worker self.now.log }
    {
        match self.settled_by(worker) {
            Some(last) => item_in(&last.reply),
            None => None,
        }
    }

    /// What planning the item that a worker holds gives; `None` if it holds none. The item is planned from
    /// the outcomes with which it was handed out.
    ///
    /// Errors: `NoMemory` if the worker holds an item and an allocation fails.
    pub fn plan_held(&self, alloc: Global, worker: u64) -> Result<Option<Outcome>, NoMemory>
        ensures outcome { IfOk result (λ outcome. outcome ≡ option_map (item_from self.now.inputs) (held worker self.now.log)) }
        ensures memory { OnErr result (IsSome (held worker self.now.log)) }
    {
        let Some(last) = self.settled_by(worker) else {
            return Ok(None);
        };
        match &last.reply {
            BoardReply::Item(item, parents) => Ok(Some(plan_item(
                alloc,
                self.board.inputs(),
                *item,
                parents.as_slice(),
            )?)),
            _ => Ok(None),
        }
    }

    // Whether a worker that makes this call has to come again.
    fn is_waiting(&self, call: &BoardCall) -> bool
        ensures { (worker : ℕ) → IsTrue result ↔ (board_reply self.now.inputs self.now.log worker call.now ≡ None) }
    {
        match call {
            BoardCall::Take => self.state.is_waiting(),
            BoardCall::Finish(_) | BoardCall::GiveUp => false,
        }
    }

    /// Makes a worker's call, and an entry of it. `None` if the worker has to come again; nothing changes
    /// then.
    ///
    /// Errors: `NoMemory` if an allocation fails, never where the result would be `None`. Nothing
    /// has changed then.
    pub fn make(&mut self, worker: u64, call: BoardCall) -> Result<Option<BoardReply>, NoMemory>
        requires seat { IsSeatNumber worker }
        requires fits { FitsInputs self.old.inputs call }
        ensures reply { IfOk result (λ reply. reply ≡ board_reply self.old.inputs self.old.log worker call) }
        ensures entry { IfOk result (λ reply. self.new ≡ record self.old { log = self.old.log ++ made worker call reply }) }
        ensures refused { OnErr result (self.new ≡ self.old) }
        ensures memory { OnErr result (board_reply self.old.inputs self.old.log worker call ≢ None) }
    {
        if self.is_waiting(&call) {
            return Ok(None);
        }
        self.log.try_reserve(1)?;
        match self.board.apply(&mut self.state, worker, &call) {
            Ok((reply, copy)) => {
                self.log.push_reserved(Entry {
                    who: worker,
                    call,
                    reply: copy,
                });
                Ok(Some(reply))
            }
            Err(BoardRefused::NoMemory) => Err(NoMemory),
            Err(BoardRefused::NotYet) => unreachable!(),
        }
    }

    // Whether an item is stored.
    fn is_stored(&self, item: usize) -> bool
        requires { item < count self.now.inputs }
        ensures { result ≡ is_stored self.now.log item }
    {
        self.state.outcome(item).is_some()
    }

    /// Whether every item is stored.
    pub fn is_finished(&self) -> bool
        ensures { result ≡ is_finished self.now.inputs self.now.log }
    {
        (0..self.count()).all(
            |item: usize| -> bool
                requires { item < count self.now.inputs }
                ensures { result ≡ is_stored self.entry.now.log item }
            { self.is_stored(item) },
        )
    }

    // The outcome of an item, once all are stored.
    fn outcome(&self, item: usize) -> &Outcome
        requires finished { is_finished self.now.inputs self.now.log ≡ true }
        requires item { item < count self.now.inputs }
        ensures { result.now ≡ item_from self.now.inputs item }
    {
        match self.state.outcome(item) {
            Some(outcome) => outcome,
            None => unreachable!(),
        }
    }

    /// The first item in table order that gets too large while none above it does, once all are
    /// stored. It takes no memory.
    pub fn first_over(&self) -> Option<usize>
        requires { is_finished self.now.inputs self.now.log ≡ true }
        ensures { result ≡ first_over self.now.inputs }
    {
        (0..self.count()).find(
            |item: &usize| -> bool
                requires finished { is_finished self.now.inputs self.now.log ≡ true }
                requires item { item.now < count self.now.inputs }
                ensures { result ≡ is_over (outcome_of self.entry.now.inputs item.now) }
            { self.outcome(*item).is_over() },
        )
    }

    // Copies of all items' outcomes in table order, once all are stored.
    fn outcomes(&self, alloc: Global) -> Result<Vec<Outcome>, NoMemory>
        requires { is_finished self.now.inputs self.now.log ≡ true }
        ensures { IfOk result (λ all. all.items ≡ all_from self.now.inputs) }
    {
        let count = self.count();
        let mut all = Vec::with_capacity(alloc, count)?;
        for item in 0..count {
            all.push(self.outcome(item).copy()?)?;
        }
        Ok(all)
    }

    /// The plan of all items, each of which is stored, and none of which gets too large.
    ///
    /// Errors: `NoMemory` where memory is refused.
    pub fn plan(&self, alloc: Global) -> Result<Plan, NoMemory>
        requires finished { is_finished self.now.inputs self.now.log ≡ true }
        requires none { first_over self.now.inputs ≡ None }
        ensures inputs { IfOk result (λ plan. plan.inputs ≡ self.now.inputs) }
        ensures plans { IfOk result (λ plan. plan_of self.now.inputs ≡ Ok plan.plans) }
    {
        let outcomes = self.outcomes(alloc)?;
        match Plan::of(self.inputs().clone()?, outcomes) {
            Ok(plan) => Ok(plan),
            Err(_) => unreachable!(),
        }
    }
}
