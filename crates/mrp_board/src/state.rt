//! The state of a board between two calls.

use crate::call::BoardCall;
use crate::parents::Parents;
use crate::queue::Queue;
use crate::refused::BoardRefused;
use crate::reply::BoardReply;
use mrp_item::{Inputs, Outcome};
use mrp_qty::NoMemory;
use std::alloc::Global;
use std::marker::Model;
use std::sync::Arc;

/// A board without its log: what the run plans from, the worker that each item was handed out to, and the
/// stored outcomes.
///
/// It keeps the items that are ready, and for each item the number of its parents that are not stored, so
/// that no call looks at all items.
#[derive(Drop)]
pub struct BoardState {
    inputs: Arc<Inputs>,
    out: Vec<Option<u64>>,
    outcomes: Vec<Option<Outcome>>,
    queue: Queue,
    stopped: bool,
}

impl Model for BoardState {
    ghost use Rattle.mrp_board.specs.BoardState.{BoardState};
    ghost use Rattle.mrp_board.specs.Kept.{KeepsBoard};

    ghost Value = { BoardState };

    ghost view = { λ b. record { inputs = b.inputs.value; out = b.out.items; outcomes = b.outcomes.items; stopped = b.stopped } };

    ghost invariant = { λ b. KeepsBoard (record { inputs = b.inputs.value; out = b.out.items; outcomes = b.outcomes.items; stopped = b.stopped }) b.queue };
}

impl BoardState {
    ghost use Rattle.std.specs.Prelude.{◌≡◌, ◌↔◌, ◌<◌, ◌&&◌, ℕ, not, is_some, false, true, IfOk, IsTrue, None, Some, filter_map, find, set};
    ghost use Rattle.std.specs.Option.{option_copied};
    ghost use Rattle.mrp_item.specs.Inputs.{count, places};
    ghost use Rattle.mrp_board.specs.Board.{FitsInputs};
    ghost use Rattle.mrp_board.specs.BoardState.{AreOwn, board_reply_in, can_go_out, has_ended, has_stored, is_worker, new_board, outcome_at, parents_at, worker_of};
    ghost use Rattle.mrp_board.specs.Object.{Tells};

    // The state in which no item is handed out.
    pub(crate) fn open(alloc: Global, inputs: &Arc<Inputs>) -> Result<BoardState, NoMemory>
        ensures { IfOk result (λ b. b ≡ new_board inputs.now.value) }
    {
        let inputs = inputs.clone()?;
        let count = inputs.shop().tables().items().len();
        let mut out = Vec::with_capacity(alloc, count)?;
        let mut outcomes = Vec::with_capacity(alloc, count)?;
        for _ in 0..count {
            out.push(None)?;
            outcomes.push(None)?;
        }
        let queue = Queue::open(alloc, inputs.shop())?;
        Ok(BoardState {
            inputs,
            out,
            outcomes,
            queue,
            stopped: false,
        })
    }

    /// What the run plans from.
    pub fn inputs(&self) -> &Arc<Inputs>
        ensures { result.now.value ≡ self.now.inputs }
    {
        &self.inputs
    }

    /// The stored outcome of an item.
    pub fn outcome(&self, item: usize) -> Option<&Outcome>
        ensures value { option_copied result ≡ outcome_at self.now item }
        ensures own { AreOwn self.now.inputs self.now.outcomes }
    {
        match self.outcomes.get(item) {
            Some(Some(outcome)) => Some(outcome),
            _ => None,
        }
    }

    /// The stored outcomes, each at its item's place in the table.
    pub fn into_outcomes(self) -> Vec<Option<Outcome>>
        ensures value { result.items ≡ self.outcomes }
        ensures own { AreOwn self.inputs result.items }
    {
        let BoardState {
            inputs: _,
            out: _,
            outcomes,
            queue: _,
            stopped: _,
        } = self;
        outcomes
    }

    /// Whether a worker that asks for an item has to come again: items are left, none of them is ready, and
    /// no worker gave up.
    pub fn is_waiting(&self) -> bool
        ensures { (who : ℕ) → IsTrue result ↔ (board_reply_in self.now who BoardCall.Take ≡ None) }
    {
        !self.is_at_end() && self.first().is_none()
    }

    // Answers a worker's call: returns the reply, and an equal copy. An outcome must be for the run's
    // inputs.
    //
    // Errors: `NotYet` exactly if a worker that asks for an item has to come again, and `NoMemory` if an
    // allocation fails; only an item that is handed out or stored allocates. After an error the state is
    // unchanged.
    pub(crate) fn apply(
        &mut self,
        alloc: Global,
        who: u64,
        call: &BoardCall,
    ) -> Result<(BoardReply, BoardReply), BoardRefused>
        requires { FitsInputs self.old.inputs call.now }
        ensures { Tells self.old who call.now result self.new }
    {
        match call {
            BoardCall::Take => self.take(alloc, who),
            BoardCall::Finish(outcome) => self.finish(who, outcome),
            BoardCall::GiveUp => {
                self.stopped = true;
                Ok((BoardReply::Stopped, BoardReply::Stopped))
            }
        }
    }

    // Whether every item was handed out, or a worker gave up the run.
    fn is_at_end(&self) -> bool
        ensures { result ≡ has_ended self.now }
    {
        self.stopped || self.queue.is_empty()
    }

    // The first item in table order that is ready.
    fn first(&self) -> Option<usize>
        ensures { result ≡ find (can_go_out self.now) (places self.now.inputs) }
    {
        self.queue.first()
    }

    // The stored outcomes of an item's parents.
    fn parents_of(&self, alloc: Global, item: usize) -> Result<Parents, NoMemory>
        requires { item < count self.now.inputs }
        ensures { IfOk result (λ parents. parents ≡ filter_map (outcome_at self.now) (parents_at self.now item)) }
    {
        let parents = self.inputs.shop().parents(item);
        let mut outcomes = Vec::with_capacity(alloc, parents.len())?;
        for parent in parents {
            if let Some(outcome) = self.outcome(*parent) {
                outcomes.push(outcome.copy()?)?;
            }
        }
        Parents::new(alloc, outcomes)
    }

    fn take(&mut self, alloc: Global, who: u64) -> Result<(BoardReply, BoardReply), BoardRefused>
        ensures { Tells self.old who BoardCall.Take result self.new }
    {
        if self.is_at_end() {
            return Ok((BoardReply::AllOut, BoardReply::AllOut));
        }
        let Some(item) = self.first() else {
            return Err(BoardRefused::NotYet);
        };
        let parents = self.parents_of(alloc, item)?;
        let copy = parents.copy()?;
        self.hand_out(who, item);
        Ok((
            BoardReply::Item(item, parents),
            BoardReply::Item(item, copy),
        ))
    }

    // Notes that the first item that is ready is a worker's.
    fn hand_out(&mut self, who: u64, item: usize)
        requires { find (can_go_out self.old) (places self.old.inputs) ≡ Some item }
        ensures { self.new ≡ record self.old { out = set self.old.out item (Some who) } }
    {
        let _ = self.queue.take_first();
        self.out[item] = Some(who);
    }

    fn finish(
        &mut self,
        who: u64,
        outcome: &Outcome,
    ) -> Result<(BoardReply, BoardReply), BoardRefused>
        requires { outcome.now.inputs ≡ self.old.inputs }
        ensures { Tells self.old who (BoardCall.Finish outcome.now) result self.new }
    {
        if !self.is_held(who, outcome.item()) {
            return Ok((BoardReply::NotOut, BoardReply::NotOut));
        }
        let outcome = outcome.copy()?;
        self.store(outcome);
        Ok((BoardReply::Stored, BoardReply::Stored))
    }

    // Whether an item was handed out to a worker, and is not stored.
    fn is_held(&self, who: u64, item: usize) -> bool
        ensures { result ≡ (is_worker who (worker_of self.now item) && not (has_stored self.now item)) }
    {
        match self.out.get(item) {
            Some(Some(worker)) => *worker == who && self.outcome(item).is_none(),
            _ => false,
        }
    }

    // Stores the outcome of an item that was handed out.
    fn store(&mut self, outcome: Outcome)
        requires inputs { outcome.inputs ≡ self.old.inputs }
        requires out { is_some (worker_of self.old outcome.item) ≡ true }
        requires new { has_stored self.old outcome.item ≡ false }
        ensures { self.new ≡ record self.old { outcomes = set self.old.outcomes outcome.item (Some outcome) } }
    {
        let item = outcome.item();
        self.outcomes[item] = Some(outcome);
        self.queue.settle_all(self.inputs.shop().children(item));
    }
}
