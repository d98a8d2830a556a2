//! The board of a run as the object that workers take turns on.

use crate::call::BoardCall;
use crate::refused::BoardRefused;
use crate::reply::BoardReply;
use crate::state::BoardState;
use mrp_item::Inputs;
use mrp_qty::NoMemory;
use mrp_turn::Object;
use std::alloc::Global;
use std::hint::spin_loop;
use std::marker::Model;
use std::sync::atomic::{AtomicU64, Ordering};
use std::sync::{Arc, Wait};
use std::thread::yield_now;

// How often a worker in line looks whether it is its turn before it lets other threads run.
const LOOKS: u32 = 1_000;

/// The board of a run, as an object whose state is a [`BoardState`]. Contracts see the inputs of the run.
#[derive(Drop)]
pub struct Board {
    inputs: Arc<Inputs>,
    // The allocator of what is handed out.
    alloc: Global,
    // 1 while a worker that came through the line is at the board, otherwise 0.
    line: AtomicU64,
}

impl Model for Board {
    ghost use Rattle.mrp_item.specs.Inputs.{Inputs};

    ghost Value = { Inputs };

    ghost view = { λ b. b.inputs.value };
}

impl Board {
    ghost use Rattle.std.specs.Prelude.{◌≡◌, IfOk};
    ghost use Rattle.mrp_board.specs.Object.{Opens};

    /// The board of a run that plans from these inputs, and its state, in which no item is handed out. It
    /// has places for all items.
    ///
    /// Errors: `NoMemory` if an allocation fails, or a reference count cannot rise.
    pub fn open(alloc: Global, inputs: &Arc<Inputs>) -> Result<(Board, BoardState), NoMemory>
        ensures inputs { IfOk result (λ r. r.0 ≡ inputs.now.value) }
        ensures opens { IfOk result (λ r. Opens r.0 r.1) }
    {
        let state = BoardState::open(alloc, inputs)?;
        let inputs = inputs.clone()?;
        let board = Board {
            inputs,
            alloc,
            line: AtomicU64::new(0),
        };
        Ok((board, state))
    }

    /// Waits until no other worker that came through the line is at the board. Nothing that is proved rests on
    /// it: a lock puts a thread that finds it taken to sleep after a few looks, for longer than it takes to plan
    /// many items. The caller leaves the line after its call.
    pub fn line_up<R: Wait>(&self, rt: &R) {
        for _ in rt.forever() {
            if self.line.swap(1, Ordering::Acquire) == 0 {
                return;
            }
            if !self.looks_free() {
                yield_now();
            }
        }
    }

    // Looks for a while whether the line was left.
    fn looks_free(&self) -> bool {
        for _ in 0..LOOKS {
            if self.line.load(Ordering::Relaxed) == 0 {
                return true;
            }
            spin_loop();
        }
        false
    }

    /// Lets the next worker in line come to the board.
    pub fn leave_line(&self) {
        self.line.store(0, Ordering::Release);
    }

    /// What the run plans from.
    pub fn inputs(&self) -> &Arc<Inputs>
        ensures { result.now.value ≡ self.now }
    {
        &self.inputs
    }
}

impl Object for Board {
    ghost use Rattle.mrp_board.specs.Board.{FitsInputs};
    ghost use Rattle.mrp_board.specs.Object.{Answers, IsOutOfMemory, Opens, Refuses};

    type State = BoardState;

    type Call = BoardCall;

    type Reply = BoardReply;

    type Refused = BoardRefused;

    ghost opens = { Opens };

    ghost fits = { FitsInputs };

    ghost answers = { Answers };

    ghost refuses = { λ _ b who call e. Refuses b who call e };

    ghost out_of_memory = { λ _ b who call e. IsOutOfMemory b who call e };

    fn apply(
        &self,
        state: &mut BoardState,
        who: u64,
        call: &BoardCall,
    ) -> Result<(BoardReply, BoardReply), BoardRefused> {
        state.apply(self.alloc, who, call)
    }
}
