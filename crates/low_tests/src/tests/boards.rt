//! Boards of runs, by workers that take turns.

ghost use Rattle.std.specs.Prelude.{◌≡◌, All};
ghost use Rattle.mrp_board.specs.Board.{FitsInputs};

use super::making::outcomes_of;
use super::{made, same};
use mrp_board::{Board, BoardCall, BoardRefused, BoardReply, BoardState};
use mrp_item::{Inputs, Outcome};
use mrp_turn::{CallFault, Seat, Turn};
use sample_shops::bicycles;
use std::alloc::Global;
use std::process::Abort;
use std::sync::{Arc, Wait};

// A call of a worker, items by their places.
#[derive(Clone, Copy)]
enum Asks {
    Take,
    Finish(usize),
    GiveUp,
}

// What a worker is told: an item comes with the place of its last parent.
#[derive(Clone, Copy, Debug, PartialEq, Eq, Drop)]
pub enum Hears {
    AllOut,
    Item(usize, Option<usize>),
    Stored,
    NotOut,
    Stopped,
    NotYet,
}

// A board with two workers, and the outcomes of all items.
#[derive(Drop)]
struct Run {
    turn: Turn<Board>,
    first: Seat<Board>,
    second: Seat<Board>,
    outcomes: Vec<Outcome>,
    ghost first_of_turn: { first.turn ≡ turn },
    ghost second_of_turn: { second.turn ≡ turn },
    ghost of_inputs: { All (λ o. o.inputs ≡ turn.about.object) outcomes.items },
}

// A new board under a lock, and its two workers.
fn two_workers(
    rt: &impl Abort,
    alloc: Global,
    inputs: &Arc<Inputs>,
) -> (Turn<Board>, Seat<Board>, Seat<Board>)
    ensures board { result.0.about.object ≡ inputs.now.value }
    ensures workers { (result.1.turn ≡ result.0) × (result.2.turn ≡ result.0) }
{
    let (board, state) = Board::open(alloc, inputs).expect(rt, "memory");
    let (turn, mut workers) = Turn::new(alloc, board, state, 0, 2).expect(rt, "a lock");
    let second = workers.pop().expect(rt, "two workers");
    let first = workers.pop().expect(rt, "two workers");
    (turn, first, second)
}

// What a reply tells a worker.
pub fn heard(reply: &BoardReply) -> Hears {
    match reply {
        BoardReply::AllOut => Hears::AllOut,
        BoardReply::Item(item, parents) => {
            Hears::Item(*item, parents.as_slice().last().map(|parent| parent.item()))
        }
        BoardReply::Stored => Hears::Stored,
        BoardReply::NotOut => Hears::NotOut,
        BoardReply::Stopped => Hears::Stopped,
    }
}

// The answer to a call of a worker.
fn answer<R: Wait + Abort>(
    rt: &R,
    turn: &Turn<Board>,
    worker: &mut Seat<Board>,
    call: BoardCall,
) -> Hears
    requires turn { worker.old.turn ≡ turn.now }
    requires fits { FitsInputs turn.now.about.object call }
    ensures { worker.new.turn ≡ worker.old.turn }
{
    match turn.call(rt, worker, call) {
        Ok((_, reply)) => {
            let heard = heard(&reply);
            drop(reply);
            heard
        }
        Err(CallFault::Refused(BoardRefused::NotYet)) => Hears::NotYet,
        Err(CallFault::Refused(BoardRefused::NoMemory) | CallFault::NoMemory) => {
            panic!(rt; "no memory")
        }
    }
}

impl Run {
    fn open(rt: &impl Abort, alloc: Global) -> Run {
        let inputs = made(rt, bicycles().inputs(alloc, &[]));
        let outcomes = made(rt, outcomes_of(alloc, &inputs));
        let (turn, first, second) = two_workers(rt, alloc, &inputs);
        drop(inputs);
        Run {
            turn,
            first,
            second,
            outcomes,
        }
    }

    // The call that a worker makes.
    fn call(&self, rt: &impl Abort, asks: Asks) -> BoardCall
        ensures { FitsInputs self.now.turn.about.object result }
    {
        match asks {
            Asks::Take => BoardCall::Take,
            Asks::GiveUp => BoardCall::GiveUp,
            Asks::Finish(item) => {
                assert!(rt; item < self.outcomes.len());
                BoardCall::Finish(self.outcomes[item].copy().expect(rt, "memory"))
            }
        }
    }

    // Fails unless the first calls are told this. Each is given by whether it is the first worker's, the call,
    // and what the worker is told.
    fn tells<R: Wait + Abort>(&mut self, rt: &R, calls: &[(bool, Asks, Hears)]) {
        for (is_first, asks, want) in calls {
            let call = self.call(rt, *asks);
            let heard = if *is_first {
                answer(rt, &self.turn, &mut self.first, call)
            } else {
                answer(rt, &self.turn, &mut self.second, call)
            };
            same(rt, heard, *want);
        }
    }
}

// A worker takes and finishes each item; none is handed out after one gave up; each is finished by the worker that took it.
const RUNS: [&[(bool, Asks, Hears)]; 3] = [
    &[
        (true, Asks::Take, Hears::Item(0, None)),
        (true, Asks::Take, Hears::NotYet),
        (true, Asks::Finish(0), Hears::Stored),
        (true, Asks::Take, Hears::Item(1, Some(0))),
        (true, Asks::Take, Hears::Item(2, Some(0))),
        (true, Asks::Take, Hears::AllOut),
        (true, Asks::Finish(0), Hears::NotOut),
    ],
    &[
        (true, Asks::GiveUp, Hears::Stopped),
        (true, Asks::Take, Hears::AllOut),
        (false, Asks::Take, Hears::AllOut),
    ],
    &[
        (true, Asks::Finish(0), Hears::NotOut),
        (true, Asks::Take, Hears::Item(0, None)),
        (false, Asks::Finish(0), Hears::NotOut),
        (false, Asks::Take, Hears::NotYet),
        (true, Asks::Finish(0), Hears::Stored),
        (false, Asks::Take, Hears::Item(1, Some(0))),
        (true, Asks::Take, Hears::Item(2, Some(0))),
        (true, Asks::Finish(2), Hears::Stored),
        (false, Asks::Finish(1), Hears::Stored),
        (false, Asks::Take, Hears::AllOut),
    ],
];

#[test]
fn workers_take_and_finish_items_in_turn(rt: HostRuntime) {
    for calls in RUNS {
        let mut run = Run::open(&rt, rt.alloc());
        run.tells(&rt, calls);
        drop(run);
    }
}

// How many places for outcomes a new board has, and whether the first has one, and a worker has to wait.
fn opened(rt: &impl Abort, state: BoardState) -> (usize, bool, bool) {
    let items = state.inputs().shop().tables().items().len();
    let has_outcome = state.outcome(0).is_some();
    let waits = state.is_waiting();
    let outcomes = state.into_outcomes();
    let places = outcomes.len();
    drop(outcomes);
    same(rt, places, items);
    (places, has_outcome, waits)
}

#[test]
fn a_new_board_has_no_outcome(rt: HostRuntime) {
    let inputs = made(&rt, bicycles().inputs(rt.alloc(), &[]));
    let (board, state) = Board::open(rt.alloc(), &inputs).expect(&rt, "memory");
    same(&rt, board.inputs().weeks(), inputs.weeks());
    same(&rt, opened(&rt, state), (3, false, false));
    drop((board, inputs));
}
