//! Workers at the board of a run: the order in which one works, what several leave, and that they plan at the same
//! time.

ghost use Rattle.std.specs.Prelude.{◌≡◌};
ghost use Rattle.std.specs.Int.{IsInRange};
ghost use Rattle.mrp_turn.specs.Seen.{newcomer};
ghost use Rattle.mrp_explode.specs.declared.workers.TheConstants.{MOST_WORKERS};

use super::boards::{Hears, heard};
use super::{made, same};
use mrp_board::{Board, BoardCall, BoardReply};
use mrp_explode::{Gate, OpenGate, Worker, explode, work, work_together};
use mrp_item::Inputs;
use mrp_turn::{Log, Turn};
use sample_shops::{Records, bicycles, no_records};
use std::alloc::Global;
use std::process::Abort;
use std::sync::atomic::{AtomicU64, Ordering};
use std::sync::{Arc, Wait};
use std::thread::{Threads, yield_now};
use std::time::Duration;

// A new board under a lock, and its only worker.
fn one_worker(rt: &impl Abort, alloc: Global, inputs: &Arc<Inputs>) -> (Turn<Board>, Worker)
    ensures board { result.0.about.object ≡ inputs.now.value }
    ensures seats { result.0.about.seats ≡ 1 }
    ensures worker { result.1 ≡ newcomer result.0 1 }
{
    let (board, state) = Board::open(alloc, inputs).expect(rt, "memory");
    let (turn, mut workers) = Turn::new(alloc, board, state, 0, 1).expect(rt, "a lock");
    let worker = workers.pop().expect(rt, "a worker");
    drop(workers);
    (turn, worker)
}

// The log that one worker leaves.
fn log_of_one<R: Wait + Abort>(
    rt: &R,
    alloc: Global,
    inputs: &Arc<Inputs>,
) -> Log<BoardCall, BoardReply> {
    let (board, mut worker) = one_worker(rt, alloc, inputs);
    work(rt, alloc, &board, &mut worker, inputs, &OpenGate).expect(rt, "memory");
    let Ok(mut workers) = Vec::with_capacity(alloc, 1) else {
        panic!(rt; "memory");
    };
    workers.push_reserved(worker);
    let (state, log) = board.close(workers);
    drop(state);
    log
}

#[test]
fn a_worker_finishes_each_item_before_it_takes_the_next(rt: HostRuntime) {
    const HEARD: &[Hears] = &[
        Hears::Item(0, None),
        Hears::Stored,
        Hears::Item(1, Some(0)),
        Hears::Stored,
        Hears::Item(2, Some(0)),
        Hears::Stored,
        Hears::AllOut,
    ];
    let inputs = made(&rt, bicycles().inputs(rt.alloc(), &[]));
    let log = log_of_one(&rt, rt.alloc(), &inputs);
    same(&rt, log.len(), HEARD.len());
    for (entry, want) in log.entries().iter().zip(HEARD) {
        same(&rt, heard(&entry.reply), *want);
    }
    drop((inputs, log));
}

const MOST_TURNS: u64 = 10_000_000;

/// Waits until a count has come so far, and returns whether it did.
pub fn comes_to(came: &AtomicU64, count: u64) -> bool {
    for _ in 0..MOST_TURNS {
        if came.load(Ordering::SeqCst) >= count {
            return true;
        }
        yield_now();
    }
    false
}

// A gate that lets nobody pass until so many have come. Whoever gives up waiting is counted.
#[derive(Drop)]
struct AllCome {
    count: u64,
    came: AtomicU64,
    given_up: AtomicU64,
}

impl Gate for AllCome {
    fn pass<R: Wait>(&self, _rt: &R, _item: usize) {
        let _before = self.came.fetch_add(1, Ordering::SeqCst);
        if !comes_to(&self.came, self.count) {
            let _before = self.given_up.fetch_add(1, Ordering::SeqCst);
        }
    }
}

// Eight items without bills, of which two are the first.
const EIGHT: &str = "\
A,master,0,0,lfl,0,0\n\
B,master,0,0,lfl,0,0\n\
C,master,0,0,lfl,0,0\n\
D,master,0,0,lfl,0,0\n\
E,master,0,0,lfl,0,0\n\
F,master,0,0,lfl,0,0\n\
G,master,0,0,lfl,0,0\n\
H,master,0,0,lfl,0,0\n";

const TWO: &str = "A,master,0,0,lfl,0,0\nB,master,0,0,lfl,0,0\n";

// Fails unless as many workers as the shop has items are at work at the same time.
fn all_come<R: Alloc + Abort + Threads + Wait + Sync>(
    rt: &R,
    alloc: Global,
    items: &str,
    workers: usize,
)
    requires { IsInRange 1 MOST_WORKERS workers }
{
    let shop = Records {
        items,
        ..no_records()
    };
    let inputs = made(rt, shop.inputs(alloc, &[]));
    let gate = AllCome {
        count: workers as u64,
        came: AtomicU64::new(0),
        given_up: AtomicU64::new(0),
    };
    let plan = explode(rt, alloc, &inputs, workers, &gate).expect(rt, "a plan");
    same(rt, gate.came.load(Ordering::SeqCst), workers as u64);
    same(rt, gate.given_up.load(Ordering::SeqCst), 0);
    drop((inputs, plan));
}

#[test]
fn workers_plan_at_the_same_time(rt: HostRuntime) {
    all_come(&rt, rt.alloc(), TWO, 2);
    all_come(&rt, rt.alloc(), EIGHT, 8);
}

// Fails unless so many workers leave a log of so many entries, and an outcome of each of three items.
fn leave<R: Alloc + Abort + Threads + Wait + Sync>(
    rt: &R,
    alloc: Global,
    inputs: &Arc<Inputs>,
    workers: usize,
    entries: usize,
)
    requires { IsInRange 1 MOST_WORKERS workers }
{
    let (board, log) = work_together(rt, alloc, inputs, workers, &OpenGate).expect(rt, "memory");
    same(rt, log.len(), entries);
    for item in 0..3 {
        same(rt, board.outcome(item).is_some(), true);
    }
    drop((board, log));
}

// Each of three items is taken and finished, and each worker is told the end.
#[test]
fn each_worker_works_to_the_end(rt: HostRuntime) {
    let inputs = made(&rt, bicycles().inputs(rt.alloc(), &[]));
    leave(&rt, rt.alloc(), &inputs, 1, 7);
    leave(&rt, rt.alloc(), &inputs, 2, 8);
    leave(&rt, rt.alloc(), &inputs, 8, 14);
    drop(inputs);
}

// How many microseconds the first item is held, far more than another worker takes to ask for one.
const HELD: u64 = 50_000;

// A gate that holds the first item for a while, so that no item is ready for another worker, and then both of its
// components until both have come.
#[derive(Drop)]
struct Later {
    held: AtomicU64,
    components: AllCome,
}

impl Gate for Later {
    fn pass<R: Wait>(&self, rt: &R, item: usize) {
        if item == 0 {
            self.held.park_timeout(rt, 0, Duration::from_micros(HELD));
        } else {
            self.components.pass(rt, item);
        }
    }
}

#[test]
fn a_worker_that_finds_no_item_ready_comes_again(rt: HostRuntime) {
    let inputs = made(&rt, bicycles().inputs(rt.alloc(), &[]));
    let gate = Later {
        held: AtomicU64::new(0),
        components: AllCome {
            count: 2,
            came: AtomicU64::new(0),
            given_up: AtomicU64::new(0),
        },
    };
    let plan = explode(&rt, rt.alloc(), &inputs, 2, &gate).expect(&rt, "a plan");
    same(&rt, gate.components.came.load(Ordering::SeqCst), 2);
    same(&rt, gate.components.given_up.load(Ordering::SeqCst), 0);
    drop((inputs, plan));
}
