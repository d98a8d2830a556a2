//! Desks of live days, in threads of their own.

use super::{made, same};
use mrp_engine::{Day, DayFault, answer_by_desks};
use mrp_explode::{Gate, OpenGate};
use mrp_rows::Name;
use sample_shops::{Records, bicycles, bicycles_in_lots, tower};
use std::alloc::Global;
use std::io::Eprint;
use std::process::Abort;
use std::sync::Wait;
use std::sync::atomic::{AtomicU64, Ordering};
use std::thread::{Threads, yield_now};

// The calls of two desks in the bicycle shop.
const SCRIPT: &str = "\
1,book,BIKE,2025-01-20,12,\n\
1,book,BIKE,2025-02-03,25,\n\
2,ask,BIKE,2025-01-06,,\n\
2,book,BIKE,2025-01-13,15,\n\
2,book,BIKE,2025-01-06,10,\n\
1,ask,BIKE,2025-01-20,,\n\
1,run,,,,\n";

const MOST_TURNS: u64 = 10_000_000;

// Waits until a count has come so far, and returns whether it did.
fn comes_to(came: &AtomicU64, count: u64) -> bool {
    for _ in 0..MOST_TURNS {
        if came.load(Ordering::SeqCst) >= count {
            return true;
        }
        yield_now();
    }
    false
}

// A gate at which two desks wait for each other, and which counts how often each comes. The first desk's
// first call waits until the second desk has come twice, and so has made an entry; the second desk's third
// call waits until the first desk has come twice. Desks that run one after the other do not get through. A
// desk gives up waiting after some time, and that is recorded.
#[derive(Drop)]
struct EachWaits {
    first_came: AtomicU64,
    second_came: AtomicU64,
    given_up: AtomicU64,
}

impl EachWaits {
    // Counts a desk that comes. Its call after `behind` of its own waits for the other desk.
    fn come(&self, own: &AtomicU64, behind: u64, other: &AtomicU64) {
        let before = own.fetch_add(1, Ordering::SeqCst);
        if before == behind && !comes_to(other, 2) {
            self.given_up.store(1, Ordering::SeqCst);
        }
    }
}

impl Gate for EachWaits {
    fn pass<R: Wait>(&self, _rt: &R, desk: usize) {
        if desk == 1 {
            self.come(&self.first_came, 0, &self.second_came);
        } else {
            self.come(&self.second_came, 2, &self.first_came);
        }
    }
}

// How many entries the desks made that had to pass the gate, and how many of them before the first desk's
// first one.
fn entries_behind<R: Abort + Eprint + Threads + Wait + Sync>(
    rt: &R,
    alloc: Global,
    script: &str,
    gate: &EachWaits,
) -> (usize, usize) {
    let shop = Records {
        script,
        ..bicycles_in_lots()
    };
    let shop = made(rt, shop.shop(alloc));
    let day = answer_by_desks(rt, alloc, shop, 1, gate, &OpenGate).expect(rt, "memory");
    let entries = day.history.entries();
    let count = entries.len();
    let front = entries.iter().take_while(|entry| entry.who != 1).count();
    drop(day);
    (count, front)
}

// Each call passes the gate once.
#[test]
fn desks_make_their_calls_at_the_same_time(rt: HostRuntime) {
    let gate = EachWaits {
        first_came: AtomicU64::new(0),
        second_came: AtomicU64::new(0),
        given_up: AtomicU64::new(0),
    };
    let (count, front) = entries_behind(&rt, rt.alloc(), SCRIPT, &gate);
    same(&rt, count, 7);
    same(&rt, front == 1 || front == 2, true);
    same(&rt, gate.given_up.load(Ordering::SeqCst), 0);
    same(&rt, gate.first_came.load(Ordering::SeqCst), 4);
    same(&rt, gate.second_came.load(Ordering::SeqCst), 3);
}

// What a desk and another desk's run have done so far. The desk's first record waits until the run is at its
// first item, and that item waits until the desk is at its second record. Whoever gives up waiting is counted.
#[derive(Drop)]
struct BesideRun {
    desk: usize,
    records: AtomicU64,
    items: AtomicU64,
    given_up: AtomicU64,
}

impl BesideRun {
    fn of(desk: usize) -> BesideRun {
        BesideRun {
            desk,
            records: AtomicU64::new(0),
            items: AtomicU64::new(0),
            given_up: AtomicU64::new(0),
        }
    }

    // Counts one that comes. The first waits until as many of the others have come.
    fn come(&self, own: &AtomicU64, other: &AtomicU64, count: u64) {
        let before = own.fetch_add(1, Ordering::SeqCst);
        if before == 0 && !comes_to(other, count) {
            let _before = self.given_up.fetch_add(1, Ordering::SeqCst);
        }
    }
}

#[derive(Drop)]
struct AtRecords<'a>(&'a BesideRun);

impl Gate for AtRecords<'_> {
    fn pass<R: Wait>(&self, _rt: &R, desk: usize) {
        let beside = self.0;
        if desk == beside.desk {
            beside.come(&beside.records, &beside.items, 1);
        }
    }
}

#[derive(Drop)]
struct AtItems<'a>(&'a BesideRun);

impl Gate for AtItems<'_> {
    fn pass<R: Wait>(&self, _rt: &R, _item: usize) {
        let beside = self.0;
        beside.come(&beside.items, &beside.records, 2);
    }
}

// The day that a shop's desks make, one of them beside the run of another.
fn day_beside<R: Abort + Eprint + Threads + Wait + Sync>(
    rt: &R,
    alloc: Global,
    shop: &Records,
    beside: &BesideRun,
) -> Result<Day, DayFault> {
    let shop = made(rt, shop.shop(alloc));
    answer_by_desks(rt, alloc, shop, 1, &AtRecords(beside), &AtItems(beside))
}

#[test]
fn a_desk_goes_on_while_another_plans_its_run(rt: HostRuntime) {
    let shop = Records {
        script: "1,run,,,,\n2,ask,BIKE,2025-01-06,,\n2,ask,BIKE,2025-01-06,,\n",
        ..bicycles()
    };
    let beside = BesideRun::of(2);
    let day = day_beside(&rt, rt.alloc(), &shop, &beside).expect(&rt, "memory");
    same(&rt, day.history.entries().len(), 3);
    same(&rt, day.first.is_some(), true);
    same(&rt, beside.given_up.load(Ordering::SeqCst), 0);
    same(&rt, beside.records.load(Ordering::SeqCst), 2);
    same(&rt, beside.items.load(Ordering::SeqCst), 3);
    drop((day, beside));
}

// Desk 2's run comes first, and item C gets too large in it; desk 1 books one more, and so B does in its run.
const TWO_RUNS: &str = "\
1,book,TOP,2025-01-06,1,\n\
1,run,,,,\n\
1,ask,TOP,2025-01-06,,\n\
2,run,,,,\n";

#[test]
fn a_live_day_is_refused_by_the_first_run_and_its_desks_go_on(rt: HostRuntime) {
    let shop = Records {
        items: "TOP,master,0,0,lfl,0,0\nA,part,0,0,lfl,0,0\nB,part,0,0,lfl,0,0\nC,part,0,0,lfl,0,0\n",
        bills: "TOP,A,1000000\nA,B,1000000\nB,C,1000000\n",
        script: TWO_RUNS,
        ..tower()
    };
    let beside = BesideRun::of(1);
    let fault = day_beside(&rt, rt.alloc(), &shop, &beside).err();
    same(&rt, fault, Name::new(b"C").map(DayFault::TooLarge));
    same(&rt, beside.given_up.load(Ordering::SeqCst), 0);
    same(&rt, beside.records.load(Ordering::SeqCst), 3);
    drop(beside);
}

// A desk's records so far, and how many items of its runs came while it was at its first.
#[derive(Drop)]
struct FirstRecord {
    records: AtomicU64,
    items: AtomicU64,
}

#[derive(Drop)]
struct CountsRecords<'a>(&'a FirstRecord);

impl Gate for CountsRecords<'_> {
    fn pass<R: Wait>(&self, _rt: &R, _desk: usize) {
        let _before = self.0.records.fetch_add(1, Ordering::SeqCst);
    }
}

#[derive(Drop)]
struct CountsItems<'a>(&'a FirstRecord);

impl Gate for CountsItems<'_> {
    fn pass<R: Wait>(&self, _rt: &R, _item: usize) {
        if self.0.records.load(Ordering::SeqCst) == 1 {
            let _before = self.0.items.fetch_add(1, Ordering::SeqCst);
        }
    }
}

#[test]
fn a_desk_plans_its_run_before_its_next_record(rt: HostRuntime) {
    let records = Records {
        script: "1,run,,,,\n1,ask,BIKE,2025-01-06,,\n",
        ..bicycles()
    };
    let first = FirstRecord {
        records: AtomicU64::new(0),
        items: AtomicU64::new(0),
    };
    let alloc = rt.alloc();
    let shop = made(&rt, records.shop(alloc));
    let day = answer_by_desks(
        &rt,
        alloc,
        shop,
        1,
        &CountsRecords(&first),
        &CountsItems(&first),
    )
    .expect(&rt, "memory");
    same(&rt, day.history.entries().len(), 2);
    same(&rt, first.records.load(Ordering::SeqCst), 2);
    same(&rt, first.items.load(Ordering::SeqCst), 3);
    drop((day, first));
}
