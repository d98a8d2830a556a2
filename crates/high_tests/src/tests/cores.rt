//! The core, with desks and workers in turn.

ghost use Rattle.std.specs.Prelude.{◌≡◌, All};
ghost use Rattle.mrp_engine.specs.event_core.Core.{FitsShop};

use super::texts::BICYCLE_REPORT;
use super::{made, same};
use mrp_bill::Shop;
use mrp_book::Call;
use mrp_engine::{Answer, Core, Event};
use mrp_rows::Name;
use sample_shops::{Asked, bicycles, chain, said};
use std::alloc::Global;
use std::process::Abort;
use std::thread::Threads;

// What an answer says: its word, and its numbers, or 0.
type Told = (&'static str, u64, u64);

const NOTHING: Told = ("nothing", 0, 0);

// The first letter of a name.
fn first_of(name: &Name) -> u64 {
    name.as_bytes()
        .first()
        .map_or(0, |letter| u64::from(*letter))
}

fn told(answer: &Answer) -> Told {
    match answer {
        Answer::Replied(number, reply) => {
            let (word, of_reply) = said(reply);
            (word, *number, of_reply)
        }
        Answer::Started(run, front) => ("started", *run as u64, *front),
        Answer::Item(item) => ("item", *item as u64, 0),
        Answer::NotYet => ("not-yet", 0, 0),
        Answer::AllOut => ("all-out", 0, 0),
        Answer::Stored => ("stored", 0, 0),
        Answer::Stopped => ("stopped", 0, 0),
        Answer::Bytes(bytes) => ("bytes", bytes.len() as u64, 0),
        Answer::TooLarge(name) => ("too-large", first_of(name), 0),
        Answer::Full => ("full", 0, 0),
        Answer::Nothing => ("nothing", 0, 0),
    }
}

// Fails unless an answer is this one; bytes have to be the report of the bicycle shop.
fn is_answer(rt: &impl Abort, answer: &Answer, want: Told) {
    same(rt, told(answer), want);
    if let Answer::Bytes(bytes) = answer {
        same(rt, bytes.as_slice(), BICYCLE_REPORT.as_bytes());
    }
}

// Fails unless a new core of a shop gives these answers to events.
fn are_answered<R: Alloc + Abort + Threads + Sync>(
    rt: &R,
    alloc: Global,
    shop: Shop,
    events: &[Event],
    want: &[Told],
)
    requires { All (FitsShop shop.tables) events.now }
{
    let answers = Core::run(rt, alloc, shop, events).expect(rt, "memory");
    same(rt, answers.len(), want.len());
    for (answer, want) in answers.iter().zip(want) {
        is_answer(rt, answer, *want);
    }
    drop(answers);
}

const BYTES: Told = ("bytes", BICYCLE_REPORT.len() as u64, 0);

const STORED: Told = ("stored", 0, 0);

// The booking comes while the first item is out, and is not in the report. Items are taken and finished once each; until then
// the report is not written.
#[test]
fn a_run_is_written_without_the_booking_that_came_after_its_start(rt: HostRuntime) {
    let shop = made(&rt, bicycles().shop(rt.alloc()));
    let booking = made(&rt, Asked::Book(3, 12).call(&shop));
    let events = [
        Event::Start(1),
        Event::Take(1, 1),
        Event::Take(1, 2),
        Event::Call(2, booking),
        Event::Finish(1, 1),
        Event::Take(1, 1),
        Event::Take(1, 1),
        Event::Take(1, 2),
        Event::Write(1),
        Event::Finish(1, 1),
        Event::Finish(1, 2),
        Event::Finish(1, 2),
        Event::Write(1),
        Event::Write(2),
    ];
    let want = [
        ("started", 1, 1),
        ("item", 0, 0),
        ("not-yet", 0, 0),
        ("booked", 2, 2),
        STORED,
        ("item", 1, 0),
        NOTHING,
        ("item", 2, 0),
        NOTHING,
        STORED,
        STORED,
        NOTHING,
        BYTES,
        NOTHING,
    ];
    are_answered(&rt, rt.alloc(), shop, &events, &want);
}

#[test]
fn there_is_no_desk_0_and_no_desk_65(rt: HostRuntime) {
    let shop = made(&rt, bicycles().shop(rt.alloc()));
    let events = [
        Event::Call(0, Call::Front),
        Event::Call(65, Call::Front),
        Event::Start(65),
        Event::Call(64, Call::Front),
    ];
    let want = [NOTHING, NOTHING, NOTHING, ("front", 1, 1)];
    are_answered(&rt, rt.alloc(), shop, &events, &want);
}

#[test]
fn a_run_that_was_given_up_hands_nothing_out(rt: HostRuntime) {
    let shop = made(&rt, bicycles().shop(rt.alloc()));
    let events = [
        Event::Start(2),
        Event::Take(1, 1),
        Event::GiveUp(1, 1),
        Event::Take(1, 2),
        Event::Finish(1, 1),
        Event::GiveUp(2, 1),
        Event::Start(1),
        Event::Take(2, 1),
    ];
    let want = [
        ("started", 1, 1),
        ("item", 0, 0),
        ("stopped", 0, 0),
        ("all-out", 0, 0),
        NOTHING,
        NOTHING,
        ("started", 2, 2),
        ("item", 0, 0),
    ];
    are_answered(&rt, rt.alloc(), shop, &events, &want);
}

// A chain of four items, of which the last gets too large.
#[test]
fn a_run_in_which_an_item_gets_too_large_has_no_report(rt: HostRuntime) {
    let shop = made(&rt, chain().shop(rt.alloc()));
    let events = [
        Event::Start(1),
        Event::Take(1, 1),
        Event::Finish(1, 1),
        Event::Take(1, 1),
        Event::Finish(1, 1),
        Event::Take(1, 1),
        Event::Finish(1, 1),
        Event::Take(1, 1),
        Event::Finish(1, 1),
        Event::Write(1),
    ];
    let want = [
        ("started", 1, 1),
        ("item", 0, 0),
        STORED,
        ("item", 1, 0),
        STORED,
        ("item", 2, 0),
        STORED,
        ("item", 3, 0),
        STORED,
        ("too-large", u64::from(b'C'), 0),
    ];
    are_answered(&rt, rt.alloc(), shop, &events, &want);
}

// Asks a core for fronts, until its history is full, and then starts a run. What the last two were told.
fn fill<R: Alloc + Abort + Threads + Sync>(
    rt: &R,
    alloc: Global,
    core: &mut Core,
    count: u64,
) -> (Told, Told) {
    let mut last = NOTHING;
    for _ in 0..count {
        let front = Event::Call(1, Call::Front);
        let answer = core.step(rt, alloc, front).expect(rt, "memory");
        last = told(&answer);
        drop(answer);
    }
    let started = core.step(rt, alloc, Event::Start(1)).expect(rt, "memory");
    let full = told(&started);
    drop(started);
    (last, full)
}

#[test]
fn a_full_history_takes_no_entry(rt: HostRuntime) {
    const FULL: Told = ("full", 0, 0);
    let shop = made(&rt, bicycles().shop(rt.alloc()));
    let mut core = Core::new(rt.alloc(), shop).expect(&rt, "memory");
    let told = fill(&rt, rt.alloc(), &mut core, 999_999);
    same(
        &rt,
        told,
        (("front", 999_999, 999_999), ("started", 1, 1_000_000)),
    );
    same(&rt, fill(&rt, rt.alloc(), &mut core, 1), (FULL, FULL));
    drop(core);
}
