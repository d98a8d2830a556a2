//! Events of a core: steps one by one, and a list of them.

ghost use Rattle.std.specs.Prelude.{◌≡◌, All};
ghost use Rattle.mrp_engine.specs.event_core.Core.{FitsShop};
ghost use Rattle.mrp_engine.specs.declared.event_core.event.Event.TheVariants as event;

use crate::telling::{given, out_of_memory, tell, tell_lacks};
use mrp_bill::Shop;
use mrp_book::Call;
use mrp_engine::{Answer, Core, Event};
use mrp_qty::NoMemory;
use sample_shops::{Asked, bicycles_welded};
use std::alloc::Global;
use std::io;
use std::rt::Runtime;
use std::thread::Threads;

fn tell_bytes<R: Runtime>(rt: &R, bytes: Vec<u8>) -> io::Result<()> {
    match String::from_utf8(bytes) {
        Ok(text) => println!(rt; "{text}"),
        Err(_) => println!(rt; "no text"),
    }
}

fn tell_answer<R: Runtime>(rt: &R, answer: Answer) -> io::Result<()> {
    match answer {
        Answer::Replied(number, reply) => tell(rt, number, &reply),
        Answer::Started(run, front) => println!(rt; "started {run} {front}"),
        Answer::Item(item) => println!(rt; "item {item}"),
        Answer::NotYet => println!(rt; "not-yet"),
        Answer::AllOut => println!(rt; "all-out"),
        Answer::Stored => println!(rt; "stored"),
        Answer::Stopped => println!(rt; "stopped"),
        Answer::Bytes(bytes) => tell_bytes(rt, bytes),
        Answer::TooLarge(_) => println!(rt; "too-large"),
        Answer::Full => println!(rt; "full"),
        Answer::Nothing => println!(rt; "nothing"),
    }
}

// What a core answers to an event. Counts how often it was out of memory.
fn answer<R: Runtime + Threads + Sync>(
    rt: &R,
    alloc: Global,
    core: &mut Core,
    event: &Event,
    lacks: &mut u64,
) -> io::Result<Answer>
    requires { FitsShop core.old.tables event.now }
    ensures { core.new.tables ≡ core.old.tables }
{
    if let Ok(answer) = core.step(rt, alloc, *event) {
        return Ok(answer);
    }
    *lacks = lacks.saturating_add(1);
    match core.step(rt, alloc, *event) {
        Ok(answer) => Ok(answer),
        Err(_) => Err(out_of_memory()),
    }
}

fn tell_step<R: Runtime + Threads + Sync>(
    rt: &R,
    alloc: Global,
    core: &mut Core,
    event: &Event,
    lacks: &mut u64,
) -> io::Result<()>
    requires { FitsShop core.old.tables event.now }
    ensures { core.new.tables ≡ core.old.tables }
{
    let answer = answer(rt, alloc, core, event, lacks)?;
    tell_answer(rt, answer)
}

// Desk 1 starts a run, which two workers plan while desk 2 books; then a second run, which is given up.
fn events_with(shop: &Shop, booking: Call) -> [Event; 18]
    requires { FitsShop shop.now.tables (event.Call 2 booking) }
    ensures { All (FitsShop shop.now.tables) result }
{
    [
        Event::Start(1),
        Event::Take(1, 1),
        Event::Take(1, 2),
        Event::Call(2, booking),
        Event::Finish(1, 1),
        Event::Take(1, 1),
        Event::Take(1, 2),
        Event::Write(1),
        Event::Finish(1, 1),
        Event::Finish(1, 2),
        Event::Write(1),
        Event::Write(2),
        Event::Call(2, Call::Snapshot),
        Event::Call(2, Call::Cancel(2)),
        Event::Start(2),
        Event::Take(2, 3),
        Event::GiveUp(2, 1),
        Event::Take(2, 1),
    ]
}

fn tell_steps<R: Runtime + Threads + Sync>(
    rt: &R,
    alloc: Global,
    core: &mut Core,
    events: &[Event],
    lacks: &mut u64,
) -> io::Result<()>
    requires { All (FitsShop core.old.tables) events.now }
{
    for event in events {
        tell_step(rt, alloc, core, event, lacks)?;
    }
    Ok(())
}

/// Events of a core, one by one.
pub(crate) fn step<R: Runtime + Threads + Sync>(rt: &R, alloc: Global) -> io::Result<()> {
    let shop = given(rt, bicycles_welded().shop(alloc))?;
    let booking = given(rt, Asked::Book(3, 12).call(&shop))?;
    let events = events_with(&shop, booking);
    let Ok(mut core) = Core::new(alloc, shop) else {
        return Err(out_of_memory());
    };
    let mut lacks = 0;
    let told = tell_steps(rt, alloc, &mut core, &events, &mut lacks);
    drop(core);
    told?;
    tell_lacks(rt, lacks)
}

// The answers of a new core to a list of events.
fn answers_of<R: Runtime + Threads + Sync>(
    rt: &R,
    alloc: Global,
) -> io::Result<Result<Vec<Answer>, NoMemory>> {
    let shop = given(rt, bicycles_welded().shop(alloc))?;
    let booking = given(rt, Asked::Book(3, 12).call(&shop))?;
    let events = events_with(&shop, booking);
    Ok(Core::run(rt, alloc, shop, &events))
}

// The same, once more where it was out of memory: then 1 stands beside it, and otherwise 0.
fn answers<R: Runtime + Threads + Sync>(rt: &R, alloc: Global) -> io::Result<(Vec<Answer>, u64)> {
    if let Ok(answers) = answers_of(rt, alloc)? {
        return Ok((answers, 0));
    }
    match answers_of(rt, alloc)? {
        Ok(answers) => Ok((answers, 1)),
        Err(_) => Err(out_of_memory()),
    }
}

/// A list of events of a core.
pub(crate) fn run<R: Runtime + Threads + Sync>(rt: &R, alloc: Global) -> io::Result<()> {
    let (answers, lacks) = answers(rt, alloc)?;
    for answer in answers {
        tell_answer(rt, answer)?;
    }
    tell_lacks(rt, lacks)
}
