//! Calls on an order book, on an office, and on a lock whose log has no room.

ghost use Rattle.std.specs.Prelude.{◌≡◌, IfSome};
ghost use Rattle.mrp_master.specs.Supply.{supply_of};
ghost use Rattle.mrp_book.specs.History.{Fits};

use crate::telling::{given, out_of_memory, tell, tell_lacks};
use mrp_bill::Shop;
use mrp_book::{Book, Call, Line, Refused, Reply, Spot, Wish};
use mrp_desk::{Desk, Office};
use mrp_qty::Qty;
use mrp_turn::tally::Tally;
use mrp_turn::{CallFault, Seat, Turn, tally};
use sample_shops::{Asked, bicycles_welded};
use std::alloc::Global;
use std::io;
use std::rt::Runtime;
use std::sync::Wait;

// Calls of a desk: of each kind, and of each that takes memory more than one.
const CALLS: [Asked; 14] = [
    Asked::Book(3, 12),
    Asked::Snapshot,
    Asked::Book(5, 25),
    Asked::Ask(1),
    Asked::Book(2, 15),
    Asked::Book(1, 10),
    Asked::Snapshot,
    Asked::Ask(3),
    Asked::Cancel(3),
    Asked::Cancel(3),
    Asked::When(28),
    Asked::Snapshot,
    Asked::Front,
    Asked::Book(5, 1),
];

// ---- a book

// The answer to a call on a book. Counts how often it was out of memory.
fn answer(
    alloc: Global,
    book: &mut Book,
    call: &Call,
    lacks: &mut u64,
) -> Result<(u64, Reply), Refused>
    requires { Fits book.old.supply call.now }
    ensures { book.new.supply ≡ book.old.supply }
{
    match book.call(alloc, 1, *call) {
        Err(Refused::NoMemory) => {
            *lacks = lacks.saturating_add(1);
            book.call(alloc, 1, *call)
        }
        answered => answered,
    }
}

fn tell_call<R: Runtime>(
    rt: &R,
    alloc: Global,
    shop: &Shop,
    book: &mut Book,
    asked: Asked,
    lacks: &mut u64,
) -> io::Result<()>
    requires { book.old.supply ≡ supply_of shop.now.tables }
    ensures { book.new.supply ≡ book.old.supply }
{
    let call = given(rt, asked.call(shop))?;
    match answer(alloc, book, &call, lacks) {
        Ok((number, reply)) => tell(rt, number, &reply),
        Err(_) => Err(out_of_memory()),
    }
}

fn tell_calls<R: Runtime>(
    rt: &R,
    alloc: Global,
    shop: &Shop,
    book: &mut Book,
    lacks: &mut u64,
) -> io::Result<()>
    requires { book.old.supply ≡ supply_of shop.now.tables }
{
    for asked in CALLS {
        tell_call(rt, alloc, shop, book, asked, lacks)?;
    }
    Ok(())
}

/// Calls on an order book.
pub(crate) fn book<R: Runtime>(rt: &R, alloc: Global) -> io::Result<()> {
    let shop = given(rt, bicycles_welded().shop(alloc))?;
    let Ok(mut book) = Book::open(alloc, &shop) else {
        return Err(out_of_memory());
    };
    let mut lacks = 0;
    let told = tell_calls(rt, alloc, &shop, &mut book, &mut lacks);
    drop((shop, book));
    told?;
    tell_lacks(rt, lacks)
}

// ---- an office

// The answer to a call of a desk about the first item, if that item can be asked for so.
fn called<R: Wait>(
    rt: &R,
    office: &Office,
    desk: &mut Desk,
    asked: Asked,
) -> Option<Result<(u64, Reply), Refused>>
    requires { desk.old.turn ≡ office.now }
    ensures { desk.new.turn ≡ desk.old.turn }
{
    let shop: &Shop = office.shop();
    match asked {
        Asked::Book(week, count) => {
            let line = Line::new(shop, 0, week, Qty::new(count)?).ok()?;
            Some(office.book(rt, desk, line))
        }
        Asked::Cancel(number) => Some(office.cancel(rt, desk, number)),
        Asked::Ask(week) => {
            let spot = Spot::new(shop, 0, week).ok()?;
            Some(office.ask(rt, desk, spot))
        }
        Asked::When(count) => {
            let wish = Wish::new(shop, 0, Qty::new(count)?).ok()?;
            Some(office.when(rt, desk, wish))
        }
        Asked::Snapshot => Some(office.snapshot(rt, desk)),
        Asked::Front => Some(office.front(rt, desk)),
    }
}

// The same, once more where it was out of memory, which is counted.
fn replied<R: Wait>(
    rt: &R,
    office: &Office,
    desk: &mut Desk,
    asked: Asked,
    lacks: &mut u64,
) -> Option<(u64, Reply)>
    requires { desk.old.turn ≡ office.now }
    ensures { desk.new.turn ≡ desk.old.turn }
{
    match called(rt, office, desk, asked)? {
        Err(Refused::NoMemory) => {
            *lacks = lacks.saturating_add(1);
            called(rt, office, desk, asked)?.ok()
        }
        answered => answered.ok(),
    }
}

fn tell_replies<R: Runtime + Wait>(
    rt: &R,
    office: &Office,
    desk: &mut Desk,
    lacks: &mut u64,
) -> io::Result<()>
    requires { desk.old.turn ≡ office.now }
    ensures { desk.new.turn ≡ desk.old.turn }
{
    for asked in CALLS {
        match replied(rt, office, desk, asked, lacks) {
            Some((number, reply)) => tell(rt, number, &reply)?,
            None => return Err(out_of_memory()),
        }
    }
    Ok(())
}

// A desk makes its calls, and the other meets it.
fn tell_desks<R: Runtime + Wait>(
    rt: &R,
    office: &Office,
    desk: &mut Desk,
    other: &mut Desk,
    lacks: &mut u64,
) -> io::Result<()>
    requires { (desk.old.turn ≡ office.now) × (other.old.turn ≡ office.now) }
{
    tell_replies(rt, office, desk, lacks)?;
    match office.meet(rt, other, desk) {
        Ok((number, reply)) => tell(rt, number, &reply),
        Err(_) => Err(out_of_memory()),
    }
}

/// Calls of the desks of an office.
pub(crate) fn office<R: Runtime + Wait>(rt: &R, alloc: Global) -> io::Result<()> {
    let shop = given(rt, bicycles_welded().shop(alloc))?;
    let Ok((office, mut desks)) = Office::open(alloc, shop, 2) else {
        return Err(out_of_memory());
    };
    let mut lacks = 0;
    let told = match (desks.pop(), desks.pop()) {
        (Some(mut other), Some(mut desk)) => {
            tell_desks(rt, &office, &mut desk, &mut other, &mut lacks)
        }
        _ => Ok(()),
    };
    drop((office, desks));
    told?;
    tell_lacks(rt, lacks)
}

// ---- a lock

// The number of calls on the lock: its log grows several times.
const ADDED: u64 = 40;

// Adds 1, once more where that was out of memory, which is counted. Returns the entry's number and the sum.
fn added<R: Wait>(
    rt: &R,
    turn: &Turn<Tally>,
    seat: &mut Seat<Tally>,
    lacks: &mut u64,
) -> Option<(u64, u64)>
    requires { seat.old.turn ≡ turn.now }
    ensures { seat.new.turn ≡ seat.old.turn }
{
    match turn.call(rt, seat, tally::Call::Add(1)) {
        Ok((number, tally::Reply::Sum(sum))) => return Some((number, sum)),
        Err(CallFault::NoMemory) => *lacks = lacks.saturating_add(1),
        Err(CallFault::Refused(_)) => return None,
    }
    match turn.call(rt, seat, tally::Call::Add(1)) {
        Ok((number, tally::Reply::Sum(sum))) => Some((number, sum)),
        Err(_) => None,
    }
}

fn tell_sums<R: Runtime + Wait>(
    rt: &R,
    turn: &Turn<Tally>,
    seat: &mut Seat<Tally>,
    lacks: &mut u64,
) -> io::Result<()>
    requires { seat.old.turn ≡ turn.now }
{
    for _ in 0..ADDED {
        match added(rt, turn, seat, lacks) {
            Some((number, sum)) => println!(rt; "{number} {sum}")?,
            None => return Err(out_of_memory()),
        }
    }
    Ok(())
}

/// Calls on a lock whose log has no room when it is made.
pub(crate) fn turn<R: Runtime + Wait>(rt: &R, alloc: Global) -> io::Result<()> {
    let Ok((turn, mut seats)) = Turn::new(alloc, Tally, 0, 0, 1) else {
        return Err(out_of_memory());
    };
    let mut lacks = 0;
    let told = match seats.pop() {
        Some(mut seat) => tell_sums(rt, &turn, &mut seat, &mut lacks),
        None => Ok(()),
    };
    drop((turn, seats));
    told?;
    tell_lacks(rt, lacks)
}
