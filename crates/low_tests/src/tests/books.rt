//! Order books: full ones, copies of replies, and states without entries.

ghost use Rattle.std.specs.Prelude.{◌≡◌};
ghost use Rattle.mrp_master.specs.Supply.{supply_of};

use super::{made, pieces, same};
use mrp_bill::Shop;
use mrp_book::{Book, BookState, Booking, Line, Refused, Reply, Snapshot};
use mrp_phase::PhaseFault;
use sample_shops::{Asked, Records, Said, bicycles, said};
use std::alloc::Global;
use std::process::Abort;

// A shop and its order book.
#[derive(Drop)]
struct Day {
    shop: Shop,
    book: Book,
    ghost same_shop: { book.supply ≡ supply_of shop.tables },
}

impl Day {
    fn open(rt: &impl Abort, alloc: Global, records: Records<'_>) -> Day {
        let shop = made(rt, records.shop(alloc));
        let book = Book::open(alloc, &shop).expect(rt, "memory");
        Day { shop, book }
    }

    // The answer to a call of desk 1: the entry's number, and the reply.
    fn call(&mut self, rt: &impl Abort, alloc: Global, asked: Asked) -> (u64, Reply) {
        let call = made(rt, asked.call(&self.shop));
        self.book.call(alloc, 1, call).expect(rt, "a reply")
    }

    // Fails unless the book refuses a call because it is full.
    fn is_full_for(&mut self, rt: &impl Abort, alloc: Global, asked: Asked) {
        let call = made(rt, asked.call(&self.shop));
        let refused = self.book.call(alloc, 1, call).err();
        same(rt, refused, Some(Refused::Full));
    }
}

// A desk, its call, and the reply.
type Answered = (u64, Asked, Said);

// Asks for so many fronts, the first calls of a day.
fn ask_fronts(rt: &impl Abort, alloc: Global, day: &mut Day, count: u64) {
    for number in 1..=count {
        let (got, reply) = day.call(rt, alloc, Asked::Front);
        same(rt, (got, said(&reply)), (number, ("front", number)));
        drop(reply);
    }
}

#[test]
fn a_full_book_refuses_every_call(rt: HostRuntime) {
    const CALLS: [Asked; 6] = [
        Asked::Front,
        Asked::Book(3, 1),
        Asked::Cancel(1),
        Asked::Ask(3),
        Asked::When(1),
        Asked::Snapshot,
    ];
    let mut day = Day::open(&rt, rt.alloc(), bicycles());
    ask_fronts(&rt, rt.alloc(), &mut day, 1_000_000);
    for asked in CALLS {
        day.is_full_for(&rt, rt.alloc(), asked);
    }
    drop(day);
}

// The snapshot of a reply.
fn taken(rt: &impl Abort, reply: Reply) -> Snapshot {
    match reply {
        Reply::Taken(snapshot) => snapshot,
        _ => panic!(rt; "a snapshot"),
    }
}

// A booking: number, desk, week and pieces.
type Booked = (u64, u64, u16, u64);

fn booking(rt: &impl Abort, shop: &Shop, booked: &Booked) -> Booking {
    let (number, desk, week, count) = *booked;
    let line = Line::new(shop, 0, week, pieces(rt, count)).expect(rt, "a line");
    Booking { number, desk, line }
}

// Fails unless these bookings stand.
fn stand(rt: &impl Abort, snapshot: &Snapshot, want: &[Booked]) {
    same(rt, snapshot.count(), want.len());
    for (got, booked) in snapshot.standing().zip(want) {
        let line = got.line;
        let said = (got.number, got.desk, line.week(), line.quantity().value());
        same(rt, (line.item(), said), (0, *booked));
    }
}

// The snapshot at an entry, from these bookings.
fn snapshot_of(
    rt: &impl Abort,
    alloc: Global,
    front: u64,
    weeks: u16,
    booked: &[Booked],
) -> Result<Snapshot, PhaseFault> {
    let shop = made(rt, bicycles().shop(alloc));
    let mut standing = Vec::new(alloc);
    for one in booked {
        standing.push(booking(rt, &shop, one)).expect(rt, "memory");
    }
    drop(shop);
    Snapshot::new(alloc, front, weeks, standing)
}

#[test]
fn a_copy_of_a_reply_is_equal(rt: HostRuntime) {
    const STANDING: &[Booked] = &[(1, 1, 3, 12), (5, 2, 1, 10)];
    let snapshot = snapshot_of(&rt, rt.alloc(), 7, 6, STANDING).expect(&rt, "a snapshot");
    let copy = snapshot.copy().expect(&rt, "memory");
    same(&rt, copy.front(), 7);
    let reply = Reply::Taken(copy).copy().expect(&rt, "memory");
    let copy = taken(&rt, reply);
    same(&rt, copy.front(), 7);
    stand(&rt, &copy, STANDING);
    drop((snapshot, copy));
}

#[test]
fn copies_of_replies_say_the_same(rt: HostRuntime) {
    for reply in [Reply::Booked(3), Reply::Week(104), Reply::NoWeek] {
        let copy = reply.copy().expect(&rt, "memory");
        same(&rt, said(&copy), said(&reply));
        drop((reply, copy));
    }
}

// The state of the shop's book, without its entries.
#[derive(Drop)]
struct Between {
    shop: Shop,
    state: BookState,
    ghost same_shop: { state.supply ≡ supply_of shop.tables },
}

impl Between {
    fn open(rt: &impl Abort, alloc: Global) -> Between {
        let shop = made(rt, bicycles().shop(alloc));
        let state = BookState::open(alloc, &shop).expect(rt, "memory");
        Between { shop, state }
    }

    // The reply to a desk's call, and the copy.
    fn apply(&mut self, rt: &impl Abort, alloc: Global, desk: u64, asked: Asked) -> (Said, Said) {
        let call = made(rt, asked.call(&self.shop));
        let (reply, copy) = self.state.apply(alloc, desk, &call).expect(rt, "a reply");
        let answer = (said(&reply), said(&copy));
        drop((reply, copy));
        answer
    }

    // Fails unless these calls have these replies, and the copies are equal.
    fn applies(&mut self, rt: &impl Abort, alloc: Global, calls: &[Answered]) {
        for (desk, asked, want) in calls {
            same(rt, self.apply(rt, alloc, *desk, *asked), (*want, *want));
        }
    }
}

// Fails unless this is the state after eleven calls.
fn is_left(rt: &impl Abort, state: BookState) {
    same(rt, (state.next_number(), state.is_full()), (12, false));
    let supply = state.into_supply();
    same(rt, supply.weeks(), 6);
    drop(supply);
}

#[test]
fn a_state_answers_with_an_equal_copy(rt: HostRuntime) {
    const CALLS: &[Answered] = &[
        (1, Asked::When(11), ("week", 3)),
        (1, Asked::When(51), ("no-week", 0)),
        (1, Asked::Ask(3), ("available", 30)),
        (1, Asked::Book(3, 12), ("booked", 4)),
        (2, Asked::Book(5, 39), ("short", 38)),
        (2, Asked::Cancel(4), ("not-yours", 0)),
        (1, Asked::Cancel(4), ("cancelled", 0)),
        (1, Asked::Cancel(4), ("not-standing", 0)),
        (2, Asked::Ask(5), ("available", 50)),
        (2, Asked::Snapshot, ("taken", 10)),
        (2, Asked::Front, ("front", 11)),
    ];
    let mut between = Between::open(&rt, rt.alloc());
    same(&rt, between.state.next_number(), 1);
    between.applies(&rt, rt.alloc(), CALLS);
    let Between { shop, state } = between;
    drop(shop);
    is_left(&rt, state);
}
