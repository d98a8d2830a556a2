//! Offices, whose desks share one order book, also from threads of their own.

ghost use Rattle.std.specs.Prelude.{◌≡◌, ℕ, ◌<◌, All, IfOk, IfSome, slice_index_or, vec_len};

use super::weeks::has_row;
use super::workers::comes_to;
use super::{made, pieces, same};
use mrp_bill::Shop;
use mrp_book::{History, Line, Refused, Reply, Spot, Wish};
use mrp_desk::{Desk, Office, OfficeFault};
use mrp_explode::{Gate, explode};
use mrp_item::{Inputs, Plan};
use sample_shops::{Asked, Said, bicycles, said};
use std::alloc::{AllocError, Global};
use std::process::Abort;
use std::sync::atomic::{AtomicU64, Ordering};
use std::sync::{Arc, Wait};
use std::thread;
use std::thread::Threads;

// The number of desks of an office opened with this number, or why it was refused.
fn desk_count(rt: &impl Abort, alloc: Global, desks: u64) -> Result<usize, OfficeFault> {
    match Office::open(alloc, made(rt, bicycles().shop(alloc)), desks) {
        Ok((office, desks)) => {
            let count = desks.len();
            drop((office, desks));
            Ok(count)
        }
        Err(fault) => Err(fault),
    }
}

#[test]
fn an_office_has_1_to_64_desks(rt: HostRuntime) {
    const COUNTS: &[(u64, Result<usize, OfficeFault>)] = &[
        (0, Err(OfficeFault::Desks)),
        (65, Err(OfficeFault::Desks)),
        (64, Ok(64)),
    ];
    for (desks, want) in COUNTS {
        same(&rt, desk_count(&rt, rt.alloc(), *desks), *want);
    }
}

// The answer to a desk's call: the entry's number and the reply, or why it was refused.
fn called<R: Wait + Abort>(
    rt: &R,
    office: &Office,
    desk: &mut Desk,
    asked: Asked,
) -> Result<(u64, Reply), Refused>
    requires { desk.old.turn ≡ office.now }
    ensures { (desk.new.turn ≡ desk.old.turn) × (desk.new.number ≡ desk.old.number) }
{
    let shop: &Shop = office.shop();
    match asked {
        Asked::Book(week, count) => {
            let line = Line::new(shop, 0, week, pieces(rt, count)).expect(rt, "a line");
            office.book(rt, desk, line)
        }
        Asked::Cancel(number) => office.cancel(rt, desk, number),
        Asked::Ask(week) => {
            let spot = Spot::new(shop, 0, week).expect(rt, "a spot");
            office.ask(rt, desk, spot)
        }
        Asked::When(count) => {
            let wish = Wish::new(shop, 0, pieces(rt, count)).expect(rt, "a wish");
            office.when(rt, desk, wish)
        }
        Asked::Snapshot => office.snapshot(rt, desk),
        Asked::Front => office.front(rt, desk),
    }
}

// The answer to a desk's call: the entry's number, and the reply as its word and number.
fn answer<R: Wait + Abort>(rt: &R, office: &Office, desk: &mut Desk, asked: Asked) -> (u64, Said)
    requires { desk.old.turn ≡ office.now }
    ensures { (desk.new.turn ≡ desk.old.turn) × (desk.new.number ≡ desk.old.number) }
{
    let (number, reply) = called(rt, office, desk, asked).expect(rt, "a reply");
    let said = said(&reply);
    drop(reply);
    (number, said)
}

// The last of an office's desks, and the desks before it.
fn last_desk(office: &Office, mut desks: Vec<Desk>) -> Option<(Desk, Vec<Desk>)>
    requires { All (λ d. d.turn ≡ office.now) desks.items }
    ensures { IfSome result (λ r. (r.0.turn ≡ office.now) × All (λ d. d.turn ≡ office.now) r.1.items) }
{
    let last = desks.pop()?;
    Some((last, desks))
}

// The two desks of an office.
fn two_desks(office: &Office, desks: Vec<Desk>) -> Option<(Desk, Desk)>
    requires { All (λ d. d.turn ≡ office.now) desks.items }
    ensures { IfSome result (λ r. (r.0.turn ≡ office.now) × (r.1.turn ≡ office.now)) }
{
    let (second, desks) = last_desk(office, desks)?;
    let (first, none) = last_desk(office, desks)?;
    drop(none);
    Some((first, second))
}

// An office of two desks.
#[derive(Drop)]
struct Pair {
    office: Office,
    first: Desk,
    second: Desk,
    ghost first_of_office: { first.turn ≡ office },
    ghost second_of_office: { second.turn ≡ office },
    ghost count: { office.about.seats ≡ 2 },
    ghost first_number: { first.number ≡ 1 },
    ghost second_number: { second.number ≡ 2 },
}

impl Pair {
    fn open(rt: &impl Abort, alloc: Global) -> Pair {
        let shop = made(rt, bicycles().shop(alloc));
        let Ok((office, desks)) = Office::open(alloc, shop, 2) else {
            panic!(rt; "an office");
        };
        let Some((first, second)) = two_desks(&office, desks) else {
            panic!(rt; "two desks");
        };
        assert!(rt; first.number() == 1 && second.number() == 2);
        Pair {
            office,
            first,
            second,
        }
    }

    // The answer to a call of the first desk, or of the second.
    fn answer<R: Wait + Abort>(&mut self, rt: &R, is_first: bool, asked: Asked) -> (u64, Said) {
        if is_first {
            answer(rt, &self.office, &mut self.first, asked)
        } else {
            answer(rt, &self.office, &mut self.second, asked)
        }
    }

    // The second desk's answer when it meets the first: the entry's number, and the reply.
    fn meet<R: Wait + Abort>(&mut self, rt: &R) -> (u64, Said) {
        let met = self.office.meet(rt, &mut self.second, &mut self.first);
        let (number, reply) = met.expect(rt, "a reply");
        let said = said(&reply);
        drop(reply);
        (number, said)
    }

    // A snapshot by the first desk: the number of its entry, its front, and the number of standing bookings.
    fn snapshot<R: Wait + Abort>(&mut self, rt: &R) -> (u64, u64, usize) {
        let (number, reply) = self
            .office
            .snapshot(rt, &mut self.first)
            .expect(rt, "a reply");
        let Reply::Taken(snapshot) = reply else {
            panic!(rt; "a snapshot");
        };
        (number, snapshot.front(), snapshot.count())
    }

    fn close(self, rt: &impl Abort, alloc: Global) -> History {
        let Pair {
            office,
            first,
            second,
        } = self;
        let Ok(mut desks) = Vec::with_capacity(alloc, 2) else {
            panic!(rt; "memory");
        };
        desks.push_reserved(first);
        desks.push_reserved(second);
        office.close(desks)
    }
}

// The desk, after it booked 25 pieces in the third call on the book.
fn after_booking<R: Wait + Abort>(rt: &R, office: &Office, mut desk: Desk) -> Desk
    requires { desk.turn ≡ office.now }
    ensures { result.turn ≡ desk.turn }
{
    let booked = answer(rt, office, &mut desk, Asked::Book(5, 25));
    same(rt, booked, (3, ("booked", 3)));
    desk
}

// Has each desk book 25 pieces, in a thread of its own.
fn book_in_threads<R: Threads + Wait + Sync + Abort>(
    rt: &R,
    office: &Office,
    desks: Vec<Desk>,
) -> Result<Vec<Desk>, AllocError>
    requires { All (λ d. d.turn ≡ office.now) desks.items }
    ensures { IfOk result (λ v. (vec_len v ≡ vec_len desks) × ((k : ℕ) (d : _) → k < vec_len desks → (slice_index_or v.items k d).turn ≡ office.now)) }
{
    thread::map_vec(
        rt,
        desks,
        &|desk: Desk| -> Desk
            requires { desk.turn ≡ office.now }
            ensures { result.turn ≡ office.entry.now }
        { after_booking(rt, office, desk) },
    )
}

// The desk, which has the number 2, after it booked 25 pieces in a thread of its own.
fn book_in_a_thread<R: Threads + Wait + Sync + Abort>(
    rt: &R,
    alloc: Global,
    office: &Office,
    desk: Desk,
) -> Desk
    requires { desk.turn ≡ office.now }
    ensures { (result.turn ≡ office.now) × (result.number ≡ 2) }
{
    let mut desks = Vec::with_capacity(alloc, 1).expect(rt, "memory");
    desks.push_reserved(desk);
    let desks = book_in_threads(rt, office, desks).expect(rt, "memory");
    let Some((desk, none)) = last_desk(office, desks) else {
        panic!(rt; "one desk");
    };
    drop(none);
    assert!(rt; desk.number() == 2);
    desk
}

impl Pair {
    // The pair, after the second desk booked in a thread of its own.
    fn book_in_a_thread<R: Threads + Wait + Sync + Abort>(self, rt: &R, alloc: Global) -> Pair {
        let Pair {
            office,
            first,
            second,
        } = self;
        let second = book_in_a_thread(rt, alloc, &office, second);
        Pair {
            office,
            first,
            second,
        }
    }
}

// A pair whose desks have made four calls, the third in a thread of its own.
fn after_four_calls<R: Threads + Wait + Sync + Abort>(rt: &R, alloc: Global) -> Pair {
    let mut pair = Pair::open(rt, alloc);
    let booked = pair.answer(rt, true, Asked::Book(3, 12));
    same(rt, booked, (1, ("booked", 1)));
    same(rt, pair.snapshot(rt), (2, 2, 1));
    let mut pair = pair.book_in_a_thread(rt, alloc);
    same(rt, pair.snapshot(rt), (4, 4, 2));
    pair
}

#[test]
fn a_desk_meets_another_and_a_closed_office_has_every_call_once(rt: HostRuntime) {
    let mut pair = after_four_calls(&rt, rt.alloc());
    same(&rt, pair.meet(&rt), (5, ("front", 5)));
    let history = pair.close(&rt, rt.alloc());
    same(&rt, history.entries().len(), 5);
    drop(history);
}

// How far a run and a desk have come: the run's first item is held at its gate until the desk has booked.
#[derive(Drop)]
struct Meeting {
    held: AtomicU64,
    booked: AtomicU64,
    given_up: AtomicU64,
}

impl Gate for Meeting {
    fn pass<R: Wait>(&self, _rt: &R, item: usize) {
        if item != 0 {
            return;
        }
        self.held.store(1, Ordering::SeqCst);
        if !comes_to(&self.booked, 1) {
            self.given_up.store(1, Ordering::SeqCst);
        }
    }
}

// Books once the run's first item is held, and then lets it pass.
fn book_meanwhile<R: Wait + Abort>(rt: &R, office: &Office, desk: &mut Desk, meeting: &Meeting)
    requires { desk.old.turn ≡ office.now }
    ensures { (desk.new.turn ≡ desk.old.turn) × (desk.new.number ≡ desk.old.number) }
{
    assert!(rt; comes_to(&meeting.held, 1));
    let booked = answer(rt, office, desk, Asked::Book(5, 25));
    same(rt, booked, (3, ("booked", 3)));
    meeting.booked.store(1, Ordering::SeqCst);
}

// The plan of a run whose first item is held until the desk has booked, in a thread of its own.
fn planned_meanwhile<R: Alloc + Threads + Wait + Sync + Abort>(
    rt: &R,
    alloc: Global,
    inputs: &Arc<Inputs>,
    office: &Office,
    desk: &mut Desk,
) -> Plan
    requires { desk.old.turn ≡ office.now }
    ensures { (desk.new.turn ≡ desk.old.turn) × (desk.new.number ≡ desk.old.number) }
{
    let meeting = Meeting {
        held: AtomicU64::new(0),
        booked: AtomicU64::new(0),
        given_up: AtomicU64::new(0),
    };
    let mut book = || -> ()
        requires { desk.now.turn ≡ office.now }
        ensures { (desk.exit.now.turn ≡ desk.entry.now.turn) × (desk.exit.now.number ≡ desk.entry.now.number) }
    { book_meanwhile(rt, office, desk, &meeting) };
    let mut run = || -> Plan { explode(rt, alloc, inputs, 1, &meeting).expect(rt, "a plan") };
    let ((), plan) = thread::join_mut(rt, &mut book, &mut run);
    same(rt, meeting.given_up.load(Ordering::SeqCst), 0);
    plan
}

// The shop of an office, shared.
fn shared_shop(rt: &impl Abort, office: &Office) -> Arc<Shop>
    ensures { result.value ≡ office.now.about.object }
{
    office.shop().clone().expect(rt, "memory")
}

// The inputs of a run of a desk, whose snapshot makes the second entry.
fn started<R: Wait + Abort>(rt: &R, alloc: Global, office: &Office, desk: &mut Desk) -> Arc<Inputs>
    requires { desk.old.turn ≡ office.now }
    ensures { (desk.new.turn ≡ desk.old.turn) × (desk.new.number ≡ desk.old.number) }
{
    let (number, reply) = office.snapshot(rt, desk).expect(rt, "a reply");
    let Reply::Taken(snapshot) = reply else {
        panic!(rt; "a snapshot");
    };
    same(rt, (number, snapshot.front()), (2, 2));
    let shop = shared_shop(rt, office);
    Inputs::new(alloc, shop, snapshot).expect(rt, "memory")
}

impl Pair {
    // The plan of a run of the first desk. While its first item is held the second desk books.
    fn plan_meanwhile<R: Alloc + Threads + Wait + Sync + Abort>(
        &mut self,
        rt: &R,
        alloc: Global,
    ) -> Plan {
        let inputs = started(rt, alloc, &self.office, &mut self.first);
        let plan = planned_meanwhile(rt, alloc, &inputs, &self.office, &mut self.second);
        drop(inputs);
        plan
    }
}

// A run plans from its snapshot, and bookings are answered while it is held.
#[test]
fn a_desk_books_while_a_run_is_held(rt: HostRuntime) {
    let mut pair = Pair::open(&rt, rt.alloc());
    let booked = pair.answer(&rt, true, Asked::Book(3, 12));
    same(&rt, booked, (1, ("booked", 1)));
    let plan = pair.plan_meanwhile(&rt, rt.alloc());
    assert!(rt; plan.inputs().shop().tables().items().len() > 0);
    has_row(&rt, rt.alloc(), plan.item(0).gross(), &[0, 8, 12, 6, 0, 0]);
    same(&rt, pair.snapshot(&rt), (4, 4, 2));
    let history = pair.close(&rt, rt.alloc());
    same(&rt, history.entries().len(), 4);
    drop((plan, history));
}
