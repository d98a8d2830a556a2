//! Calls by turns, from one thread and from many.

ghost use Rattle.std.specs.Prelude.{◌≡◌, ℕ, ◌+◌, ◌<◌, ◌≤◌, All, Contains, IfOk, length, slice_get, slice_index_or, Some, vec_len};
ghost use Rattle.mrp_turn.specs.Seen.{newcomer, Seated};

use super::same;
use mrp_turn::tally::{Call, MOST, Refused, Reply, Tally};
use mrp_turn::{CallFault, Entry, Log, Seat, Turn, TurnFault};
use std::alloc::{AllocError, Global};
use std::process::Abort;
use std::sync::Wait;
use std::thread;
use std::thread::Threads;

// Fails unless a new lock has this number of seats, numbered from 1 on.
fn has_seats(rt: &impl Abort, alloc: Global, count: u64) {
    let (turn, seats) = Turn::new(alloc, Tally, 0, 4, count).expect(rt, "a lock");
    same(rt, seats.len() as u64, count);
    for place in 0..seats.len() {
        same(rt, seats[place].number(), place as u64 + 1);
    }
    drop((turn, seats));
}

#[test]
fn makes_1_to_64_seats(rt: HostRuntime) {
    for seats in [0, 65] {
        let refused = Turn::new(rt.alloc(), Tally, 0, 4, seats).err();
        same(&rt, refused, Some(TurnFault::Seats));
    }
    has_seats(&rt, rt.alloc(), 1);
    has_seats(&rt, rt.alloc(), 64);
}

// The answer to a call, its entry's number and the sum; `None` if the sum would be too high.
fn answer<R: Wait + Abort>(
    rt: &R,
    turn: &Turn<Tally>,
    seat: &mut Seat<Tally>,
    call: Call,
) -> Option<(u64, u64)>
    requires { seat.old.turn ≡ turn.now }
    ensures { seat.new.turn ≡ seat.old.turn }
{
    match turn.call(rt, seat, call) {
        Ok((number, Reply::Sum(sum))) => Some((number, sum)),
        Err(CallFault::Refused(Refused::TooHigh)) => None,
        Err(CallFault::NoMemory) => panic!(rt; "no memory"),
    }
}

// A lock with this room, and its first two seats.
fn two_seats(rt: &impl Abort, alloc: Global, room: usize) -> (Turn<Tally>, Seat<Tally>, Seat<Tally>)
    ensures { (result.1.turn ≡ result.0) × (result.2.turn ≡ result.0) }
{
    let (turn, mut seats) = Turn::new(alloc, Tally, 0, room, 2).expect(rt, "a lock");
    let second = seats.pop().expect(rt, "two seats");
    let first = seats.pop().expect(rt, "two seats");
    (turn, first, second)
}

// Fails unless the calls of a seat have these answers.
fn are_answered<R: Wait + Abort>(
    rt: &R,
    turn: &Turn<Tally>,
    mut seat: Seat<Tally>,
    calls: &[(Call, Option<(u64, u64)>)],
)
    requires { seat.turn ≡ turn.now }
{
    for (call, want) in calls {
        same(rt, answer(rt, turn, &mut seat, *call), *want);
    }
}

#[test]
fn a_sum_may_reach_the_greatest_and_no_more(rt: HostRuntime) {
    const CALLS: &[(Call, Option<(u64, u64)>)] = &[
        (Call::Add(1), Some((1, 1))),
        (Call::Add(MOST), None),
        (Call::Read, Some((2, 1))),
        (Call::Add(MOST - 1), Some((3, MOST))),
        (Call::Add(u64::MAX), None),
        (Call::Read, Some((4, MOST))),
    ];
    let (turn, seat, other) = two_seats(&rt, rt.alloc(), 3);
    drop(other);
    are_answered(&rt, &turn, seat, CALLS);
    drop(turn);
}

#[test]
fn a_seat_that_meets_another_goes_on_from_its_calls(rt: HostRuntime) {
    let (turn, mut first, mut second) = two_seats(&rt, rt.alloc(), 2);
    let answered = answer(&rt, &turn, &mut first, Call::Add(5));
    same(&rt, answered, Some((1, 5)));
    let met = turn.meet(&rt, &mut second, &mut first, Call::Read);
    same(&rt, met.ok(), Some((2, Reply::Sum(5))));
    drop((turn, first, second));
}

// Calls Add(1) a number of times.
fn add_ones<R: Wait>(rt: &R, turn: &Turn<Tally>, mut seat: Seat<Tally>, times: u64) -> Seat<Tally>
    requires { seat.turn ≡ turn.now }
    ensures { (result.turn ≡ seat.turn) × (result.number ≡ seat.number) }
{
    for _ in 0..times {
        let _ = turn.call(rt, &mut seat, Call::Add(1));
    }
    seat
}

// Each seat calls Add(1) a number of times, in a thread of its own.
fn add_all<R: Threads + Wait + Sync>(
    rt: &R,
    turn: &Turn<Tally>,
    seats: Vec<Seat<Tally>>,
    times: u64,
) -> Result<Vec<Seat<Tally>>, AllocError>
    requires { All (λ s. s.turn ≡ turn.now) seats.items }
    ensures { IfOk result (λ v. (vec_len v ≡ vec_len seats) × ((k : ℕ) (d : _) → k < vec_len seats → ((slice_index_or v.items k d).turn ≡ turn.now) × ((slice_index_or v.items k d).number ≡ (slice_index_or seats.items k d).number))) }
{
    thread::map_vec(
        rt,
        seats,
        &|seat: Seat<Tally>| -> Seat<Tally>
            requires { seat.turn ≡ turn.now }
            ensures { (result.turn ≡ turn.entry.now) × (result.number ≡ seat.number) }
        { add_ones(rt, turn, seat, times) },
    )
}

// The state and the log after each seat has called Add(1) a number of times, in a thread of its own.
fn counted<R: Threads + Wait + Sync>(
    rt: &R,
    alloc: Global,
    count: u64,
    times: u64,
) -> Result<(u64, Log<Call, Reply>), AllocError> {
    let Ok((turn, seats)) = Turn::new(alloc, Tally, 0, 2000, count) else {
        return Err(AllocError);
    };
    let seats = add_all(rt, &turn, seats, times)?;
    Ok(turn.close(seats))
}

#[test]
fn one_seat_leaves_its_calls_in_order(rt: HostRuntime) {
    const ENTRIES: &[(u64, Call, Reply)] = &[
        (1, Call::Add(1), Reply::Sum(1)),
        (1, Call::Add(1), Reply::Sum(2)),
        (1, Call::Add(1), Reply::Sum(3)),
    ];
    let (state, log) = counted(&rt, rt.alloc(), 1, 3).expect(&rt, "a lock");
    same(&rt, (state, log.len()), (3, ENTRIES.len()));
    for (entry, want) in log.entries().iter().zip(ENTRIES) {
        same(&rt, (entry.who, entry.call, entry.reply), *want);
    }
    drop(log);
}

// Fails unless each seat, after its calls in a thread of its own, has as many entries as calls, and the
// state is the sum of all that they added.
fn all_stand(rt: &impl Abort, state: u64, log: &Log<Call, Reply>, count: u64, times: u64) {
    same(rt, state, count.saturating_mul(times));
    same(rt, log.len() as u64, count.saturating_mul(times));
    for who in 1..=count {
        let own = log.entries().iter().filter(|e| e.who == who).count();
        same(rt, own as u64, times);
    }
}

#[test]
fn calls_from_threads_all_stand_in_one_log(rt: HostRuntime) {
    for (count, times) in [(2, 1000), (64, 10)] {
        let (state, log) = counted(&rt, rt.alloc(), count, times).expect(&rt, "a lock");
        all_stand(&rt, state, &log, count, times);
        drop(log);
    }
}

#[test]
fn a_log_gives_its_entries_back(rt: HostRuntime) {
    let mut entries = Vec::new(rt.alloc());
    let entry = Entry {
        who: 3,
        call: 'a',
        reply: 7u8,
    };
    entries.push(entry).expect(&rt, "memory");
    let log = Log::from_entries(entries);
    assert!(rt; !log.is_empty());
    same(&rt, log.len(), 1);
    for Entry { who, call, reply } in log.into_entries() {
        same(&rt, (who, call, reply), (3, 'a', 7));
    }
}
