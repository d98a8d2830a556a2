//! The lock.
ghost use Rattle.std.specs.Prelude.{◌≡◌, ℕ, ◌≤◌, ◌+◌, ◌<◌, ◌++◌, ◌∷◌, [], length, slice_get, All, vec_capacity};
ghost use Rattle.std.specs.Prelude.{Some, IfOk, IfErr, OnOk, OnErr, MatchOption, MatchResult};
ghost use Rattle.mrp_turn.specs.Seen.{Seated, newcomer};
ghost use Rattle.mrp_turn.specs.Log.{entry, IsReached};
ghost use Rattle.mrp_turn.specs.Calls.{Explains};

use crate::log::{Entry, Held, Log};
use crate::object::Object;
use crate::seat::{Place, Seat};
use crate::steps::{Cut, Give, Keep, Look, Note, Take, TurnRule};
use crate::views::{About, View};
use atomic_table::{Refused, Table};
use std::alloc::{AllocError, Global};
use std::hint::spin_loop;
use std::marker::Model;
use std::sync::Wait;
use std::time::Duration;

/// The most seats of a turn.
pub const MOST_SEATS: u64 = 64;

// The table's word while no seat has the slot.
const FREE: u64 = 0;

// The word while a seat has the slot.
const TAKEN: u64 = 1;

// How often a thread that finds the slot taken looks again before it sleeps.
const LOOKS: u32 = 10;

// How many microseconds a thread that found the slot taken sleeps. Nobody wakes it: that would take longer than most
// calls, and would switch threads at each call.
const PAUSE: u64 = 200;

/// Why a turn was not made.
#[derive(Debug, Drop, Clone, Copy, PartialEq, Eq)]
pub enum TurnFault {
    /// The number of seats is 0 or over `MOST_SEATS`.
    Seats,
    /// The turn, its seats or the places of its log could not be allocated.
    NoMemory,
}

/// Why a call was not answered. It made no entry.
#[derive(Debug, Drop)]
pub enum CallFault<E> {
    /// The log had to grow beyond the places that it began with, and could not.
    NoMemory,
    /// The object refused the call.
    Refused(E),
}

/// The lock: an object's state, with the log of the calls that led to it. Calls are made by its seats, each seat in one
/// thread at a time.
#[derive(Drop)]
pub struct Turn<O: Object> {
    table: Table<
        Option<Held<O::State, O::Call, O::Reply>>,
        View<O, O::Call, O::Reply>,
        About<O>,
        TurnRule<O>,
        Global,
    >,
    about: About<O>,
}

impl<O: Object> Model for Turn<O> {
    ghost use Rattle.std.specs.Prelude.{◌≡◌, ℕ, ◌≤◌};
    ghost use Rattle.mrp_turn.specs.Seen.{TurnId};
    ghost use Rattle.mrp_turn.specs.declared.turn.TheConstants.{MOST_SEATS};

    ghost Value = { TurnId O };

    ghost view = { λ t. record { table = t.table.shared.table_id; about = t.about } };

    ghost invariant = { λ t. (t.table.shared.table_id.words ≡ 1) × (t.table.shared.table_id.slots ≡ 1)
        × (t.table.shared.key ≡ t.about) × (1 ≤ t.about.seats) × (t.about.seats ≤ MOST_SEATS) };
}

impl<O: Object> Turn<O> {
    ghost use Rattle.mrp_turn.specs.Rule.{starting};
    ghost use Rattle.mrp_turn.specs.Lists.{StartsWith, Each};
    ghost use Rattle.mrp_turn.specs.Log.{LeadsTo, entries_by};
    ghost use Rattle.mrp_turn.specs.Seen.{HasNumber};
    ghost use Rattle.mrp_turn.specs.Calls.{IsAt, RunTells, SeatTells, StandsFor};
    ghost use Rattle.mrp_turn.specs.Steps.{IsIdle, Taken, Lost, MayGiveFrom, GivenFrom};
    ghost use Rattle.mrp_turn.specs.Faults.{HasFault};

    /// A turn over the object, and its seats, numbered from 1. The log has places for `room` entries, and does not allocate
    /// until it has more. The state must be one that the object opens with.
    ///
    /// Errors, in this order: `Seats` if the number of seats is 0 or over `MOST_SEATS`; `NoMemory` if an allocation fails.
    pub fn new(
        alloc: Global,
        object: O,
        state: O::State,
        room: usize,
        seats: u64,
    ) -> Result<(Turn<O>, Vec<Seat<O>>), TurnFault>
        requires { O.opens object state }
        ensures accepted { OnOk result ((1 ≤ seats) × (seats ≤ MOST_SEATS)) }
        ensures about { IfOk result
            (λ r. r.0.about ≡ record { object = object; seats = seats; room = room }) }
        // As many seats as requested; the k-th has the number k, and has seen and called nothing.
        ensures count { IfOk result (λ r. length r.1.items ≡ seats) }
        ensures seats { IfOk result
            (λ r. (k : ℕ) → k < seats → slice_get r.1.items k ≡ Some (newcomer r.0 (k + 1))) }
        ensures fault { IfErr result (λ f. HasFault seats f) }
    {
        if seats == 0 || seats > MOST_SEATS {
            return Err(TurnFault::Seats);
        }
        let about = About {
            object,
            seats,
            room,
        };
        let Ok((turn, place)) = Turn::open(alloc, about, state) else {
            return Err(TurnFault::NoMemory);
        };
        match turn.deal(alloc, place) {
            Ok(seats) => Ok((turn, seats)),
            Err(_) => Err(TurnFault::NoMemory),
        }
    }

    /// The object under the lock.
    pub fn object(&self) -> &O
        ensures { result.now ≡ self.now.about.object }
    {
        &self.about.object
    }

    // The turn, and the place at the table that keeps all its seats.
    fn open(
        alloc: Global,
        about: About<O>,
        state: O::State,
    ) -> Result<(Turn<O>, Place<O>), AllocError>
        requires opened { O.opens about.object state }
        requires seats { (1 ≤ about.seats) × (about.seats ≤ MOST_SEATS) }
        ensures { IfOk result (λ r. (r.0.about ≡ about)
            × (r.1.table_id ≡ r.0.table) × (r.1.me ≡ (starting about, []))) }
    {
        let log: Vec<Entry<O::Call, O::Reply>> = Vec::with_capacity(alloc, about.room)?;
        let mut slots = Vec::with_capacity(alloc, 1)?;
        slots.push_reserved(Some(Held { state, log }));
        match Table::new(alloc, &[0], slots, &about) {
            Ok((table, place)) => Ok((Turn { table, about }, place)),
            Err(Refused { slots: _ }) => Err(AllocError),
        }
    }

    // Splits the seats off the place that keeps them all.
    fn deal(&self, alloc: Global, mut place: Place<O>) -> Result<Vec<Seat<O>>, AllocError>
        requires { (place.table_id ≡ self.now.table) × (place.me ≡ (starting self.now.about, [])) }
        ensures { IfOk result (λ v. (length v.items ≡ self.now.about.seats)
            × ((k : ℕ) → k < self.now.about.seats → slice_get v.items k ≡ Some (newcomer self.now (k + 1)))) }
    {
        let mut seats = Vec::with_capacity(alloc, self.about.seats as usize)?;
        for n in 0..self.about.seats {
            let next = self.table.shared.split_seat::<Cut>(&mut place);
            seats.push_reserved(Seat::at(n + 1, &self.about, next));
        }
        Ok(seats)
    }

    // Takes the slot and the value in it, if no seat has it.
    fn try_take(&self, place: &mut Place<O>) -> Option<Held<O::State, O::Call, O::Reply>>
        requires turn { place.old.table_id ≡ self.now.table }
        requires idle { IsIdle self.now.about place.old.me }
        ensures same { place.new.table_id ≡ place.old.table_id }
        ensures taken { MatchOption result
            (Lost O.opens O.answers place.old.me place.new.me)
            (λ held. Taken O.opens O.answers place.old.me held place.new.me) }
    {
        let shared = &self.table.shared;
        let found = shared.fetch_max::<Take<O>>(place, 0, TAKEN);
        if found != FREE {
            return None;
        }
        shared.exchange(place, 0, None)
    }

    // Takes the slot, and waits for it while another seat has it.
    fn take<R: Wait>(&self, rt: &R, place: &mut Place<O>) -> Held<O::State, O::Call, O::Reply>
        requires turn { place.old.table_id ≡ self.now.table }
        requires idle { IsIdle self.now.about place.old.me }
        ensures same { place.new.table_id ≡ place.old.table_id }
        ensures taken { Taken O.opens O.answers place.old.me result place.new.me }
    {
        let pause = Duration::from_micros(PAUSE);
        for _ in rt.forever() {
            if let Some(held) = self.try_take(place) {
                return held;
            }
            if !self.looks_free(place) {
                self.table.shared.park_timeout(rt, 0, TAKEN as u32, pause);
            }
        }
        unreachable!()
    }

    // Looks for a short while whether the slot was given back. A look leaves the seat unchanged.
    fn looks_free(&self, place: &mut Place<O>) -> bool
        requires turn { place.old.table_id ≡ self.now.table }
        requires idle { IsIdle self.now.about place.old.me }
        ensures same { (place.new.table_id ≡ place.old.table_id) × (place.new.me ≡ place.old.me) }
    {
        for _ in 0..LOOKS {
            let found = self.table.shared.load::<Look<O>>(place, 0);
            if found == FREE {
                return true;
            }
            spin_loop();
        }
        false
    }

    // Puts the value back and gives the slot back.
    fn give(&self, place: &mut Place<O>, held: Held<O::State, O::Call, O::Reply>)
        requires turn { place.old.table_id ≡ self.now.table }
        requires holds { MayGiveFrom O.opens O.answers place.old.me held }
        ensures same { place.new.table_id ≡ place.old.table_id }
        ensures given { GivenFrom place.old.me held place.new.me }
    {
        let shared = &self.table.shared;
        drop(shared.exchange(place, 0, Some(held)));
        let _found = shared.swap::<Give>(place, 0, FREE);
    }

    // One call of the seat at this place, which may keep notes.
    fn run<R: Wait>(
        &self,
        rt: &R,
        number: u64,
        place: &mut Place<O>,
        call: O::Call,
    ) -> Result<(u64, O::Reply), CallFault<O::Refused>>
        requires turn { place.old.table_id ≡ self.now.table }
        requires seat { IsAt self.now.about number place.old.me × (1 ≤ number) × (number ≤ MOST_SEATS) }
        requires call { O.fits self.now.about.object call }
        ensures same { place.new.table_id ≡ place.old.table_id }
        ensures told { RunTells
            O.opens O.answers O.refuses O.out_of_memory call place.old.me result place.new.me }
    {
        let mut held = self.take(rt, place);
        let result = answer(&self.about.object, &mut held, number, call);
        self.give(place, held);
        result
    }

    /// Makes the call, once no other seat has the slot. If it is answered, its entry is in the log, and the number of
    /// that entry is returned with the reply. If it is refused, no entry is made and the object's state is unchanged.
    /// The seat must be one of this turn, and the call must fit the object.
    ///
    /// Errors: `NoMemory` if the log has no place left and could not grow, before the object is called; `Refused` if the
    /// object refuses the call.
    pub fn call<R: Wait>(
        &self,
        rt: &R,
        seat: &mut Seat<O>,
        call: O::Call,
    ) -> Result<(u64, O::Reply), CallFault<O::Refused>>
        requires turn { seat.old.turn ≡ self.now }
        requires call { O.fits self.now.about.object call }
        ensures same { (seat.new.turn ≡ seat.old.turn) × (seat.new.number ≡ seat.old.number) }
        // What the seat has then seen is a legal log that continues what it had seen, and its own entries are those of the
        // log. An answered call is the last entry; a refused one made none, and has its cause.
        ensures told { SeatTells
            O.opens O.answers O.refuses O.out_of_memory self.now.about call seat.old result seat.new }
    {
        self.run(rt, seat.number, &mut seat.place, call)
    }

    /// The same call, after which this seat has seen all that the other seat had seen. The other keeps its lists.
    ///
    /// Errors: as of [`Turn::call`].
    pub fn meet<R: Wait>(
        &self,
        rt: &R,
        seat: &mut Seat<O>,
        other: &mut Seat<O>,
        call: O::Call,
    ) -> Result<(u64, O::Reply), CallFault<O::Refused>>
        requires turn { (seat.old.turn ≡ self.now) × (other.old.turn ≡ self.now) }
        requires call { O.fits self.now.about.object call }
        ensures same { (seat.new.turn ≡ seat.old.turn) × (seat.new.number ≡ seat.old.number) }
        ensures other { other.new ≡ other.old }
        ensures met { StartsWith seat.new.seen other.old.seen }
        // The rest is as for `call`.
        ensures told { SeatTells
            O.opens O.answers O.refuses O.out_of_memory self.now.about call seat.old result seat.new }
    {
        let note = self.table.shared.split_seat::<Note>(&mut other.place);
        self.table.shared.join_seat::<Keep>(&mut seat.place, note);
        self.run(rt, seat.number, &mut seat.place, call)
    }

    /// Ends the turn, and returns its state and the log that led there. All seats must be given. It does not allocate.
    pub fn close(self, mut seats: Vec<Seat<O>>) -> (O::State, Log<O::Call, O::Reply>)
        requires turn { All (λ s. s.turn ≡ self) seats.items }
        requires all { (n : ℕ) → 1 ≤ n → n ≤ self.about.seats → HasNumber seats.items n }
        ensures legal { LeadsTo
            (O.answers self.about.object) (O.opens self.about.object) result.1 result.0 }
        // What each seat has seen is a prefix of the log, and its own entries are all those under its number.
        ensures seen { All (λ s. StartsWith result.1 s.seen) seats.items }
        ensures mine { All (λ s. s.mine ≡ entries_by s.number result.1) seats.items }
        // Every entry is under a number of one of the seats, from 1 to their count.
        ensures in_range { All (λ e. (1 ≤ e.who) × (e.who ≤ self.about.seats)) result.1 }
        ensures callers { All (λ e. HasNumber seats.items e.who) result.1 }
    {
        let _ = &self.about;
        let Some(first) = seats.pop() else {
            unreachable!()
        };
        let mut place = self.gather(first, seats);
        // There is no other seat that could have the slot.
        let Some(Held { state, log }) = self.try_take(&mut place) else {
            unreachable!()
        };
        let Turn { table, about: _ } = self;
        let mut closed = table.close();
        drop(closed.take(0));
        closed.free();
        (state, Log::from_entries(log))
    }

    // One place that keeps all these seats.
    fn gather(&self, first: Seat<O>, mut others: Vec<Seat<O>>) -> Place<O>
        requires turn { (first.turn ≡ self.now) × Each (λ s. s.turn ≡ self.now) others.items }
        ensures same { result.table_id ≡ self.now.table }
        ensures all { StandsFor self.now.about (first ∷ others.items) result.me }
    {
        let mut place = first.into_place();
        while let Some(next) = others.pop() {
            self.table
                .shared
                .join_seat::<Keep>(&mut place, next.into_place());
        }
        place
    }
}

// Reserves room for an entry, makes the call, and adds the entry.
fn answer<O: Object>(
    object: &O,
    held: &mut Held<O::State, O::Call, O::Reply>,
    who: u64,
    call: O::Call,
) -> Result<(u64, O::Reply), CallFault<O::Refused>>
    requires call { O.fits object.now call }
    requires who { (1 ≤ who) × (who ≤ MOST_SEATS) }
    requires state { IsReached (O.answers object.now) (O.opens object.now) held.old.state }
    ensures room { vec_capacity held.old.log ≤ vec_capacity held.new.log }
    ensures answer { MatchResult result
        (λ r. (held.new.log.items ≡ held.old.log.items ++ entry who call r.1 ∷ [])
        × (r.0 ≡ length held.new.log.items)
        × O.answers object.now held.old.state who call r.1 held.new.state)
        (λ f. (held.new.log.items ≡ held.old.log.items) × (held.new.state ≡ held.old.state)
        × Explains (O.refuses object.now held.old.state who call) (O.out_of_memory object.now held.old.state who call)
        (vec_capacity held.old.log) (length held.old.log.items) f) }
{
    if held.log.try_reserve(1).is_err() {
        return Err(CallFault::NoMemory);
    }
    match object.apply(&mut held.state, who, &call) {
        Ok((reply, copy)) => {
            held.log.push_reserved(Entry {
                who,
                call,
                reply: copy,
            });
            Ok((held.log.len() as u64, reply))
        }
        Err(refused) => Err(CallFault::Refused(refused)),
    }
}
