//! A seat, and the place at the table under it.
ghost use Rattle.std.specs.Prelude.{◌≡◌, ℕ, ◌≤◌, []};
ghost use Rattle.mrp_turn.specs.Rule.{seen_of, mine_of, account, alone, live};

use crate::log::Held;
use crate::object::Object;
use crate::turn::MOST_SEATS;
use crate::views::{About, View};
use std::marker::Model;
use std::snapshot::Snapshot;

// The seat at the table of words and slots that takes the steps. It has no bytes.
pub(crate) type Place<O> = atomic_table::Seat<
    Option<Held<<O as Object>::State, <O as Object>::Call, <O as Object>::Reply>>,
    View<O, <O as Object>::Call, <O as Object>::Reply>,
>;

/// One of a turn's seats, with which one thread at a time makes calls. Contracts see its turn, its number, what it has
/// seen of the log, and its own entries; the last two have no bytes.
#[derive(Drop)]
pub struct Seat<O: Object> {
    pub(crate) number: u64,
    // What its turn was made with.
    about: Snapshot<About<O>>,
    pub(crate) place: Place<O>,
}

impl<O: Object> Model for Seat<O> {
    ghost use Rattle.std.specs.Prelude.{◌≡◌, ℕ, ◌≤◌, List, []};
    ghost use Rattle.mrp_turn.specs.Seen.{TurnId, Seated};
    ghost use Rattle.mrp_turn.specs.Rule.{seen_of, mine_of, account, alone, live};
    ghost use Rattle.mrp_turn.specs.declared.turn.TheConstants.{MOST_SEATS};

    ghost Value = { Seated O O.Call O.Reply };

    ghost view = { λ s. record {
      turn = record { table = s.place.table_id; about = s.about.value };
      number = s.number;
      seen = seen_of s.place.me.0;
      mine = mine_of s.place.me.0;
    } };

    ghost invariant = { λ s. (1 ≤ s.number) × (s.number ≤ MOST_SEATS)
        × (s.place.me ≡ (live (alone s.about.value (account s.number (seen_of s.place.me.0) (mine_of s.place.me.0))), [])) };
}

impl<O: Object> Seat<O> {
    // The seat with this number over the place.
    pub(crate) fn at(number: u64, about: &About<O>, place: Place<O>) -> Seat<O>
        requires number { (1 ≤ number) × (number ≤ MOST_SEATS) }
        requires view { place.me
            ≡ (live (alone about.now (account number (seen_of place.me.0) (mine_of place.me.0))), []) }
        ensures turn { (result.turn.table ≡ place.table_id)
            × (result.turn.about ≡ about.now) × (result.number ≡ number) }
        ensures lists { (result.seen ≡ seen_of place.me.0) × (result.mine ≡ mine_of place.me.0) }
    {
        Seat {
            number,
            about: Snapshot::of(about),
            place,
        }
    }

    // The place under the seat.
    pub(crate) fn into_place(self) -> Place<O>
        ensures { (result.table_id ≡ self.turn.table) × (1 ≤ self.number)
            × (result.me ≡ (live (alone self.turn.about (account self.number self.seen self.mine)), [])) }
    {
        let Seat {
            number: _,
            about: _,
            place,
        } = self;
        place
    }

    /// From 1 to the count of the turn's seats.
    pub fn number(&self) -> u64
        ensures { result ≡ self.now.number }
    {
        self.number
    }
}
