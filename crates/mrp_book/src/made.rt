//! The bookings that a book made, by their numbers.

use crate::booking::Booking;
use crate::booking_list::BookingList;
use mrp_qty::NoMemory;
use std::alloc::Global;
use std::marker::Model;

// A booking that was made, and whether it still stands.
#[derive(Clone, Copy)]
pub(crate) struct Made {
    pub(crate) booking: Booking,
    pub(crate) stands: bool,
}

// Bookings that were made, in order. Copies share nearly all of them.
#[derive(Drop)]
pub(crate) struct MadeList {
    bookings: BookingList,
    stands: Vec<bool>,
}

impl Model for MadeList {
    ghost use Rattle.std.specs.Prelude.{◌≡◌, List, length};
    ghost use Rattle.mrp_book.specs.declared.made.Made.{Made};
    ghost use Rattle.mrp_book.specs.Made.{made_of};

    ghost Value = { List Made };

    ghost view = { λ m. made_of m.bookings m.stands.items };

    ghost invariant = { λ m. length m.stands.items ≡ length m.bookings };
}

impl MadeList {
    ghost use Rattle.std.specs.Prelude.{◌≡◌, ◌≢◌, ◌<◌, ◌++◌, ◌∷◌, [], true, false, All, HoldsAt, IfOk, IfNone, IfSome, OnErr, OnOk, length, slice_index_or, slice_set};
    ghost use Rattle.mrp_book.specs.Made.{IsRising, standing_of};

    // No booking.
    pub(crate) fn new(alloc: Global) -> MadeList
        ensures { result ≡ [] }
    {
        MadeList {
            bookings: BookingList::of(alloc, Vec::new(alloc)),
            stands: Vec::new(alloc),
        }
    }

    // These bookings, all of which stand.
    pub(crate) fn of(alloc: Global, bookings: Vec<Booking>) -> Result<MadeList, NoMemory>
        ensures { IfOk result (λ made. standing_of made ≡ bookings.items) }
    {
        let stands = vec![in alloc; true; bookings.len()]?;
        let bookings = BookingList::of(alloc, bookings);
        Ok(MadeList { bookings, stands })
    }

    // How many bookings were made.
    #[inline]
    pub(crate) fn len(&self) -> usize
        ensures { result ≡ length self.now }
    {
        self.stands.len()
    }

    // How many bookings stand.
    pub(crate) fn count(&self) -> usize
        ensures { result ≡ length (standing_of self.now) }
    {
        self.stands.iter().filter(|stands| **stands).count()
    }

    // The booking at a place, from 0.
    #[inline]
    pub(crate) fn at(&self, place: usize) -> Made
        requires { place < length self.now }
        ensures { result ≡ slice_index_or self.now place result }
    {
        Made {
            booking: self.bookings.at(place),
            stands: self.stands[place],
        }
    }

    // The place of the booking with a number, standing or not.
    pub(crate) fn place_of(&self, number: u64) -> Option<usize>
        requires { IsRising self.now }
        ensures within { IfSome result (λ place. place < length self.now) }
        ensures found { IfSome result (HoldsAt (λ m. m.booking.number ≡ number) self.now) }
        ensures none { IfNone result (All (λ m. m.booking.number ≢ number) self.now) }
    {
        let mut first = 0;
        let mut end = self.len();
        while first < end {
            let middle = first + (end - first) / 2;
            let found = self.at(middle).booking.number;
            if found == number {
                return Some(middle);
            }
            if found < number {
                first = middle + 1;
            } else {
                end = middle;
            }
        }
        None
    }

    // Adds a booking, which stands. Errors: `NoMemory` if an allocation fails; then nothing has changed.
    pub(crate) fn push(&mut self, alloc: Global, booking: Booking) -> Result<(), NoMemory>
        ensures pushed { OnOk result (self.new ≡ self.old ++ record { booking = booking; stands = true } ∷ []) }
        ensures refused { OnErr result (self.new ≡ self.old) }
    {
        self.stands.try_reserve(1)?;
        self.bookings.push(alloc, booking)?;
        self.stands.push_reserved(true);
        Ok(())
    }

    // Marks a booking as cancelled, and returns it as it was.
    pub(crate) fn cancel(&mut self, place: usize) -> Made
        requires { place < length self.old }
        ensures was { result ≡ slice_index_or self.old place result }
        ensures after { self.new ≡ slice_set self.old place (record { booking = result.booking; stands = false }) }
    {
        let made = self.at(place);
        self.stands[place] = false;
        made
    }

    // An equal list.
    pub(crate) fn copy(&self, alloc: Global) -> Result<MadeList, NoMemory>
        ensures { IfOk result (λ copy. copy ≡ self.now) }
    {
        let bookings = self.bookings.copy(alloc)?;
        let stands = Vec::from_slice(alloc, &self.stands)?;
        Ok(MadeList { bookings, stands })
    }
}
