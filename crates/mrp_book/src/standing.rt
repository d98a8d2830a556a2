//! Going over the bookings that stand.

use crate::booking::Booking;
use crate::made::MadeList;
use std::iter::Iterator;
use std::marker::Model;

/// The standing bookings of a snapshot, in order of their numbers.
#[derive(Drop)]
pub struct Standing<'a> {
    made: &'a MadeList,
    place: usize,
}

impl<'a> Model for Standing<'a> {
    ghost use Rattle.std.specs.Prelude.{List, drop};
    ghost use Rattle.mrp_book.specs.declared.booking.Booking.{Booking};
    ghost use Rattle.mrp_book.specs.Made.{standing_of};

    ghost Value = { List Booking };

    ghost view = { λ s. standing_of (drop s.place s.made.now) };
}

impl<'a> Standing<'a> {
    ghost use Rattle.std.specs.Prelude.{◌≡◌};
    ghost use Rattle.mrp_book.specs.Made.{standing_of};

    // The standing ones of bookings that were made.
    pub(crate) fn of(made: &'a MadeList) -> Standing<'a>
        ensures { result ≡ standing_of made.now }
    {
        Standing { made, place: 0 }
    }
}

impl<'a> Iterator for Standing<'a> {
    ghost use Rattle.std.specs.Iterator.{YieldsFirst, item_count};

    type Item = Booking;

    ghost next_gives = { YieldsFirst (λ s. s) };

    ghost remaining = { item_count (λ s. s) };

    fn next(&mut self) -> Option<Booking> {
        while self.place < self.made.len() {
            let made = self.made.at(self.place);
            self.place += 1;
            if made.stands {
                return Some(made.booking);
            }
        }
        None
    }
}
