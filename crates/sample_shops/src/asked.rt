//! Calls of the desks of a sample shop, and their replies.

ghost use Rattle.std.specs.Prelude.{IfOk};
ghost use Rattle.mrp_master.specs.Supply.{supply_of};
ghost use Rattle.mrp_book.specs.History.{Fits};

use mrp_bill::Shop;
use mrp_book::{Call, Line, Reply, Spot, Wish};
use mrp_qty::Qty;
use std::test::Fail;

/// A desk's call about the first item of a shop: weeks, pieces and the numbers of bookings.
#[derive(Clone, Copy)]
pub enum Asked {
    /// Book these pieces for this week.
    Book(u16, u64),
    /// Cancel this booking.
    Cancel(u64),
    /// How much is available to promise in this week?
    Ask(u16),
    /// In which week are these pieces available to promise?
    When(u64),
    /// Which bookings stand?
    Snapshot,
    /// What is the number of this call's entry?
    Front,
}

impl Asked {
    /// The call on the order book of a shop.
    pub fn call(self, shop: &Shop) -> Result<Call, Fail>
        ensures { IfOk result (Fits (supply_of shop.now.tables)) }
    {
        match self {
            Asked::Book(week, count) => Ok(Call::Book(Line::new(shop, 0, week, pieces(count)?)?)),
            Asked::Cancel(number) => Ok(Call::Cancel(number)),
            Asked::Ask(week) => Ok(Call::Ask(Spot::new(shop, 0, week)?)),
            Asked::When(count) => Ok(Call::When(Wish::new(shop, 0, pieces(count)?)?)),
            Asked::Snapshot => Ok(Call::Snapshot),
            Asked::Front => Ok(Call::Front),
        }
    }
}

/// A reply, as its word and its number, or 0. The number of a snapshot is its front.
pub type Said = (&'static str, u64);

/// A reply as its word and its number.
pub fn said(reply: &Reply) -> Said {
    match reply {
        Reply::Booked(number) => ("booked", *number),
        Reply::Short(available) => ("short", available.value()),
        Reply::Cancelled => ("cancelled", 0),
        Reply::NotStanding => ("not-standing", 0),
        Reply::NotYours => ("not-yours", 0),
        Reply::Available(available) => ("available", available.value()),
        Reply::Week(week) => ("week", u64::from(*week)),
        Reply::NoWeek => ("no-week", 0),
        Reply::Taken(snapshot) => ("taken", snapshot.front()),
        Reply::Front(number) => ("front", *number),
    }
}

/// A number of pieces as a quantity.
pub fn pieces(count: u64) -> Result<Qty, Fail> {
    Ok(Qty::new(count).ok_or("a quantity")?)
}
