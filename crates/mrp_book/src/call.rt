//! Calls on the order book.

use mrp_master::{Line, Spot, Wish};

/// A desk's call on the order book.
#[derive(Clone, Copy, Debug, PartialEq, Eq)]
pub enum Call {
    /// Book a quantity of an item, due in a week.
    Book(Line),
    /// Cancel the booking of the entry with this number.
    Cancel(u64),
    /// Ask what is available to promise of an item in a week.
    Ask(Spot),
    /// Ask for the first week in which a quantity of an item is available to promise.
    When(Wish),
    /// Take a snapshot of the standing bookings.
    Snapshot,
    /// Ask for the number of the entry that this call makes.
    Front,
}
