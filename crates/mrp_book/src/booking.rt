//! Bookings.

use mrp_master::Line;

/// A booking: the number of its entry, the desk that made it, and what is booked.
#[derive(Clone, Copy, Debug, PartialEq, Eq)]
pub struct Booking {
    /// The number of the entry that made it.
    pub number: u64,
    /// The desk that made it.
    pub desk: u64,
    /// What is booked.
    pub line: Line,
}
