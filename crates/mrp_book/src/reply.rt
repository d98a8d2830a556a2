//! Replies of the order book.

use crate::snapshot::Snapshot;
use mrp_qty::{NoMemory, Qty};

/// What the order book replied.
#[derive(Drop)]
pub enum Reply {
    /// Booked, under the number of this entry.
    Booked(u64),
    /// Not booked: only this quantity is available to promise.
    Short(Qty),
    /// The booking was cancelled.
    Cancelled,
    /// No standing booking has the number.
    NotStanding,
    /// Another desk made the booking.
    NotYours,
    /// This quantity is available to promise.
    Available(Qty),
    /// The first week in which the quantity is available to promise.
    Week(u16),
    /// The quantity is not available to promise in any week.
    NoWeek,
    /// The standing bookings, with the number of this entry.
    Taken(Snapshot),
    /// The number of this entry.
    Front(u64),
}

impl Reply {
    ghost use Rattle.std.specs.Prelude.{◌≡◌, IfOk, OnErr};
    ghost use Rattle.mrp_book.specs.History.{HasSnapshot};

    /// An equal reply.
    ///
    /// Errors: `NoMemory` if the reference count of a snapshot cannot rise. Any other reply is copied
    /// without error.
    pub fn copy(&self) -> Result<Reply, NoMemory>
        ensures copy { IfOk result (λ r. r ≡ self.now) }
        ensures memory { OnErr result (HasSnapshot self.now) }
    {
        match self {
            Reply::Booked(number) => Ok(Reply::Booked(*number)),
            Reply::Short(available) => Ok(Reply::Short(*available)),
            Reply::Cancelled => Ok(Reply::Cancelled),
            Reply::NotStanding => Ok(Reply::NotStanding),
            Reply::NotYours => Ok(Reply::NotYours),
            Reply::Available(available) => Ok(Reply::Available(*available)),
            Reply::Week(week) => Ok(Reply::Week(*week)),
            Reply::NoWeek => Ok(Reply::NoWeek),
            Reply::Taken(snapshot) => Ok(Reply::Taken(snapshot.copy()?)),
            Reply::Front(number) => Ok(Reply::Front(*number)),
        }
    }
}
