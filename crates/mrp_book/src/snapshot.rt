//! The standing bookings at an entry of the order book.

ghost use Rattle.std.specs.Prelude.{◌≡◌, ◌↔◌, ◌≤◌, IsTrue, sum_by};
ghost use Rattle.mrp_qty.specs.Quantity.{greatest_quantity};

use crate::booking::Booking;
use crate::made::MadeList;
use crate::standing::Standing;
use mrp_master::Line;
use mrp_phase::{PhaseFault, Weeks};
use mrp_qty::{NoMemory, Qty};
use std::alloc::Global;
use std::marker::Model;
use std::sync::Arc;

/// A snapshot at an entry of the book: the entry's number, the weeks of the horizon, and the standing
/// bookings.
#[derive(Drop)]
pub struct Snapshot {
    front: u64,
    weeks: u16,
    made: Arc<MadeList>,
}

impl Model for Snapshot {
    ghost use Rattle.mrp_book.specs.Bookings.{AreLittle};
    ghost use Rattle.mrp_book.specs.Made.{standing_of};
    ghost use Rattle.mrp_book.specs.Snapshot.{Snapshot};

    ghost Value = { Snapshot };

    ghost view = { λ s. record { front = s.front; weeks = s.weeks; standing = standing_of s.made.value } };

    ghost invariant = { λ s. AreLittle s.weeks (standing_of s.made.value) };
}

impl Snapshot {
    ghost use Rattle.std.specs.Prelude.{◌≡◌, ◌↔◌, ◌<◌, IfOk, IsErrOf, length, sum_by};
    ghost use Rattle.mrp_qty.specs.Quantity.{greatest_quantity};
    ghost use Rattle.mrp_phase.specs.Weeks.{row};
    ghost use Rattle.mrp_master.specs.AtpRow.{due_in};
    ghost use Rattle.mrp_book.specs.Bookings.{AreLittle, lines_of};
    ghost use Rattle.mrp_book.specs.Made.{standing_of};
    ghost use Rattle.mrp_book.specs.Snapshot.{Snapshot};

    /// The snapshot of an entry's number, the weeks of the horizon, and the standing bookings in order of
    /// their numbers.
    ///
    /// Errors: `TooLarge` exactly if all bookings together have more than 10^15 pieces, before anything is
    /// allocated, and `NoMemory` if an allocation fails.
    pub fn new(
        alloc: Global,
        front: u64,
        weeks: u16,
        standing: Vec<Booking>,
    ) -> Result<Snapshot, PhaseFault>
        ensures value { IfOk result (λ s. s ≡ record { front = front; weeks = weeks; standing = standing.items }) }
        ensures too_large { IsErrOf result PhaseFault.TooLarge ↔ greatest_quantity < sum_by (λ b. b.line.quantity) standing.items }
    {
        if !is_little(&standing) {
            return Err(PhaseFault::TooLarge);
        }
        Snapshot::of_standing(alloc, front, weeks, standing).map_err(|_| PhaseFault::NoMemory)
    }

    // The snapshot of standing bookings, if no week has too many pieces of an item.
    fn of_standing(
        alloc: Global,
        front: u64,
        weeks: u16,
        standing: Vec<Booking>,
    ) -> Result<Snapshot, NoMemory>
        requires { AreLittle weeks standing.items }
        ensures { IfOk result (λ s. s ≡ record { front = front; weeks = weeks; standing = standing.items }) }
    {
        let made = MadeList::of(alloc, standing)?;
        Snapshot::of(alloc, front, weeks, made)
    }

    // The snapshot of bookings that were made, if no week has too many pieces of an item.
    pub(crate) fn of(
        alloc: Global,
        front: u64,
        weeks: u16,
        made: MadeList,
    ) -> Result<Snapshot, NoMemory>
        requires { AreLittle weeks (standing_of made) }
        ensures { IfOk result (λ s. s ≡ record { front = front; weeks = weeks; standing = standing_of made }) }
    {
        Ok(Snapshot {
            front,
            weeks,
            made: Arc::new(alloc, made)?,
        })
    }

    /// The number of the entry.
    pub fn front(&self) -> u64
        ensures { result ≡ self.now.front }
    {
        self.front
    }

    /// The weeks of the horizon.
    pub fn weeks(&self) -> u16
        ensures { result ≡ self.now.weeks }
    {
        self.weeks
    }

    /// How many bookings stand.
    pub fn count(&self) -> usize
        ensures { result ≡ length self.now.standing }
    {
        self.made.count()
    }

    /// The standing bookings, in order of their numbers.
    pub fn standing(&self) -> Standing<'_>
        ensures { result ≡ self.now.standing }
    {
        Standing::of(&self.made)
    }

    /// The booked quantity of an item in each week of the horizon, in pieces.
    ///
    /// Errors: `NoMemory` if an allocation fails.
    pub fn demand(&self, alloc: Global, item: usize) -> Result<Weeks<Qty>, NoMemory>
        ensures { IfOk result (λ demand. demand ≡ row self.now.weeks (λ week. due_in item week (lines_of self.now.standing))) }
    {
        let weeks = self.weeks;
        let mut demand = Weeks::zero(alloc, weeks).map_err(|_| NoMemory)?;
        for booking in self.standing() {
            let line = &booking.line;
            if is_in(line, item, weeks) {
                demand.add_at(line.week(), line.quantity()).unwrap();
            }
        }
        Ok(demand)
    }

    /// An equal snapshot, which shares the bookings.
    ///
    /// Errors: `NoMemory` if the reference count cannot rise.
    pub fn copy(&self) -> Result<Snapshot, NoMemory>
        ensures { IfOk result (λ s. s ≡ self.now) }
    {
        Ok(Snapshot {
            front: self.front,
            weeks: self.weeks,
            made: self.made.clone()?,
        })
    }
}

// Whether a line is of an item, and within a horizon.
fn is_in(line: &Line, item: usize, weeks: u16) -> bool
    ensures { IsTrue result ↔ ((line.now.item ≡ item) × (1 ≤ line.now.week) × (line.now.week ≤ weeks)) }
{
    line.item() == item && 1 <= line.week() && line.week() <= weeks
}

// Whether the bookings together have at most 10^15 pieces.
fn is_little(bookings: &[Booking]) -> bool
    ensures { IsTrue result ↔ (sum_by (λ b. b.line.quantity) bookings.now ≤ greatest_quantity) }
{
    let mut pieces = Qty::new(0).unwrap();
    for booking in bookings {
        match pieces.add(booking.line.quantity()) {
            Some(sum) => pieces = sum,
            None => return false,
        }
    }
    true
}
