//! The bookings that stand at the end of a script.

ghost use Rattle.std.specs.Prelude.{◌≡◌, ◌<◌, All, IfOk, length};
ghost use Rattle.mrp_tables.specs.declared.limits.TheConstants.{MOST_ENTRIES};
ghost use Rattle.mrp_master.specs.Lines.{IsLine};
ghost use Rattle.mrp_master.specs.Supply.{supply_of};
ghost use Rattle.mrp_book.specs.History.{asked};
ghost use Rattle.mrp_book.specs.Standing.{standing};
ghost use Rattle.mrp_script.specs.Script.{script_of};
ghost use Rattle.mrp_carry.specs.Standing.{AreStanding};

use mrp_bill::Shop;
use mrp_book::{Book, Booking, Call, Refused, Reply, Snapshot};
use mrp_qty::NoMemory;
use mrp_script::answer_records;
use std::alloc::Global;

// The desk of the call for the bookings that stand, which is no record of the script.
const DESK: u64 = 1;

// The bookings that stand in a book that is not full.
fn snapshot_of(alloc: Global, book: &mut Book) -> Result<Snapshot, NoMemory>
    requires { length book.old.entries < MOST_ENTRIES }
    ensures { IfOk result (λ snapshot. snapshot.standing ≡ standing book.old.entries) }
{
    match book.call(alloc, DESK, Call::Snapshot) {
        Ok((_, Reply::Taken(snapshot))) => Ok(snapshot),
        Ok(_) | Err(Refused::Full) => unreachable!(),
        Err(Refused::NoMemory) => Err(NoMemory),
    }
}

// The bookings of a snapshot, in order of their numbers.
fn bookings_of(alloc: Global, snapshot: &Snapshot) -> Result<Vec<Booking>, NoMemory>
    ensures { IfOk result (λ bookings. bookings.items ≡ snapshot.now.standing) }
{
    let mut bookings = Vec::with_capacity(alloc, snapshot.count())?;
    for booking in snapshot.standing() {
        bookings.push(booking)?;
    }
    Ok(bookings)
}

/// The bookings that stand once the records of a shop's script are answered in row order, in order of
/// their numbers.
///
/// Errors: `NoMemory` if an allocation fails.
pub(crate) fn standing_in(alloc: Global, shop: &Shop) -> Result<Vec<Booking>, NoMemory>
    ensures standing { IfOk result (λ bookings. AreStanding shop.now.tables bookings.items) }
    ensures lines { IfOk result (λ bookings. All (λ b. IsLine (supply_of shop.now.tables) b.line) bookings.items) }
{
    let mut book = answer_records(alloc, shop)?;
    let _legal = book.entries();
    let snapshot = snapshot_of(alloc, &mut book)?;
    bookings_of(alloc, &snapshot)
}
