//! What follows from the definitions alone, each law the contract of a function that does nothing.

ghost use Rattle.std.specs.Prelude.{ℕ};
ghost use Rattle.mrp_master.specs.Supply.{IsAvailable, IsMaster, IsWeek, supply_of};
ghost use Rattle.mrp_book.specs.Booked.{AreBooked};
ghost use Rattle.mrp_book.specs.Bookings.{lines_of};
ghost use Rattle.mrp_item.specs.Inputs.{Inputs};
ghost use Rattle.mrp_report.specs.section.PromiseRows.{available};

/// What the column `available` of the section `promises` says.
pub fn promising()
    // It is what is available to promise besides the standing bookings.
    ensures { (s : Inputs) (i week : ℕ) → IsMaster (supply_of s.tables) i → IsWeek (supply_of s.tables) week → AreBooked (supply_of s.tables) s.standing → IsAvailable (supply_of s.tables) (lines_of s.standing) i week (available s i week) }
{}
