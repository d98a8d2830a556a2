//! What follows from the definitions, each law the contract of a function that at most calls other laws.

ghost use Rattle.std.specs.Prelude.{◌≡◌, ◌++◌, ◌∷◌, ℕ, List, All, flat_map, map};
ghost use Rattle.std.specs.List.{enumerate_from};
ghost use Rattle.mrp_rows.specs.Records.{records_of};
ghost use Rattle.mrp_tables.specs.Tables.{Tables};
ghost use Rattle.mrp_book.specs.declared.booking.Booking.{Booking};
ghost use Rattle.mrp_book.specs.Standing.{History};
ghost use Rattle.mrp_script.specs.Opened.{IsAccepted};
ghost use Rattle.mrp_script.specs.Script.{AnswersScript};
ghost use Rattle.mrp_carry.specs.declared.form.CarryForm.{CarryForm};
ghost use Rattle.mrp_carry.specs.declared.form.CarryForm.TheVariants as form;
ghost use Rattle.mrp_carry.specs.Carried.{carried, renumbered};
ghost use Rattle.mrp_carry.specs.Rows.{AreRows, IsText, Row, columns_of};
ghost use Rattle.mrp_carry.specs.Standing.{AreStanding};
ghost use Rattle.mrp_carry.specs.Periods.{AreOfOneShop, BeginsAgain, HasScript, IsBooked, first_entries, numbered};

use mrp_rows::record_laws::{numbers_in_cells, records_are_csv};
use mrp_tables::laws::{accepted_tables_are_of_their_texts, accepted_tables_keep_their_limits};

/// The records of the table that is written.
pub fn records()
    // As csv reads it, it has the columns of its form, and then the rows one by one. Those of a script are records of the bookings that
    // are carried, in order: desk, item, the first day of the week, and quantity; those of a list are of all that stand.
    ensures { (table : CarryForm) (tables : Tables) (start : ℕ) (bookings : List Booking) (text : List ℕ) → IsText table tables start bookings text
        → (rows : List Row) × (records_of text ≡ columns_of table ∷ rows) × AreRows table tables start bookings rows }
{
    records_are_csv();
}

/// Any next period whose script begins with the records that are written.
pub fn next_periods()
    // Its first entries book the carried bookings again, one by one, each answered as those before it decide; where none is short,
    // they stand, with these numbers.
    ensures { (old new : Tables) (start : ℕ) (bookings : List Booking) (text more bundle : List ℕ) (h : History)
        → AreStanding old bookings → IsText form.Script old start bookings text
        → IsAccepted bundle new → HasScript bundle (text ++ more) → AnswersScript new h
        → BeginsAgain old new (carried start bookings) h }
{
    records_are_csv();
    numbers_in_cells();
    accepted_tables_are_of_their_texts();
}

/// The same period with the script that is written.
pub fn same_period()
    // None is short.
    ensures booked { (old new : Tables) (start : ℕ) (bookings : List Booking) (text bundle : List ℕ) (h : History)
        → AreStanding old bookings → IsText form.Script old start bookings text
        → IsAccepted bundle new → HasScript bundle text → AreOfOneShop old new → AnswersScript new h
        → All IsBooked (first_entries (carried start bookings) h) }
    // Carrying from the same start writes the same text.
    ensures again { (old new : Tables) (start : ℕ) (bookings again : List Booking) (text text_again bundle : List ℕ)
        → AreStanding old bookings → IsText form.Script old start bookings text
        → IsAccepted bundle new → HasScript bundle text → AreOfOneShop old new
        → AreStanding new again → IsText form.Script new start again text_again
        → text_again ≡ text }
{
    records_are_csv();
    numbers_in_cells();
    accepted_tables_are_of_their_texts();
    accepted_tables_keep_their_limits();
}

/// The numbers of the list.
pub fn numbers()
    // All bookings that stand are listed, in order.
    ensures all { (start : ℕ) (bookings : List Booking) → map (λ r. r.0) (renumbered start 1 bookings) ≡ bookings }
    // Those that get a number are those that are carried, and their numbers are 1, 2, 3 ..
    ensures carried { (start : ℕ) (bookings : List Booking) → flat_map numbered (renumbered start 1 bookings) ≡ enumerate_from 1 (carried start bookings) }
{}
