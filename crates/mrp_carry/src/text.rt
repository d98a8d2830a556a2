//! The texts of the bookings that stand.

ghost use Rattle.std.specs.Prelude.{◌≡◌, ◌<◌, ◌^◌, All, IfOk, IsTrue, OnOk, length, count_by, nat_lt};
ghost use Rattle.std.specs.List.{AllZip};
ghost use Rattle.mrp_master.specs.Lines.{IsLine};
ghost use Rattle.mrp_master.specs.Supply.{supply_of};
ghost use Rattle.mrp_carry.specs.Carried.{carried, is_due_from, left_behind, renumbered};
ghost use Rattle.mrp_carry.specs.Rows.{AreRows, IsBetweenRows, IsRecordOf, IsRowOf, IsText, Writes};

use crate::form::CarryForm;
use crate::rows::{make_record, make_row, write_row};
use csv::{ByteRecord, Writer, WriterBuilder};
use mrp_bill::Shop;
use mrp_book::Booking;
use mrp_qty::NoMemory;
use std::alloc::Global;
use std::io::Write;

// Whether a booking is due in a week or later.
fn is_due_from(start: u16, booking: &Booking) -> bool
    ensures { result ≡ is_due_from start booking.now }
{
    start <= booking.line.week()
}

// Writes the records of those bookings that are due from a week on.
fn write_records<W: Write + Drop>(
    alloc: Global,
    shop: &Shop,
    start: u16,
    bookings: &[Booking],
    rows: &mut Writer<W>,
) -> Result<(), NoMemory>
    requires lines { All (λ b. IsLine (supply_of shop.now.tables) b.line) bookings.now }
    requires between { IsBetweenRows rows.old }
    ensures { OnOk result (Writes W.contents rows.old rows.new (AllZip (IsRecordOf shop.now.tables) (carried start bookings.now))) }
{
    let mut cells = ByteRecord::new(alloc);
    for booking in bookings {
        if is_due_from(start, booking) {
            make_record(alloc, shop, booking, &mut cells)?;
            write_row(rows, &cells)?;
        }
    }
    Ok(())
}

// Writes the rows of all bookings. Those that are due from a week on get new numbers, from 1.
fn write_list<W: Write + Drop>(
    alloc: Global,
    shop: &Shop,
    start: u16,
    bookings: &[Booking],
    rows: &mut Writer<W>,
) -> Result<(), NoMemory>
    requires lines { All (λ b. IsLine (supply_of shop.now.tables) b.line) bookings.now }
    requires between { IsBetweenRows rows.old }
    ensures { OnOk result (Writes W.contents rows.old rows.new (AllZip (IsRowOf shop.now.tables) (renumbered start 1 bookings.now))) }
{
    let mut cells = ByteRecord::new(alloc);
    let mut given = 0;
    for booking in bookings {
        let new = if is_due_from(start, booking) {
            given += 1;
            Some(given)
        } else {
            None
        };
        make_row(alloc, shop, booking, new, &mut cells)?;
        write_row(rows, &cells)?;
    }
    Ok(())
}

// Writes the rows of a form.
fn write_rows<W: Write + Drop>(
    alloc: Global,
    shop: &Shop,
    form: CarryForm,
    start: u16,
    bookings: &[Booking],
    rows: &mut Writer<W>,
) -> Result<(), NoMemory>
    requires lines { All (λ b. IsLine (supply_of shop.now.tables) b.line) bookings.now }
    requires between { IsBetweenRows rows.old }
    ensures { OnOk result (Writes W.contents rows.old rows.new (AreRows form shop.now.tables start bookings.now)) }
{
    match form {
        CarryForm::Script => write_records(alloc, shop, start, bookings, rows),
        CarryForm::Numbers => write_list(alloc, shop, start, bookings, rows),
    }
}

/// The text of the bookings that stand, of which those are carried that are due from a week on.
///
/// Errors: `NoMemory` if an allocation fails.
pub(crate) fn text_of(
    alloc: Global,
    shop: &Shop,
    form: CarryForm,
    start: u16,
    bookings: &[Booking],
) -> Result<Vec<u8>, NoMemory>
    requires { All (λ b. IsLine (supply_of shop.now.tables) b.line) bookings.now }
    ensures { IfOk result (λ text. IsText form shop.now.tables start bookings.now text.items) }
{
    let mut text = Vec::new(alloc);
    text.extend_from_slice(form.head().as_bytes())?;
    let mut rows = WriterBuilder::new().from_writer(text);
    write_rows(alloc, shop, form, start, bookings, &mut rows)?;
    match rows.into_inner() {
        Ok(text) => Ok(text),
        Err(_) => Err(NoMemory),
    }
}

/// How many bookings are due before a week.
pub(crate) fn left_behind(start: u16, bookings: &[Booking]) -> usize
    ensures { result ≡ left_behind start bookings.now }
{
    bookings
        .iter()
        .filter(|booking| !is_due_from(start, booking))
        .count()
}
