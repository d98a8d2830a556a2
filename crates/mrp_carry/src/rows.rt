//! Rows of bookings as csv.

ghost use Rattle.std.specs.Prelude.{◌≡◌, ◌++◌, ◌∷◌, [], IfOk, OnOk, string_bytes};
ghost use Rattle.std.specs.Int.{IsInRange};
ghost use Rattle.std.specs.Io.KnownBytes.{Appends};
ghost use Rattle.jiff.specs.Types.{Date};
ghost use Rattle.jiff.specs.Words.{date_text};
ghost use Rattle.csv.specs.Records.{fields_of, partial_of};
ghost use Rattle.csv.specs.Writing.{text_written};
ghost use Rattle.mrp_master.specs.Lines.{IsLine};
ghost use Rattle.mrp_master.specs.Supply.{supply_of};
ghost use Rattle.mrp_report.specs.page.Rows.{row};
ghost use Rattle.mrp_report.specs.section.Cells.{name_at, number_cell};
ghost use Rattle.mrp_carry.specs.Rows.{IsBetweenRows, IsFirstDay, IsRecordOf, IsRowOf, line_cells};

use csv::{ByteRecord, Writer};
use itoa::Buffer;
use mrp_bill::Shop;
use mrp_book::{Booking, Line};
use mrp_cal::Calendar;
use mrp_qty::NoMemory;
use mrp_rows::Name;
use std::alloc::Global;
use std::io::Write;

// The text of the day on which a week begins.
fn day_text(alloc: Global, calendar: &Calendar, week: u16) -> Result<String, NoMemory>
    requires { IsInRange 1 calendar.now.weeks week }
    ensures { IfOk result (λ text. (day : Date) × IsFirstDay calendar.now week day × (string_bytes text ≡ date_text day)) }
{
    Ok(calendar.first_day(week).to_string(alloc)?)
}

// Adds a cell to a row.
fn push_cell(cell: &[u8], cells: &mut ByteRecord) -> Result<(), NoMemory>
    requires { partial_of cells.old ≡ [] }
    ensures cells { OnOk result (fields_of cells.new ≡ fields_of cells.old ++ cell.now ∷ []) }
    ensures whole { OnOk result (partial_of cells.new ≡ []) }
{
    Ok(cells.push_field(cell)?)
}

// Adds a number to a row, or an empty cell.
fn push_number(number: Option<u64>, cells: &mut ByteRecord) -> Result<(), NoMemory>
    requires { partial_of cells.old ≡ [] }
    ensures cells { OnOk result (fields_of cells.new ≡ fields_of cells.old ++ number_cell number ∷ []) }
    ensures whole { OnOk result (partial_of cells.new ≡ []) }
{
    let mut digits = Buffer::new();
    match number {
        Some(number) => push_cell(digits.format(number).as_bytes(), cells),
        None => push_cell(b"", cells),
    }
}

// The name of a line's item.
fn item_name(shop: &Shop, line: &Line) -> Name
    requires { IsLine (supply_of shop.now.tables) line.now }
    ensures { result ≡ name_at shop.now.tables line.now.item }
{
    shop.tables().items()[line.item()].name
}

// Adds a line to a row: its item, the first day of its week, and its quantity.
fn push_line(
    alloc: Global,
    shop: &Shop,
    line: &Line,
    cells: &mut ByteRecord,
) -> Result<(), NoMemory>
    requires line { IsLine (supply_of shop.now.tables) line.now }
    requires whole { partial_of cells.old ≡ [] }
    ensures cells { OnOk result ((day : Date) × IsFirstDay shop.now.tables.calendar line.now.week day × (fields_of cells.new ≡ fields_of cells.old ++ line_cells shop.now.tables line.now day)) }
    ensures whole { OnOk result (partial_of cells.new ≡ []) }
{
    let day = day_text(alloc, shop.tables().calendar(), line.week())?;
    push_cell(item_name(shop, line).as_bytes(), cells)?;
    push_cell(day.as_bytes(), cells)?;
    push_number(Some(line.quantity().value()), cells)
}

/// Makes a booking's record of a script that books it again.
pub(crate) fn make_record(
    alloc: Global,
    shop: &Shop,
    booking: &Booking,
    cells: &mut ByteRecord,
) -> Result<(), NoMemory>
    requires { IsLine (supply_of shop.now.tables) booking.now.line }
    ensures { OnOk result (IsRecordOf shop.now.tables booking.now (fields_of cells.new)) }
{
    cells.clear();
    push_number(Some(booking.desk), cells)?;
    push_cell(b"book", cells)?;
    push_line(alloc, shop, &booking.line, cells)?;
    push_number(None, cells)
}

/// Makes a booking's row of the list, with the number that it gets, if any.
pub(crate) fn make_row(
    alloc: Global,
    shop: &Shop,
    booking: &Booking,
    new: Option<u64>,
    cells: &mut ByteRecord,
) -> Result<(), NoMemory>
    requires { IsLine (supply_of shop.now.tables) booking.now.line }
    ensures { OnOk result (IsRowOf shop.now.tables (booking.now, new) (fields_of cells.new)) }
{
    cells.clear();
    push_number(Some(booking.number), cells)?;
    push_number(new, cells)?;
    push_number(Some(booking.desk), cells)?;
    push_line(alloc, shop, &booking.line, cells)
}

/// Writes a row behind others.
pub(crate) fn write_row<W: Write + Drop>(
    rows: &mut Writer<W>,
    cells: &ByteRecord,
) -> Result<(), NoMemory>
    requires { IsBetweenRows rows.old }
    ensures between { OnOk result (IsBetweenRows rows.new) }
    ensures text { OnOk result (Appends (text_written W.contents rows.old) (text_written W.contents rows.new) (row (fields_of cells.now))) }
{
    match rows.write_byte_record(cells) {
        Ok(()) => Ok(()),
        Err(_) => Err(NoMemory),
    }
}
