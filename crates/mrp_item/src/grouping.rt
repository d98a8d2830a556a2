//! The rows of the tables and the bookings, grouped by their items.

ghost use Rattle.std.specs.Prelude.{◌≡◌, ◌<◌, ℕ, All, length, filter, map, IfOk};
ghost use Rattle.mrp_tables.specs.Master.{is_firm, is_forecast, is_service};
ghost use Rattle.mrp_bill.specs.Grouped.{listed};
ghost use Rattle.mrp_item.specs.Dues.{booking_dues, firm_dues, forecast_dues, receipt_dues, service_dues};
ghost use Rattle.mrp_item.specs.Numbered.{of_booking, of_master, of_receipt};

use crate::due::Due;
use mrp_bill::{Grouped, Numbered};
use mrp_book::{Booking, Standing};
use mrp_qty::NoMemory;
use mrp_tables::{MasterRow, Receipt};
use std::alloc::Global;

// The quantity due by a row of the master schedule, numbered by its item.
fn due_of_master(row: &MasterRow) -> Numbered<Due>
    ensures { result ≡ of_master row.now }
{
    Numbered {
        number: row.item,
        value: Due {
            number: u64::from(row.number),
            week: row.week,
            quantity: row.quantity,
        },
    }
}

// The quantity due by an open receipt, numbered by its item.
fn due_of_receipt(row: &Receipt) -> Numbered<Due>
    ensures { result ≡ of_receipt row.now }
{
    Numbered {
        number: row.item,
        value: Due {
            number: u64::from(row.number),
            week: row.week,
            quantity: row.quantity,
        },
    }
}

// The quantity due by a booking, numbered by its item.
fn due_of_booking(booking: Booking) -> Numbered<Due>
    ensures { result ≡ of_booking booking }
{
    let line = booking.line;
    Numbered {
        number: line.item(),
        value: Due {
            number: booking.number,
            week: line.week(),
            quantity: line.quantity(),
        },
    }
}

// The quantities due by the firm rows.
fn firm(alloc: Global, rows: &[MasterRow]) -> Result<Vec<Numbered<Due>>, NoMemory>
    ensures { IfOk result (λ dues. dues.items ≡ map of_master (filter (λ r. is_firm r.kind) rows.now)) }
{
    let dues = rows
        .iter()
        .filter(|row| row.kind.is_firm())
        .map(|row| due_of_master(row))
        .collect(alloc)?;
    Ok(dues)
}

// The quantities due by the forecasts.
fn forecasts(alloc: Global, rows: &[MasterRow]) -> Result<Vec<Numbered<Due>>, NoMemory>
    ensures { IfOk result (λ dues. dues.items ≡ map of_master (filter (λ r. is_forecast r.kind) rows.now)) }
{
    let dues = rows
        .iter()
        .filter(|row| row.kind.is_forecast())
        .map(|row| due_of_master(row))
        .collect(alloc)?;
    Ok(dues)
}

// The quantities due by the service rows.
fn services(alloc: Global, rows: &[MasterRow]) -> Result<Vec<Numbered<Due>>, NoMemory>
    ensures { IfOk result (λ dues. dues.items ≡ map of_master (filter (λ r. is_service r.kind) rows.now)) }
{
    let dues = rows
        .iter()
        .filter(|row| row.kind.is_service())
        .map(|row| due_of_master(row))
        .collect(alloc)?;
    Ok(dues)
}

// The quantities due by the open receipts.
fn receipts(alloc: Global, rows: &[Receipt]) -> Result<Vec<Numbered<Due>>, NoMemory>
    ensures { IfOk result (λ dues. dues.items ≡ map of_receipt rows.now) }
{
    let dues = rows.iter().map(|row| due_of_receipt(row)).collect(alloc)?;
    Ok(dues)
}

// The quantities due by the bookings.
fn bookings(alloc: Global, standing: Standing<'_>) -> Result<Vec<Numbered<Due>>, NoMemory>
    ensures { IfOk result (λ dues. dues.items ≡ map of_booking standing.entry) }
{
    let dues = standing.map(due_of_booking).collect(alloc)?;
    Ok(dues)
}

// The firm rows of each item.
pub fn firm_by_item(
    alloc: Global,
    count: usize,
    rows: &[MasterRow],
) -> Result<Grouped<Due>, NoMemory>
    requires { All (λ r. r.item < count) rows.now }
    ensures size { IfOk result (λ d. length d ≡ count) }
    ensures lists { IfOk result (λ d. (i : ℕ) → i < count → listed d i ≡ firm_dues rows.now i) }
{
    let dues = firm(alloc, rows)?;
    Grouped::of(alloc, count, &dues)
}

// The forecasts of each item.
pub fn forecasts_by_item(
    alloc: Global,
    count: usize,
    rows: &[MasterRow],
) -> Result<Grouped<Due>, NoMemory>
    requires { All (λ r. r.item < count) rows.now }
    ensures size { IfOk result (λ d. length d ≡ count) }
    ensures lists { IfOk result (λ d. (i : ℕ) → i < count → listed d i ≡ forecast_dues rows.now i) }
{
    let dues = forecasts(alloc, rows)?;
    Grouped::of(alloc, count, &dues)
}

// The service rows of each item.
pub fn services_by_item(
    alloc: Global,
    count: usize,
    rows: &[MasterRow],
) -> Result<Grouped<Due>, NoMemory>
    requires { All (λ r. r.item < count) rows.now }
    ensures size { IfOk result (λ d. length d ≡ count) }
    ensures lists { IfOk result (λ d. (i : ℕ) → i < count → listed d i ≡ service_dues rows.now i) }
{
    let dues = services(alloc, rows)?;
    Grouped::of(alloc, count, &dues)
}

// The open receipts of each item.
pub fn receipts_by_item(
    alloc: Global,
    count: usize,
    rows: &[Receipt],
) -> Result<Grouped<Due>, NoMemory>
    requires { All (λ r. r.item < count) rows.now }
    ensures size { IfOk result (λ d. length d ≡ count) }
    ensures lists { IfOk result (λ d. (i : ℕ) → i < count → listed d i ≡ receipt_dues rows.now i) }
{
    let dues = receipts(alloc, rows)?;
    Grouped::of(alloc, count, &dues)
}

// The bookings of each item.
pub fn bookings_by_item(
    alloc: Global,
    count: usize,
    standing: Standing<'_>,
) -> Result<Grouped<Due>, NoMemory>
    requires { All (λ b. b.line.item < count) standing }
    ensures size { IfOk result (λ d. length d ≡ count) }
    ensures lists { IfOk result (λ d. (i : ℕ) → i < count → listed d i ≡ booking_dues standing.entry i) }
{
    let dues = bookings(alloc, standing)?;
    Grouped::of(alloc, count, &dues)
}
