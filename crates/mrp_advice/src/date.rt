//! Days beside others.

ghost use Rattle.std.specs.Prelude.{◌≡◌, ◌++◌, OnOk, string_bytes};
ghost use Rattle.jiff.specs.Words.{date_text};
ghost use Rattle.mrp_cal.specs.DateText.{IsPlanningYear, date_of};
ghost use Rattle.mrp_advice.specs.Dates as spec;

use jiff::ToSpan;
use jiff::civil::Date;
use mrp_cal::{Calendar, read_date};
use std::alloc::{AllocError, Global};

// Adds a date.
pub(crate) fn push_date(alloc: Global, date: Date, text: &mut String) -> Result<(), AllocError>
    ensures { OnOk result (string_bytes text.new ≡ string_bytes text.old ++ date_text date) }
{
    let date = date.to_string(alloc)?;
    text.push_str(&date)
}

// The Monday of a date's week.
pub(crate) fn monday_before(date: Date) -> Date
    requires { IsPlanningYear date.year }
    ensures { result ≡ spec.monday_before date }
{
    date + (-i64::from(date.weekday().to_monday_zero_offset())).days()
}

// The day after a date; the calendar's last day has none, and stays.
fn day_after(date: Date) -> Date
    ensures { result ≡ spec.day_after date }
{
    match date.tomorrow() {
        Ok(next) => next,
        Err(_) => date,
    }
}

// The Sunday behind a Monday.
fn six_days_after(monday: Date) -> Date
    ensures { result ≡ spec.days_after 6 monday }
{
    let mut day = monday;
    for weekday in 0..6_usize {
        day = day_after(day);
    }
    day
}

// The first and the last day of a calendar's horizon.
pub(crate) fn ends_of(calendar: &Calendar) -> (Date, Date)
    ensures { result ≡ (calendar.now.start, spec.last_day calendar.now) }
{
    let weeks = calendar.weeks();
    let first = calendar.first_day(1);
    let last_monday = calendar.first_day(weeks);
    (first, six_days_after(last_monday))
}

// Whether a date comes before a day.
fn comes_before(date: Date, first: Date) -> bool
    ensures { result ≡ spec.comes_before date first }
{
    first.to_plain().until(date.to_plain()) < 0
}

// Whether a cell's date comes before a calendar's horizon.
pub(crate) fn is_before(calendar: &Calendar, cell: &[u8]) -> bool
    ensures { result ≡ spec.is_before calendar.now (date_of cell.now) }
{
    match read_date(cell) {
        Some(date) => {
            let (first, _) = ends_of(calendar);
            comes_before(date, first)
        }
        None => false,
    }
}
