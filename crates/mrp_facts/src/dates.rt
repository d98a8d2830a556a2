//! The dates of weeks, as they are read.

ghost use Rattle.std.specs.Prelude.{◌≡◌, IfOk, map, string_bytes};
ghost use Rattle.std.specs.Int.{IsInRange};
ghost use Rattle.mrp_facts.specs.Dates.{AreDates, IsDateOf, date_text, has_years, month_name};

use jiff::civil::Date;
use mrp_cal::Calendar;
use mrp_qty::NoMemory;
use std::alloc::Global;

// The most weeks whose dates need no years.
const MOST_WEEKS_OF_A_YEAR: u16 = 52;

// The short name of a month.
fn month_name(month: u8) -> &'static str
    requires { IsInRange 1 12 month }
    ensures { result.now ≡ month_name month }
{
    match month {
        1 => "Jan",
        2 => "Feb",
        3 => "Mar",
        4 => "Apr",
        5 => "May",
        6 => "Jun",
        7 => "Jul",
        8 => "Aug",
        9 => "Sep",
        10 => "Oct",
        11 => "Nov",
        _ => "Dec",
    }
}

// A date as the day of its month, with the last two digits of its year or without.
fn date_text(alloc: Global, date: Date, with_year: bool) -> Result<String, NoMemory>
    ensures { IfOk result (λ text. string_bytes text ≡ date_text with_year date) }
{
    let day = date.day().unsigned_abs();
    let month = month_name(date.month().unsigned_abs());
    if !with_year {
        return Ok(format!(in alloc; "{day} {month}")?);
    }
    let year = date.year().unsigned_abs();
    let tens = year / 10 % 10;
    let ones = year % 10;
    Ok(format!(in alloc; "{day} {month} {tens}{ones}")?)
}

// Whether the dates of a calendar's weeks have their years.
fn has_years(calendar: &Calendar) -> bool
    ensures { result ≡ has_years calendar.now }
{
    calendar.weeks() > MOST_WEEKS_OF_A_YEAR
}

// The date of a week.
fn date_of(alloc: Global, calendar: &Calendar, week: u16) -> Result<String, NoMemory>
    requires { IsInRange 1 calendar.now.weeks week }
    ensures { IfOk result (λ text. IsDateOf calendar.now week (string_bytes text)) }
{
    date_text(alloc, calendar.first_day(week), has_years(calendar))
}

// The date of each week.
pub(crate) fn dates(alloc: Global, calendar: &Calendar) -> Result<Vec<String>, NoMemory>
    ensures { IfOk result (λ dates. AreDates calendar.now (map string_bytes dates.items)) }
{
    let mut dates = Vec::with_capacity(alloc, usize::from(calendar.weeks()))?;
    for week in 0..calendar.weeks() {
        let date = date_of(alloc, calendar, week + 1)?;
        dates.push(date)?;
    }
    Ok(dates)
}
