//! What the calendar's records say, where they are right.

ghost use Rattle.std.specs.Prelude.{◌≡◌, IfSome, option_map};
ghost use Rattle.mrp_cal.specs.DateText.{IsPlanningYear};
ghost use Rattle.mrp_tables.specs.Versions as versions;
ghost use Rattle.mrp_survey.specs.Horizons.{calendar_in, cell_with_key, has_version, start_in, start_number, version_in, weeks_in};

use crate::form::{Form, cell_in, kind_of};
use crate::kind::{read_monday, read_within, wrong};
use jiff::civil::Date;
use mrp_cal::{Calendar, MOST_WEEKS};
use mrp_rows::Record;
use mrp_tables::{MOST_VERSION, Version};

// Whether a calendar's first record has the key of a version.
pub(crate) fn has_version(rows: &[Record]) -> bool
    ensures { result ≡ has_version rows.now }
{
    match rows.first() {
        Some(row) => cell_in(row, 0) == b"version".as_slice(),
        None => false,
    }
}

// The start's record: the first, or the one behind a version.
fn start_number(form: Form) -> usize
    ensures { result ≡ start_number form }
{
    if form.has_version { 2 } else { 1 }
}

// The value's cell of a record with the right key.
fn cell_with_key(form: Form, rows: &[Record], number: usize) -> Option<&[u8]>
    ensures { option_map (λ cell. cell.now) result ≡ cell_with_key form rows.now number }
{
    let row = rows.get(number.saturating_sub(1))?;
    if row.count() == 2 && wrong(kind_of(form, number, row, 0), cell_in(row, 0)).is_none() {
        Some(cell_in(row, 1))
    } else {
        None
    }
}

// The start of the horizon, a Monday.
fn start_in(form: Form, rows: &[Record]) -> Option<Date>
    ensures start { result ≡ start_in form rows.now }
    ensures year { IfSome result (λ start. IsPlanningYear start.year) }
{
    let cell = cell_with_key(form, rows, start_number(form))?;
    read_monday(cell).ok()
}

// The weeks of the horizon.
fn weeks_in(form: Form, rows: &[Record]) -> Option<u64>
    ensures { result ≡ weeks_in form rows.now }
{
    let cell = cell_with_key(form, rows, start_number(form) + 1)?;
    read_within(cell, 1, MOST_WEEKS).ok()
}

// The calendar of the start and the weeks, each day of it a workday, if both are right.
pub(crate) fn calendar_in(form: Form, rows: &[Record]) -> Option<Calendar>
    ensures { result ≡ calendar_in form rows.now }
{
    let start = start_in(form, rows)?;
    let weeks = weeks_in(form, rows)?;
    Calendar::new(start, weeks, [true; 7], &[]).ok()
}

fn version_of(number: u64) -> Version
    ensures { result ≡ versions.version_of number }
{
    match number {
        1 => Version::One,
        2 => Version::Two,
        _ => Version::Three,
    }
}

// The version; none if it is wrong.
pub(crate) fn version_in(form: Form, rows: &[Record]) -> Option<Version>
    ensures { result ≡ version_in form rows.now }
{
    if !form.has_version {
        return Some(Version::One);
    }
    let cell = cell_with_key(form, rows, 1)?;
    match read_within(cell, 1, MOST_VERSION) {
        Ok(number) => Some(version_of(number)),
        Err(_) => None,
    }
}
