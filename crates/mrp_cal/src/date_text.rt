//! Dates as texts.
ghost use Rattle.std.specs.Prelude.{◌≡◌, ◌<◌, IfSome, IsSome, ◌↔◌, pos};
ghost use Rattle.jiff.specs.Words.{IsDate, IsYmd};
ghost use Rattle.mrp_cal.specs.DateText as spec;
ghost use Rattle.mrp_cal.specs.DateText.{IsDateText, IsTextOf};

use jiff::civil::Date;

/// The first year of a plan (profile).
pub const FIRST_YEAR: u16 = 1900;

/// The last year of a plan (profile).
pub const LAST_YEAR: u16 = 2999;

/// The date that a text is: exactly `YYYY-MM-DD` (ISO 8601), a day that the calendar has, in the
/// years `FIRST_YEAR` to `LAST_YEAR`. `None` for every other text.
pub fn read_date(text: &[u8]) -> Option<Date>
    ensures value { result ≡ spec.date_of text.now }
    ensures accepted { IsSome result ↔ IsDateText text.now }
    ensures which { IfSome result (IsTextOf text.now) }
{
    date_of(text)
}

// The date written in ten bytes, with dashes in their places.
#[tactic(auto, unfolding(crate::specs::DateText::date_of))]
fn date_of(text: &[u8]) -> Option<Date>
    ensures { result ≡ spec.date_of text.now }
{
    let [y0, y1, y2, y3, b'-', m0, m1, b'-', d0, d1] = *text else {
        return None;
    };
    let century = two_digits(y0, y1)?;
    let year = two_digits(y2, y3)?;
    let month = two_digits(m0, m1)?;
    let day = two_digits(d0, d1)?;
    planning_date(u16::from(century) * 100 + u16::from(year), month, day)
}

// The number written in two bytes, if they are digits.
fn two_digits(tens: u8, ones: u8) -> Option<u8>
    ensures value { result ≡ spec.two_digits tens ones }
    ensures bound { IfSome result (λ n. n < 100) }
{
    if tens.is_ascii_digit() && ones.is_ascii_digit() {
        Some((tens - b'0') * 10 + (ones - b'0'))
    } else {
        None
    }
}

// The date of a plan's year, a month and a day, if the calendar has that day.
fn planning_date(year: u16, month: u8, day: u8) -> Option<Date>
    requires month { month < 100 }
    requires day { day < 100 }
    ensures { result ≡ spec.planning_date year month day }
{
    if year < FIRST_YEAR || year > LAST_YEAR {
        return None;
    }
    civil_date(year as i16, month as i8, day as i8)
}

// The date of a year, month and day, if the calendar has that day.
fn civil_date(year: i16, month: i8, day: i8) -> Option<Date>
    ensures some { IsSome result ↔ IsDate year month day }
    ensures value { IfSome result (IsYmd year month day) }
{
    Date::new(year, month, day).ok()
}
