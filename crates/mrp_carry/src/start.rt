//! The start of the next period.

ghost use Rattle.std.specs.Prelude.{◌≡◌, IfSome};
ghost use Rattle.std.specs.Int.{IsInRange};
ghost use Rattle.mrp_carry.specs.Carries.{IsNoStart};
ghost use Rattle.mrp_carry.specs.Carried as spec;

use crate::fault::CarryFault;
use jiff::civil::Weekday;
use mrp_cal::{Calendar, read_date};

/// The week of a horizon that begins on the day with this text. `None` if the text is no date, the day
/// no Monday, or outside the horizon.
pub(crate) fn start_week(calendar: &Calendar, text: &[u8]) -> Option<u16>
    ensures week { result ≡ spec.start_week calendar.now text.now }
    ensures within { IfSome result (IsInRange 1 calendar.now.weeks) }
{
    let day = read_date(text)?;
    if day.weekday() == Weekday::Monday {
        calendar.week_of(day)
    } else {
        None
    }
}

/// The refusal of a text that is no start, with the first and the last Monday of the horizon.
pub(crate) fn no_such_start(calendar: &Calendar) -> CarryFault
    ensures { IsNoStart calendar.now result }
{
    let weeks = calendar.weeks();
    CarryFault::NoSuchStart {
        first: calendar.first_day(1),
        last: calendar.first_day(weeks),
    }
}
