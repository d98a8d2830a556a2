//! The shop calendar.
ghost use Rattle.std.specs.Prelude.{◌≡◌, take};
ghost use Rattle.mrp_cal.specs.Releases.{first_days};

use crate::CalFault;
use crate::horizon::Horizon;
use jiff::civil::Date;
use std::marker::Model;

/// The most weeks that a horizon has.
pub const MOST_WEEKS: u64 = 104;

/// The longest lead time in shop days: the days of the longest horizon.
pub const MOST_LEAD_DAYS: u16 = 728;

/// A shop calendar: a horizon of 1 to 104 weeks of seven days each, counted from 1, from a start
/// that is a Monday, with the weekdays that are worked and the holidays.
#[derive(Debug, Drop)]
pub struct Calendar {
    horizon: Horizon,
    // The number of each week's first shop day.
    first_shop_days: [u16; MOST_WEEKS as usize],
}

impl Model for Calendar {
    ghost use Rattle.std.specs.Prelude.{◌≡◌, take};
    ghost use Rattle.mrp_cal.specs.Calendar.{ShopCalendar, IsShopCalendar};
    ghost use Rattle.mrp_cal.specs.Releases.{first_days};

    ghost Value = { ShopCalendar };

    ghost view = { λ c. c.horizon };

    ghost invariant = { λ c. record {
      calendar : IsShopCalendar c.horizon;
      numbered : take c.horizon.weeks c.first_shop_days ≡ first_days c.horizon c.horizon.weeks;
    } };
}

impl Calendar {
    ghost use Rattle.std.specs.Prelude.{◌≡◌, ◌≤◌, IfSome, Some};
    ghost use Rattle.std.specs.Int.{IsInRange};
    ghost use Rattle.jiff.specs.Words.{epoch_day};
    ghost use Rattle.mrp_cal.specs.Calendar as spec;
    ghost use Rattle.mrp_cal.specs.DateText.{IsPlanningYear};
    ghost use Rattle.mrp_cal.specs.Releases.{release_of, week_of_shop_day};
    ghost use Rattle.mrp_cal.specs.ShopDays.{first_day_of, shop_days_in};

    /// The calendar of a start in the years `FIRST_YEAR` to `LAST_YEAR`, a horizon in weeks, the weekdays that
    /// are worked, from Monday, and the holidays. A holiday outside the horizon has no effect, and
    /// one that is listed twice counts once.
    ///
    /// What is wrong is looked for in this order: a start that is not a Monday, weeks that are not
    /// 1 to 104, no weekday that is worked.
    pub fn new(
        start: Date,
        weeks: u64,
        workdays: [bool; 7],
        holidays: &[Date],
    ) -> Result<Calendar, CalFault>
        requires { IsPlanningYear start.year }
        ensures { result ≡ spec.calendar_of start weeks workdays holidays.now }
    {
        let horizon = Horizon::new(start, weeks, workdays, holidays)?;
        Ok(Calendar::of(horizon))
    }

    // The calendar of a horizon.
    fn of(horizon: Horizon) -> Calendar
        ensures { result ≡ horizon }
    {
        let first_shop_days = first_shop_days(&horizon);
        Calendar {
            horizon,
            first_shop_days,
        }
    }

    /// The weeks of the horizon, 1 to 104.
    pub fn weeks(&self) -> u16
        ensures value { result ≡ self.now.weeks }
        ensures bound { IsInRange 1 MOST_WEEKS result }
    {
        self.horizon.weeks()
    }

    /// The week of the horizon, counted from 1, that a date falls in. `None` outside the horizon.
    pub fn week_of(&self, date: Date) -> Option<u16>
        ensures week { result ≡ spec.week_of self.now date }
        ensures within { IfSome result (IsInRange 1 self.now.weeks) }
    {
        self.horizon.week_of(date)
    }

    /// The number of shop days in a week: days of a weekday that is worked, holidays excepted.
    pub fn shop_days(&self, week: u16) -> u8
        requires { IsInRange 1 self.now.weeks week }
        ensures value { result ≡ shop_days_in self.now week }
        ensures bound { result ≤ 7 }
    {
        self.horizon.shop_days(week)
    }

    /// The day on which a week begins, a Monday.
    pub fn first_day(&self, week: u16) -> Date
        requires { IsInRange 1 self.now.weeks week }
        ensures day { epoch_day result ≡ first_day_of self.now week }
        ensures within { spec.week_of self.now result ≡ Some week }
    {
        self.horizon.first_day(week)
    }

    /// The week in which an order is released that is due in a week, where its lead time is so many
    /// shop days, up to 728; and how many shop days too late that is (profile).
    ///
    /// An order without lead time is released in its due week. Another is released in the week of the
    /// shop day that lies so many before the due week's first. Where the horizon has no such day, the
    /// release stands in week 1, and is late by the shop days that the horizon lacks.
    pub fn release(&self, due: u16, lead: u16) -> (u16, u16)
        requires due { IsInRange 1 self.now.weeks due }
        requires lead { lead ≤ MOST_LEAD_DAYS }
        ensures { result ≡ release_of self.now due lead }
    {
        let first = self.first_shop_days[usize::from(due - 1)];
        if lead == 0 {
            (due, 0)
        } else if lead < first {
            (self.week_of_shop_day(due, first - lead), 0)
        } else {
            (1, lead + 1 - first)
        }
    }

    // The week of a shop day that comes before a week's end, by its number.
    fn week_of_shop_day(&self, last: u16, day: u16) -> u16
        requires { IsInRange 1 self.now.weeks last }
        ensures { result ≡ week_of_shop_day self.now last day }
    {
        let first_shop_days = &self.first_shop_days[..usize::from(last)];
        first_shop_days.partition_point(|first| *first <= day) as u16
    }
}

// The number of each week's first shop day; 0 after the weeks of the horizon.
fn first_shop_days(horizon: &Horizon) -> [u16; MOST_WEEKS as usize]
    ensures { take horizon.now.weeks result ≡ first_days horizon.now horizon.now.weeks }
{
    let mut first_shop_days = [0; MOST_WEEKS as usize];
    let mut next: u16 = 1;
    for week in 0..horizon.weeks() {
        first_shop_days[usize::from(week)] = next;
        next += u16::from(horizon.shop_days(week + 1));
    }
    first_shop_days
}
