//! What is odd about the calendar.

ghost use Rattle.std.specs.Prelude.{IfOk};
ghost use Rattle.mrp_warn.specs.Calendar.{AreOfWeeks, closed_weeks};

use crate::oddity::{Oddity, Warning};
use mrp_cal::Calendar;
use mrp_qty::NoMemory;
use std::alloc::Global;

// The weeks without a shop day, told at the place of the record of the workdays.
pub(crate) fn week_warnings(
    alloc: Global,
    calendar: &Calendar,
    place: usize,
) -> Result<Vec<Warning>, NoMemory>
    ensures { IfOk result (λ own. AreOfWeeks calendar.now place (closed_weeks calendar.now calendar.now.weeks) own.items) }
{
    let mut own = Vec::new(alloc);
    for before in 0..calendar.weeks() {
        let week = before + 1;
        if calendar.shop_days(week) == 0 {
            let monday = calendar.first_day(week);
            let oddity = Oddity::ClosedWeek { week, monday };
            own.push(Warning {
                place: Some(place),
                oddity,
            })?;
        }
    }
    Ok(own)
}
