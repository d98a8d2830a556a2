//! The release of an order.

ghost use Rattle.std.specs.Prelude.{◌≡◌, ◌≤◌};
ghost use Rattle.std.specs.Int.{IsInRange};
ghost use Rattle.mrp_tables.specs.declared.limits.TheConstants.{MOST_LEAD};
ghost use Rattle.mrp_item.specs.Releases.{release_in, shop_days_before, weeks_before};

use mrp_cal::Calendar;
use mrp_tables::LeadUnit;

// The week in which an order is released, and how late that is, in the unit of lead times.
#[derive(Clone, Copy)]
pub struct Release {
    pub week: u16,
    pub late: u16,
}

// A release a lead time in weeks before an order is due; in week 1, and late, if there is no such week.
#[inline(always)]
fn weeks_before(due: u16, lead: u16) -> Release
    requires { lead ≤ MOST_LEAD }
    ensures { result ≡ weeks_before due lead }
{
    Release {
        week: due.saturating_sub(lead).max(1),
        late: (1 + lead).saturating_sub(due),
    }
}

// A release a lead time in shop days before an order is due; in week 1, and late, if there is no such
// day.
#[inline(never)]
fn shop_days_before(calendar: &Calendar, due: u16, lead: u16) -> Release
    requires due { IsInRange 1 calendar.now.weeks due }
    requires lead { lead ≤ MOST_LEAD }
    ensures { result ≡ shop_days_before calendar.now due lead }
{
    let (week, late) = calendar.release(due, lead);
    Release { week, late }
}

// The release of an order that is due in a week of the horizon, by its item's lead time.
#[inline(always)]
pub fn release_for(calendar: &Calendar, unit: LeadUnit, due: u16, lead: u16) -> Release
    requires due { IsInRange 1 calendar.now.weeks due }
    requires lead { lead ≤ MOST_LEAD }
    ensures { result ≡ release_in unit calendar.now due lead }
{
    match unit {
        LeadUnit::Weeks => weeks_before(due, lead),
        LeadUnit::ShopDays => shop_days_before(calendar, due, lead),
    }
}
