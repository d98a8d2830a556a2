//! What holds of every shop calendar, by the definitions alone.

ghost use Rattle.std.specs.Prelude.{◌≡◌, ◌≤◌, ◌<◌, ℕ, ◌+◌, ◌-◌, ◌*◌, ◌%◌, max, pos, ◌+ℤ◌};
ghost use Rattle.std.specs.Int.{IsInRange};
ghost use Rattle.jiff.specs.Types.{Date};
ghost use Rattle.jiff.specs.Words.{epoch_day, weekday_of};
ghost use Rattle.mrp_cal.specs.Calendar.{IsShopCalendar, ShopCalendar};
ghost use Rattle.mrp_cal.specs.Releases.{IsOfWeek, first_shop_day, release_of};
ghost use Rattle.mrp_cal.specs.ShopDays.{shop_days_in};

/// A date a number of days after the start falls on the weekday, counted from Monday as 0, that is
/// the remainder of that number by 7.
pub fn weekdays()
    ensures { (c : ShopCalendar) → IsShopCalendar c → (d : Date) (day : ℕ)
        → epoch_day d ≡ epoch_day c.start +ℤ pos day → weekday_of d ≡ day % 7 }
{}

/// An order without lead time is released in its due week. Every release is in a week up to the due
/// week, and an order that is due no earlier than another of the same lead time is released no earlier.
/// The release week of an order that is not late has the shop day that lies so many shop days before
/// the due week's first.
pub fn releases()
    ensures at_once { (c : ShopCalendar) (due : ℕ) → release_of c due 0 ≡ (due, 0) }
    ensures within { (c : ShopCalendar) (due lead : ℕ) → 1 ≤ due → IsInRange 1 due (release_of c due lead).0 }
    ensures rises { (c : ShopCalendar) (lead due later : ℕ) → due ≤ later → (release_of c due lead).0 ≤ (release_of c later lead).0 }
    ensures starts { (c : ShopCalendar) (due lead : ℕ) → 1 ≤ due → 0 < lead → lead < first_shop_day c due → IsOfWeek c (first_shop_day c due - lead) (release_of c due lead).0 }
{}

/// Where each week before the due week has as many shop days, a lead time of whole weeks counts weeks:
/// the release stands as many weeks before the due week, and a week too late is as many shop days.
pub fn even_weeks()
    ensures { (c : ShopCalendar) (days due weeks : ℕ) → 1 ≤ due → 0 < days
        → ((week : ℕ) → 1 ≤ week → week < due → shop_days_in c week ≡ days)
        → release_of c due (days * weeks) ≡ (max 1 (due - weeks), days * ((1 + weeks) - due)) }
{}
