//! What the fixed supplies cover, and what is said of the next supply.

ghost use Rattle.std.specs.Prelude.{◌≡◌, ◌≤◌, ◌+◌, length, sum};
ghost use Rattle.mrp_qty.specs.Quantity.{greatest_quantity};
ghost use Rattle.mrp_notes.specs.Needs.{need_week, rescheduled, rescheduling};
ghost use Rattle.mrp_notes.specs.Walk.{IsCovered, with_supply};

use crate::message::Advice;
use crate::release::is_fixed;
use mrp_item::Supply;
use mrp_qty::Qty;

// What is supplied, how many weeks from the first it covers, and what these require. The sum
// supplied saturates at the greatest number.
#[derive(Drop)]
pub struct Covered {
    weeks: u16,
    required: u64,
    supplied: u64,
}

// What is said of a supply, by the week in which it is due and the one in which it is needed.
fn rescheduled(due: u16, needed: Option<u16>) -> Option<Advice>
    ensures { result ≡ rescheduled due needed }
{
    match needed {
        None => Some(Advice::Cancel),
        Some(week) if week < due => Some(Advice::Earlier(week)),
        Some(week) if week > due => Some(Advice::Later(week)),
        Some(_) => None,
    }
}

impl Covered {
    // What is on hand, and no week covered yet.
    pub fn start(on_hand: Qty) -> Covered
        ensures { result ≡ record { weeks = 0; required = 0; supplied = on_hand } }
    {
        Covered {
            weeks: 0,
            required: 0,
            supplied: on_hand.value(),
        }
    }

    // The first week whose requirements and safety stock exceed what is supplied.
    #[tactic(auto, using(mrp_phase::proofs::WeekRows::sum_to_within, mrp_phase::proofs::WeekRows::sum_to_next, mrp_phase::proofs::WeekRows::in_week_next))]
    fn need_week(&mut self, horizon: u16, gross: &[Qty], safety: Qty) -> Option<u16>
        requires weeks { length gross.now ≡ horizon }
        requires within { sum gross.now + safety ≤ greatest_quantity }
        requires covered { IsCovered gross.now safety self.old }
        ensures week { result ≡ need_week gross.now safety self.old.supplied }
        ensures supplied { self.new.supplied ≡ self.old.supplied }
        ensures covered { IsCovered gross.now safety self.new }
    {
        for place in self.weeks..horizon {
            let required = self.required + gross[usize::from(place)].value();
            if required + safety.value() > self.supplied {
                return Some(place + 1);
            }
            self.required = required;
            self.weeks = place + 1;
        }
        None
    }

    // Whether the next supply should be rescheduled in or out, or cancelled. A fixed one then
    // counts as supplied for those after it.
    pub fn advice(
        &mut self,
        horizon: u16,
        gross: &[Qty],
        safety: Qty,
        supply: &Supply,
    ) -> Option<Advice>
        requires weeks { length gross.now ≡ horizon }
        requires within { sum gross.now + safety ≤ greatest_quantity }
        requires covered { IsCovered gross.now safety self.old }
        ensures advice { result ≡ rescheduling gross.now safety self.old.supplied supply.now }
        ensures supplied { self.new.supplied ≡ with_supply self.old.supplied supply.now }
        ensures covered { IsCovered gross.now safety self.new }
    {
        if !is_fixed(supply) {
            return None;
        }
        let needed = self.need_week(horizon, gross, safety);
        self.supplied = self.supplied.saturating_add(supply.quantity.value());
        rescheduled(supply.week, needed)
    }
}
