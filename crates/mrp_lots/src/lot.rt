//! Lot rules.

ghost use Rattle.std.specs.Prelude.{◌≡◌, ◌<◌, ◌+◌, ◌↔◌, ℕ, IfSome, IsSome, length};
ghost use Rattle.mrp_qty.specs.Quantity.{quantity_of};
ghost use Rattle.mrp_phase.specs.Weeks.{in_week};
ghost use Rattle.mrp_net.specs.Need.{IsNeed};
ghost use Rattle.mrp_lots.specs.Lots.{Rule, IsLotRule, IsStepped, lot_for_lot, fixed, order_of, period, stepped, last_of};
ghost use Rattle.mrp_lots.specs.LotLaws.{lot_for_lot_rule, fixed_rule, period_rule, stepped_rule};

use mrp_qty::Qty;

/// The longest period of `Stepped`, in weeks.
pub const MOST_PERIOD: u64 = 104;

/// The greatest minimum order quantity of `Stepped`, in pieces.
pub const MOST_LEAST: u64 = 1_000_000_000;

/// The greatest order multiple of `Stepped`, in pieces.
pub const MOST_STEP: u64 = 1_000_000_000;

/// A rule by which net requirements are combined into planned receipts (APICS Dictionary: lot sizing):
/// receipts cover the net requirements, and nothing is ordered where these are covered.
pub trait Lot {
    ghost rule: { Self → Rule };

    /// The receipts up to a week, from the net requirements up to each week, the week's place from 0,
    /// and the receipts before it; overflow yields `None`.
    fn receive(&self, needs: &[Qty], place: usize, before: Qty) -> Option<Qty>
        requires { place < length needs.now }
        ensures { result ≡ quantity_of (rule self.now (length needs.now) (in_week needs.now) (place + 1) before) };

    ghost kept: { (lot : Self) → IsLotRule (rule lot) };
}

/// Each week's net requirement is received in that week (Orlicky: lot for lot).
#[derive(Clone, Copy, Debug, PartialEq, Eq)]
pub struct LotForLot;

impl Lot for LotForLot {
    ghost rule = { λ _. lot_for_lot };

    #[tactic(auto, using(mrp_phase::proofs::WeekRows::in_week_next))]
    fn receive(&self, needs: &[Qty], place: usize, _before: Qty) -> Option<Qty> {
        Qty::new(needs[place].value())
    }

    ghost kept = { λ _. lot_for_lot_rule };
}

/// Whole multiples of a size (Orlicky: fixed order quantity; profile for several lots at once).
#[derive(Clone, Copy, Debug, PartialEq, Eq)]
pub struct Fixed {
    size: u64,
    ghost some: { 0 < size },
}

impl Fixed {
    /// Multiples of a size in pieces, at least 1.
    pub fn new(size: u64) -> Fixed
        requires { 0 < size }
        ensures { result.size ≡ size }
    {
        Fixed { size }
    }
}

impl Lot for Fixed {
    ghost rule = { λ lot. fixed lot.size };

    #[tactic(auto, using(mrp_phase::proofs::WeekRows::in_week_next))]
    fn receive(&self, needs: &[Qty], place: usize, _before: Qty) -> Option<Qty> {
        needs[place].up_to_multiple(self.size)
    }

    ghost kept = { λ lot. fixed_rule lot.size lot.some };
}

/// The net requirements of a number of weeks in one lot (Orlicky: fixed period requirements).
#[derive(Clone, Copy, Debug, PartialEq, Eq)]
pub struct Period {
    weeks: u64,
    ghost some: { 0 < weeks },
}

impl Period {
    /// Lots for a number of weeks, at least 1.
    pub fn new(weeks: u64) -> Period
        requires { 0 < weeks }
        ensures { result.weeks ≡ weeks }
    {
        Period { weeks }
    }
}

// The place of the last of so many weeks from one on, or of the horizon.
fn last_place(place: usize, weeks: u64, horizon: usize) -> usize
    requires first { 0 < weeks }
    requires within { place < horizon }
    ensures { result + 1 ≡ last_of horizon weeks (place + 1) }
{
    let left = horizon - place - 1;
    let more = (weeks - 1) as usize;
    place + more.min(left)
}

impl Lot for Period {
    ghost rule = { λ lot. period lot.weeks };

    #[tactic(auto, using(mrp_phase::proofs::WeekRows::in_week_next))]
    fn receive(&self, needs: &[Qty], place: usize, before: Qty) -> Option<Qty> {
        if needs[place].value() <= before.value() {
            Qty::new(before.value())
        } else {
            Qty::new(needs[last_place(place, self.weeks, needs.len())].value())
        }
    }

    ghost kept = { λ lot. period_rule lot.weeks lot.some };
}

/// Fixed period requirements with a minimum order quantity and an order multiple (APICS Dictionary).
/// Where net requirements are not covered, one order covers those of a number of weeks. Each order is
/// raised to the minimum, and then rounded up to the multiple; what it brings above the net
/// requirements covers those of later weeks.
#[derive(Clone, Copy, Debug, PartialEq, Eq)]
pub struct Stepped {
    weeks: u64,
    least: u64,
    step: u64,
    ghost within: { IsStepped weeks least step },
}

impl Stepped {
    /// Orders for a number of weeks, from 1 to `MOST_PERIOD`, with a minimum order quantity, from 0 to
    /// `MOST_LEAST` pieces, and an order multiple, from 1 to `MOST_STEP` pieces; `None` outside these
    /// limits. A minimum of 0 and a multiple of 1 have no effect.
    pub fn new(weeks: u64, least: u64, step: u64) -> Option<Stepped>
        ensures within { IsSome result ↔ IsStepped weeks least step }
        ensures weeks { IfSome result (λ lot. lot.weeks ≡ weeks) }
        ensures least { IfSome result (λ lot. lot.least ≡ least) }
        ensures step { IfSome result (λ lot. lot.step ≡ step) }
    {
        if weeks == 0
            || weeks > MOST_PERIOD
            || least > MOST_LEAST
            || step == 0
            || step > MOST_STEP
        {
            None
        } else {
            Some(Stepped { weeks, least, step })
        }
    }

    // The order that covers so many pieces; overflow yields `None`.
    fn order(&self, lacking: u64) -> Option<Qty>
        ensures { result ≡ quantity_of (order_of self.now.least self.now.step lacking) }
    {
        Qty::new(lacking.max(self.least))?.up_to_multiple(self.step)
    }
}

impl Lot for Stepped {
    ghost rule = { λ lot. stepped lot.weeks lot.least lot.step };

    #[tactic(auto, using(mrp_phase::proofs::WeekRows::in_week_next))]
    fn receive(&self, needs: &[Qty], place: usize, before: Qty) -> Option<Qty> {
        if needs[place].value() <= before.value() {
            Qty::new(before.value())
        } else {
            let last = needs[last_place(place, self.weeks, needs.len())];
            before.add(self.order(last.value().saturating_sub(before.value()))?)
        }
    }

    ghost kept = { λ lot. stepped_rule lot.weeks lot.least lot.step lot.within.some_weeks lot.within.some_step };
}
