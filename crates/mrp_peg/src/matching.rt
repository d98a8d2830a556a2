//! Requirements and supplies, which are matched piece by piece, first to first.

ghost use Rattle.std.specs.Prelude.{◌≡◌, ◌-◌, min};

use crate::peg::Need;
use mrp_item::Supplied;
use mrp_qty::Qty;

/// A requirement and how many pieces it needs.
#[derive(Clone, Copy, Debug, PartialEq, Eq)]
pub struct Requirement {
    pub need: Need,
    pub quantity: Qty,
}

/// A supply and how many pieces it has.
#[derive(Clone, Copy, Debug, PartialEq, Eq)]
pub struct Offered {
    pub source: Supplied,
    pub quantity: Qty,
}

// What is left of a quantity.
pub fn less(quantity: Qty, taken: Qty) -> Qty
    ensures { result ≡ quantity - taken }
{
    Qty::new(quantity.value().saturating_sub(taken.value())).unwrap()
}

// The smaller of two quantities.
#[inline(always)]
pub fn lesser(quantity: Qty, other: Qty) -> Qty
    ensures { result ≡ min quantity other }
{
    if quantity.value() < other.value() {
        quantity
    } else {
        other
    }
}
