//! What messages ask of a supply: whether planning may change it, and what is said of its release.

ghost use Rattle.std.specs.Prelude.{◌≡◌};
ghost use Rattle.mrp_notes.specs.Release.{action_of, action_on, is_fixed};

use crate::message::Advice;
use mrp_item::{Order, OrderKind, Supply};

// What is said of an order's release.
fn action_of(order: &Order) -> Option<Advice>
    ensures { result ≡ action_of order.now }
{
    if order.late > 0 {
        Some(Advice::PastDue(order.late))
    } else if order.release == 1 {
        Some(Advice::Release)
    } else {
        None
    }
}

// What is said of the release of a supply, if it is an order.
pub fn action_on(supply: &Supply) -> Option<Advice>
    ensures { result ≡ action_on supply.now }
{
    match &supply.order {
        Some(order) => action_of(order),
        None => None,
    }
}

// Whether planning may not change a supply: it is no planned order.
pub fn is_fixed(supply: &Supply) -> bool
    ensures { result ≡ is_fixed supply.now }
{
    match &supply.order {
        Some(order) => order.kind == OrderKind::Firm,
        None => true,
    }
}
