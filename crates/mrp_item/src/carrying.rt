//! Net change: outcomes that are carried over from an older plan.

ghost use Rattle.std.specs.Prelude.{◌≡◌, ◌<◌, ◌↔◌, ◌⊎◌, ℕ, All, Any, IfOk, IsTrue, MatchBool};
ghost use Rattle.std.specs.Bool.{OnFalse, OnTrue};
ghost use Rattle.std.specs.Int.{IsInRange};
ghost use Rattle.mrp_item.specs.Inputs.{count, horizon};
ghost use Rattle.mrp_item.specs.Made.{item_from, parents_from};
ghost use Rattle.mrp_item.specs.NetChange.{Carries, IsLeftAlone, IsOfShop, IsRebooked, IsTouched, KeepsOrders, LosesOrders};
ghost use Rattle.mrp_item.specs.Own.{IsReady};
ghost use Rattle.mrp_item.specs.Rows.{booked};

use crate::due::differ_by_week;
use crate::inputs::Inputs;
use crate::order::Order;
use crate::outcome::Outcome;
use crate::plan::Plan;
use mrp_qty::NoMemory;
use std::sync::Arc;

// Whether the standing quantity of a master item differs in some week.
fn is_rebooked(old: &Inputs, new: &Inputs, item: usize) -> bool
    requires tables { old.now.tables ≡ new.now.tables }
    requires item { item < count new.now }
    ensures { MatchBool result (IsRebooked old.now new.now item) ((week : ℕ) → IsInRange 1 (horizon new.now) week → booked old.now item week ≡ booked new.now item week) }
{
    differ_by_week(new.weeks(), old.bookings(item), new.bookings(item))
}

// Whether two lists of orders are the same.
fn are_same(one: &[Order], other: &[Order]) -> bool
    ensures { IsTrue result ↔ (one.now ≡ other.now) }
{
    one == other
}

// Whether an item is planned, and has the same orders as in an older plan.
fn keeps_orders(old: &Plan, outcome: &Outcome) -> bool
    requires tables { old.now.inputs.tables ≡ outcome.now.inputs.tables }
    requires item { outcome.now.item < count outcome.now.inputs }
    ensures { MatchBool result (KeepsOrders old.now.inputs outcome.now.inputs outcome.now.item) (LosesOrders old.now.inputs outcome.now.inputs outcome.now.item) }
{
    match outcome.plan() {
        Some(planned) => are_same(old.item(planned.item()).orders(), planned.orders()),
        None => false,
    }
}

// Whether all parents of an item are planned, and have the same orders as in an older plan.
fn keep_orders(old: &Plan, parents: &[Outcome]) -> bool
    requires { All (IsOfShop old.now.inputs) parents.now }
    ensures kept { OnTrue result (All (λ o. KeepsOrders old.now.inputs o.inputs o.item) parents.now) }
    ensures lost { OnFalse result (Any (λ o. LosesOrders old.now.inputs o.inputs o.item) parents.now) }
{
    for parent in parents {
        if !keeps_orders(old, parent) {
            return false;
        }
    }
    true
}

// Whether net change leaves an item alone: its bookings are the same if it is a master item; otherwise all its
// parents are planned, with the same orders.
fn is_left_alone(old: &Plan, inputs: &Inputs, item: usize, parents: &[Outcome]) -> bool
    requires tables { old.now.inputs.tables ≡ inputs.now.tables }
    requires item { item < count inputs.now }
    requires parents { parents.now ≡ parents_from inputs.now item }
    ensures alone { OnTrue result (IsLeftAlone old.now.inputs inputs.now item) }
    ensures touched { OnFalse result (IsTouched old.now.inputs inputs.now item ⊎ (IsReady inputs.now item → ⊥)) }
{
    // Master items are components of none.
    let _parts = inputs.shop().tables().bills();
    if inputs.entry(item).class.is_master() {
        !is_rebooked(old.inputs(), inputs, item)
    } else {
        keep_orders(old, parents)
    }
}

/// The outcome of an item as in an older plan of an equal shop, kept for other inputs: the caller guarantees
/// that net change leaves the item alone. The rows are shared, and nothing is compared or allocated.
///
/// Errors: `NoMemory` if a reference count cannot rise.
pub fn keep(old: &Plan, item: usize, inputs: &Arc<Inputs>) -> Result<Outcome, NoMemory>
    requires tables { old.now.inputs.tables ≡ inputs.now.value.tables }
    requires item { item < count inputs.now.value }
    requires alone { IsLeftAlone old.now.inputs inputs.now.value item }
    ensures { IfOk result (λ o. o ≡ item_from inputs.now.value item) }
{
    // Its codes rank the items, parents above their components.
    let _ranked = inputs.shop();
    Ok(Outcome::planned(old.item(item).over(inputs)?))
}

/// The outcome of an item as in an older plan of an equal shop, carried over to other inputs (Orlicky: net
/// change). It is carried over exactly if the item is not touched and all its parents are planned. Touched is
/// a master item whose standing quantity differs in some week, or a part with a parent whose orders differ. The
/// rows are shared, and nothing is allocated.
///
/// It needs the outcomes of the item's distinct parents, in table order, of equal inputs.
///
/// Errors: `NoMemory` if a reference count cannot rise.
pub fn carry(
    old: &Plan,
    item: usize,
    inputs: &Arc<Inputs>,
    parents: &[Outcome],
) -> Result<Option<Outcome>, NoMemory>
    requires tables { old.now.inputs.tables ≡ inputs.now.value.tables }
    requires item { item < count inputs.now.value }
    requires parents { parents.now ≡ parents_from inputs.now.value item }
    ensures { IfOk result (Carries old.now.inputs inputs.now.value item) }
{
    if !is_left_alone(old, inputs, item, parents) {
        return Ok(None);
    }
    Ok(Some(keep(old, item, inputs)?))
}
