//! Orders of items in which each bill line leads to a later one: then there is no loop.

ghost use Rattle.std.specs.Prelude.{◌≡◌, ◌<◌, ℕ, All, IfOk, length, true};
ghost use Rattle.mrp_loops.specs.Needs.{AreWithin, Needs};
ghost use Rattle.mrp_loops.specs.Ranks.{AlwaysRise};

use crate::line::Line;
use mrp_qty::NoMemory;
use std::alloc::Global;

// The items in the order of the table.
pub(crate) fn table_order(alloc: Global, count: usize) -> Result<Vec<usize>, NoMemory>
    ensures { IfOk result (λ order. All (λ item. item < count) order.items) }
{
    let mut order = Vec::with_capacity(alloc, count)?;
    for item in 0..count {
        order.push(item)?;
    }
    Ok(order)
}

// The last place of each item in an order; 0, where it has none.
fn places_in(alloc: Global, count: usize, order: &[usize]) -> Result<Vec<usize>, NoMemory>
    requires { All (λ item. item < count) order.now }
    ensures { IfOk result (λ places. length places.items ≡ count) }
{
    let mut places = vec![in alloc; 0; count]?;
    for (place, item) in order.iter().enumerate() {
        places[*item] = place;
    }
    Ok(places)
}

// Whether each component has a later place than its parent.
fn always_rise(lines: &[Line], places: &[usize]) -> bool
    requires { AreWithin (length places.now) lines.now }
    ensures { result ≡ true → AlwaysRise lines.now places.now }
{
    for line in lines {
        if places[line.component] <= places[line.parent] {
            return false;
        }
    }
    true
}

// Whether each component stands behind its parent in an order of the items, so that there is no loop.
pub(crate) fn always_falls(
    alloc: Global,
    count: usize,
    lines: &[Line],
    order: &[usize],
) -> Result<bool, NoMemory>
    requires lines { AreWithin count lines.now }
    requires order { All (λ item. item < count) order.now }
    ensures { IfOk result (λ falls. falls ≡ true → (item : ℕ) → Needs lines.now item item → ⊥) }
{
    let places = places_in(alloc, count, order)?;
    Ok(always_rise(lines, &places))
}
