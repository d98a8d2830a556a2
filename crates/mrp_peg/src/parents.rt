//! What the orders of a parent require of an item.

ghost use Rattle.std.specs.Prelude.{◌≡◌, ◌==◌, ◌≤◌, ◌<◌, ◌*◌, ◌++◌, ℕ, List, true, false, filter, length, map, nat_lt, All, IsTrue, OnOk};
ghost use Rattle.std.specs.List.{enumerate_from, slice_index_or};
ghost use Rattle.std.specs.List.Sorted.{IsNonDecreasingBy, IsPartitionPoint};
ghost use Rattle.mrp_qty.specs.Quantity.{greatest_quantity};
ghost use Rattle.mrp_peg.specs.declared.matching.Requirement.{Requirement};
ghost use Rattle.mrp_peg.specs.Placed.{AreCounted, ArePut};
ghost use Rattle.mrp_peg.specs.Rows.{order_requirement};

use crate::matching::Requirement;
use crate::peg::{Need, NeedKind};
use crate::placing::{count_one, put};
use mrp_item::Order;
use mrp_qty::NoMemory;

// A bill line to an item: the number of its record from 1, the quantity per, and the parent's
// orders.
#[derive(Clone, Copy)]
pub struct UsedBy<'a> {
    pub line: usize,
    pub per: u64,
    pub orders: &'a [Order],
}

// Whether the orders before a place are released before a week.
fn are_before(orders: &[Order], week: u16, place: usize) -> bool
    requires rising { IsNonDecreasingBy (λ order. order.release) orders.now }
    requires within { place ≤ length orders.now }
    ensures { IsTrue result → (k : ℕ) (d : _) → k < place → nat_lt (slice_index_or orders.now k d).release week ≡ true }
{
    place == 0 || orders[place - 1].release < week
}

// Whether the orders from a place on are released in a week or later.
fn are_not_before(orders: &[Order], week: u16, place: usize) -> bool
    requires { IsNonDecreasingBy (λ order. order.release) orders.now }
    ensures { IsTrue result → (k : ℕ) (d : _) → place ≤ k → k < length orders.now → nat_lt (slice_index_or orders.now k d).release week ≡ false }
{
    place >= orders.len() || orders[place].release >= week
}

// Whether the orders that are released in a week or later begin at a place.
fn begins_at(orders: &[Order], week: u16, place: usize) -> bool
    requires { IsNonDecreasingBy (λ order. order.release) orders.now }
    ensures within { IsTrue result → place ≤ length orders.now }
    ensures begins { IsTrue result → IsPartitionPoint (λ order. nat_lt order.release week ≡ true) (λ order. nat_lt order.release week ≡ false) orders.now place }
{
    place <= orders.len() && are_before(orders, week, place) && are_not_before(orders, week, place)
}

// Where the orders that are released in a week or later begin: most likely at a place, which is looked at
// first.
fn first_released(orders: &[Order], week: u16, likely: usize) -> usize
    requires { IsNonDecreasingBy (λ order. order.release) orders.now }
    ensures within { result ≤ length orders.now }
    ensures begins { IsPartitionPoint (λ order. nat_lt order.release week ≡ true) (λ order. nat_lt order.release week ≡ false) orders.now result }
{
    if begins_at(orders, week, likely) {
        return likely;
    }
    orders.partition_point(|order| order.release < week)
}

// The requirement that an order of a parent makes by a bill line.
fn requirement_of(item: usize, by: &UsedBy<'_>, number: usize, order: &Order) -> Requirement
    requires { order.now.start * by.now.per ≤ greatest_quantity }
    ensures { result ≡ order_requirement item by.now.line by.now.per (number, order.now) }
{
    let kind = NeedKind::Parent {
        line: by.line,
        order: number,
    };
    let need = Need {
        item,
        week: order.release,
        kind,
    };
    let quantity = order.start.times(by.per).unwrap();
    Requirement { need, quantity }
}

// Adds the requirements that the parent's orders released in a week make by a bill line, and returns the
// place after them. They are looked for first at the place that is given.
pub fn add_released(
    needs: &mut Vec<Requirement>,
    item: usize,
    by: &UsedBy<'_>,
    week: u16,
    likely: usize,
) -> Result<usize, NoMemory>
    requires rising { IsNonDecreasingBy (λ order. order.release) by.now.orders.now }
    requires small { All (λ order. order.start * by.now.per ≤ greatest_quantity) by.now.orders.now }
    ensures { OnOk result (needs.new.items ≡ needs.old.items ++ filter (λ requirement. requirement.need.week == week) (map (order_requirement item by.now.line by.now.per) (enumerate_from 1 by.now.orders.now))) }
{
    let orders = by.orders;
    let mut place = first_released(orders, week, likely);
    while place < orders.len() && orders[place].release == week {
        needs.push(requirement_of(item, by, place + 1, &orders[place]))?;
        place += 1;
    }
    Ok(place)
}

// Counts the requirements that all orders of a parent make by a bill line.
pub fn count_all(counts: &mut [usize], orders: &[Order]) -> Result<(), NoMemory>
    ensures { OnOk result ((count item line per : ℕ) (counted : List Requirement) → AreCounted count counted counts.old
        → AreCounted count (counted ++ map (order_requirement item line per) (enumerate_from 1 orders.now)) counts.new) }
{
    for order in orders {
        count_one(counts, order.release)?;
    }
    Ok(())
}

// Puts the requirements that all orders of a parent make by a bill line at their places.
pub fn put_all(needs: &mut [Requirement], next: &mut [usize], item: usize, by: &UsedBy<'_>)
    requires { All (λ order. order.start * by.now.per ≤ greatest_quantity) by.now.orders.now }
    ensures { (count : ℕ) (placed rest : List Requirement)
        → ArePut count placed (map (order_requirement item by.now.line by.now.per) (enumerate_from 1 by.now.orders.now) ++ rest) next.old needs.old
        → ArePut count (placed ++ map (order_requirement item by.now.line by.now.per) (enumerate_from 1 by.now.orders.now)) rest next.new needs.new }
{
    let orders = by.orders;
    for (place, order) in orders.iter().enumerate() {
        put(needs, next, requirement_of(item, by, place + 1, order));
    }
}
