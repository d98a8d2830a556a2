//! The nodes of a row's tree, kept up to date with supply and bookings.

ghost use Rattle.std.specs.Prelude.{◌≡◌, ◌≢◌, ◌≤◌, ◌<◌, ◌+◌, ℕ, length, IfOk};
ghost use Rattle.mrp_master.specs.Nodes.{IsPromiseRow};
ghost use Rattle.mrp_master.specs.Tree.{IsMade, IsTree, made, place_node, row_of};

use crate::nodes::{Node, PLACES};
use mrp_qty::{NoMemory, Qty};
use std::alloc::Global;

// Nodes are counted from 1; the first place is that of week 1.
pub const NODES: usize = 256;

pub const FIRST_PLACE: usize = PLACES as usize;

// The node of a place: its week's supply less bookings, and 0 after the last week.
fn place_of(supply: &[Qty], booked: &[Qty], place: usize) -> Node
    requires { length booked.now ≡ length supply.now }
    ensures { result ≡ place_node (row_of supply.now booked.now) (place + 1) }
{
    if place >= supply.len() {
        return Node::NONE;
    }
    let change = supply[place].value() as i64 - booked[place].value() as i64;
    Node {
        sum: change,
        least: change,
    }
}

// A node from the two below it, or from its place.
fn node_of(supply: &[Qty], booked: &[Qty], nodes: &[Node], node: usize) -> Node
    requires size { length nodes.now ≡ NODES }
    requires row { IsPromiseRow (row_of supply.now booked.now) }
    requires node { (1 ≤ node) × (node < NODES) }
    requires below { (n : ℕ) → node < n → n < NODES → IsMade (row_of supply.now booked.now) nodes.now n }
    ensures { result ≡ made (row_of supply.now booked.now) nodes.now node }
{
    if node < FIRST_PLACE {
        nodes[2 * node].join(nodes[2 * node + 1])
    } else {
        place_of(supply, booked, node - FIRST_PLACE)
    }
}

// The tree of a row.
pub fn grow(alloc: Global, supply: &[Qty], booked: &[Qty]) -> Result<Vec<Node>, NoMemory>
    requires { IsPromiseRow (row_of supply.now booked.now) }
    ensures { IfOk result (λ nodes. IsTree (row_of supply.now booked.now) nodes.items) }
{
    let mut nodes = vec![in alloc; Node::NONE; NODES]?;
    for node in (1..NODES).rev() {
        nodes[node] = node_of(supply, booked, &nodes, node);
    }
    Ok(nodes)
}

// Recomputes the place of a week and the nodes over it.
pub fn renew(supply: &[Qty], booked: &[Qty], nodes: &mut [Node], week: u16)
    requires size { length nodes.old ≡ NODES }
    requires row { IsPromiseRow (row_of supply.now booked.now) }
    requires week { (1 ≤ week) × (week ≤ length supply.now) }
    requires others { (n : ℕ) → 1 ≤ n → n < NODES → n ≢ week + 127 → IsMade (row_of supply.now booked.now) nodes.old n }
    ensures { IsTree (row_of supply.now booked.now) nodes.new }
{
    let mut node = FIRST_PLACE - 1 + usize::from(week);
    while node > 0 {
        nodes[node] = node_of(supply, booked, nodes, node);
        node /= 2;
    }
}
