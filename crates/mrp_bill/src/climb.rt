//! A walk up through parents that orders every item after its parents, if there is no loop.

use mrp_qty::NoMemory;
use std::alloc::Global;

// The state of an item in the walk.
#[derive(Clone, Copy)]
enum Stage {
    New,
    // On the stack, at this depth.
    Open(usize),
    // In the order, at this place.
    Placed(usize),
}

// A walk up through parents. The items on the stack are each a parent of the one below.
#[derive(Drop)]
struct Climb {
    stages: Vec<Stage>,
    // The number of each item's parents that the walk has not passed.
    left: Vec<usize>,
    stack: Vec<usize>,
    order: Vec<usize>,
    closed: bool,
}

// The items in an order, and whether a loop was found.
#[derive(Drop)]
pub struct Order {
    pub items: Vec<usize>,
    pub closed: bool,
}

mod steps;

pub use steps::order_of;
