//! A search up through parents for a path from an item to itself.

use mrp_qty::NoMemory;
use std::alloc::Global;

// An item found by a search up through parents, and the place, among the items found, of the one whose
// parent it is.
#[derive(Clone, Copy)]
struct Met {
    item: usize,
    below: usize,
}

// The items found by a search up through parents.
#[derive(Drop)]
struct Search {
    met: Vec<Met>,
    seen: Vec<bool>,
}

mod first;
mod steps;

pub use first::first_loop;
