//! A search for the items of one rank from which lines lead to an item, the nearest first.

use crate::links::Links;
use mrp_qty::NoMemory;
use std::alloc::Global;

// An item found, and how many lines at least lead from it to where the search began.
#[derive(Clone, Copy)]
struct Met {
    item: usize,
    far: usize,
}

// How many lines at least lead from each item to where the search began, and the items found.
#[derive(Drop)]
pub(crate) struct Search {
    far: Vec<Option<usize>>,
    met: Vec<Met>,
}

mod steps;
