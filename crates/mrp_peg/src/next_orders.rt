//! Where the next orders of an item's parents are likely to stand.

use mrp_qty::NoMemory;
use std::alloc::Global;

// For each bill line to an item, the place among its parent's orders where those of the next week are
// looked for first. It affects speed alone.
#[derive(Drop)]
pub struct NextOrders {
    places: Vec<usize>,
}

impl NextOrders {
    // The first place of each line's orders.
    pub fn of(alloc: Global, lines: usize) -> Result<NextOrders, NoMemory> {
        let places = vec![in alloc; 0; lines]?;
        Ok(NextOrders { places })
    }

    // The place of a line.
    pub fn place(&self, line: usize) -> usize {
        self.places.get(line).copied().unwrap_or(0)
    }

    pub fn set(&mut self, line: usize, place: usize) {
        if line < self.places.len() {
            self.places[line] = place;
        }
    }
}
