//! The pages of workers.

use crate::wave::slot::Slot;
use mrp_qty::NoMemory;
use std::alloc::Global;

// How many chunks a wave has for each worker, at most: some megabytes of text, compared with which starting a thread
// costs little. Longer waves take more memory, and no less time.
pub(crate) const SHARE: usize = 8;

// How many pages a worker has: twice its share, so that it can make the chunks of one that is slower.
pub(crate) const OF_EACH: usize = 2 * SHARE;

// The pages of workers, those of each in a row.
#[derive(Drop)]
pub(crate) struct Pages {
    pub slots: Vec<Slot>,
    pub workers: usize,
}

impl Pages {
    // Pages without chunks, for so many workers.
    pub(crate) fn of(alloc: Global, workers: usize) -> Result<Pages, NoMemory> {
        let count = OF_EACH.saturating_mul(workers);
        let mut slots = Vec::with_capacity(alloc, count)?;
        for _ in 0..count {
            slots.push(Slot::new(alloc))?;
        }
        Ok(Pages { slots, workers })
    }
}
