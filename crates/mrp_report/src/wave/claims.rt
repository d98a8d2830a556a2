//! The chunks of a wave, claimed one by one.

ghost use Rattle.std.specs.Prelude.{◌≡◌, ◌≤◌, IfSome};
ghost use Rattle.mrp_report.specs.wave.Chunks.{count_of};

use crate::wave::cut::Chunks;
use std::sync::atomic::{AtomicUsize, Ordering};

// A number of chunks from a place, and how many of them threads have claimed.
#[derive(Drop)]
pub(crate) struct Wave {
    pub from: usize,
    pub count: usize,
    claimed: AtomicUsize,
}

impl Wave {
    pub(crate) fn new(from: usize, count: usize) -> Wave
        ensures from { result.from ≡ from }
        ensures count { result.count ≡ count }
    {
        Wave {
            from,
            count,
            claimed: AtomicUsize::new(0),
        }
    }

    // The first place of a chunk that no thread had claimed, if there was one.
    pub(crate) fn claim(&self, chunks: &Chunks<'_>) -> Option<usize>
        ensures { IfSome result (λ from. from ≤ count_of chunks.now) }
    {
        let number = self.claimed.fetch_add(1, Ordering::Relaxed);
        if number < self.count {
            Some(chunks.reach(self.from, number))
        } else {
            None
        }
    }
}
