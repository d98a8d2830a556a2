//! The chunks of a section.

ghost use Rattle.std.specs.Prelude.{◌≡◌, ◌<◌, ◌≤◌, ◌++◌, OnOk};
ghost use Rattle.mrp_report.specs.wave.Chunks.{count_of, end_of, rows_from};

use crate::page::Page;
use crate::wave::cut::Chunks;
use mrp_qty::NoMemory;
use std::alloc::Global;

impl Chunks<'_> {
    // How many places the section has rows for.
    pub(crate) fn count(&self) -> usize
        ensures { result ≡ count_of self.now }
    {
        self.section.count(self.readings.plan)
    }

    // Where a number of chunks from a place end.
    pub(crate) fn reach(&self, from: usize, chunks: usize) -> usize
        ensures { result ≡ end_of self.now from chunks }
    {
        let places = chunks.saturating_mul(self.size);
        from.saturating_add(places).min(self.count())
    }

    // Whether there is more than one chunk, and a page has room for each.
    pub(crate) fn are_many(&self) -> bool {
        self.fits && self.size < self.count()
    }

    // How many chunks there are from a place on. None is empty.
    pub(crate) fn left(&self, from: usize) -> usize
        requires { from < count_of self.now }
        ensures some { 0 < result }
        ensures filled { 0 < self.now.size }
    {
        (self.count() - from).div_ceil(self.size)
    }

    // How many chunks a wave of so many workers has.
    pub(crate) fn in_wave(&self, workers: usize) -> usize
        ensures { 0 < result }
    {
        self.share.saturating_mul(workers).max(1)
    }

    // Adds the rows of the chunk from a place.
    pub(crate) fn add(&self, alloc: Global, page: &mut Page, from: usize) -> Result<(), NoMemory>
        requires { from ≤ count_of self.now }
        ensures { OnOk result (page.new ≡ page.old ++ rows_from self.now from 1) }
    {
        for place in from..self.reach(from, 1) {
            self.section.add(alloc, page, self.readings, place)?;
        }
        Ok(())
    }
}
