//! The steps of the search.

use super::{Met, Search};
use crate::links::Links;
use mrp_qty::NoMemory;
use std::alloc::Global;

impl Search {
    ghost use Rattle.std.specs.Prelude.{◌≡◌, ◌+◌, ◌<◌, ◌≤◌, ℕ, IfOk, OnOk, length};
    ghost use Rattle.mrp_loops.specs.Links.{AreLinks};
    ghost use Rattle.mrp_loops.specs.Search.{AreListed, IsClear, IsSearch, IsSearched, MarksBoth, Meets, MeetsNew, met_at};

    // Nothing is found yet.
    pub(crate) fn start(alloc: Global, count: usize) -> Result<Search, NoMemory>
        ensures { IfOk result (IsClear count) }
    {
        Ok(Search {
            far: vec![in alloc; None; count]?,
            met: Vec::new(alloc),
        })
    }

    // How many lines at least lead from each item to where the search began.
    pub(crate) fn far(&self) -> &[Option<usize>]
        ensures { result.now ≡ self.now.far.items }
    {
        self.far.as_slice()
    }

    // An item is found.
    fn meet(&mut self, item: usize, far: usize) -> Result<(), NoMemory>
        requires { item < length self.old.far.items }
        ensures { OnOk result (Meets self.old self.new item far) }
    {
        self.met.push(Met { item, far })?;
        self.far[item] = Some(far);
        Ok(())
    }

    // An item is found, if it has the rank and was not found before.
    fn meet_new(
        &mut self,
        ranks: &[usize],
        rank: usize,
        item: usize,
        far: usize,
    ) -> Result<(), NoMemory>
        requires item { item < length self.old.far.items }
        requires ranks { item < length ranks.now }
        ensures { OnOk result (MeetsNew ranks.now rank self.old self.new item far) }
    {
        match self.far[item] {
            Some(_) => Ok(()),
            None => {
                if ranks[item] == rank {
                    return self.meet(item, far);
                }
                Ok(())
            }
        }
    }

    // The parents of an item that was found are found, as far as they have the rank of the first item.
    fn meet_parents(
        &mut self,
        links: &Links,
        ranks: &[usize],
        from: usize,
        next: usize,
    ) -> Result<(), NoMemory>
        requires links { AreLinks (length ranks.now) links.now }
        requires from { from < length ranks.now }
        requires search { IsSearch links.now.lines.items ranks.now from next self.old }
        requires next { next < length self.old.met.items }
        ensures search { OnOk result (IsSearch links.now.lines.items ranks.now from (next + 1) self.new) }
        ensures longer { OnOk result (length self.old.met.items ≤ length self.new.met.items) }
    {
        let Met { item, far } = self.met[next];
        let mut line = links.last(item);
        while let Some(place) = line {
            self.meet_new(ranks, ranks[from], links.parent(place), far + 1)?;
            line = links.previous(place);
        }
        Ok(())
    }

    // Finds the items of an item's rank from which lines lead to it. Nothing was found before.
    pub(crate) fn run(
        &mut self,
        links: &Links,
        ranks: &[usize],
        from: usize,
    ) -> Result<(), NoMemory>
        requires links { AreLinks (length ranks.now) links.now }
        requires from { from < length ranks.now }
        requires clear { IsClear (length ranks.now) self.old }
        ensures { OnOk result (IsSearched links.now.lines.items ranks.now from self.new) }
    {
        self.meet(from, 0)?;
        let mut next = 0;
        while next < self.met.len() {
            self.meet_parents(links, ranks, from, next)?;
            next += 1;
        }
        Ok(())
    }

    // Forgets what was found.
    pub(crate) fn clear(&mut self)
        requires { AreListed self.old }
        ensures { IsClear (length self.old.far.items) self.new }
    {
        while let Some(met) = self.met.pop() {
            self.far[met.item] = None;
        }
    }

    // Marks the items that this search and another one found.
    pub(crate) fn mark_both(&self, other: &Search, marks: &mut Vec<bool>)
        requires marks { (k : ℕ) → k < length self.now.met.items → (met_at self.now.met.items k).item < length marks.old.items }
        requires size { length other.now.far.items ≡ length marks.old.items }
        ensures { MarksBoth self.now other.now marks.old.items marks.new.items }
    {
        for met in &self.met {
            if other.far[met.item].is_some() {
                marks[met.item] = true;
            }
        }
    }
}
