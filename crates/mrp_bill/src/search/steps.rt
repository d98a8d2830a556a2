//! The steps of the search.

ghost use Rattle.std.specs.Prelude.{◌≡◌, ◌<◌, ℕ, List, ◌∷◌, [], length, map, OnOk, IfOk, Ok, None, Some, MatchOption};
ghost use Rattle.mrp_bill.specs.Links.{IsRound, IsTrail, Leads};
ghost use Rattle.mrp_bill.specs.Grouped.{IsListed};
ghost use Rattle.mrp_bill.specs.Search.{Extends, IsBelow, IsSearch, IsSeen, Meets, item_at, met_at};

use super::{Met, Search};
use crate::groups::Grouped;
use mrp_qty::NoMemory;
use std::alloc::Global;

impl Search {
    // A search from an item.
    fn start(alloc: Global, parents: &Grouped<usize>, item: usize) -> Result<Search, NoMemory>
        requires { item < length parents.now }
        ensures search { IfOk result (IsSearch parents.now) }
        ensures first { IfOk result (λ search. item_at search.met.items 0 ≡ item) }
    {
        let seen = vec![in alloc; false; parents.count()]?;
        let mut search = Search {
            met: Vec::new(alloc),
            seen,
        };
        search.meet(item, 0)?;
        Ok(search)
    }

    // The item found at a place.
    fn item(&self, place: usize) -> usize
        requires place { place < length self.now.met.items }
        requires seen { IsSeen self.now.seen.items (item_at self.now.met.items place) }
        ensures item { result ≡ item_at self.now.met.items place }
        ensures within { result < length self.now.seen.items }
    {
        self.met[place].item
    }

    fn meet(&mut self, item: usize, below: usize) -> Result<(), NoMemory>
        requires { item < length self.old.seen.items }
        ensures { OnOk result (Meets self.old self.new item below) }
    {
        self.met.push(Met { item, below })?;
        self.seen[item] = true;
        Ok(())
    }

    // Adds the parents of the item at a place that were not found before.
    fn meet_parents(&mut self, parents: &Grouped<usize>, place: usize) -> Result<(), NoMemory>
        requires within { (p i : ℕ) → IsListed parents.now p i → p < length parents.now }
        requires search { IsSearch parents.now self.old }
        requires place { place < length self.old.met.items }
        ensures search { OnOk result (IsSearch parents.now self.new) }
        ensures extends { OnOk result (Extends self.old self.new) }
        ensures seen { OnOk result ((p : ℕ) → IsListed parents.now p (item_at self.old.met.items place) → IsSeen self.new.seen.items p) }
    {
        let item = self.item(place);
        for parent in parents.group(item) {
            if !self.seen[*parent] {
                self.meet(*parent, place)?;
            }
        }
        Ok(())
    }

    // From the item that was found first to the one at a place, and from there down again.
    fn path_down(&self, alloc: Global, from: usize) -> Result<Vec<usize>, NoMemory>
        requires some { from < length self.now.met.items }
        requires below { (k : ℕ) → 0 < k → k < length self.now.met.items → (met_at self.now.met.items k).below < k }
        ensures { IfOk result (λ path. (places : List ℕ) × IsTrail (IsBelow self.now.met.items) from places 0
            × (path.items ≡ item_at self.now.met.items 0 ∷ item_at self.now.met.items from ∷ map (item_at self.now.met.items) places)) }
    {
        let mut path = vec![in alloc; self.met[0].item, self.met[from].item]?;
        let mut at = from;
        while at > 0 {
            at = self.met[at].below;
            path.push(self.met[at].item)?;
        }
        Ok(path)
    }
}

// A path from an item down to itself, if there is one.
pub fn path_to_itself(
    alloc: Global,
    parents: &Grouped<usize>,
    item: usize,
) -> Result<Option<Vec<usize>>, NoMemory>
    requires within { (p i : ℕ) → IsListed parents.now p i → p < length parents.now }
    requires item { item < length parents.now }
    ensures { IfOk result (λ found. MatchOption found (Leads (IsListed parents.now) item item → ⊥) (λ path. IsRound (IsListed parents.now) item path.items)) }
{
    let mut search = Search::start(alloc, parents, item)?;
    let mut next = 0;
    while next < search.met.len() {
        let above = parents.group(search.item(next));
        if above.contains(&item) {
            return Ok(Some(search.path_down(alloc, next)?));
        }
        search.meet_parents(parents, next)?;
        next += 1;
    }
    Ok(None)
}
