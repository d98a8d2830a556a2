//! Ranks of items: items that need each other have one rank.

ghost use Rattle.std.specs.Prelude.{◌≡◌, ◌<◌, ℕ, All, false, length, slice_index_or, OnOk, IfOk};
ghost use Rattle.mrp_bill.specs.Grouped.{IsListed};

use crate::groups::Grouped;
use mrp_qty::NoMemory;
use std::alloc::Global;

// The ranks so far, and the items whose components are still to be visited.
#[derive(Drop)]
struct Ranking {
    seen: Vec<bool>,
    ranks: Vec<usize>,
    stack: Vec<usize>,
}

impl Ranking {
    ghost use Rattle.std.specs.Prelude.{◌≡◌, ◌<◌, ℕ, All, false, length, slice_index_or, OnOk};
    ghost use Rattle.mrp_bill.specs.Grouped.{IsListed};
    ghost use Rattle.mrp_bill.specs.Ranking.{IsRanking, to_do};

    // Gives an item its rank, and pushes it onto the stack.
    fn give(&mut self, item: usize, rank: usize) -> Result<(), NoMemory>
        requires ranking { IsRanking self.old }
        requires within { item < length self.old.seen.items }
        requires unseen { slice_index_or self.old.seen.items item false ≡ false }
        ensures ranking { OnOk result (IsRanking self.new) }
        ensures size { OnOk result (length self.new.seen.items ≡ length self.old.seen.items) }
        ensures same { OnOk result (to_do self.new ≡ to_do self.old) }
    {
        self.stack.push(item)?;
        self.seen[item] = true;
        self.ranks[item] = rank;
        Ok(())
    }

    // Gives a rank to those of these items that have none.
    fn give_all(&mut self, items: &[usize], rank: usize) -> Result<(), NoMemory>
        requires ranking { IsRanking self.old }
        requires within { All (λ item. item < length self.old.seen.items) items.now }
        ensures ranking { OnOk result (IsRanking self.new) }
        ensures size { OnOk result (length self.new.seen.items ≡ length self.old.seen.items) }
        ensures same { OnOk result (to_do self.new ≡ to_do self.old) }
    {
        for item in items {
            if !self.seen[*item] {
                self.give(*item, rank)?;
            }
        }
        Ok(())
    }

    // Gives a rank to the items that have none and are reached down through components.
    fn spread(&mut self, children: &Grouped<usize>, rank: usize) -> Result<(), NoMemory>
        requires ranking { IsRanking self.old }
        requires size { length children.now ≡ length self.old.seen.items }
        requires within { (c i : ℕ) → IsListed children.now c i → c < length children.now }
        ensures ranking { OnOk result (IsRanking self.new) }
        ensures size { OnOk result (length self.new.seen.items ≡ length self.old.seen.items) }
    {
        while let Some(item) = self.stack.pop() {
            self.give_all(children.group(item), rank)?;
        }
        Ok(())
    }
}

// Ranks that do not rise from a parent to its component, and that items share exactly where they need
// each other, if the order is the one in which a walk up through parents left the items (the second
// pass of Kosaraju's search for strong components). Only speed depends on that.
pub fn ranks_of(
    alloc: Global,
    children: &Grouped<usize>,
    order: &[usize],
) -> Result<Vec<usize>, NoMemory>
    requires within { (c i : ℕ) → IsListed children.now c i → c < length children.now }
    requires order { All (λ i. i < length children.now) order.now }
    ensures { IfOk result (λ ranks. length ranks.items ≡ length children.now) }
{
    let mut ranking = Ranking {
        seen: vec![in alloc; false; children.count()]?,
        ranks: vec![in alloc; 0; children.count()]?,
        stack: Vec::new(alloc),
    };
    for (rank, item) in order.iter().rev().enumerate() {
        if !ranking.seen[*item] {
            ranking.give(*item, rank)?;
            ranking.spread(children, rank)?;
        }
    }
    Ok(ranking.ranks)
}
