//! Ranks of items that never rise from a parent to its component: so a loop has one rank.

ghost use Rattle.std.specs.Prelude.{◌≡◌, ◌<◌, ℕ, All, IfOk, length, map, true};
ghost use Rattle.mrp_loops.specs.Links.{AreLinks, turned};
ghost use Rattle.mrp_loops.specs.Needs.{AreWithin};
ghost use Rattle.mrp_loops.specs.Ranks.{NeverRise};

use crate::line::Line;
use crate::links::Links;
use mrp_qty::NoMemory;
use std::alloc::Global;

// The ranks so far, and the items whose components are still to be visited.
#[derive(Drop)]
struct Ranking {
    seen: Vec<bool>,
    ranks: Vec<usize>,
    stack: Vec<usize>,
}

impl Ranking {
    ghost use Rattle.std.specs.Prelude.{◌≡◌, ◌<◌, IfOk, OnOk};
    ghost use Rattle.mrp_loops.specs.Links.{AreLinks};
    ghost use Rattle.mrp_loops.specs.Ranks.{IsRanking, to_rank};

    fn start(alloc: Global, count: usize) -> Result<Ranking, NoMemory>
        ensures { IfOk result (IsRanking count) }
    {
        Ok(Ranking {
            seen: vec![in alloc; false; count]?,
            ranks: vec![in alloc; 0; count]?,
            stack: Vec::new(alloc),
        })
    }

    // Gives an item a rank, if it has none.
    fn give(&mut self, count: usize, item: usize, rank: usize) -> Result<(), NoMemory>
        requires ranking { IsRanking count self.old }
        requires item { item < count }
        ensures ranking { OnOk result (IsRanking count self.new) }
        ensures same { OnOk result (to_rank self.new ≡ to_rank self.old) }
    {
        if !self.seen[item] {
            self.stack.push(item)?;
            self.seen[item] = true;
            self.ranks[item] = rank;
        }
        Ok(())
    }

    // Gives a rank to those components of an item that have none.
    fn give_components(
        &mut self,
        count: usize,
        down: &Links,
        item: usize,
        rank: usize,
    ) -> Result<(), NoMemory>
        requires down { AreLinks count down.now }
        requires ranking { IsRanking count self.old }
        requires item { item < count }
        ensures ranking { OnOk result (IsRanking count self.new) }
        ensures same { OnOk result (to_rank self.new ≡ to_rank self.old) }
    {
        let mut next = down.last(item);
        while let Some(place) = next {
            self.give(count, down.parent(place), rank)?;
            next = down.previous(place);
        }
        Ok(())
    }

    // Gives a rank to the items that have none and are reached down through components.
    fn spread(&mut self, count: usize, down: &Links, rank: usize) -> Result<(), NoMemory>
        requires down { AreLinks count down.now }
        requires ranking { IsRanking count self.old }
        ensures { OnOk result (IsRanking count self.new) }
    {
        while let Some(item) = self.stack.pop() {
            self.give_components(count, down, item, rank)?;
        }
        Ok(())
    }
}

// Ranks that items share exactly where they need one another, if a walk up through parents left the
// items in this order (the second pass of Kosaraju's search for strong components).
fn ranks_by(
    alloc: Global,
    count: usize,
    down: &Links,
    order: &[usize],
) -> Result<Vec<usize>, NoMemory>
    requires down { AreLinks count down.now }
    requires order { All (λ item. item < count) order.now }
    ensures { IfOk result (λ ranks. length ranks.items ≡ count) }
{
    let mut ranking = Ranking::start(alloc, count)?;
    for (rank, item) in order.iter().rev().enumerate() {
        ranking.give(count, *item, rank)?;
        ranking.spread(count, down, rank)?;
    }
    Ok(ranking.ranks)
}

// Whether no rank rises from a parent to its component.
fn never_rise(lines: &[Line], ranks: &[usize]) -> bool
    requires { AreWithin (length ranks.now) lines.now }
    ensures { result ≡ true → NeverRise lines.now ranks.now }
{
    for line in lines {
        if ranks[line.parent] < ranks[line.component] {
            return false;
        }
    }
    true
}

// Ranks that never rise from a parent to its component. Each set of items that need one another has a
// rank of its own, if a walk up through parents left the items in this order, which is why the search for
// sets is linear in items and lines. Correctness does not depend on that: should a rank rise, all items
// share one.
pub(crate) fn ranks_of(
    alloc: Global,
    count: usize,
    lines: &[Line],
    down: &Links,
    order: &[usize],
) -> Result<Vec<usize>, NoMemory>
    requires lines { AreWithin count lines.now }
    requires down { AreLinks count down.now }
    requires order { All (λ item. item < count) order.now }
    ensures size { IfOk result (λ ranks. length ranks.items ≡ count) }
    ensures never_rise { IfOk result (λ ranks. NeverRise lines.now ranks.items) }
{
    let ranks = ranks_by(alloc, count, down, order)?;
    if never_rise(lines, &ranks) {
        Ok(ranks)
    } else {
        Ok(vec![in alloc; 0; count]?)
    }
}
