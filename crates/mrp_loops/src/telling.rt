//! The loops of a bill.

ghost use Rattle.std.specs.Prelude.{◌≡◌, ◌<◌, ℕ, All, IfOk, length};
ghost use Rattle.mrp_loops.specs.Links.{AreLinks};
ghost use Rattle.mrp_loops.specs.Loops.{AreRising, IsTold, IsWayBack, IsWithin, items_of};
ghost use Rattle.mrp_loops.specs.Needs.{AreWithin, IsFirst, Needs};

use crate::falling::{always_falls, table_order};
use crate::line::{Line, Loop};
use crate::links::Links;
use crate::ranks::ranks_of;
use crate::search::Search;
use crate::walk::order_of;
use crate::way::way_back;
use mrp_qty::NoMemory;
use std::alloc::Global;

// The loops so far, the items in their sets, and searches up and down from an item.
#[derive(Drop)]
struct Telling {
    above: Search,
    below: Search,
    told: Vec<bool>,
    loops: Vec<Loop>,
}

impl Telling {
    ghost use Rattle.std.specs.Prelude.{◌≡◌, ◌+◌, ◌<◌, ℕ, List, IfOk, OnOk, length, map};
    ghost use Rattle.mrp_loops.specs.declared.line.Line.{Line};
    ghost use Rattle.mrp_loops.specs.Links.{AreLinks, turned};
    ghost use Rattle.mrp_loops.specs.Needs.{AreWithin};
    ghost use Rattle.mrp_loops.specs.Ranks.{NeverRise};
    ghost use Rattle.mrp_loops.specs.Search.{AreNearest, IsClear};
    ghost use Rattle.mrp_loops.specs.Telling.{IsTelling, TellsIfAny, TellsLoop};

    // Nothing is told yet.
    fn start(alloc: Global, count: usize) -> Result<Telling, NoMemory>
        ensures { IfOk result (λ telling. (lines : List Line) → IsTelling lines count 0 telling) }
    {
        Ok(Telling {
            above: Search::start(alloc, count)?,
            below: Search::start(alloc, count)?,
            told: vec![in alloc; false; count]?,
            loops: Vec::new(alloc),
        })
    }

    // Tells the loop of an item, and marks the items of its set: those that lead to it, as they were
    // found, and to which it leads.
    fn tell(
        &mut self,
        down: &Links,
        ranks: &[usize],
        item: usize,
        way: Vec<usize>,
    ) -> Result<(), NoMemory>
        requires down { AreLinks (length ranks.now) down.now }
        requires item { item < length ranks.now }
        requires above { length self.old.above.far.items ≡ length ranks.now }
        requires below { IsClear (length ranks.now) self.old.below }
        requires told { length self.old.told.items ≡ length ranks.now }
        ensures { OnOk result ((lines : List Line) → down.now.lines.items ≡ map turned lines → NeverRise lines ranks.now → TellsLoop lines (length ranks.now) item way self.old self.new) }
    {
        self.below.run(down, ranks, item)?;
        self.below.mark_both(&self.above, &mut self.told);
        self.below.clear();
        self.loops.push(Loop { item, way })?;
        Ok(())
    }

    // Tells the loop of an item, if there is one. The search up from it is over.
    fn tell_if_any(
        &mut self,
        alloc: Global,
        lines: &[Line],
        down: &Links,
        ranks: &[usize],
        item: usize,
    ) -> Result<(), NoMemory>
        requires lines { AreWithin (length ranks.now) lines.now }
        requires down { AreLinks (length ranks.now) down.now }
        requires turned { down.now.lines.items ≡ map turned lines.now }
        requires ranks { NeverRise lines.now ranks.now }
        requires item { item < length ranks.now }
        requires above { length self.old.above.far.items ≡ length ranks.now }
        requires far { AreNearest lines.now item self.old.above.far.items }
        requires below { IsClear (length ranks.now) self.old.below }
        requires told { length self.old.told.items ≡ length ranks.now }
        ensures { OnOk result (TellsIfAny lines.now (length ranks.now) item self.old self.new) }
    {
        match way_back(alloc, lines, down, self.above.far(), item)? {
            Some(way) => self.tell(down, ranks, item, way),
            None => Ok(()),
        }
    }

    // Tells the loop that begins at an item, if there is one.
    fn look_at(
        &mut self,
        alloc: Global,
        lines: &[Line],
        up: &Links,
        down: &Links,
        ranks: &[usize],
        item: usize,
    ) -> Result<(), NoMemory>
        requires lines { AreWithin (length ranks.now) lines.now }
        requires up { AreLinks (length ranks.now) up.now }
        requires down { AreLinks (length ranks.now) down.now }
        requires same { up.now.lines.items ≡ lines.now }
        requires turned { down.now.lines.items ≡ map turned lines.now }
        requires ranks { NeverRise lines.now ranks.now }
        requires item { item < length ranks.now }
        requires telling { IsTelling lines.now (length ranks.now) item self.old }
        ensures { OnOk result (IsTelling lines.now (length ranks.now) (item + 1) self.new) }
    {
        if self.told[item] {
            return Ok(());
        }
        self.above.run(up, ranks, item)?;
        self.tell_if_any(alloc, lines, down, ranks, item)?;
        self.above.clear();
        Ok(())
    }
}

// The loops of a bill, by searches from the items, which a walk up through parents left in this order.
fn search_all(
    alloc: Global,
    count: usize,
    lines: &[Line],
    up: &Links,
    order: &[usize],
) -> Result<Vec<Loop>, NoMemory>
    requires lines { AreWithin count lines.now }
    requires up { AreLinks count up.now }
    requires same { up.now.lines.items ≡ lines.now }
    requires order { All (λ item. item < count) order.now }
    ensures within { IfOk result (λ loops. All (IsWithin count (length lines.now)) loops.items) }
    ensures ways { IfOk result (λ loops. All (λ told. IsWayBack lines.now told.item told.way.items) loops.items) }
    ensures firsts { IfOk result (λ loops. All (IsFirst lines.now) (items_of loops.items)) }
    ensures rising { IfOk result (λ loops. AreRising (items_of loops.items)) }
    ensures all { IfOk result (λ loops. (item : ℕ) → Needs lines.now item item → IsTold lines.now (items_of loops.items) item) }
{
    let down = Links::down(alloc, count, lines)?;
    let ranks = ranks_of(alloc, count, lines, &down, order)?;
    let mut telling = Telling::start(alloc, count)?;
    for item in 0..count {
        telling.look_at(alloc, lines, up, &down, &ranks, item)?;
    }
    Ok(telling.loops)
}

/// The loops of a bill, in table order: for each set of items that need one another, and for each item
/// that needs itself, the first item of the set and the way from it back to it with the fewest lines. Of
/// several such ways it is the one whose first differing line is earlier.
///
/// Items are named by their places in the table, from 0, and there are `count` of them. This is linear in
/// items and lines.
///
/// Errors: `NoMemory` if an allocation fails.
pub fn loops(alloc: Global, count: usize, lines: &[Line]) -> Result<Vec<Loop>, NoMemory>
    requires { AreWithin count lines.now }
    ensures within { IfOk result (λ loops. All (IsWithin count (length lines.now)) loops.items) }
    ensures ways { IfOk result (λ loops. All (λ told. IsWayBack lines.now told.item told.way.items) loops.items) }
    ensures firsts { IfOk result (λ loops. All (IsFirst lines.now) (items_of loops.items)) }
    ensures rising { IfOk result (λ loops. AreRising (items_of loops.items)) }
    ensures all { IfOk result (λ loops. (item : ℕ) → Needs lines.now item item → IsTold lines.now (items_of loops.items) item) }
{
    // Items often stand above their components, which is soon seen.
    let table = table_order(alloc, count)?;
    let leads_on = always_falls(alloc, count, lines, &table)?;
    if leads_on {
        return Ok(Vec::new(alloc));
    }
    let up = Links::up(alloc, count, lines)?;
    let order = order_of(alloc, count, &up)?;
    let falls = always_falls(alloc, count, lines, &order)?;
    if falls {
        return Ok(Vec::new(alloc));
    }
    search_all(alloc, count, lines, &up, &order)
}
