//! A walk up through parents that leaves each item after the items above it that it visits.

ghost use Rattle.std.specs.Prelude.{◌<◌, All, IfOk};
ghost use Rattle.mrp_loops.specs.Links.{AreLinks};

use crate::links::Links;
use mrp_qty::NoMemory;
use std::alloc::Global;

// The items seen, the next line up from each, the items to go on from, and those that the walk has left.
#[derive(Drop)]
struct Walk {
    seen: Vec<bool>,
    next: Vec<Option<usize>>,
    stack: Vec<usize>,
    order: Vec<usize>,
}

impl Walk {
    ghost use Rattle.std.specs.Prelude.{◌≡◌, ◌≤◌, ◌<◌, IfOk, OnOk, length};
    ghost use Rattle.mrp_loops.specs.Links.{AreLinks};
    ghost use Rattle.mrp_loops.specs.Walk.{IsWalk, to_walk};

    fn start(alloc: Global, count: usize, links: &Links) -> Result<Walk, NoMemory>
        requires { AreLinks count links.now }
        ensures { IfOk result (IsWalk count (length links.now.lines.items)) }
    {
        Ok(Walk {
            seen: vec![in alloc; false; count]?,
            next: links.lasts(alloc)?,
            stack: Vec::new(alloc),
            order: Vec::new(alloc),
        })
    }

    // Goes on from an item later, if it is new.
    fn visit(&mut self, count: usize, links: &Links, item: usize) -> Result<(), NoMemory>
        requires walk { IsWalk count (length links.now.lines.items) self.old }
        requires item { item < count }
        ensures walk { OnOk result (IsWalk count (length links.now.lines.items) self.new) }
        ensures work { OnOk result (to_walk self.new ≤ to_walk self.old) }
    {
        if !self.seen[item] {
            self.stack.push(item)?;
            self.seen[item] = true;
        }
        Ok(())
    }

    // One step from an item: up by its next line, or the walk leaves it.
    fn step(&mut self, count: usize, links: &Links, item: usize) -> Result<(), NoMemory>
        requires links { AreLinks count links.now }
        requires walk { IsWalk count (length links.now.lines.items) self.old }
        requires item { item < count }
        ensures walk { OnOk result (IsWalk count (length links.now.lines.items) self.new) }
        ensures work { OnOk result (to_walk self.new ≤ to_walk self.old) }
    {
        match self.next[item] {
            Some(place) => {
                self.next[item] = links.previous(place);
                self.stack.push(item)?;
                self.visit(count, links, links.parent(place))
            }
            None => {
                self.order.push(item)?;
                Ok(())
            }
        }
    }

    // Walks until there is no item to go on from.
    fn finish(&mut self, count: usize, links: &Links) -> Result<(), NoMemory>
        requires links { AreLinks count links.now }
        requires walk { IsWalk count (length links.now.lines.items) self.old }
        ensures { OnOk result (IsWalk count (length links.now.lines.items) self.new) }
    {
        while let Some(item) = self.stack.pop() {
            self.step(count, links, item)?;
        }
        Ok(())
    }
}

// The items in the order in which a walk up from each leaves them. Each line is walked once.
pub(crate) fn order_of(alloc: Global, count: usize, up: &Links) -> Result<Vec<usize>, NoMemory>
    requires { AreLinks count up.now }
    ensures { IfOk result (λ order. All (λ item. item < count) order.items) }
{
    let mut walk = Walk::start(alloc, count, up)?;
    for item in 0..count {
        walk.visit(count, up, item)?;
        walk.finish(count, up)?;
    }
    Ok(walk.order)
}
