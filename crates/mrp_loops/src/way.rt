//! The shortest way from an item back to it.

ghost use Rattle.std.specs.Prelude.{◌≡◌, ◌<◌, IfOk, MatchOption, length, map};
ghost use Rattle.mrp_loops.specs.Best.{IsBestLine};
ghost use Rattle.mrp_loops.specs.Links.{AreLinks, turned};
ghost use Rattle.mrp_loops.specs.Loops.{IsWayBack};
ghost use Rattle.mrp_loops.specs.Needs.{AreWithin, Needs};
ghost use Rattle.mrp_loops.specs.Search.{AreNearest};

use crate::best::best_line;
use crate::line::Line;
use crate::links::Links;
use mrp_qty::NoMemory;
use std::alloc::Global;

// The way back that begins with a line, and goes on to a nearest component each time.
fn way_on(
    alloc: Global,
    lines: &[Line],
    down: &Links,
    far: &[Option<usize>],
    item: usize,
    first: usize,
) -> Result<Vec<usize>, NoMemory>
    requires lines { AreWithin (length far.now) lines.now }
    requires down { AreLinks (length far.now) down.now }
    requires turned { down.now.lines.items ≡ map turned lines.now }
    requires item { item < length far.now }
    requires far { AreNearest lines.now item far.now }
    requires first { IsBestLine down.now.lines.items far.now item first }
    ensures { IfOk result (λ way. IsWayBack lines.now item way.items) }
{
    let mut way = vec![in alloc; first]?;
    let mut at = lines[first].component;
    while at != item {
        match best_line(down, far, at) {
            Some(place) => {
                way.push(place)?;
                at = lines[place].component;
            }
            None => unreachable!(),
        }
    }
    Ok(way)
}

// The way from an item back to it with the fewest lines, if there is one. Of several it is the one whose
// first differing line is earlier.
pub(crate) fn way_back(
    alloc: Global,
    lines: &[Line],
    down: &Links,
    far: &[Option<usize>],
    item: usize,
) -> Result<Option<Vec<usize>>, NoMemory>
    requires lines { AreWithin (length far.now) lines.now }
    requires down { AreLinks (length far.now) down.now }
    requires turned { down.now.lines.items ≡ map turned lines.now }
    requires item { item < length far.now }
    requires far { AreNearest lines.now item far.now }
    ensures { IfOk result (λ found. MatchOption found (Needs lines.now item item → ⊥) (λ way. IsWayBack lines.now item way.items)) }
{
    match best_line(down, far, item) {
        Some(first) => Ok(Some(way_on(alloc, lines, down, far, item, first)?)),
        None => Ok(None),
    }
}
