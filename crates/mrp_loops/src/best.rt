//! The line to an item from the nearest parent.

ghost use Rattle.std.specs.Prelude.{◌<◌, MatchOption, length};
ghost use Rattle.mrp_loops.specs.Best.{HasNoLine, IsBestLine, IsBetter};
ghost use Rattle.mrp_loops.specs.Links.{AreLinks};

use crate::links::Links;

// The best line so far, and how far its parent is.
#[derive(Clone, Copy)]
struct Best {
    far: usize,
    place: usize,
}

// The better one of the best line so far and an earlier one: that of the nearer parent, or else the
// earlier.
fn better(best: Option<Best>, far: Option<usize>, place: usize) -> Option<Best>
    ensures { IsBetter best far place result }
{
    match (best, far) {
        (_, None) => best,
        (None, Some(far)) => Some(Best { far, place }),
        (Some(old), Some(far)) => {
            if old.far < far {
                best
            } else {
                Some(Best { far, place })
            }
        }
    }
}

// The line to an item whose parent is nearest, and of several the earliest.
pub(crate) fn best_line(links: &Links, far: &[Option<usize>], item: usize) -> Option<usize>
    requires links { AreLinks (length far.now) links.now }
    requires item { item < length far.now }
    ensures { MatchOption result (HasNoLine links.now.lines.items far.now item) (IsBestLine links.now.lines.items far.now item) }
{
    let mut best = None;
    let mut line = links.last(item);
    while let Some(place) = line {
        best = better(best, far[links.parent(place)], place);
        line = links.previous(place);
    }
    match best {
        Some(best) => Some(best.place),
        None => None,
    }
}
