//! The first item that needs itself.

ghost use Rattle.std.specs.Prelude.{◌≡◌, ◌≢◌, ◌<◌, ◌≤◌, ℕ, All, true, false, length, slice_index, IfOk, MatchOption};
ghost use Rattle.mrp_bill.specs.Links.{IsFirstRound, IsRound, Leads};
ghost use Rattle.mrp_bill.specs.Grouped.{IsListed};

use super::steps::path_to_itself;
use crate::groups::Grouped;
use crate::ranks::ranks_of;
use mrp_qty::NoMemory;
use std::alloc::Global;

// Whether an item has a parent of a rank.
fn has_rank(parents: &[usize], ranks: &[usize], rank: usize) -> bool
    requires { All (λ p. p < length ranks.now) parents.now }
    ensures { result ≡ false → All (λ p. slice_index ranks.now p ≢ rank) parents.now }
{
    for parent in parents {
        if ranks[*parent] == rank {
            return true;
        }
    }
    false
}

// Whether an item has a parent of a lesser rank.
fn has_lesser_rank(parents: &[usize], ranks: &[usize], rank: usize) -> bool
    requires { All (λ p. p < length ranks.now) parents.now }
    ensures { result ≡ false → All (λ p. rank ≤ slice_index ranks.now p) parents.now }
{
    for parent in parents {
        if ranks[*parent] < rank {
            return true;
        }
    }
    false
}

// Whether no rank rises from a parent to its component.
fn never_rise(parents: &Grouped<usize>, ranks: &[usize]) -> bool
    requires within { (p i : ℕ) → IsListed parents.now p i → p < length parents.now }
    requires size { length ranks.now ≡ length parents.now }
    ensures { result ≡ true → (p i : ℕ) → IsListed parents.now p i → slice_index ranks.now i ≤ slice_index ranks.now p }
{
    for item in 0..parents.count() {
        if has_lesser_rank(parents.group(item), ranks, ranks[item]) {
            return false;
        }
    }
    true
}

// A path from an item down to itself, if there is one. If the ranks never rise from a parent to its
// component, an item all of whose parents have another rank, so a greater one, needs no search.
fn path_by_ranks(
    alloc: Global,
    parents: &Grouped<usize>,
    ranks: &[usize],
    never_rise: bool,
    item: usize,
) -> Result<Option<Vec<usize>>, NoMemory>
    requires within { (p i : ℕ) → IsListed parents.now p i → p < length parents.now }
    requires size { length ranks.now ≡ length parents.now }
    requires ranks { never_rise ≡ true → (p i : ℕ) → IsListed parents.now p i → slice_index ranks.now i ≤ slice_index ranks.now p }
    requires item { item < length parents.now }
    ensures { IfOk result (λ found. MatchOption found (Leads (IsListed parents.now) item item → ⊥) (λ path. IsRound (IsListed parents.now) item path.items)) }
{
    if never_rise && !has_rank(parents.group(item), ranks, ranks[item]) {
        return Ok(None);
    }
    path_to_itself(alloc, parents, item)
}

// A path from the first item that needs itself down to itself, if there is such an item.
//
// The ranks make this linear in items and lines. An item all of whose parents have a greater rank is
// above no item of its own rank, so it cannot need itself, and no search is made. An item with a parent
// of its own rank needs itself if the ranks are those of the strong components, so the first search
// finds a path. Correctness does not depend on the ranks: if a rank rises, every item is searched, and
// after a search that finds nothing the next item is searched.
pub fn first_loop(
    alloc: Global,
    parents: &Grouped<usize>,
    children: &Grouped<usize>,
    order: &[usize],
) -> Result<Vec<usize>, NoMemory>
    requires parents { (p i : ℕ) → IsListed parents.now p i → p < length parents.now }
    requires children { (c i : ℕ) → IsListed children.now c i → c < length children.now }
    requires size { length children.now ≡ length parents.now }
    requires order { All (λ i. i < length children.now) order.now }
    requires some { (i : ℕ) × Leads (IsListed parents.now) i i }
    ensures { IfOk result (λ path. (i : ℕ) × IsFirstRound (IsListed parents.now) i × IsRound (IsListed parents.now) i path.items) }
{
    let ranks = ranks_of(alloc, children, order)?;
    let never_rise = never_rise(parents, &ranks);
    for item in 0..parents.count() {
        match path_by_ranks(alloc, parents, &ranks, never_rise, item)? {
            Some(path) => return Ok(path),
            None => {}
        }
    }
    unreachable!()
}
