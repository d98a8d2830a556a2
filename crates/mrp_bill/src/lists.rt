//! A list for each place: for each item the lines to it, its parents, its components.

ghost use Rattle.std.specs.Prelude.{◌≡◌, ◌<◌, [], ℕ, length, OnOk, IfOk};
ghost use Rattle.mrp_bill.specs.Lists.{listed, Appends};

use crate::groups::Grouped;
use mrp_qty::NoMemory;
use std::alloc::Global;

// For each item the places of the lines to it, its parents and its components.
#[derive(Drop)]
pub struct Lists {
    pub lines: Grouped<usize>,
    pub parents: Grouped<usize>,
    pub children: Grouped<usize>,
}

/// A number of empty lists.
pub fn empty_lists<X: Drop>(alloc: Global, count: usize) -> Result<Vec<Vec<X>>, NoMemory>
    ensures size { IfOk result (λ lists. length lists.items ≡ count) }
    ensures empty { IfOk result (λ lists. (i : ℕ) → listed lists.items i ≡ []) }
{
    let mut lists = Vec::with_capacity(alloc, count)?;
    for _ in 0..count {
        lists.push(Vec::new(alloc))?;
    }
    Ok(lists)
}

/// Appends an element to the list at a place.
pub fn append<X: Drop>(lists: &mut Vec<Vec<X>>, at: usize, x: X) -> Result<(), NoMemory>
    requires { at < length lists.old.items }
    ensures { OnOk result (Appends lists.old.items lists.new.items at x) }
{
    lists[at].push(x)?;
    Ok(())
}

mod all;

pub use all::lists_of;
