//! Groups of pegs: one supply serves requirements of one week whole.

ghost use Rattle.std.specs.Prelude.{◌≡◌, ◌<◌, ◌≤◌, IsTrue};
ghost use Rattle.mrp_peg.specs.Groups.{AreWhole};

use crate::matching::{Requirement, less};
use mrp_item::Supplied;
use mrp_qty::Qty;

/// Pegs of an item in order, each of one supply for a whole requirement of one week. The walk that passed them
/// has the requirements, each with the pieces of its peg.
#[derive(Clone, Copy)]
pub struct PegGroup {
    /// The item, by its place in the table.
    pub item: usize,
    /// The week in which the pieces are needed, from 1.
    pub week: u16,
    /// The supply.
    pub supply: Supplied,
    // Where the walk has the requirements.
    pub(crate) first: usize,
    pub(crate) past: usize,
}

impl PegGroup {
    // No pegs of an item.
    pub(crate) fn none(item: usize) -> PegGroup
        ensures { (result.first ≡ 0) × (result.past ≡ 0) }
    {
        PegGroup {
            item,
            week: 0,
            supply: Supplied::Stock,
            first: 0,
            past: 0,
        }
    }
}

// The most pegs of a group.
const MOST: usize = 64;

// Whether a requirement is of a week, and so many pieces are enough for it.
#[inline(always)]
fn is_whole(requirement: &Requirement, week: u16, pieces: u64) -> bool
    ensures week { IsTrue result → requirement.now.need.week ≡ week }
    ensures some { IsTrue result → 0 < requirement.now.quantity }
    ensures enough { IsTrue result → requirement.now.quantity ≤ pieces }
{
    let quantity = requirement.quantity.value();
    requirement.need.week == week && 0 < quantity && quantity <= pieces
}

// How many of the first requirements are of a week and can all be served whole with so many pieces, and their sum.
#[inline(always)]
pub fn count_whole(needs: &[Requirement], week: u16, pieces: Qty) -> (usize, Qty)
    ensures { AreWhole needs.now week pieces result.0 result.1 }
{
    let most = needs.len().min(MOST);
    let mut left = pieces.value();
    let mut count = 0;
    while count < most && is_whole(&needs[count], week, left) {
        left -= needs[count].quantity.value();
        count += 1;
    }
    (count, less(pieces, Qty::new(left).unwrap()))
}
