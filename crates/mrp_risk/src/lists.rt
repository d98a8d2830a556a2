//! The pegs of each order, as lists.

ghost use Rattle.std.specs.Prelude.{◌≡◌, ◌<◌, IfSome, length};
ghost use Rattle.mrp_risk.specs.PegLists.{last_of, last_after};

use crate::peg::Peg;
use mrp_qty::NoMemory;
use std::alloc::Global;

// The pegs that each order supplies: its last one, and for each peg the one before it of the same order.
#[derive(Drop)]
pub(crate) struct PegLists {
    last: Vec<Option<usize>>,
    previous: Vec<Option<usize>>,
}

// Notes that a peg is the last one so far of the order that supplies it, and tells the one before.
fn note_last(last: &mut Vec<Option<usize>>, supply: Option<usize>, place: usize) -> Option<usize>
    requires { IfSome supply (λ order. order < length last.old.items) }
    ensures before { result ≡ last_of last.old.items supply }
    ensures last { last.new.items ≡ last_after last.old.items supply place }
{
    match supply {
        Some(order) => {
            let before = last[order];
            last[order] = Some(place);
            before
        }
        None => None,
    }
}

impl PegLists {
    ghost use Rattle.std.specs.Prelude.{◌≡◌, ◌<◌, IfOk, length};
    ghost use Rattle.mrp_risk.specs.Chains.{AreWithin};
    ghost use Rattle.mrp_risk.specs.PegLists.{AreLists, last_at};

    // The lists of a number of orders.
    pub(crate) fn of(alloc: Global, orders: usize, pegs: &[Peg]) -> Result<PegLists, NoMemory>
        requires { AreWithin orders pegs.now }
        ensures { IfOk result (AreLists orders pegs.now) }
    {
        let mut last = vec![in alloc; None; orders]?;
        let mut previous = Vec::with_capacity(alloc, pegs.len())?;
        for (place, peg) in pegs.iter().enumerate() {
            let before = note_last(&mut last, peg.supply, place);
            previous.push(before)?;
        }
        Ok(PegLists { last, previous })
    }

    // The place of the last peg of an order.
    pub(crate) fn last(&self, order: usize) -> Option<usize>
        requires { order < length self.now.last.items }
        ensures { result ≡ last_at self.now.last.items order }
    {
        self.last[order]
    }

    // The place of the peg before this one of the same order.
    pub(crate) fn previous(&self, place: usize) -> Option<usize>
        requires { place < length self.now.previous.items }
        ensures { result ≡ last_at self.now.previous.items place }
    {
        self.previous[place]
    }
}
