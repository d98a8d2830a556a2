//! What is left of the supplies of an item.

ghost use Rattle.std.specs.Prelude.{◌≡◌, drop, slice_get};
ghost use Rattle.std.specs.Option.{option_map};
ghost use Rattle.mrp_peg.specs.Left.{amount_of_offer, offered_left, served};
ghost use Rattle.mrp_peg.specs.Matching.{amounts_offered};

use crate::matching::{Offered, less};
use mrp_item::Supply;
use mrp_qty::Qty;

// The supplies of an item from a place on; the first has what is left of it.
#[derive(Drop)]
pub struct SuppliesLeft {
    supplies: Vec<Supply>,
    place: usize,
}

impl SuppliesLeft {
    pub fn of(supplies: Vec<Supply>) -> SuppliesLeft
        ensures { offered_left result ≡ amounts_offered supplies.items }
    {
        SuppliesLeft { supplies, place: 0 }
    }

    // The first supply, with what is left of it.
    #[inline(always)]
    pub fn first(&self) -> Option<Offered>
        ensures { option_map amount_of_offer result ≡ slice_get (offered_left self.now) 0 }
    {
        match self.supplies.get(self.place) {
            Some(supply) => Some(Offered {
                source: supply.source,
                quantity: supply.quantity,
            }),
            None => None,
        }
    }

    // Takes pieces of the first supply, and goes on to the next once none are left.
    #[inline(always)]
    pub fn take(&mut self, quantity: Qty)
        ensures { offered_left self.new ≡ served quantity (offered_left self.old) }
    {
        if self.place < self.supplies.len() {
            let left = less(self.supplies[self.place].quantity, quantity);
            self.supplies[self.place].quantity = left;
            self.place += usize::from(left.value() == 0);
        }
    }

    // Goes on to the next supply.
    #[inline(always)]
    pub fn pass(&mut self)
        ensures { offered_left self.new ≡ drop 1 (offered_left self.old) }
    {
        if self.place < self.supplies.len() {
            self.place += 1;
        }
    }
}
