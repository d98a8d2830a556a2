//! The outcomes of an item's parents, wherever they are kept.

ghost use Rattle.std.specs.Prelude.{◌≡◌, ◌≤◌, ◌<◌, ℕ, length, slice_index};
ghost use Rattle.mrp_item.specs.Inputs.{Inputs};
ghost use Rattle.mrp_item.specs.Made.{item_from};
ghost use Rattle.mrp_item.specs.ParentOutcomes.{IsListed};
ghost use Rattle.mrp_item.specs.Places.{ItemOf};

use crate::outcome::Outcome;

/// Where the outcomes of an item's parents are kept. The item is planned from them there, and none is copied.
pub trait ParentOutcomes {
    // The outcome of this item, of these inputs, is there.
    ghost has: { Self → ItemOf → Type 0 };

    /// The outcome of an item, by its place in the table. The caller guarantees that it is there.
    fn outcome(&self, item: usize) -> &Outcome
        requires { (s : Inputs) × has self.now (item_from s item) }
        ensures { (s : Inputs) → has self.now (item_from s item) → result.now ≡ item_from s item };
}

// Outcomes in a list, and beside it their items, which rise.
#[derive(Drop)]
pub struct Listed<'a> {
    pub items: &'a [usize],
    pub outcomes: &'a [Outcome],
}

impl<'a> ParentOutcomes for Listed<'a> {
    ghost has = { λ list o. IsListed list.items.now list.outcomes.now o };

    fn outcome(&self, item: usize) -> &Outcome {
        &self.outcomes[place_of(self.items, item)]
    }
}

// The place of a number in rising numbers that contain it.
fn place_of(numbers: &[usize], number: usize) -> usize
    requires rises { (i j : ℕ) → i ≤ j → j < length numbers.now → slice_index numbers.now i ≤ slice_index numbers.now j }
    requires there { (k : ℕ) × (k < length numbers.now) × (slice_index numbers.now k ≡ number) }
    ensures within { result < length numbers.now }
    ensures found { slice_index numbers.now result ≡ number }
{
    match numbers.binary_search(&number) {
        Ok(place) => place,
        Err(_) => 0,
    }
}
