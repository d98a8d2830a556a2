//! Outcomes of all items of a shop, item by item.

ghost use Rattle.std.specs.Prelude.{◌≡◌, ◌<◌, IfOk};
ghost use Rattle.std.specs.List.{range_with_len};
ghost use Rattle.mrp_item.specs.Inputs.{count};
ghost use Rattle.mrp_item.specs.Made.{all_from, items_from, parents_from};

use mrp_item::{Inputs, Outcome, plan_item};
use std::alloc::Global;
use std::sync::Arc;
use std::test::Fail;

// Copies of the outcomes of an item's parents, which come before it.
pub fn parents_of(
    alloc: Global,
    inputs: &Inputs,
    before: &[Outcome],
    item: usize,
) -> Result<Vec<Outcome>, Fail>
    requires item { item < count inputs.now }
    requires before { before.now ≡ items_from inputs.now (range_with_len 0 item) }
    ensures { IfOk result (λ parents. parents.items ≡ parents_from inputs.now item) }
{
    let parents = inputs.shop().parents(item);
    let mut copies = Vec::new(alloc);
    for parent in parents {
        if *parent >= before.len() {
            return Err(Fail::from("a parent behind its component"));
        }
        let copy = before[*parent].copy()?;
        copies.push(copy)?;
    }
    Ok(copies)
}

// The outcomes of all items of a shop in whose table parents come before their components.
pub fn outcomes_of(alloc: Global, inputs: &Arc<Inputs>) -> Result<Vec<Outcome>, Fail>
    ensures { IfOk result (λ all. all.items ≡ all_from inputs.now.value) }
{
    let items = inputs.shop().tables().items().len();
    let mut all = Vec::new(alloc);
    for item in 0..items {
        let parents = parents_of(alloc, inputs, &all, item)?;
        let outcome = plan_item(alloc, inputs, item, &parents)?;
        all.push(outcome)?;
    }
    Ok(all)
}
