//! The items that are planned so far, parents before their components.

ghost use Rattle.std.specs.Prelude.{◌≡◌, ◌≢◌, ◌<◌, ℕ, All, Some, None, IfOk, IfErr, IsSome, OnOk, OnErr, map, replicate, set};
ghost use Rattle.mrp_item.specs.Inputs.{count};
ghost use Rattle.mrp_item.specs.Made.{all_from, item_from};
ghost use Rattle.mrp_explode.specs.Finished.{Finishes, IsFinished, IsReady};
ghost use Rattle.mrp_explode.specs.Explosion.{Explodes};

use crate::fault::RunFault;
use mrp_item::{Inputs, Outcome, ParentOutcomes, Plan, plan_among};
use mrp_qty::NoMemory;
use std::alloc::Global;
use std::marker::Model;
use std::sync::Arc;

// The outcomes of the items that are planned so far, each at its item's place in the table.
#[derive(Drop)]
pub struct Finished {
    inputs: Arc<Inputs>,
    outcomes: Vec<Option<Outcome>>,
}

impl Model for Finished {
    ghost use Rattle.mrp_board.specs.BoardState.{AreOwn};
    ghost use Rattle.mrp_explode.specs.Finished.{Progress};

    ghost Value = { Progress };

    ghost view = { λ f. record { inputs = f.inputs.value; outcomes = f.outcomes.items } };

    ghost invariant = { λ f. AreOwn f.inputs.value f.outcomes.items };
}

// The fault `TooLarge` with the first item that is over.
fn too_large(item: usize) -> RunFault
    ensures { result ≡ RunFault.TooLarge item }
{
    RunFault::TooLarge { item }
}

/// The plan that the outcomes of all items make, as [`Plan::of`] does. It does not allocate.
///
/// Errors: `TooLarge` with the first item in table order that is over.
pub fn plan_from(inputs: Arc<Inputs>, outcomes: Vec<Outcome>) -> Result<Plan, RunFault>
    requires { outcomes.items ≡ all_from inputs.value }
    ensures plan { Explodes inputs.value result }
    ensures told { IfErr result (λ fault. fault ≢ RunFault.NoMemory) }
{
    match Plan::of(inputs, outcomes) {
        Ok(plan) => Ok(plan),
        Err(item) => Err(too_large(item)),
    }
}

// A new reference to what items are planned from.
pub(crate) fn share(inputs: &Arc<Inputs>) -> Result<Arc<Inputs>, NoMemory>
    ensures { IfOk result (λ shared. shared.value ≡ inputs.now.value) }
{
    Ok(inputs.clone()?)
}

/// What is in a list of places, in their order. The caller guarantees that no place is empty.
///
/// Errors: `NoMemory` if an allocation fails.
pub fn out_of_places<M: Drop>(alloc: Global, places: Vec<Option<M>>) -> Result<Vec<M>, NoMemory>
    requires { All IsSome places.items }
    ensures { IfOk result (λ all. places.items ≡ map Some all.items) }
{
    let mut all = Vec::with_capacity(alloc, places.len())?;
    for place in places {
        match place {
            Some(held) => all.push(held)?,
            None => unreachable!(),
        }
    }
    Ok(all)
}

impl ParentOutcomes for Finished {
    ghost has = { λ f o. (f.inputs ≡ o.inputs) × IsFinished f o.item };

    fn outcome(&self, item: usize) -> &Outcome {
        match self.outcomes.get(item) {
            Some(Some(outcome)) => outcome,
            _ => unreachable!(),
        }
    }
}

impl Finished {
    // The state in which no item is planned yet.
    //
    // Errors: `NoMemory` if an allocation fails, or a reference count cannot rise.
    pub(crate) fn new(alloc: Global, inputs: &Arc<Inputs>) -> Result<Finished, NoMemory>
        ensures inputs { IfOk result (λ f. f.inputs ≡ inputs.now.value) }
        ensures none { IfOk result (λ f. f.outcomes ≡ replicate (count inputs.now.value) None) }
    {
        let inputs = inputs.clone()?;
        let count = inputs.shop().tables().items().len();
        let mut outcomes = Vec::with_capacity(alloc, count)?;
        for _ in 0..count {
            outcomes.push(None)?;
        }
        Ok(Finished { inputs, outcomes })
    }

    // The outcome of planning an item whose parents are finished.
    //
    // Errors: `NoMemory` if an allocation fails, or a reference count cannot rise.
    pub(crate) fn outcome_for(&self, alloc: Global, item: usize) -> Result<Outcome, NoMemory>
        requires item { item < count self.now.inputs }
        requires ready { IsReady self.now item }
        ensures { IfOk result (λ o. o ≡ item_from self.now.inputs item) }
    {
        plan_among(alloc, &self.inputs, item, self)
    }

    // Puts an outcome in its item's place. The caller guarantees that it was planned from the same
    // inputs.
    pub(crate) fn put(&mut self, outcome: Outcome)
        requires inputs { outcome.inputs ≡ self.old.inputs }
        requires item { outcome.item < count self.old.inputs }
        ensures finishes { Finishes self.old self.new outcome.item }
        ensures place { self.new ≡ record self.old { outcomes = set self.old.outcomes outcome.item (Some outcome) } }
    {
        let item = outcome.item();
        self.outcomes[item] = Some(outcome);
    }

    // Plans an item whose parents are finished, and puts the outcome in its place.
    //
    // Errors: `NoMemory` if an allocation fails, or a reference count cannot rise.
    pub(crate) fn plan(&mut self, alloc: Global, item: usize) -> Result<(), NoMemory>
        requires item { item < count self.old.inputs }
        requires ready { IsReady self.old item }
        ensures finishes { OnOk result (Finishes self.old self.new item) }
        ensures place { OnOk result (self.new ≡ record self.old { outcomes = set self.old.outcomes item (Some (item_from self.old.inputs item)) }) }
        ensures refused { OnErr result (self.new ≡ self.old) }
    {
        let outcome = self.outcome_for(alloc, item)?;
        self.put(outcome);
        Ok(())
    }

    // The plan of all items. The caller guarantees that each is finished. The outcomes are moved into the
    // plan, and dropped on an error.
    //
    // Errors: `NoMemory` if an allocation fails; `TooLarge` with the first item that is over.
    pub(crate) fn into_whole(self, alloc: Global) -> Result<Plan, RunFault>
        requires { (i : ℕ) → i < count self.inputs → IsFinished self i }
        ensures { Explodes self.inputs result }
    {
        let Finished { inputs, outcomes } = self;
        let all = out_of_places(alloc, outcomes)?;
        plan_from(inputs, all)
    }
}
