//! The plan of every item.

use crate::inputs::Inputs;
use crate::order::Order;
use crate::outcome::Outcome;
use crate::planned::Planned;
use std::marker::Model;
use std::sync::Arc;

/// The plan of every item, for the inputs that it holds.
#[derive(Drop)]
pub struct Plan {
    inputs: Arc<Inputs>,
    outcomes: Vec<Outcome>,
}

impl Model for Plan {
    ghost use Rattle.mrp_item.specs.Places.{WholePlan};

    ghost Value = { WholePlan };

    ghost use Rattle.mrp_item.specs.Whole.{IsWhole, whole_view};

    ghost view = { whole_view };

    ghost invariant = { IsWhole };
}

impl Plan {
    ghost use Rattle.std.specs.Prelude.{◌≡◌, ◌<◌, IfOk, IfErr, Ok, Err};
    ghost use Rattle.mrp_item.specs.Inputs.{count};
    ghost use Rattle.mrp_item.specs.Made.{all_from};
    ghost use Rattle.mrp_item.specs.Plan.{outcome_of, plan_in, plan_of};

    /// The plan of every item, from the outcomes of all items in table order, of equal inputs; or the first
    /// item that is over. It does not allocate.
    pub fn of(inputs: Arc<Inputs>, outcomes: Vec<Outcome>) -> Result<Plan, usize>
        requires { outcomes.items ≡ all_from inputs.value }
        ensures plan { IfOk result (λ plan. plan_of inputs.value ≡ Ok plan.plans) }
        ensures inputs { IfOk result (λ plan. plan.inputs ≡ inputs.value) }
        ensures over { IfErr result (λ item. plan_of inputs.value ≡ Err item) }
    {
        // Its codes rank the items, parents above their components.
        let _ranked = inputs.shop();
        let all = outcomes.as_slice();
        for outcome in all {
            if outcome.is_over() {
                return Err(outcome.item());
            }
        }
        Ok(Plan { inputs, outcomes })
    }

    /// The inputs that the items are planned from.
    pub fn inputs(&self) -> &Arc<Inputs>
        ensures inputs { result.now.value ≡ self.now.inputs }
        ensures plan { plan_of self.now.inputs ≡ Ok self.now.plans }
    {
        &self.inputs
    }

    /// The plan of an item, by its place.
    pub fn item(&self, item: usize) -> &Planned
        requires { item < count self.now.inputs }
        ensures { result.now ≡ record { inputs = self.now.inputs; item = item; plan = plan_in (outcome_of self.now.inputs item) } }
    {
        match self.outcomes[item].plan() {
            Some(planned) => planned,
            None => unreachable!(),
        }
    }

    /// The orders of an item, by its place: by due week, firm ones first.
    pub fn orders(&self, item: usize) -> &[Order]
        requires { item < count self.now.inputs }
        ensures { result.now ≡ (plan_in (outcome_of self.now.inputs item)).orders }
    {
        self.item(item).orders()
    }
}
