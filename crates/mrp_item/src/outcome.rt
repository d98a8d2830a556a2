//! The outcome of planning an item.

use crate::inputs::Inputs;
use crate::planned::Planned;
use mrp_qty::NoMemory;
use std::marker::Model;
use std::sync::Arc;

// The outcome of planning an item, with the inputs that it is planned from.
#[derive(Drop)]
enum Case {
    // The item is planned.
    Planned(Planned),
    // Its requirements, supplies or starts add up to more than the greatest quantity.
    Over(Arc<Inputs>, usize),
    // An item above it is over.
    Blocked(Arc<Inputs>, usize),
}

/// The outcome of planning an item, for the inputs that it holds (profile): the item is planned; or it
/// is over, if its requirements, supplies or starts add up to more than the greatest quantity; or it is
/// blocked, if an item above it is over. Contracts see the inputs and the item, which determine which
/// of these it is.
#[derive(Drop)]
pub struct Outcome {
    case: Case,
}

impl Model for Outcome {
    ghost use Rattle.mrp_item.specs.Places.{ItemOf};

    ghost Value = { ItemOf };

    ghost use Rattle.mrp_item.specs.Cases.{item_of, IsOwn};

    ghost view = { λ o. item_of o.case };

    ghost invariant = { λ o. IsOwn o.case };
}

impl Outcome {
    ghost use Rattle.std.specs.Prelude.{◌≡◌, IfOk};
    ghost use Rattle.std.specs.Option.{option_copied};
    ghost use Rattle.mrp_item.specs.Plan as plan;
    ghost use Rattle.mrp_item.specs.Plan.{is_over, is_planned, outcome_of};
    ghost use Rattle.mrp_item.specs.Made.{planned_item};

    // The outcome of a planned item.
    pub(crate) fn planned(planned: Planned) -> Outcome
        requires { outcome_of planned.inputs planned.item ≡ plan.Planned planned.plan }
        ensures { result ≡ record { inputs = planned.inputs; item = planned.item } }
    {
        Outcome {
            case: Case::Planned(planned),
        }
    }

    // The outcome of an item that is over.
    pub(crate) fn over(inputs: Arc<Inputs>, item: usize) -> Outcome
        requires { outcome_of inputs.value item ≡ plan.Over }
        ensures { result ≡ record { inputs = inputs.value; item = item } }
    {
        Outcome {
            case: Case::Over(inputs, item),
        }
    }

    // The outcome of an item that is blocked.
    pub(crate) fn blocked(inputs: Arc<Inputs>, item: usize) -> Outcome
        requires { outcome_of inputs.value item ≡ plan.Blocked }
        ensures { result ≡ record { inputs = inputs.value; item = item } }
    {
        Outcome {
            case: Case::Blocked(inputs, item),
        }
    }

    /// The inputs that the item is planned from.
    pub fn inputs(&self) -> &Arc<Inputs>
        ensures { result.now.value ≡ self.now.inputs }
    {
        match &self.case {
            Case::Planned(planned) => planned.inputs(),
            Case::Over(inputs, _) | Case::Blocked(inputs, _) => inputs,
        }
    }

    /// The item, by its place.
    pub fn item(&self) -> usize
        ensures { result ≡ self.now.item }
    {
        match &self.case {
            Case::Planned(planned) => planned.item(),
            Case::Over(_, item) | Case::Blocked(_, item) => *item,
        }
    }

    /// The item's plan; `None` if it is not planned.
    pub fn plan(&self) -> Option<&Planned>
        ensures { option_copied result ≡ planned_item self.now }
    {
        match &self.case {
            Case::Planned(planned) => Some(planned),
            Case::Over(_, _) | Case::Blocked(_, _) => None,
        }
    }

    /// Whether the item is planned.
    pub fn is_planned(&self) -> bool
        ensures { result ≡ is_planned (outcome_of self.now.inputs self.now.item) }
    {
        match &self.case {
            Case::Planned(_) => true,
            Case::Over(_, _) | Case::Blocked(_, _) => false,
        }
    }

    /// Whether the item is over.
    pub fn is_over(&self) -> bool
        ensures { result ≡ is_over (outcome_of self.now.inputs self.now.item) }
    {
        match &self.case {
            Case::Over(_, _) => true,
            Case::Planned(_) | Case::Blocked(_, _) => false,
        }
    }

    /// An equal outcome, which shares the plan.
    ///
    /// Errors: `NoMemory` if a reference count cannot rise.
    pub fn copy(&self) -> Result<Outcome, NoMemory>
        ensures { IfOk result (λ copy. copy ≡ self.now) }
    {
        let case = match &self.case {
            Case::Planned(planned) => Case::Planned(planned.copy()?),
            Case::Over(inputs, item) => Case::Over(inputs.clone()?, *item),
            Case::Blocked(inputs, item) => Case::Blocked(inputs.clone()?, *item),
        };
        Ok(Outcome { case })
    }
}
