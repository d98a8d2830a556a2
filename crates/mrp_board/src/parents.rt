//! The outcomes of an item's parents.

use mrp_item::Outcome;
use mrp_qty::NoMemory;
use std::alloc::Global;
use std::marker::Model;
use std::sync::Arc;

/// The outcomes of the parents of an item that is handed out. Contracts see the list of outcomes. Its copies
/// share it.
#[derive(Drop)]
pub struct Parents {
    outcomes: Arc<Vec<Outcome>>,
}

impl Model for Parents {
    ghost use Rattle.std.specs.Prelude.{List};
    ghost use Rattle.mrp_item.specs.Places.{ItemOf};

    ghost Value = { List ItemOf };

    ghost view = { λ p. p.outcomes.value.items };
}

impl Parents {
    ghost use Rattle.std.specs.Prelude.{◌≡◌, IfOk};

    // The parents with these outcomes.
    pub(crate) fn new(alloc: Global, outcomes: Vec<Outcome>) -> Result<Parents, NoMemory>
        ensures { IfOk result (λ p. p ≡ outcomes.items) }
    {
        let outcomes = Arc::new(alloc, outcomes)?;
        Ok(Parents { outcomes })
    }

    /// The outcomes, in table order.
    pub fn as_slice(&self) -> &[Outcome]
        ensures { result.now ≡ self.now }
    {
        self.outcomes.as_slice()
    }

    // The same outcomes, shared.
    pub(crate) fn copy(&self) -> Result<Parents, NoMemory>
        ensures { IfOk result (λ p. p ≡ self.now) }
    {
        let outcomes = self.outcomes.clone()?;
        Ok(Parents { outcomes })
    }
}
