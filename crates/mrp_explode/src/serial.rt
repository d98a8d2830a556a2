//! Explosion on one thread.

ghost use Rattle.mrp_explode.specs.Explosion.{Explodes};

use crate::fault::RunFault;
use crate::finished::Finished;
use mrp_item::{Inputs, Plan};
use std::alloc::Global;
use std::sync::Arc;

// The plan of these inputs: every item is planned, one at a time, parents before their components. Something
// may be done before each item, told of the item's place in the table.
pub(crate) fn plan_in_turn<F: Fn(usize)>(
    alloc: Global,
    inputs: &Arc<Inputs>,
    before: F,
) -> Result<Plan, RunFault>
    requires { F.IsAlwaysCallable before }
    ensures { Explodes inputs.now.value result }
{
    let mut finished = Finished::new(alloc, inputs)?;
    for item in inputs.shop().order() {
        before(*item);
        finished.plan(alloc, *item)?;
    }
    finished.into_whole(alloc)
}

/// The plan of these inputs: every item is planned, one at a time, parents before their components
/// (Orlicky: explosion).
///
/// Errors: `NoMemory` if an allocation fails; otherwise `TooLarge` with the first item in table
/// order whose quantities get too large while those of no item above it do (profile).
pub fn explode_serial(alloc: Global, inputs: &Arc<Inputs>) -> Result<Plan, RunFault>
    ensures { Explodes inputs.now.value result }
{
    plan_in_turn(alloc, inputs, |_item: usize| {})
}
