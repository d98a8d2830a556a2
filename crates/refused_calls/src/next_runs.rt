//! Net change: the plan of a shop after one booking, from the plan without it.

ghost use Rattle.std.specs.Prelude.{◌≡◌, IfOk, IfSome};

use mrp_engine::replan;
use mrp_explode::{RunFault, explode_serial, plan_from};
use mrp_item::{Inputs, Plan, Planner, Work};
use mrp_qty::NoMemory;
use sample_shops::{Asked, inputs_after};
use std::alloc::Global;
use std::io::Eprint;
use std::process::Termination;
use std::sync::Arc;
use std::test::Fail;

// The week of the first forecast of the first item, or else the first week.
fn booked_week(inputs: &Inputs) -> u16 {
    for row in inputs.shop().tables().master() {
        if row.item == 0 && row.kind.is_forecast() {
            return row.week;
        }
    }
    1
}

/// The plan of inputs without bookings.
pub(crate) fn first_plan(alloc: Global, inputs: &Arc<Inputs>) -> Option<Plan> {
    explode_serial(alloc, inputs).ok()
}

/// The same inputs, with a booking of one piece of the first item, where it can be in a week with a forecast. Tells on
/// standard error why there are none.
pub(crate) fn with_booking<R: Eprint>(rt: &R, alloc: Global, inputs: &Inputs) -> Option<Arc<Inputs>>
    ensures { IfSome result (λ booked. inputs.now.tables ≡ booked.value.tables) }
{
    let calls = [(1, Asked::Book(booked_week(inputs), 1))];
    match inputs_after(alloc, inputs, &calls) {
        Ok(booked) => Some(booked),
        Err(fail) => {
            let _status = Err::<(), Fail>(fail).report(rt);
            None
        }
    }
}

// The rows and the snapshot of other inputs, put together as for a run.
fn same_inputs(alloc: Global, other: &Inputs) -> Result<Arc<Inputs>, NoMemory>
    ensures { IfOk result (λ inputs. inputs.value.tables ≡ other.now.tables) }
{
    Inputs::over(alloc, other.rows().clone()?, other.snapshot().copy()?)
}

/// The plan of a shop's next run, from the snapshot of other inputs of it, by net change from the last plan. Beside it
/// how many items were planned.
pub(crate) fn plan_next(alloc: Global, last: &Plan, other: &Inputs) -> Result<(Plan, u64), RunFault>
    requires { last.now.inputs.tables ≡ other.now.tables }
{
    let inputs = same_inputs(alloc, other)?;
    let mut work = Work::new();
    let outcomes = replan(alloc, last, &inputs, &mut work)?;
    Ok((plan_from(inputs, outcomes)?, work.count()))
}
