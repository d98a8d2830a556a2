//! Days: the shop of a bundle is opened, its script is answered, its runs are planned, its texts are
//! written. This file has a day before it is written.

ghost use Rattle.std.specs.Prelude.{◌≡◌};
ghost use Rattle.std.specs.Int.{IsInRange};
ghost use Rattle.mrp_master.specs.Supply.{supply_of};
ghost use Rattle.mrp_engine.specs.day.Planned.{PlansHistory};

mod fault;
mod net_change;
mod planning;
mod run;
mod run_plans;
mod runs;
mod writing;

pub use fault::DayFault;
use mrp_book::History;
use mrp_item::{Plan, ShopRows};
pub use net_change::replan;
pub use planning::plan_run;
pub(crate) use planning::{inputs_of, name_of};
pub use run::{MOST_WORKERS, run_bundle, run_day};
use runs::plan_runs;
pub use runs::{RunResult, plan_or_refuse};
use std::alloc::Global;
use std::sync::{Arc, Wait};
use std::thread::Threads;
pub(crate) use writing::write_day;

/// A day in which each run can be planned: the rows of a shop, a history of its order book, and the plan of its
/// first run, if it has one. The plans of later runs are not kept: each is made again when its report is written,
/// by net change from the run before it.
#[derive(Drop)]
pub struct Day {
    pub rows: Arc<ShopRows>,
    pub history: History,
    pub first: Option<Plan>,
}

/// Plans each run of a history over the shop's rows: the first by `workers` workers (1 to 64, as the caller
/// guarantees), each later one by net change from the one before. At most three plans are held at a time, the
/// first, the last and the next, which share the rows of items that did not change. The caller guarantees that
/// the history has the supply of the shop.
///
/// Errors: `TooLarge` with the first item in table order whose quantities get too large in the
/// first run with such an item; `NoMemory` if an allocation fails.
pub fn plan_history(
    rt: &(impl Threads + Wait + Sync),
    alloc: Global,
    rows: Arc<ShopRows>,
    history: History,
    workers: usize,
) -> Result<Day, DayFault>
    requires supply { history.supply ≡ supply_of rows.value.tables }
    requires workers { IsInRange 1 MOST_WORKERS workers }
    ensures { PlansHistory rows.value.tables history.entries result }
{
    let first = plan_runs(rt, alloc, &rows, &history, workers)?;
    Ok(Day {
        rows,
        history,
        first,
    })
}
