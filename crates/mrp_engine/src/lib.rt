//! Days: from the bytes of a bundle to the history of its order book and the reports of its runs.
#![tactic(auto)]

mod day;
mod event_core;
pub mod laws;
mod live;

pub use day::{
    Day, DayFault, MOST_WORKERS, RunResult, plan_or_refuse, plan_run, replan, run_bundle, run_day,
};
pub use event_core::{Answer, Core, Event};
pub use live::{answer_by_desks, live_bundle, live_day};
