//! Explosion: the plan of every item, parents before their components.
#![tactic(auto)]

mod fault;
mod finished;
mod gate;
mod grouping;
mod levels;
mod pauses;
mod serial;
mod workers;
mod working;

pub use fault::RunFault;
pub use finished::{out_of_places, plan_from};
pub use gate::{Gate, OpenGate};
pub use levels::explode_levels;
pub use serial::explode_serial;
pub use workers::{MOST_WORKERS, explode, work_together};
pub use working::{Worker, work};
