//! The files of runs: a run that was answered is planned from its own snapshot, and what came of it stands in a file
//! that has its name once it is whole and durable.
#![tactic(auto)]

mod fault;
pub mod laws;
mod making;
mod refusal;
mod report;
mod run;
mod telling;

pub use fault::MakeFault;
pub use making::RunMaker;
pub use refusal::Refusal;
pub use run::{Run, run_name};
pub use telling::{Note, tell_run};
