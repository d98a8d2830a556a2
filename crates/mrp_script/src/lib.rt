//! The shop of a bundle, and the history that answers its script.
#![tactic(auto)]

mod fault;
mod opening;
mod script;

pub use fault::OpenFault;
pub use opening::open_shop;
pub use script::{ADDED_DESK, added_run, answer, answer_records, answer_script, call_of};
