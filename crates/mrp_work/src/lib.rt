//! The operations that load weeks of work centres: of which orders they are, and how long they take.
#![tactic(auto)]

pub mod laws;
mod operations;
mod order;
mod table;

pub use order::{Work, WorkOrder, total};
pub use table::WorkTable;
