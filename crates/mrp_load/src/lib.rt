//! Capacity requirements planning: the loads that the orders of a plan put on work centres.
#![tactic(auto)]

mod centre;
mod grouping;
mod loading;
mod table;

pub use loading::loads;
pub use table::LoadTable;
