//! The checker of days: whether a text is a right day of a bundle, and if not, why.
#![tactic(auto)]

mod audit;
mod comparing;
mod desks;
mod fault;
mod following;
mod history;
mod replay;
mod reports;
mod script;
mod shape;

pub use audit::check;
pub use fault::AuditFault;
