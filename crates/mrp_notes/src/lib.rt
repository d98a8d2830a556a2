//! Messages to the planner: what to release, what is past due, and what to reschedule or to cancel.
#![tactic(auto)]

mod covered;
pub mod laws;
mod message;
mod notes;
mod release;
mod told;

pub use message::{Advice, Message};
pub use mrp_item::Supplied;
pub use notes::{item_messages, messages};
