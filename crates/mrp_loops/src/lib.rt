//! The loops of a bill: for each set of items that need one another its first item, and the shortest way from it back to it.
#![tactic(auto)]

mod best;
mod falling;
pub mod laws;
mod line;
mod links;
mod ranks;
mod search;
mod telling;
mod walk;
mod way;

pub use line::{Line, Loop};
pub use telling::loops;
