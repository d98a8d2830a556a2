//! Promises at risk: the bookings that wait, by pegs and through any number of orders, for a late order.
#![tactic(auto)]

mod late;
pub mod laws;
mod lists;
mod marking;
mod peg;
mod risk;

pub use peg::{Need, Peg};
pub use risk::{Risk, at_risk};
