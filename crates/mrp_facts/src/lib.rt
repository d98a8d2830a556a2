//! What the tables of a day say of its weeks, items and open orders, for those who read the day by itself.
#![tactic(auto)]

mod by_item;
mod dates;
mod facts;
pub mod laws;
mod shape;

pub use facts::{Facts, ItemFacts};
pub use shape::DayShape;
