//! The bill of material: an accepted shop, in which no item needs itself, and the refusal of a loop.
#![tactic(auto)]

mod climb;
mod codes;
mod fault;
mod groups;
pub mod laws;
mod lists;
mod ranks;
mod search;
mod shop;

pub use fault::BillFault;
pub use groups::{Grouped, Numbered};
pub use lists::{append, empty_lists};
pub use shop::{Bill, Shop};
