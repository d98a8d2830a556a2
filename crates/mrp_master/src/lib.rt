//! Available to promise, from the master schedule.
#![tactic(auto)]

mod atp_row;
mod firm;
pub mod laws;
mod line;
mod nodes;
mod range;
mod spot;
mod supply;
mod tree;
mod wish;

pub use atp_row::{AtpRow, RowNodes};
pub use line::{Line, LineFault};
pub use nodes::{Node, Nodes, available_in, earliest_in};
pub use spot::Spot;
pub use supply::Supply;
pub use wish::Wish;
