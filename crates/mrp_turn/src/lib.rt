//! A lock that keeps a log. It protects an object, and whoever takes a turn calls the object once: the call and its
//! reply become the next entry of one log, whatever other threads do.
#![tactic(auto)]

mod log;
mod object;
mod seat;
mod steps;
pub mod tally;
mod turn;
mod views;

pub use log::{Entry, Log};
pub use object::Object;
pub use seat::Seat;
pub use turn::{CallFault, MOST_SEATS, Turn, TurnFault};
pub use views::About;
