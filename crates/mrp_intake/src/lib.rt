//! The lines of an input, as its reads bring them.
#![tactic(auto)]

mod intake;
mod lines;
mod pieces;

pub use intake::Intake;
pub use lines::{LONGEST_LINE, first_line};
