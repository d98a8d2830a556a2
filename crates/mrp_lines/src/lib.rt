//! Texts of csv read line by line: a line without quotes is a record, whose cells are cut only when asked for.
#![tactic(auto)]

mod cells;
mod commas;
pub mod laws;
mod line;
mod lines;
mod window;

pub use cells::Cells;
pub use line::{LONGEST_LINE, Line};
pub use lines::{Lines, Next};
