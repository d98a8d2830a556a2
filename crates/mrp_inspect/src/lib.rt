//! All faults of the tables of a folder, or where there is none, warnings of what is odd in them.
#![tactic(auto)]

mod contents;
mod cut;
mod faults;
mod first;
mod found;
mod inspecting;
pub mod laws;
mod line_fault;
mod lines;
mod names;
mod piece;
mod sheets;
mod source;
mod stray;
mod warning;
mod words;

pub use found::{Found, PathKind, find_files};
pub use inspecting::{Inspected, inspect};
pub use names::Naming;
