//! Warnings: what is accepted in the tables of a bundle, but odd.
#![tactic(auto)]

mod bills;
mod calendar;
mod calls;
mod centres;
mod earlier;
mod inspection;
mod items;
mod kind;
pub mod laws;
pub mod limits;
mod names;
mod oddity;
mod runs;
mod sheets;
mod tally;
mod telling;
mod texts;
mod words;

pub use inspection::Inspection;
pub use kind::{Kind, kinds};
pub use oddity::{Oddity, Warning};
pub use sheets::Sheet;
pub use telling::{Group, warnings};
pub use words::warnings_text;
