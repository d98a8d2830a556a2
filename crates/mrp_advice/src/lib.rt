//! What is wrong with the tables of a folder, in words: a line for each fault.
#![tactic(auto)]

mod cell;
mod date;
mod expected;
mod header;
mod line;
mod lines;
mod listing;
mod looped;
mod measure;
mod record;
mod rule;
mod sign;
mod text;

pub use lines::push_survey;
pub use listing::Listing;
pub use sign::{MOST_SIGNS, shown};
pub use text::{plural, text_of_name};
