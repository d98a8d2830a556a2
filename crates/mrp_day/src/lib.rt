//! The sections of a day's text, each with its first line and its columns.
#![tactic(auto)]

mod section;

pub use section::Section;
