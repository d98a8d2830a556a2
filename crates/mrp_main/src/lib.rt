//! The commands of the program: from the words of the command line to its output and its exit
//! status.
#![tactic(auto)]

mod check;
mod day;
mod run;

pub use run::run_words;
