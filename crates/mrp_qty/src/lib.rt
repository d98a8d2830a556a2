//! Quantities, times, numbers and their texts.
#![tactic(auto)]

pub mod laws;
mod memory;
mod minutes;
mod number;
mod quantity;

pub use memory::NoMemory;
pub use minutes::{Milli, minutes_text};
pub use number::{NumberFault, number_text, read_number};
pub use quantity::{GREATEST_QUANTITY, MOST_SCRAP, Qty};
