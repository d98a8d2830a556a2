//! The shop calendar: which week of the planning horizon a date falls in, which days of a week are
//! worked, when an order is released by a lead time in shop days, and which texts are dates. Nothing here
//! allocates.
#![tactic(auto)]

mod calendar;
mod date_text;
mod fault;
mod horizon;
pub mod laws;

pub use calendar::{Calendar, MOST_LEAD_DAYS, MOST_WEEKS};
pub use date_text::{FIRST_YEAR, LAST_YEAR, read_date};
pub use fault::CalFault;
