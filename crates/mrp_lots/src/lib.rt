//! Lot sizing: planned receipts from net requirements.
#![tactic(auto)]

pub mod laws;
mod lot;
mod sizing;

pub use lot::{Fixed, Lot, LotForLot, MOST_LEAST, MOST_PERIOD, MOST_STEP, Period, Stepped};
pub use sizing::receipts;
