//! Rows over the weeks of a horizon: sums and greatest values up to each week.
#![tactic(auto)]

mod fault;
mod weeks;

pub use fault::PhaseFault;
pub use weeks::Weeks;
