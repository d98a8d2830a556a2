//! Carrying bookings into the next period: the beginning of its script, made from the bookings that
//! stand at the end of this one's.
#![tactic(auto)]

mod carrying;
mod fault;
mod form;
pub mod laws;
mod rows;
mod standing;
mod start;
mod text;

pub use carrying::{Carried, carry};
pub use fault::CarryFault;
pub use form::CarryForm;
