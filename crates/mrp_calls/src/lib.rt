//! What an order desk that stays open answers to each line that it reads.
#![tactic(auto)]

mod fault;
pub mod laws;
mod line;
mod open_desk;
mod record;
mod texts;

pub use open_desk::OpenDesk;
pub use texts::LEAST_ROOM;
