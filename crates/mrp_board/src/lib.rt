//! The board of a run: workers take items whose parents are planned, and store the outcomes.
#![tactic(auto)]

mod board;
mod call;
pub mod laws;
mod parents;
mod queue;
mod refused;
mod reply;
mod state;

pub use board::Board;
pub use call::BoardCall;
pub use parents::Parents;
pub use refused::BoardRefused;
pub use reply::BoardReply;
pub use state::BoardState;
