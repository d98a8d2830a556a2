//! Pegging: which supplies serve each requirement of an item, and which demand a requirement goes
//! back to.
#![tactic(auto)]

mod demand;
pub mod laws;
mod matching;
mod needs_left;
mod next_orders;
mod ordering;
mod parents;
mod part;
mod peg;
mod peg_group;
mod peg_walk;
mod pegging;
mod placing;
mod services;
mod sourcing;
mod supplies_left;
mod tracing;
mod walking;
mod where_used;

pub use matching::Requirement;
pub use mrp_item::Supplied;
pub use peg::{Cause, Need, NeedKind, Peg};
pub use peg_group::PegGroup;
pub use peg_walk::PegWalk;
pub use pegging::{item_pegs, pegs};
pub use sourcing::sources;
pub use tracing::trace;
