//! The order book: desks book, cancel and ask for available to promise, and every call has one reply.
#![tactic(auto)]

mod book;
mod booking;
mod booking_list;
mod call;
mod history;
pub mod laws;
mod made;
mod refused;
mod reply;
mod rows;
mod snapshot;
mod standing;
mod state;

pub use book::Book;
pub use booking::Booking;
pub use call::Call;
pub use history::History;
pub use mrp_master::{Line, LineFault, Spot, Wish};
pub use mrp_turn::Entry;
pub use refused::Refused;
pub use reply::Reply;
pub use snapshot::Snapshot;
pub use standing::Standing;
pub use state::BookState;
