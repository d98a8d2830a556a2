//! What a seat knows of the table. Only `About` has values at run time; the other types are for the proofs.
use crate::log::Entry;
use std::collections::LinkedList;

/// What a turn is made with.
#[derive(Drop)]
pub struct About<O> {
    /// The object under the lock.
    pub object: O,
    /// How many seats were made.
    pub seats: u64,
    /// The number of log entries that places are reserved for.
    pub room: usize,
}

// The number of a seat, what it has seen of the log, and its own entries.
pub struct Account<C, R> {
    pub number: u64,
    pub seen: LinkedList<Entry<C, R>>,
    pub mine: LinkedList<Entry<C, R>>,
}

// A seat at the table: its own account, the accounts of the seats that were joined to it, and whether it is the
// holder of the slot.
pub struct LiveSeat<O, C, R> {
    pub about: About<O>,
    pub own: Account<C, R>,
    pub kept: LinkedList<Account<C, R>>,
    pub holds: bool,
}

// What a seat knows: nothing, once it was joined to another.
pub enum View<O, C, R> {
    Spent,
    Live(LiveSeat<O, C, R>),
}
