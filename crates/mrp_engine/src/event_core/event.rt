//! What desks and workers ask of the core, and what it answers.

use mrp_book::{Call, Reply};
use mrp_rows::Name;

/// What a desk or a worker asks of the core. Runs are named by their numbers, from 1; desks and
/// workers have numbers from 1 to 64.
#[derive(Clone, Copy, Debug, PartialEq, Eq)]
pub enum Event {
    /// A desk calls on the order book.
    Call(u64, Call),
    /// A desk starts a run from the bookings that stand now.
    Start(u64),
    /// A worker takes an item of a run.
    Take(usize, u64),
    /// A worker finishes the item of a run that it holds.
    Finish(usize, u64),
    /// A worker gives up a run.
    GiveUp(usize, u64),
    /// The report of a run is written.
    Write(usize),
}

/// What a core answers to an event.
#[derive(Drop)]
pub enum Answer {
    /// The number of the entry in the order book, and its reply.
    Replied(u64, Reply),
    /// The number of the run, and its front: the entry of the order book that it plans from.
    Started(usize, u64),
    /// The worker has this item of the run, by its place in the table.
    Item(usize),
    /// Items are left, but none has all its parents stored yet.
    NotYet,
    /// Every item of the run was handed out, or a worker gave the run up.
    AllOut,
    /// The item is stored.
    Stored,
    /// The worker has given up the run.
    Stopped,
    /// The run's report.
    Bytes(Vec<u8>),
    /// The run has no report: this is the first item in table order whose quantities get too large
    /// while those of no item above it do.
    TooLarge(Name),
    /// The order book has 1,000,000 entries.
    Full,
    /// The event has no meaning, and changes nothing.
    Nothing,
}
