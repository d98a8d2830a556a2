//! Calls on a board.

use mrp_item::Outcome;

/// A worker's call on the board of a run.
#[derive(Drop)]
pub enum BoardCall {
    /// Take an item whose parents are all stored.
    Take,
    /// Store the outcome of an item that the worker took.
    Finish(Outcome),
    /// Stop the run: no item is handed out any more.
    GiveUp,
}
