//! Replies of a board.

use crate::parents::Parents;

/// What a board replied. Items are named by their places in the table.
#[derive(Drop)]
pub enum BoardReply {
    /// Every item was handed out, or a worker gave up the run.
    AllOut,
    /// This item is the worker's, with the outcomes of its parents.
    Item(usize, Parents),
    /// The outcome is stored.
    Stored,
    /// The item was not handed out to the worker, or is stored already.
    NotOut,
    /// The run has stopped.
    Stopped,
}
