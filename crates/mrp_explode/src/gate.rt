//! Gates, which each step of work passes before it is done.

use std::sync::Wait;

/// What work passes before each of its steps. A gate may hold the work there, so that a test sees what others
/// do meanwhile.
pub trait Gate {
    /// Passes the gate before a step: before an item is planned, with its place in the table, or
    /// before a desk's record is answered, with the desk's number. It may wait.
    fn pass<R: Wait>(&self, rt: &R, number: usize);
}

/// A gate that holds nothing.
pub struct OpenGate;

impl Gate for OpenGate {
    fn pass<R: Wait>(&self, _rt: &R, _number: usize) {}
}
