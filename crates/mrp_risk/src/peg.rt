//! Pegs between needs and orders that have numbers.

/// What the pieces of a peg are for.
#[derive(Clone, Copy)]
pub enum Need {
    /// No booking and no order, as a forecast.
    Other,
    /// The booking of this number.
    Booking(usize),
    /// The order of this number, which needs them as components.
    Order(usize),
}

/// A peg: pieces of one supply for one need.
#[derive(Clone, Copy)]
pub struct Peg {
    /// What they are for.
    pub need: Need,
    /// The number of the order that supplies them; `None` if they are in stock or on an open order.
    pub supply: Option<usize>,
    /// How many pieces.
    pub pieces: u64,
}
