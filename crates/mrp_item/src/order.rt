//! The orders of an item.

use mrp_qty::Qty;

/// The origin of an order.
#[derive(Clone, Copy, Debug, PartialEq, Eq)]
pub enum OrderKind {
    /// A row of the master schedule, which planning may not change.
    Firm,
    /// An order that planning made.
    Planned,
}

// Fields lie in this order, the wide ones first: an order takes 24 bytes so, and 32 otherwise.
/// An order of an item.
#[derive(Clone, Copy, Debug, PartialEq, Eq)]
pub struct Order {
    /// The pieces that are due.
    pub quantity: Qty,
    /// The pieces started, so that the quantity remains after scrap.
    pub start: Qty,
    /// The week in which it is due.
    pub due: u16,
    /// The week of its release: week 1 for a late order.
    pub release: u16,
    /// By how much its release is late, in the unit of lead times: weeks, or shop days from version 2
    /// on.
    pub late: u16,
    /// Its origin.
    pub kind: OrderKind,
}
