//! Messages to the planner.

use mrp_item::Supplied;

/// What a message says of a supply (APICS Dictionary: action message).
#[derive(Clone, Copy, Debug, PartialEq, Eq)]
pub enum Advice {
    /// Release the order: its release is due in week 1.
    Release,
    /// The order should have been released so much before week 1, in the unit of lead times: weeks, or shop
    /// days from version 2 on.
    PastDue(u16),
    /// Reschedule in: the supply is needed earlier, in this week (APICS Dictionary: expedite).
    Earlier(u16),
    /// Reschedule out: the supply is needed later, in this week (APICS Dictionary: de-expedite).
    Later(u16),
    /// Cancel the supply: no week needs it.
    Cancel,
}

/// A message to the planner.
#[derive(Clone, Copy, Debug, PartialEq, Eq)]
pub struct Message {
    /// The item, by its place in the table.
    pub item: usize,
    /// The supply.
    pub supply: Supplied,
    /// What is said of it.
    pub advice: Advice,
}
