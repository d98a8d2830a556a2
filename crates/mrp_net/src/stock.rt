//! An item's stock and scheduled receipts, before planning.

use mrp_phase::Weeks;
use mrp_qty::Qty;

/// What an item has before planning, and its safety stock.
#[derive(Drop)]
pub struct Stock {
    /// The pieces on hand.
    pub on_hand: Qty,
    /// The safety stock, in pieces.
    pub safety: Qty,
    /// The scheduled receipts of each week: firm rows, or open receipts (Orlicky: scheduled receipts).
    pub scheduled: Weeks<Qty>,
}
