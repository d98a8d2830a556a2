//! Netting: net requirements and projected available balance, from gross requirements and stock.
#![tactic(auto)]

mod balances;
pub mod laws;
mod needs;
mod stock;

pub use balances::{balance_row, never_fall};
pub use mrp_phase::PhaseFault as NetFault;
pub use needs::{NeedRow, need};
pub use stock::Stock;
