//! Planning: the plan of each item, from its parents' plans.
#![tactic(auto)]

mod carrying;
mod dependent;
mod due;
mod grouping;
mod inputs;
pub mod laws;
mod line_starts;
mod order;
mod orders;
mod outcome;
mod over;
mod parent_outcomes;
mod plan;
mod planned;
mod planner;
mod planning;
mod release;
mod shop_rows;
mod supplies;
mod supply;

pub use carrying::{carry, keep};
pub use due::Due;
pub use inputs::Inputs;
pub use order::{Order, OrderKind};
pub use outcome::Outcome;
pub use parent_outcomes::ParentOutcomes;
pub use plan::Plan;
pub use planned::Planned;
pub use planner::{Planner, Work};
pub use planning::{plan_among, plan_item};
pub use shop_rows::ShopRows;
pub use supplies::{Supplied, Supply};
