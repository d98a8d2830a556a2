//! What the records of a given history claim: each a desk's call, with the reply that the history has for it.
#![tactic(auto)]

mod call;
mod cell;
mod claim;
mod record;
mod spelling;

pub use claim::{Claim, ClaimedReply, is_claimed, is_same_call};
pub use record::{LONGEST, claim_in, split_record};
