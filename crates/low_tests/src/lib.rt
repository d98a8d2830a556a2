//! Tests of the crates up to `mrp_item`, of the lock and of the office. They are a crate of their own
//! because a crate with tests is proved twice.
#![tactic(auto)]

#[cfg(test)]
mod tests;
