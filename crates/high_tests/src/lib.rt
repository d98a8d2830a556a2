//! Tests of the crates from `mrp_explode` to `mrp_main`. They are in a crate of their own because
//! inside those crates each function would be proved once more for the tests.
#![tactic(auto)]

#[cfg(test)]
mod tests;
