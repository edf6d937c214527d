//! Whether each machine state that one [`TrackedState`](tracked_state::state::TrackedState) contains is contained in
//! another too: all that the second says has to follow, part by part, from what the first says. Names of marks mean
//! nothing by themselves, so that the two may name the same values differently.
#![tactic(auto)]

mod contents;
pub mod inclusion;
mod numbers;
pub mod partners;
#[cfg(test)]
mod tests;
