//! What is known before each instruction of a program that may loop: a
//! [`TrackedState`](tracked_state::state::TrackedState) whose marks name the lengths of the regions, and slots that a
//! run may meet again. Each call keeps the machine states that it contains: `entry`, `step`, `branch`, `is_within`.
#![tactic(auto)]

mod across;
pub mod branch;
mod leads;
pub mod sharper;
pub mod state;
#[cfg(test)]
mod tests;
pub mod within;
