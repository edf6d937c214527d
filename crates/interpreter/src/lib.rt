//! Runs programs: one that no verifier has seen, with its faults as answers, and an accepted one, which has none.
#![tactic(auto)]

pub mod machine;
mod memory;
pub mod run;
