//! The instructions of a program, with what the verifier knows before each (docs/PROGRAMS.md, "What the verifier
//! knew").
#![tactic(auto)]

pub mod instructions;
pub mod listing;
mod ways;
