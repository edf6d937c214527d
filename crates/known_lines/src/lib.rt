//! What is known of the machine before an instruction, in lines (docs/PROGRAMS.md, "What the verifier knew").
#![tactic(auto)]

pub mod lines;
mod numbers;
mod values;
pub mod worked;
