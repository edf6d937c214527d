//! The number and name of each refusal that is printed, and where the fault is.
#![tactic(auto)]

mod names;
pub mod reason;
