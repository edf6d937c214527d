//! The lines that the spans of a version are printed as.
#![tactic(auto)]

pub mod printing;
pub mod writing;
