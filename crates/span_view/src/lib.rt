//! The spans of a version, lent one by one, and the context that a program reads of each.
#![tactic(auto)]

pub mod context;
pub mod view;
