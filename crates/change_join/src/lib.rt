//! Changes joined: neighboring ones of one peer as one change, of the same operations.
#![tactic(auto)]

pub mod joining;
mod joint;
