//! The changes that were accepted, in their order, and the text that they make.
#![tactic(auto)]

mod admission;
pub mod history;
mod kept_change;
mod parts;
pub mod refusal;
mod tally;
mod trial;
