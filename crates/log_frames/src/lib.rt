//! Which commits of a log are lost behind a wrong frame.
#![tactic(auto)]

mod format;
pub mod loss;
mod reading;
