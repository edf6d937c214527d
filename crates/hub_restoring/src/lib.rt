//! A hub that starts again from the changes that a log keeps.
#![tactic(auto)]

pub mod restoring;
