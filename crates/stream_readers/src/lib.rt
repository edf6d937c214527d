//! The stream of a program over published versions, as one reader takes it: a version is judged when its items are
//! wanted.
#![tactic(auto)]

pub mod judged;
pub mod reader;
pub mod verdicts;
