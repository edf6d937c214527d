//! The queue between a hub and a subscriber: what was sent is what was taken and then what waits.
#![tactic(auto)]

pub mod ends;
mod rule;
