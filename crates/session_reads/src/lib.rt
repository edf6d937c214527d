//! What a session reads of the text: versions and their spans, accepted changes, counters.
#![tactic(auto)]

mod counting;
pub mod found;
pub mod reading;
