//! Removals of characters in runs, and sets of ids in ranges: what has to be kept so that removals can be taken back.
#![tactic(auto)]

mod peer_ranges;
mod peer_runs;
pub mod ranges;
pub mod removals;
mod run;
pub mod runs;
