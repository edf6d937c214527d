//! One history of the calls that threads make of a hub's core: a list in proofs alone, which tells each call with its
//! reply, and of which the core's state is the end.
#![tactic(auto)]

mod asked;
pub mod entry;
pub mod known;
pub mod recorded_core;
pub mod share;
pub mod start;
