//! A peer's own text, of changes that come in any order: what can't be accepted yet waits in a causal buffer.
#![tactic(auto)]

mod buffer;
mod known;
pub mod message;
pub mod replica;
