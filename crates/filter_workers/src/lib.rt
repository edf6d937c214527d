//! Batches computed by several threads, and workers that take a hub's jobs, compute their batches and commit them.
#![tactic(auto)]

pub mod filter;
pub mod gate;
pub mod work;
