//! What a program says of a version, as a batch of items, and how a subscriber's batches reach its sink.
#![tactic(auto)]

pub mod batch;
pub mod item;
pub mod kept;
pub mod sink;
pub mod stretch;
pub mod subscriber;
