//! A hub that threads share: its core under a lock, and the shares of its count.
#![tactic(auto)]

pub mod books;
pub mod hub;
pub mod ingest;
pub mod kept;
mod progress;
mod text;
mod turns;
pub mod under_way;
mod versions;
