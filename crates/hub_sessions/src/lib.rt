//! Sessions: lines asked of a hub, and its replies, over any reader and writer.
#![tactic(auto)]

pub mod conversation;
pub mod replaying;
mod submitting;
