//! The lines of a session: reading them, what they ask for, and what is printed in reply.
#![tactic(auto)]

mod changes;
mod commands;
pub mod fault;
mod foreign;
pub mod query;
pub mod reader;
pub mod reply;
pub mod request;
pub mod stats;
mod words;
