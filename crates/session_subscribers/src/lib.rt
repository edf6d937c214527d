//! The subscribers that a session holds: it adds them, takes their items and closes them.
#![tactic(auto)]

pub mod pulling;
pub mod session_hub;
pub mod subscribing;
