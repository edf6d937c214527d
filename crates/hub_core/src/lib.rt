//! The core of the hub: the changes that were accepted, the tokens of the versions that they make, and the subscribers
//! that are sent what their programs say of those.
#![tactic(auto)]

pub mod counts;
pub mod error;
pub mod hub;
pub mod memory;
pub mod run;
