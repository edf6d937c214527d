//! Published versions and programs, and the tokens that name them.
#![tactic(auto)]

pub mod published;
