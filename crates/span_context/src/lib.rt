//! What a program may read of a span beside its text: the context's bytes, their fields, and how much of them a profile
//! lends.
#![tactic(auto)]

pub mod context;
pub mod context_field;
pub mod profile;
pub mod size;
