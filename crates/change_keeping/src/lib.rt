//! Changes that sessions have kept before anyone is told of them: many threads' by the one that has the store.
#![tactic(auto)]

pub mod clerk;
pub mod desk;
mod group;
pub mod keeper;
pub mod keeping;
pub mod own;
pub mod serving;
mod told;
