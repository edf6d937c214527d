//! What the tests of several crates make their inputs of, and the devices that they try.
#![tactic(auto)]

pub mod devices;
pub mod ids;
pub mod lines;
pub mod random;
