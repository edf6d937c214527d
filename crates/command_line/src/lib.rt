//! What the words of a command line ask of the program.
#![tactic(auto)]

mod grammar;
pub mod reading;
