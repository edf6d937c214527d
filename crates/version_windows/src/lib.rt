//! The version after a change, made from the one before it: only the characters that the change touches are laid out
//! anew.
#![tactic(auto)]

mod ranges;
pub mod step;
mod touched;
mod walk;
mod windows;
