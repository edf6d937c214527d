//! Potentials of labels of programs that may loop: what is known of what their terms weigh, and whether a potential is
//! at least 1 by that.
#![tactic(auto)]

pub mod counted;
pub mod positive;
pub mod potential;
