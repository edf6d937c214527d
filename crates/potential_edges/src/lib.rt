//! Whether a potential falls on the edges of a program that may loop, by what is known of the machine before an
//! instruction and behind it.
#![tactic(auto)]

pub mod ahead;
pub mod edges;
mod leasts;
mod rest;
#[cfg(test)]
mod rows;
mod same;
pub mod source;
