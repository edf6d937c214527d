//! What the verifier knows before each slot of a program up to one, and on the ways that lead to a slot.
#![tactic(auto)]

mod before;
mod behind;
mod jumps;
pub mod knowledge;
pub mod place;
pub mod way;
mod whole;
