//! Which programs are accepted: the positions and targets of all instructions first, and then one walk over the slots
//! with what is known of the machine before each.
#![tactic(auto)]

pub mod before;
pub mod refusal;
mod structure;
pub mod verify;
mod waiting;
mod walk;
