//! Which values of the machine are copies of one another, or differ by a constant: what a verifier knows beside an
//! [`AbsState`](abstract_state::state::AbsState), so that what a comparison tells of one it tells of all.
#![tactic(auto)]

pub mod copies;
mod join;
pub mod mark;
pub mod marks;
pub mod telling;
