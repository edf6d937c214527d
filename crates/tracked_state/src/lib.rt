//! What a verifier knows of the machine before an instruction, with the copies among its values where they are
//! followed: an [`AbsState`](abstract_state::state::AbsState) and the marks of its registers and of its stack. A
//! [`TrackedState`](state::TrackedState) contains the machine states that its state contains and that bear its marks,
//! and each call keeps that: `entry`, `copy`, `step`, `branch`, `join`. Where copies aren't followed, each is what it
//! is of the state alone.
#![tactic(auto)]

pub mod branch;
pub mod join;
pub mod state;
pub mod step;
pub mod stop;
