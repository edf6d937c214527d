//! What a verifier knows of the machine before an instruction, and how an instruction changes that.
//!
//! A [`Quantity`](quantity::Quantity) is what is known of a number: bits, an interval, and how far it stays from the
//! end of the text. A [`Known`](known::Known) is a number or an address of a known region; registers and stack slots
//! hold one, or nothing for sure. An [`AbsState`](state::AbsState) has eleven registers, the stack, and how long the
//! text is at least. It contains machine states, and each call keeps that: `entry`, `step`, `branch`, `join`.
#![tactic(auto)]

pub mod address;
mod bounded;
pub mod bounds;
pub mod branch;
mod join;
pub mod known;
pub mod memory;
pub mod quantity;
pub mod refusal;
pub mod region;
pub mod relation;
pub mod slot;
pub mod stack;
pub mod state;
pub mod step;
mod tail;
pub mod transfer;
mod unary;
