//! Lays the instructions of a program out so that no jump leads back, with the same meaning.
#![tactic(auto)]

mod check;
mod layout;
mod loops;
pub mod refusal;
mod spread;
pub mod straighten;
pub mod structure;
mod walk;
mod ways;
