//! What a refused instruction wants of one value, whether that is known, and how it is printed (docs/PROGRAMS.md,
//! "What the verifier knew").
#![tactic(auto)]

mod access;
pub mod refused_for;
mod signed;
pub mod wanted;
pub mod words;
pub mod worked;
