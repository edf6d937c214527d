//! Functions with their calls inlined: a check that a program is that, and so means the same; and such a program.
#![tactic(auto)]

pub mod bytes;
mod cells;
pub mod check;
pub mod fault;
pub mod function;
pub mod inline;
mod instructions;
pub mod place;
#[cfg(test)]
mod tests;
