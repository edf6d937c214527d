//! The verifier of programs that may loop: what is known before each slot and how many steps are left there are found
//! by a search, and checked. Only the check is trusted.
#![tactic(auto)]

pub mod error;
#[cfg(test)]
mod tests;
pub mod verify;
