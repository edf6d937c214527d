//! Reads a relocatable object file of BPF: hostile bytes, of which each field is checked before it is used.
#![tactic(auto)]

pub mod fault;
mod header;
mod number;
pub mod object;
pub mod relocation;
pub mod section;
mod string;
pub mod symbol;
#[cfg(test)]
mod tests;
