//! The canonical text of a program, which assembles back to the same bytes.
#![tactic(auto)]

pub mod disassemble;
mod form;
pub mod line;
mod parts;
