//! Assembler text, a form of this project for the instructions of RFC 9669: the lines of a text, its labels, and the
//! bytes that they stand for.
#![tactic(auto)]

pub mod assembly;
pub mod fault;
mod labels;
mod lines;
