//! Programs as bytes: slots, instructions, and which bytes are a program.
#![tactic(auto)]

pub mod encoding;
mod fields;
pub mod flow;
pub mod instruction;
mod opcode;
mod reading;
pub mod refusal;
pub mod register;
pub mod words;

pub use span_context::context::Context;
