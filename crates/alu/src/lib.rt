//! Values of operations (RFC 9669, sections 4 and 5), and numbers as little-endian bytes.
#![tactic(auto)]

pub mod arithmetic;
pub mod bytes;
