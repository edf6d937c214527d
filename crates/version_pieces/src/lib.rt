//! A version as a text and the runs of its formats, each in pieces which versions share: one is made from the one
//! before it by making anew only the pieces that a window of characters touches.
#![tactic(auto)]

pub mod alike;
pub mod iter;
pub mod laws;
pub mod links;
pub mod span_text;
mod spans;
pub mod version;
