//! A text in pieces that versions share: one is made from the one before it by making anew only the pieces that a
//! window of characters touches.
#![tactic(auto)]

mod cut;
pub mod extract;
mod piece;
mod place;
mod split;
pub mod text;
