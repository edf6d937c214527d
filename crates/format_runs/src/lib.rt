//! The formats of a text's characters in runs, of which each is as long as it can be, in pieces that versions share.
#![tactic(auto)]

mod cut;
mod draft;
pub mod iter;
mod piece;
pub mod run;
pub mod runs;
