//! A sequence of pieces that versions share: a tree of two levels of nodes, of which a window makes anew only the nodes
//! that it touches. What a piece is, and how large, its type says.
#![tactic(auto)]

pub mod iter;
mod node;
pub mod piece;
mod spot;
pub mod tree;
mod window;
