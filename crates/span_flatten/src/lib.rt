//! Versions of a text: the visible characters as one text, cut into spans of equal format. And windows of it: the same
//! of the characters between two places.
#![tactic(auto)]

pub mod flatten;
pub mod version;
pub mod window;
