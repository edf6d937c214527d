//! The characters of a version with their formats, and windows that are put in place of some of them: what a version
//! shows that is made from the one before it.
#![tactic(auto)]

pub mod replacement;
