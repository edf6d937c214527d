//! Potentials of a program that may loop, whose states are known, found by a search. Nothing rests on it: whether they
//! fall on each edge is for a check to say.
#![tactic(auto)]

pub mod bounds;
mod edges;
mod linear;
mod measures;
