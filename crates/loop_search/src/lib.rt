//! What is known before each slot of a program that may loop, found by a search. Nothing rests on it: whether what it
//! finds is right is for a check to say.
#![tactic(auto)]

mod classes;
mod join;
pub mod states;
mod tails;
mod thresholds;
mod widening;
