//! Calls of the libraries for a benchmark in C: each takes bytes and numbers, and answers a number.
#![tactic(auto)]

mod programs;
mod text;
