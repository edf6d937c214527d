//! Whether the labels of a program that may loop hold: each follows from those before it, and the steps that are left
//! fall on each edge. Then every run ends within the bound.
#![tactic(auto)]

pub mod check;
mod kept;
pub mod label;
mod leads;
pub mod refusal;
