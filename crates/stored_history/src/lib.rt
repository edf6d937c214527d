//! A history whose accepted changes a log keeps before anyone is told of them.
#![tactic(auto)]

pub mod answer;
pub mod error;
mod group;
pub mod history;
mod reading;
mod text;
