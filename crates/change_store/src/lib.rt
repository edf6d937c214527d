//! The texts of a hub's accepted changes in a file that SQLite reads.
#![tactic(auto)]

pub mod error;
mod file;
pub mod look;
mod place;
mod rows;
mod schema;
pub mod store;
mod tables;
