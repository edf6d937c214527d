//! Where what a refused instruction wants was known last (docs/PROGRAMS.md, "What the verifier knew").
#![tactic(auto)]

mod adding;
pub mod back;
pub mod copies;
pub mod distance;
mod joined;
mod knowing;
mod numbers;
pub mod origin;
mod shifting;
mod stacked;
mod told;
pub mod trail;
