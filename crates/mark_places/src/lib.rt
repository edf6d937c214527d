//! Where the marks of a text begin and end, kept from change to change, and those of them that decide the formats
//! between two places.
#![tactic(auto)]

mod block;
pub mod boundary;
pub mod chosen;
mod floors;
pub mod places;
pub mod range;
mod ranked;
mod shift;
