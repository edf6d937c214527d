//! Which values of the machine are a text's length, or a link's, and differ from one by a constant: the marks of
//! [`value_marks`](value_marks::marks::Marks) with a name for each length, that stay right where a run comes back to a
//! slot, and that sums and differences keep.
#![tactic(auto)]

pub mod following;
pub mod laws;
mod lengths;
pub mod names;
mod sums;
