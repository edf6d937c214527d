//! The marks of a text: which characters each covers, and the format that they give.
#![tactic(auto)]

pub mod anchors;
pub mod comment_list;
mod comment_runs;
mod comment_segments;
mod comment_table;
mod comments;
mod cut_places;
mod decided;
pub mod format;
pub mod format_sweep;
mod key_marks;
pub mod mark_range;
pub mod marks;
pub mod placed;
pub mod resolved;
pub mod value_ref;
mod values;
