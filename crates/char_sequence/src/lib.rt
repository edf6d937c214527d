//! A text as a list of elements, kept in the order of the tree of its inserts, in chunks.
#![tactic(auto)]

mod chunk;
mod chunk_counts;
mod chunk_list;
mod chunk_names;
mod counting;
pub mod elements;
mod entering;
mod index;
pub mod newest;
pub mod place_table;
pub mod runs;
pub mod sequence;
mod visible;
pub mod visible_cursor;
mod visible_places;
