//! Cases that test a filter: spans, each with the verdict that is wanted, read from lines that a person writes; and
//! what is reported of them.
#![tactic(auto)]

pub mod case;
pub mod cases;
mod escapes;
mod lines;
mod mark_words;
pub mod marks;
mod quoted;
pub mod refusal;
pub mod report;
mod said;
pub mod wanted;
mod xml;
