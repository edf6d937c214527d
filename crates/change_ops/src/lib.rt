//! Operations on a shared rich text, and their text.
#![tactic(auto)]

pub mod attribute;
pub mod change;
pub mod character;
mod fields;
pub mod id;
pub mod id_run;
mod id_run_reading;
pub mod keys;
pub mod line;
pub mod line_kind;
mod line_reading;
mod numbers;
pub mod numeral;
pub mod operation;
pub mod refusal;
mod room;
pub mod row_value;
pub mod run;
mod run_reading;
pub mod size;
pub mod value;
pub mod writing;
