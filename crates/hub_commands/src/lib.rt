//! The commands of the program, over any reader and writer.
#![tactic(auto)]

mod answer;
mod asm;
mod changes_input;
mod check;
mod check_loops;
mod digits;
mod dis;
pub mod ended;
mod explain;
pub mod failure;
mod filter_test;
mod first_turn;
mod hex_input;
mod hexadecimal;
pub mod hint;
mod input;
mod join;
mod loop_lines;
mod output;
pub mod perform;
mod pieces;
mod potential_lines;
mod run;
mod spans;
mod straighten;
mod trace;
mod word_fault;
