//! Lines of assembler text, a form of this project for the instructions of RFC 9669: the tokens of a line, and the
//! instruction that they stand for.
#![tactic(auto)]

pub mod fault;
pub mod form;
pub mod grammar;
pub mod mnemonics;
pub mod reading;
pub mod scanner;
mod shapes;
pub mod statement;
pub mod token;
mod words;
