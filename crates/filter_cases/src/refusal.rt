//! Why cases are refused.
ghost use Rattle.std.specs.Prelude.{Some};
ghost use Rattle.filter_cases.specs.Refusal.{bad_case};

use std::fmt;

/// A line that is no case.
#[derive(Clone, Copy)]
pub struct BadCase {
    /// From 1.
    pub line: usize,
}

/// The number and name, and the line.
impl fmt::Display for BadCase {
    ghost output = { λ bad. Some (bad_case bad.line) };

    fn fmt<W: fmt::Write>(&self, f: &mut fmt::Formatter<W>) -> fmt::Result {
        write!(f, "76 BadCase line {}", self.line)
    }
}
