//! The lines of a change.
ghost use Rattle.std.specs.Prelude.{◌≡◌, ◌≤◌, length};
ghost use Rattle.change_ops.specs.Keys.{is_at_most};
ghost use Rattle.change_ops.specs.Lines.{ops_of, count_of};

use crate::id_run::IdRun;
use crate::operation::Op;
use crate::run::Run;
use std::alloc::Global;
use std::default::MadeWith;

/// The form of a change: the second has lines that the first has not, runs and those of the key code, and the third
/// also those that take removals back, runs of removals, and those of further keys.
#[derive(Clone, Copy, PartialEq, Eq)]
pub enum Form {
    First,
    Second,
    Third,
}

impl Form {
    /// Whether changes of this form have what those of the other one have.
    pub fn has(self, other: Form) -> bool
        ensures { result ≡ is_at_most other self }
    {
        match self {
            Form::First => matches!(other, Form::First),
            Form::Second => !matches!(other, Form::Third),
            Form::Third => true,
        }
    }
}

/// A line of a change: one operation, the inserts of a run, or a run of removals or of revivals.
pub enum Line {
    Operation(Op),
    Run(Run),
    Removals(IdRun),
    Revivals(IdRun),
}

impl Drop for Line {
    fn drop(self) {
        match self {
            Line::Operation(_) => {}
            Line::Run(_) => {}
            Line::Removals(_) => {}
            Line::Revivals(_) => {}
        }
    }
}

/// The blank that stands in the unused slots of a list of lines.
impl MadeWith<Global> for Line {
    ghost use Rattle.change_ops.specs.Operations.{blank};
    ghost use Rattle.change_ops.specs.declared.line.Line.TheVariants as lines;

    ghost is_made_with = { λ line. line ≡ lines.Operation blank };

    fn made_with(alloc: Global) -> Self {
        Line::Operation(Op::made_with(alloc))
    }
}

impl Line {
    /// How many of a change's 256 operations the line is.
    pub fn count(&self) -> usize
        ensures value { result ≡ count_of self.now }
        ensures limit { result ≤ 256 }
    {
        match self {
            Line::Operation(_) => 1,
            Line::Run(run) => run.characters().len(),
            Line::Removals(_) | Line::Revivals(_) => 1,
        }
    }

    /// How many operations the line means.
    pub fn meant(&self) -> usize
        ensures value { result ≡ length (ops_of self.now) }
        ensures limit { result ≤ 65535 }
    {
        match self {
            Line::Operation(_) => 1,
            Line::Run(run) => run.characters().len(),
            Line::Removals(run) => run.count() as usize,
            Line::Revivals(run) => run.count() as usize,
        }
    }
}
