//! A change that is put together of several.
ghost use Rattle.std.specs.Prelude.{◌≡◌, ◌≤◌, ◌++◌, List, ℕ, IfOk, OnOk, IsTrue};
ghost use Rattle.std.specs.String.{string_bytes};
ghost use Rattle.change_ops.specs.Changes.{Change, IsChange};
ghost use Rattle.change_ops.specs.Lines.{count_of_lines};
ghost use Rattle.change_ops.specs.Spelling.{lines_text, form_text, change_text};
ghost use Rattle.change_ops.specs.Refusals.{Line as FirstLine};
ghost use Rattle.change_join.specs.Joined.{wider, can_join, both_of};
ghost use Rattle.change_join.specs.Joints.{IsJoint};

use change_ops::change::Change;
use change_ops::line::{Form, Line};
use change_ops::writing::write_change;
use std::alloc::{AllocError, Global};

/// The most operations of a change, of which a run of removals or of revivals is one.
const MOST_OPERATIONS: usize = 256;

/// The most operations that a change means.
const MOST_MEANT: usize = 262144;

/// The change of all lines of several: how many operations it has and means, how many lines, and the text of these.
#[derive(Drop)]
pub(crate) struct Joint {
    form: Form,
    node: u16,
    operations: usize,
    meant: usize,
    lines: usize,
    text: String,
}

/// How many of a change's 256 operations the lines are.
fn count_of_lines(lines: &[Line]) -> usize
    requires { count_of_lines lines.now ≤ 256 }
    ensures { result ≡ count_of_lines lines.now }
{
    let mut count = 0;
    for line in lines {
        count += line.count();
    }
    count
}

/// How many operations a change has.
fn count_of(change: &Change) -> usize
    ensures value { result ≡ count_of_lines change.now.lines }
    ensures limit { result ≤ 256 }
{
    count_of_lines(change.lines())
}

/// What stands behind the first line of a text.
fn behind_first_line(text: &str) -> &str
    ensures { (line rest : List ℕ) → FirstLine text.now line rest → result.now ≡ rest }
{
    match text.split_once('\n') {
        Some((_, rest)) => rest,
        None => "",
    }
}

/// Appends the lines of a change.
fn write_lines(change: &Change, out: &mut String) -> Result<(), AllocError>
    requires { IsChange change.now }
    ensures { OnOk result (string_bytes out.new ≡ string_bytes out.old ++ lines_text change.now.lines) }
{
    let mut text = String::new(*out.allocator());
    write_change(change, &mut text)?;
    out.push_str(behind_first_line(&text))
}

/// The word that a change of the form begins with.
fn word_of(form: Form) -> &'static str
    ensures { result.now ≡ form_text form }
{
    match form {
        Form::First => "change",
        Form::Second => "change2",
        Form::Third => "change3",
    }
}

/// The form that has the lines of both.
fn wider(one: Form, other: Form) -> Form
    ensures { result ≡ wider one other }
{
    match one {
        Form::First => other,
        Form::Second => match other {
            Form::First | Form::Second => Form::Second,
            Form::Third => Form::Third,
        },
        Form::Third => Form::Third,
    }
}

impl Joint {
    /// A change alone.
    pub(crate) fn of(alloc: Global, change: &Change) -> Result<Joint, AllocError>
        ensures { IfOk result (IsJoint change.now) }
    {
        let mut joint = Joint {
            form: change.form(),
            node: change.node(),
            operations: count_of(change),
            meant: change.operation_count(),
            lines: change.lines().len(),
            text: String::new(alloc),
        };
        write_lines(change, &mut joint.text)?;
        Ok(joint)
    }

    /// Whether one more can be joined: it is of the same peer, and there is room for its operations.
    pub(crate) fn can_take(&self, next: &Change) -> bool
        requires { (change : Change) × IsJoint change self.now }
        ensures { (change : Change) → IsJoint change self.now → result ≡ can_join change next.now }
    {
        self.node == next.node()
            && self.operations + count_of(next) <= MOST_OPERATIONS
            && self.meant + next.operation_count() <= MOST_MEANT
    }

    /// Joins one more, behind the others.
    pub(crate) fn take(&mut self, next: &Change) -> Result<(), AllocError>
        requires { (change : Change) × IsJoint change self.old × IsTrue (can_join change next.now) }
        ensures { OnOk result ((change : Change) → IsJoint change self.old
            → IsTrue (can_join change next.now) → IsJoint (both_of change next.now) self.new) }
    {
        self.form = wider(self.form, next.form());
        self.operations += count_of(next);
        self.meant += next.operation_count();
        self.lines += next.lines().len();
        write_lines(next, &mut self.text)
    }

    /// Appends the text of the change.
    pub(crate) fn write(&self, out: &mut String) -> Result<(), AllocError>
        ensures { OnOk result ((change : Change) → IsJoint change self.now
            → string_bytes out.new ≡ string_bytes out.old ++ change_text change) }
    {
        write!(
            out,
            "{} {} {}\n{}",
            word_of(self.form),
            self.node,
            self.lines,
            self.text
        )
    }
}
