//! A change, and reading it from its text.
ghost use Rattle.std.specs.Prelude.{◌≡◌, ◌⊎◌, List, ℕ, ◌<◌, ◌≤◌, IfOk, IfErr, IsTrue, Ok, Err, length};
ghost use Rattle.std.specs.Str.{IsUtf8};
ghost use Rattle.change_ops.specs.Reading.{header_at, form_at, formed};
ghost use Rattle.change_ops.specs.Lines.{ops_of_lines};
ghost use Rattle.change_ops.specs.Rooms.{whole_room, line_fits};
ghost use Rattle.change_ops.specs.Forms.{LinesAreForms, HeadersAreForms};
ghost use Rattle.change_ops.specs.FirstForm.{FirstFormIsPlain};
ghost use Rattle.change_ops.specs.Refusals.{IsRefused};
ghost use Rattle.change_ops.specs.declared.refusal.ChangeError.TheVariants.{OutOfMemory};
ghost use Rattle.change_ops.specs.Spelling.{Spells, Answers, NoneBeginsAnother};
ghost use Rattle.change_ops.specs.Changes.{Gives, OwnLines, at_line as fault_at, header_verdict, next_at};
ghost use Rattle.change_ops.specs.Changes.{lines_at, change_at};

use crate::line::{Form, Line};
use crate::line_reading::line_of_change;
use crate::numbers::{line_of, number, word_of};
use crate::refusal::{ChangeError, LineFault};
use crate::room::Room;
use smallvec::SmallVec;
use std::alloc::Global;
use std::marker::Model;

/// Operations of one peer, which are accepted together: 1 to 256, the id of each with the peer's node.
/// They stand in lines, of which one may mean many operations: at most 262,144 in all.
pub struct Change {
    form: Form,
    node: u16,
    lines: SmallVec<Line, 1>,
}

impl Drop for Change {
    fn drop(self) {
        let Change {
            form: _,
            node: _,
            lines: _,
        } = self;
    }
}

impl Model for Change {
    ghost use Rattle.change_ops.specs.Changes.{Change as ChangeValue, IsChange};

    ghost Value = { ChangeValue };

    ghost view = { λ c. record { form = c.form; node = c.node; lines = c.lines.items } };

    ghost invariant = { λ c. IsChange (record { form = c.form; node = c.node; lines = c.lines.items }) };
}

impl Change {
    ghost use Rattle.change_ops.specs.Changes.{IsChange, operations};

    /// The form of the text that spells the change.
    pub fn form(&self) -> Form
        ensures { result ≡ self.now.form }
    {
        self.form
    }

    /// The node of the peer that made the operations.
    pub fn node(&self) -> u16
        ensures value { result ≡ self.now.node }
        ensures limits { IsChange self.now }
    {
        self.node
    }

    /// The lines in their order.
    pub fn lines(&self) -> &[Line]
        ensures value { result.now ≡ self.now.lines }
        ensures limits { IsChange self.now }
    {
        self.lines.as_slice()
    }

    /// How many operations the lines mean.
    pub fn operation_count(&self) -> usize
        ensures value { result ≡ length (operations self.now) }
        ensures limit { result ≤ 262144 }
    {
        meant_by(self.lines())
    }
}

/// How many operations lines mean.
fn meant_by(lines: &[Line]) -> usize
    requires { length (ops_of_lines lines.now) ≤ 262144 }
    ensures { result ≡ length (ops_of_lines lines.now) }
{
    let mut meant = 0;
    for line in lines {
        meant += line.meant();
    }
    meant
}

fn at_line(line: usize, fault: LineFault) -> ChangeError
    ensures { result ≡ fault_at line fault }
{
    match fault {
        LineFault::BadLine => ChangeError::BadLine(line),
        LineFault::Limit => ChangeError::Limit(line),
        LineFault::CharRefused => ChangeError::CharRefused(line),
        LineFault::WrongPeer => ChangeError::WrongPeer(line),
        LineFault::OutOfMemory => ChangeError::OutOfMemory,
    }
}

/// The line of this number of a peer's change with this room, and what follows it.
#[tactic(auto, unfolding(crate::specs::Changes::next_at))]
fn next_line(
    alloc: Global,
    form: Form,
    peer: u16,
    room: Room,
    number: usize,
    text: &str,
) -> Result<(Line, &str), ChangeError>
    requires { room.operations ≤ 256 }
    ensures read { Gives (λ x. (x.0, x.1.now)) result (next_at form peer room number text.now) }
    ensures fits { IfOk result (λ x. IsTrue (line_fits room x.0)) }
    ensures text { IfOk result (λ x. IsUtf8 x.1.now) }
{
    let Some((words, rest)) = line_of(text) else {
        return Err(ChangeError::Truncated);
    };
    match line_of_change(alloc, form, peer, room, words) {
        Ok(line) => Ok((line, rest)),
        Err(fault) => Err(at_line(number, fault)),
    }
}

#[tactic(auto, using(crate::proofs::Loop::steps))]
fn lines_of(
    alloc: Global,
    form: Form,
    peer: u16,
    count: usize,
    text: &str,
) -> Result<(SmallVec<Line, 1>, &str), ChangeError>
    requires { count ≤ 256 }
    ensures read { Gives (λ x. (x.0.items, x.1.now)) result (lines_at form peer whole_room 2 count text.now) }
    ensures kept { IfOk result (λ x. OwnLines form peer whole_room count x.0.items) }
    ensures text { IfOk result (λ x. IsUtf8 x.1.now) }
{
    let mut lines: SmallVec<Line, 1> = SmallVec::with_capacity(alloc, count)?;
    let mut rest: &str = text;
    let mut room = Room::whole();
    for index in 0..count {
        let (line, after) = next_line(alloc, form, peer, room, index + 2, rest)?;
        room = room.behind(&line);
        lines.push(line)?;
        rest = after;
    }
    Ok((lines, rest))
}

/// The form that a change's first word names.
fn form_of(word: &str) -> Result<Form, LineFault>
    ensures { result ≡ formed (form_at word.now) }
{
    if word == "change" {
        Ok(Form::First)
    } else if word == "change2" {
        Ok(Form::Second)
    } else if word == "change3" {
        Ok(Form::Third)
    } else {
        Err(LineFault::BadLine)
    }
}

/// The form, the node and the count of a change's first line.
#[tactic(auto, unfolding(crate::specs::Reading::header_at))]
fn header_of(line: &str) -> Result<(Form, u16, usize), LineFault>
    ensures { result ≡ header_verdict (header_at line.now) }
{
    let (name, fields) = word_of(line)?;
    let (node, count) = word_of(fields)?;
    let form = form_of(name)?;
    let node = number(10, node)?;
    let count = number(10, count)?;
    if node < 1 || node > 65535 || count < 1 || count > 256 {
        return Err(LineFault::Limit);
    }
    Ok((form, node as u16, count as usize))
}

/// The change at the front of a text, and what follows it.
#[tactic(auto, unfolding(crate::specs::Changes::change_at))]
fn change_of(alloc: Global, text: &str) -> Result<(Change, &str), ChangeError>
    ensures read { Gives (λ x. (x.0, x.1.now)) result (change_at text.now) }
    ensures text { IfOk result (λ x. IsUtf8 x.1.now) }
{
    let Some((line, rest)) = line_of(text) else {
        return Err(ChangeError::Truncated);
    };
    let (form, node, count) = match header_of(line) {
        Ok(header) => header,
        Err(fault) => return Err(at_line(1, fault)),
    };
    let (lines, rest) = lines_of(alloc, form, node, count, rest)?;
    Ok((Change { form, node, lines }, rest))
}

/// Reads the change at the front of a text; what follows it is lent. A text that begins with no
/// change's has the first refusal, with its line in the change from 1: the lines are read in their
/// order, and in a line a missing LF comes before the form, the limits, the character and the peer.
pub fn read_change(alloc: Global, text: &str) -> Result<(Change, &str), ChangeError>
    ensures spelled { IfOk result (λ x. Spells text.now x.0 x.1.now) }
    ensures complete { (change : Change) (rest : List ℕ) → Spells text.now change rest
        → Answers result (λ x. (x.0, x.1.now)) (change, rest) }
    ensures refused { IfErr result (λ e. (e ≡ OutOfMemory) ⊎ IsRefused text.now e) }
    ensures first { (e : ChangeError) → IsRefused text.now e → (result ≡ Err e) ⊎ (result ≡ Err OutOfMemory) }
    ensures text { IfOk result (λ x. IsUtf8 x.1.now) }
    ensures shorter { IfOk result (λ x. length x.1.now < length text.now) }
{
    change_of(alloc, text)
}

/// No text of a change begins another one's.
pub fn none_begins_another()
    ensures { NoneBeginsAnother }
{}

/// A line is read by its form alone, and no line has two.
pub fn lines_have_one_form()
    ensures lines { LinesAreForms }
    ensures headers { HeadersAreForms }
{}

/// A change of the first form is read as its operations, a line each, as it is where there is no other form.
pub fn first_form_is_plain()
    ensures { FirstFormIsPlain }
{}
