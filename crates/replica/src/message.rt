//! A change as its peer sends it.
ghost use Rattle.std.specs.Prelude.{◌≡◌, ◌↔◌, ◌<◌, ◌^◌, ◌∷◌, [], MatchOption, IsTrue};
ghost use Rattle.change_ops.specs.Runs.{inserts_of};
ghost use Rattle.change_ops.specs.IdRuns.{removals_of, revivals_of};
ghost use Rattle.change_ops.specs.Lines.{ops_of, ops_of_lines};
ghost use Rattle.replica.specs.Messages.{IsSound, Rises, Overlap};

use change_ops::change::Change;
use change_ops::id_run::IdRun;
use change_ops::line::Line;
use change_ops::operation::Op;
use change_ops::run::Run;
use char_sequence::sequence::is_above_named;
use std::marker::Model;

/// A change, with the counter of its peer's last operation before it, 0 where there is none: whoever misses that
/// operation knows by it that an earlier change hasn't come.
pub struct Message {
    previous: u64,
    // The counter of the change's last operation.
    last: u64,
    change: Change,
}

impl Drop for Message {
    fn drop(self) {
        let Message {
            previous: _,
            last: _,
            change: _,
        } = self;
    }
}

impl Model for Message {
    ghost use Rattle.replica.specs.Messages.{Message as MessageValue, IsMessage};

    ghost Value = { MessageValue };

    ghost view = { λ m. record { previous = m.previous; change = m.change } };

    ghost invariant = { λ m. IsMessage (record { previous = m.previous; change = m.change }) m.last };
}

/// The counter of an operation that may stand behind one with the counter `last`: it is above that, and above those of
/// all ids that the operation names.
fn risen(last: u64, op: &Op) -> Option<u64>
    ensures { Rises last (op.now ∷ []) result }
{
    let counter = op.id().counter();
    if last < counter && is_above_named(op) {
        Some(counter)
    } else {
        None
    }
}

/// The counter of the last insert of a run, if each may stand behind the one before it.
fn risen_run(last: u64, run: &Run) -> Option<u64>
    ensures { Rises last (inserts_of run.now) result }
{
    let mut end = last;
    for index in 0..run.characters().len() {
        let next = risen(end, &run.insert(index))?;
        end = next;
    }
    Some(end)
}

/// The counter of the last removal of a run in the same way.
fn risen_removals(last: u64, run: IdRun) -> Option<u64>
    ensures { Rises last (removals_of run) result }
{
    let mut end = last;
    for index in 0..run.count() as usize {
        let next = risen(end, &run.removal(index))?;
        end = next;
    }
    Some(end)
}

/// The counter of the last revival of a run in the same way.
fn risen_revivals(last: u64, run: IdRun) -> Option<u64>
    ensures { Rises last (revivals_of run) result }
{
    let mut end = last;
    for index in 0..run.count() as usize {
        let next = risen(end, &run.revival(index))?;
        end = next;
    }
    Some(end)
}

/// The counter of the last operation of a line in the same way.
fn risen_line(last: u64, line: &Line) -> Option<u64>
    ensures { Rises last (ops_of line.now) result }
{
    match line {
        Line::Operation(op) => risen(last, op),
        Line::Run(run) => risen_run(last, run),
        Line::Removals(run) => risen_removals(last, *run),
        Line::Revivals(run) => risen_revivals(last, *run),
    }
}

/// The counter of the last operation of lines in the same way.
fn risen_lines(last: u64, lines: &[Line]) -> Option<u64>
    ensures { Rises last (ops_of_lines lines.now) result }
{
    let mut end = last;
    for index in 0..lines.len() {
        let next = risen_line(end, &lines[index])?;
        end = next;
    }
    Some(end)
}

impl Message {
    /// The message of a change, unless no history can ever accept it there: its operations' counters rise, from above
    /// the previous one on, and each is above those of the ids that its operation names.
    pub fn new(previous: u64, change: Change) -> Option<Message>
        ensures { MatchOption result (IsSound (record { previous = previous; change = change }) → ⊥)
            (λ message. (message ≡ record { previous = previous; change = change }) × IsSound message) }
    {
        let last = risen_lines(previous, change.lines())?;
        // A change always has an operation; its proof learns that here.
        if last == previous {
            return None;
        }
        Some(Message {
            previous,
            last,
            change,
        })
    }

    /// The counter of the peer's last operation before the change, 0 where there is none.
    pub fn previous(&self) -> u64
        ensures value { result ≡ self.now.previous }
        ensures sound { IsSound self.now }
        ensures small { self.now.previous < 2 ^ 48 }
    {
        self.previous
    }

    pub fn change(&self) -> &Change
        ensures { result.now ≡ self.now.change }
    {
        &self.change
    }

    /// Whether both are of one peer and cover a counter of it.
    pub fn overlaps(&self, other: &Message) -> bool
        ensures { IsTrue result ↔ Overlap self.now other.now }
    {
        let ours = self.change.node();
        let theirs = other.change.node();
        if ours != theirs {
            return false;
        }
        if self.previous >= other.last {
            return false;
        }
        if other.previous >= self.last {
            return false;
        }
        true
    }
}
