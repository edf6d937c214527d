//! The trial of a change whose characters the visible text may have no room for: its operations are applied in their
//! order to a copy of the sequence.
ghost use Rattle.std.specs.Prelude.{◌≡◌, ℕ, ◌+◌, ◌<◌, ◌≤◌, List, ◌∷◌, ◌++◌, [], true, nat_le, sum_by, MatchOption};
ghost use Rattle.std.specs.Prelude.{MatchResult, IfOk, length, encode_utf8_all};
ghost use Rattle.change_ops.specs.Operations.{id_of};
ghost use Rattle.change_ops.specs.Runs.{inserts_of};
ghost use Rattle.change_ops.specs.IdRuns.{removals_of, revivals_of};
ghost use Rattle.change_ops.specs.Lines.{ops_of, ops_of_lines};
ghost use Rattle.change_ops.specs.declared.operation.Op.{Op};
ghost use Rattle.char_sequence.specs.Acceptance.{Accepts};
ghost use Rattle.char_sequence.specs.Visible.{all_bytes};
ghost use Rattle.change_history.specs.Kept.{Keeps, AreAllAccepted, IsNotAccepted};
ghost use Rattle.change_history.specs.Accepted.{MayFollow};
ghost use Rattle.change_history.specs.Tally.{AreOf, AreShort, IsTally};
ghost use Rattle.change_ops.specs.declared.size.Size.{Size};
ghost use Rattle.change_ops.specs.declared.size.TheConstants.{BYTE_LIMIT};
ghost use Rattle.change_history.specs.Trial.{growth, IsSequenceOf, sequence_of, CanTry, Tries};

use crate::parts::Parts;
use crate::refusal::{ApplyError, SubmitError, at_index};
use crate::tally::Tally;
use change_ops::character::Character;
use change_ops::id_run::IdRun;
use change_ops::line::Line;
use change_ops::operation::Op;
use change_ops::run::Run;
use change_ops::size::{BYTE_LIMIT, Size};
use char_sequence::sequence::Sequence;
use std::alloc::{AllocError, Global};

/// The most bytes that a revival adds to the visible text.
const MOST_REVIVED: usize = 4;

/// How many bytes an operation counts where each revival counts so many.
fn growth_of(op: &Op, revived: usize) -> usize
    ensures { result ≡ growth revived op.now }
{
    match op {
        Op::Revive { .. } => revived,
        Op::Insert { .. } | Op::Remove { .. } => op.byte_count(),
        Op::AddMark { .. } | Op::RemoveMark { .. } => 0,
    }
}

/// The room that bytes leave, None where there is too little for them.
fn room_behind(room: usize, bytes: usize) -> Option<usize>
    ensures { MatchOption result (room < bytes) (λ left. left + bytes ≡ room) }
{
    if bytes <= room {
        Some(room - bytes)
    } else {
        None
    }
}

/// The room that characters leave, in the same way.
fn room_behind_all(room: usize, characters: &[Character]) -> Option<usize>
    ensures { MatchOption result (room < length (encode_utf8_all characters.now))
        (λ left. left + length (encode_utf8_all characters.now) ≡ room) }
{
    let mut left = room;
    for character in characters {
        match room_behind(left, character.value().len_utf8()) {
            Some(behind) => left = behind,
            None => return None,
        }
    }
    Some(left)
}

/// The room that is left behind the operations of a line, in the same way.
fn room_behind_line(room: usize, revived: usize, line: &Line) -> Option<usize>
    requires { revived ≤ MOST_REVIVED }
    ensures { MatchOption result (room < sum_by (growth revived) (ops_of line.now))
        (λ left. left + sum_by (growth revived) (ops_of line.now) ≡ room) }
{
    match line {
        Line::Operation(op) => room_behind(room, growth_of(op, revived)),
        Line::Run(run) => room_behind_all(room, run.characters()),
        Line::Removals(_) => Some(room),
        Line::Revivals(run) => room_behind(room, revived * run.count() as usize),
    }
}

/// Whether so many bytes are room for the characters that the lines insert, and for so many bytes of each revival.
fn has_room(room: usize, revived: usize, lines: &[Line]) -> bool
    requires { revived ≤ MOST_REVIVED }
    ensures { result ≡ nat_le (sum_by (growth revived) (ops_of_lines lines.now)) room }
{
    let mut left = room;
    for line in lines {
        match room_behind_line(left, revived, line) {
            Some(behind) => left = behind,
            None => return false,
        }
    }
    true
}

/// How many bytes all characters have, hidden ones too.
fn bytes_of_all(sequence: &Sequence) -> usize
    ensures { result ≡ all_bytes sequence.now.elements }
{
    let mut count = 0;
    for element in sequence.elements() {
        count += element.character.value().len_utf8();
    }
    count
}

/// Whether all characters, hidden ones too, and those that the lines insert have room in the visible text at once.
fn has_room_for_all(sequence: &Sequence, lines: &[Line]) -> bool
    ensures { result ≡ true
        → all_bytes sequence.now.elements + sum_by (growth 0) (ops_of_lines lines.now) ≤ BYTE_LIMIT }
{
    let bytes = bytes_of_all(sequence);
    bytes <= BYTE_LIMIT && has_room(BYTE_LIMIT - bytes, 0, lines)
}

/// Whether no operation of the lines lacks room in the visible text, as far as can be told without applying them: a
/// removal only makes room.
pub(crate) fn has_space(parts: &Parts, lines: &[Line]) -> bool
    ensures { (size : Size) (ops : List Op) → Keeps ops parts.now → result ≡ true
        → AreShort size ops (ops_of_lines lines.now) }
{
    has_room(BYTE_LIMIT - parts.bytes(), MOST_REVIVED, lines)
        || has_room_for_all(parts.sequence(), lines)
}

/// What is counted of the operations that were applied and of a peer's own that follow them, with the sequence behind
/// them.
#[derive(Drop)]
pub(crate) struct Trial {
    tally: Tally,
    // None where that is the sequence of the parts: a change that is refused at once copies nothing.
    copy: Option<Sequence>,
}

/// Applies the next operation, which is accepted, to the sequence behind others; after an error it is of no use.
fn pass(sequence: &mut Sequence, op: &Op) -> Result<(), AllocError>
    requires { (size : Size) × ((ops : List Op) × IsSequenceOf ops sequence.old × Accepts size ops op.now) }
    ensures { (size : Size) (ops : List Op) → IsSequenceOf ops sequence.old → Accepts size ops op.now
        → IfOk result (λ _. IsSequenceOf (ops ++ op.now ∷ []) sequence.new) }
{
    match op {
        Op::Insert { .. } => sequence.insert(op),
        Op::Remove { .. } => sequence.remove(op),
        Op::Revive { .. } => sequence.revive(op),
        Op::AddMark { .. } => Ok(()),
        Op::RemoveMark { .. } => Ok(()),
    }
}

impl Trial {
    /// The sequence behind the operations.
    fn sequence<'a>(&'a self, parts: &'a Parts) -> &'a Sequence
        ensures { result.now ≡ sequence_of self.now parts.now }
    {
        match &self.copy {
            Some(copy) => copy,
            None => parts.sequence(),
        }
    }

    /// The same to be changed, which is then to be put back.
    fn take_sequence(&mut self, parts: &Parts) -> Result<Sequence, AllocError>
        ensures value { IfOk result (λ sequence. sequence ≡ sequence_of self.old parts.now) }
        ensures tally { self.new.tally ≡ self.old.tally }
    {
        match self.copy.take() {
            Some(copy) => Ok(copy),
            None => parts.sequence().clone(),
        }
    }

    /// Goes on behind the peer's next operation, which is accepted; after an error the trial is of no use.
    fn note(&mut self, parts: &Parts, op: &Op) -> Result<(), AllocError>
        requires { (size : Size) × ((ops : List Op) × ((own : List Op) × ((node : ℕ)
            × IsTally ops own node self.old.tally × IsSequenceOf (ops ++ own) (sequence_of self.old parts.now)
            × MayFollow size (ops ++ own) op.now))) }
        ensures { (size : Size) (ops own : List Op) (node : ℕ) → IsTally ops own node self.old.tally
            → IsSequenceOf (ops ++ own) (sequence_of self.old parts.now) → (id_of op.now).node ≡ node
            → MayFollow size (ops ++ own) op.now
            → IfOk result (λ _. IsTally ops (own ++ op.now ∷ []) node self.new.tally
            × IsSequenceOf ((ops ++ own) ++ op.now ∷ []) (sequence_of self.new parts.now)) }
    {
        let mut sequence = self.take_sequence(parts)?;
        pass(&mut sequence, op)?;
        self.copy = Some(sequence);
        self.tally.note(op)?;
        Ok(())
    }
}

/// Tries a peer's next operation; after an error the trial is of no use.
fn try_one(size: Size, parts: &Parts, trial: &mut Trial, op: &Op) -> Result<(), ApplyError>
    requires { CanTry size (op.now ∷ []) parts.now trial.old }
    ensures { Tries size (op.now ∷ []) parts.now trial.old trial.new result }
{
    if trial.sequence(parts).has_no_room(op) {
        return Err(ApplyError::Refused(parts.check_full(&trial.tally, op)));
    }
    if let Err(refusal) = parts.check(size, &trial.tally, op) {
        return Err(ApplyError::Refused(refusal));
    }
    match trial.note(parts, op) {
        Ok(()) => Ok(()),
        Err(_) => Err(ApplyError::OutOfMemory),
    }
}

/// Tries the inserts of a run one by one, up to the first that is refused; after an error the trial is of no use.
fn try_run(size: Size, parts: &Parts, trial: &mut Trial, run: &Run) -> Result<(), ApplyError>
    requires { CanTry size (inserts_of run.now) parts.now trial.old }
    ensures { Tries size (inserts_of run.now) parts.now trial.old trial.new result }
{
    for index in 0..run.characters().len() {
        try_one(size, parts, trial, &run.insert(index))?;
    }
    Ok(())
}

/// Tries the removals of a run one by one in the same way.
fn try_removals(size: Size, parts: &Parts, trial: &mut Trial, run: IdRun) -> Result<(), ApplyError>
    requires { CanTry size (removals_of run) parts.now trial.old }
    ensures { Tries size (removals_of run) parts.now trial.old trial.new result }
{
    for index in 0..run.count() as usize {
        try_one(size, parts, trial, &run.removal(index))?;
    }
    Ok(())
}

/// Tries the revivals of a run one by one in the same way.
fn try_revivals(size: Size, parts: &Parts, trial: &mut Trial, run: IdRun) -> Result<(), ApplyError>
    requires { CanTry size (revivals_of run) parts.now trial.old }
    ensures { Tries size (revivals_of run) parts.now trial.old trial.new result }
{
    for index in 0..run.count() as usize {
        try_one(size, parts, trial, &run.revival(index))?;
    }
    Ok(())
}

/// Tries the operations of a line in the same way.
fn try_line(size: Size, parts: &Parts, trial: &mut Trial, line: &Line) -> Result<(), ApplyError>
    requires { CanTry size (ops_of line.now) parts.now trial.old }
    ensures { Tries size (ops_of line.now) parts.now trial.old trial.new result }
{
    match line {
        Line::Operation(op) => try_one(size, parts, trial, op),
        Line::Run(run) => try_run(size, parts, trial, run),
        Line::Removals(run) => try_removals(size, parts, trial, *run),
        Line::Revivals(run) => try_revivals(size, parts, trial, *run),
    }
}

/// Tries a peer's lines in their order, up to the first that is refused, where the text may lack room for some.
pub(crate) fn try_all(
    alloc: Global,
    size: Size,
    parts: &Parts,
    node: u16,
    lines: &[Line],
) -> Result<(), SubmitError>
    requires kept { (ops : List Op) × Keeps ops parts.now }
    requires own { AreOf node (ops_of_lines lines.now) }
    ensures { (ops : List Op) → Keeps ops parts.now
        → MatchResult result (λ _. AreAllAccepted size ops lines.now) (IsNotAccepted size ops lines.now) }
{
    let mut trial = Trial {
        tally: parts.tally(alloc, node),
        copy: None,
    };
    for index in 0..lines.len() {
        if let Err(error) = try_line(size, parts, &mut trial, &lines[index]) {
            return Err(at_index(index, error));
        }
    }
    Ok(())
}
