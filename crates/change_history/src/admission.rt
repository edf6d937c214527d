//! Whether the operations of a change are accepted one after the other, found without a change to what is kept.
ghost use Rattle.std.specs.Prelude.{◌<◌, ◌≤◌, ◌+◌, ℕ, List, MatchResult, IfOk, length, take};
ghost use Rattle.change_ops.specs.Runs.{inserts_of};
ghost use Rattle.change_ops.specs.IdRuns.{removals_of, revivals_of};
ghost use Rattle.change_ops.specs.Lines.{ops_of, ops_of_lines};
ghost use Rattle.change_ops.specs.Sizes.{most_characters};
ghost use Rattle.change_ops.specs.declared.operation.Op.{Op};
ghost use Rattle.change_ops.specs.declared.size.Size.{Size};
ghost use Rattle.change_history.specs.Kept.{Keeps, AreAllAccepted, IsNotAccepted};
ghost use Rattle.change_history.specs.Tally.{AreOf, AreShort, AreNext, AreFollowing, Admits, IsTally};

use crate::parts::Parts;
use crate::refusal::{ApplyError, SubmitError, at_index};
use crate::tally::Tally;
use crate::trial::{has_space, try_all};
use change_ops::id_run::IdRun;
use change_ops::line::Line;
use change_ops::run::Run;
use change_ops::size::Size;
use std::alloc::{AllocError, Global};

/// Counts the inserts of a run one by one, up to the first that is refused; after an error the tally is of no use.
fn admit_each(size: Size, parts: &Parts, tally: &mut Tally, run: &Run) -> Result<(), ApplyError>
    requires { AreNext size (inserts_of run.now) parts.now tally.old }
    ensures { Admits size (inserts_of run.now) parts.now tally.old tally.new result }
{
    for index in 0..run.characters().len() {
        parts.admit(size, tally, &run.insert(index))?;
    }
    Ok(())
}

/// Counts the inserts of a run, which are accepted; after an error the tally is of no use.
fn note_run(tally: &mut Tally, run: &Run) -> Result<(), AllocError>
    requires { (size : Size) × ((ops : List Op) × ((added : List Op) × ((from : ℕ) × ((node : ℕ)
        × AreFollowing size ops added from node tally.old (inserts_of run.now))))) }
    ensures { (size : Size) (ops added : List Op) (from node : ℕ)
        → AreFollowing size ops added from node tally.old (inserts_of run.now)
        → IfOk result (λ _. IsTally ops (take (from + length (inserts_of run.now)) added) node tally.new) }
{
    for index in 0..run.characters().len() {
        tally.note(&run.insert(index))?;
    }
    Ok(())
}

/// The same as one by one, where there is room for all: what is asked of the first insert then holds of each.
fn admit_whole(size: Size, parts: &Parts, tally: &mut Tally, run: &Run) -> Result<(), ApplyError>
    requires some { 0 < length run.now.characters }
    requires room { tally.old.characters + length run.now.characters ≤ most_characters size }
    requires next { AreNext size (inserts_of run.now) parts.now tally.old }
    ensures { Admits size (inserts_of run.now) parts.now tally.old tally.new result }
{
    if let Err(refusal) = parts.check(size, tally, &run.insert(0)) {
        return Err(ApplyError::Refused(refusal));
    }
    match note_run(tally, run) {
        Ok(()) => Ok(()),
        Err(_) => Err(ApplyError::OutOfMemory),
    }
}

/// Counts the inserts of a run in the same way.
fn admit_run(size: Size, parts: &Parts, tally: &mut Tally, run: &Run) -> Result<(), ApplyError>
    requires { AreNext size (inserts_of run.now) parts.now tally.old }
    ensures { Admits size (inserts_of run.now) parts.now tally.old tally.new result }
{
    if tally.has_room(size, run.characters().len()) {
        admit_whole(size, parts, tally, run)
    } else {
        admit_each(size, parts, tally, run)
    }
}

/// Counts the removals of a run one by one in the same way.
fn admit_removals(
    size: Size,
    parts: &Parts,
    tally: &mut Tally,
    run: IdRun,
) -> Result<(), ApplyError>
    requires { AreNext size (removals_of run) parts.now tally.old }
    ensures { Admits size (removals_of run) parts.now tally.old tally.new result }
{
    for index in 0..run.count() as usize {
        parts.admit(size, tally, &run.removal(index))?;
    }
    Ok(())
}

/// Counts the revivals of a run one by one in the same way.
fn admit_revivals(
    size: Size,
    parts: &Parts,
    tally: &mut Tally,
    run: IdRun,
) -> Result<(), ApplyError>
    requires { AreNext size (revivals_of run) parts.now tally.old }
    ensures { Admits size (revivals_of run) parts.now tally.old tally.new result }
{
    for index in 0..run.count() as usize {
        parts.admit(size, tally, &run.revival(index))?;
    }
    Ok(())
}

/// Counts the operations of a line in the same way.
fn admit_line(size: Size, parts: &Parts, tally: &mut Tally, line: &Line) -> Result<(), ApplyError>
    requires { AreNext size (ops_of line.now) parts.now tally.old }
    ensures { Admits size (ops_of line.now) parts.now tally.old tally.new result }
{
    match line {
        Line::Operation(op) => parts.admit(size, tally, op),
        Line::Run(run) => admit_run(size, parts, tally, run),
        Line::Removals(run) => admit_removals(size, parts, tally, *run),
        Line::Revivals(run) => admit_revivals(size, parts, tally, *run),
    }
}

/// Looks at a peer's lines in their order, up to the first that is refused, where the text has space for them all.
fn count_all(
    alloc: Global,
    size: Size,
    parts: &Parts,
    node: u16,
    lines: &[Line],
) -> Result<(), SubmitError>
    requires kept { (ops : List Op) × Keeps ops parts.now }
    requires own { AreOf node (ops_of_lines lines.now) }
    requires short { (ops : List Op) → Keeps ops parts.now → AreShort size ops (ops_of_lines lines.now) }
    ensures { (ops : List Op) → Keeps ops parts.now
        → MatchResult result (λ _. AreAllAccepted size ops lines.now) (IsNotAccepted size ops lines.now) }
{
    let mut tally = parts.tally(alloc, node);
    for index in 0..lines.len() {
        if let Err(error) = admit_line(size, parts, &mut tally, &lines[index]) {
            return Err(at_index(index, error));
        }
    }
    Ok(())
}

/// Looks at a peer's lines in their order, up to the first that is refused.
pub(crate) fn admit_all(
    alloc: Global,
    size: Size,
    parts: &Parts,
    node: u16,
    lines: &[Line],
) -> Result<(), SubmitError>
    requires kept { (ops : List Op) × Keeps ops parts.now }
    requires own { AreOf node (ops_of_lines lines.now) }
    ensures { (ops : List Op) → Keeps ops parts.now
        → MatchResult result (λ _. AreAllAccepted size ops lines.now) (IsNotAccepted size ops lines.now) }
{
    if has_space(parts, lines) {
        count_all(alloc, size, parts, node, lines)
    } else {
        try_all(alloc, size, parts, node, lines)
    }
}
