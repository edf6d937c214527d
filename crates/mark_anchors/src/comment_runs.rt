//! The places at which comments hold, as runs of places side by side.
ghost use Rattle.std.specs.Prelude.{◌≡◌, ◌<◌, ◌≤◌, ◌^◌, ◌⊎◌, ◌↔◌, ◌∷◌, [], ℕ, List, Some, Contains, IfOk, IfSome};
ghost use Rattle.std.specs.Prelude.{IsSome, length, slice_get};
ghost use Rattle.change_ops.specs.declared.attribute.Attribute.{Attribute};
ghost use Rattle.change_ops.specs.declared.attribute.Key.{Key};
ghost use Rattle.char_sequence.specs.declared.sequence.Element.{Element};
ghost use Rattle.char_sequence.specs.Order.{Shows, IsAt};
ghost use Rattle.mark_anchors.specs.Format.{Bears};
ghost use Rattle.mark_anchors.specs.Marks.{AreMarks};
ghost use Rattle.mark_anchors.specs.KeyMarks.{AreStill};
ghost use Rattle.mark_anchors.specs.Placed.{ArePlaced, CoversPlace};
ghost use Rattle.mark_anchors.specs.Commented.{AreCommented, placed_of};
ghost use Rattle.mark_anchors.specs.CommentRuns.{HasPlace, has_place, HasRun, IsRun, Precedes, AreOrderly, AreAdded};
ghost use Rattle.mark_anchors.specs.CommentRuns.{AreHolding};
ghost use Rattle.mark_anchors.specs.declared.comment_runs.CommentRun.{CommentRun};
ghost use Rattle.mark_anchors.specs.declared.comments.CommentMark.{CommentMark};
ghost use Rattle.mark_anchors.specs.declared.placed.PlacedMark.{PlacedMark};

use crate::comments::{CommentMark, CommentMarks, comment_end};
use crate::placed::{PlacedMark, holds_at};
use change_ops::attribute::CommentNumber;
use change_ops::id::OpId;
use change_ops::operation::Op;
use std::alloc::{AllocError, Global};

/// Places at which the comment of the number holds: from `from` up to `to`, which is not one of them.
#[derive(Clone, Copy)]
pub(crate) struct CommentRun {
    pub(crate) number: CommentNumber,
    pub(crate) from: usize,
    pub(crate) to: usize,
}

impl CommentRun {
    /// Whether the place is one of the run's.
    pub(crate) fn has(&self, place: usize) -> bool
        ensures { result ≡ has_place self.now place }
    {
        self.from <= place && place < self.to
    }
}

/// The run from the one place to the other, between which no mark of the comment begins or ends, if the comment holds
/// there.
/// `near` is where the last look-up among the comment's marks ended.
fn run_between(
    operations: &[Op],
    comment: &CommentMarks,
    from: usize,
    to: usize,
    near: &mut usize,
) -> Option<CommentRun>
    requires { (i : ℕ) (p : PlacedMark) → slice_get comment.now.marks i ≡ Some p → p.index < length operations.now }
    ensures run { IfSome result (λ run. IsRun comment.now.number from to run) }
    ensures along { (es : List Element) (ops : List Op) (p : ℕ) (e : OpId) → Shows es ops
        → AreMarks ops operations.now → ArePlaced es operations.now (Key.Comment comment.now.number) comment.now.marks
        → AreStill comment.now.marks from to → from ≤ p → p < to → IsAt es e p
        → IsSome result ↔ Bears ops e (Attribute.Comment comment.now.number) }
{
    if !holds_at(operations, &comment.marks, from, near) {
        return None;
    }
    let number = comment.number;
    // Its contract bounds the number, and so how many comments hold at a place.
    let _least = number.number();
    Some(CommentRun { number, from, to })
}

/// Adds the run, or lengthens the last one where that is of the same comment and ends where the run begins.
fn push_run(runs: &mut Vec<CommentRun>, run: CommentRun) -> Result<(), AllocError>
    requires orderly { AreOrderly runs.old.items }
    requires behind { (other : CommentRun) → Contains runs.old.items other → Precedes other run }
    requires along { run.from ≤ run.to }
    requires some { 1 ≤ run.number }
    requires short { run.number < 2 ^ 32 }
    ensures orderly { IfOk result (λ _. AreOrderly runs.new.items) }
    ensures places { IfOk result (λ _. (n place : ℕ)
        → HasRun runs.new.items n place ↔ (HasRun runs.old.items n place ⊎ ((run.number ≡ n) × HasPlace run place))) }
    ensures ends { IfOk result (λ _. (other : CommentRun) → Contains runs.new.items other
        → Contains runs.old.items other ⊎ ((other.number ≡ run.number) × (other.to ≡ run.to))) }
{
    let count = runs.len();
    if count > 0 {
        let last = runs[count - 1];
        if last.number == run.number && last.to == run.from {
            runs[count - 1].to = run.to;
            return Ok(());
        }
    }
    runs.push(run)?;
    Ok(())
}

/// The run of a comment that has one mark, if that is added and covers a place.
fn run_of_one(operations: &[Op], number: CommentNumber, mark: &PlacedMark) -> Option<CommentRun>
    requires { mark.now.index < length operations.now }
    ensures run { IfSome result (λ run. IsRun number mark.now.start mark.now.end run) }
    ensures along { IfSome result (λ run. run.from ≤ run.to) }
    ensures holding { (es : List Element) (ops : List Op) (p : ℕ) (e : OpId) → Shows es ops
        → AreMarks ops operations.now → ArePlaced es operations.now (Key.Comment number) (mark.now ∷ [])
        → IsAt es e p → Bears ops e (Attribute.Comment number) ↔ (IsSome result × CoversPlace mark.now p) }
{
    let Op::AddMark { .. } = &operations[mark.index] else {
        return None;
    };
    if mark.start >= mark.end {
        return None;
    }
    // Its contract bounds the number, and so how many comments hold at a place.
    let _least = number.number();
    Some(CommentRun {
        number,
        from: mark.start,
        to: mark.end,
    })
}

/// Adds the run of a comment that has one mark.
fn push_run_of_one(
    runs: &mut Vec<CommentRun>,
    operations: &[Op],
    number: CommentNumber,
    mark: &PlacedMark,
) -> Result<(), AllocError>
    requires placed { mark.now.index < length operations.now }
    requires orderly { AreOrderly runs.old.items }
    requires below { (run : CommentRun) → Contains runs.old.items run → run.number < number }
    ensures { IfOk result (λ _. AreAdded operations.now number (mark.now ∷ []) runs.old.items runs.new.items) }
{
    if let Some(run) = run_of_one(operations, number, mark) {
        push_run(runs, run)?;
    }
    Ok(())
}

/// Adds the runs of a comment.
fn push_runs(
    runs: &mut Vec<CommentRun>,
    operations: &[Op],
    comment: &CommentMarks,
) -> Result<(), AllocError>
    requires placed { (i : ℕ) (p : PlacedMark) → slice_get comment.now.marks i ≡ Some p
        → p.index < length operations.now }
    requires orderly { AreOrderly runs.old.items }
    requires below { (run : CommentRun) → Contains runs.old.items run → run.number < comment.now.number }
    ensures { IfOk result (λ _. AreAdded operations.now comment.now.number comment.now.marks runs.old.items
        runs.new.items) }
{
    let places = comment.marks.places();
    let gaps = places.len().saturating_sub(1);
    let mut near = 0;
    for index in 0..gaps {
        if let Some(run) = run_between(
            operations,
            comment,
            places[index],
            places[index + 1],
            &mut near,
        ) {
            push_run(runs, run)?;
        }
    }
    Ok(())
}

/// Adds the runs of the comment of the number, which has these marks: mostly one, which needs no search.
fn push_comment(
    alloc: Global,
    runs: &mut Vec<CommentRun>,
    operations: &[Op],
    number: CommentNumber,
    marks: &[CommentMark],
) -> Result<(), AllocError>
    requires placed { (c : CommentMark) → Contains marks.now c → c.mark.index < length operations.now }
    requires orderly { AreOrderly runs.old.items }
    requires below { (run : CommentRun) → Contains runs.old.items run → run.number < number }
    ensures { IfOk result (λ _. AreAdded operations.now number (placed_of marks.now) runs.old.items runs.new.items) }
{
    if let [only] = marks {
        return push_run_of_one(runs, operations, number, &only.mark);
    }
    let comment = CommentMarks::new(alloc, number, marks)?;
    push_runs(runs, operations, &comment)
}

/// The runs of all comments, by rising numbers.
pub(crate) fn comment_runs(
    alloc: Global,
    operations: &[Op],
    comments: &[CommentMark],
) -> Result<Vec<CommentRun>, AllocError>
    requires { (es : List Element) × AreCommented es operations.now comments.now }
    ensures orderly { IfOk result (λ runs. AreOrderly runs.items) }
    ensures holding { IfOk result (λ runs. (es : List Element) → AreCommented es operations.now comments.now
        → AreHolding es operations.now runs.items) }
{
    let mut runs = Vec::with_capacity(alloc, comments.len())?;
    let mut index = 0;
    while index < comments.len() {
        let number = comments[index].number;
        let end = comment_end(comments, index);
        push_comment(alloc, &mut runs, operations, number, &comments[index..end])?;
        index = end;
    }
    Ok(runs)
}
