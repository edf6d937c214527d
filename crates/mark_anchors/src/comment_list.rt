//! The comments on a character.
ghost use Rattle.std.specs.Prelude.{◌≡◌, ◌+◌, ◌<◌, ◌≤◌, ◌∷◌, ◌↔◌, [], ℕ, List, IfSome, IsTrue, MatchOption, Some, drop};
ghost use Rattle.std.specs.Prelude.{length};
ghost use Rattle.std.specs.Prelude.{slice_get};
ghost use Rattle.std.specs.List.Sorted.{IsStrictlyIncreasing};
ghost use Rattle.std.specs.Iterator.{UpTo, YieldsFirst, item_count};
ghost use Rattle.std.specs.Iterator.SizeHint.{IsWithinCount};
ghost use Rattle.mark_anchors.specs.CommentRuns.{numbers_at};
ghost use Rattle.mark_anchors.specs.declared.comment_runs.CommentRun.{CommentRun};

use crate::comment_runs::CommentRun;
use change_ops::attribute::CommentNumber;
use std::alloc::{AllocError, Global};
use std::marker::Model;
use std::sync::ArcSlice;

/// The numbers of the comments on a character, as the character's place and the runs of the place's segment, which the
/// formats there share. Contracts see the numbers.
pub(crate) struct CommentList {
    /// None where there is no comment.
    pub(crate) runs: Option<ArcSlice<CommentRun, Global>>,
    pub(crate) place: usize,
    pub(crate) count: u32,
}

impl Drop for CommentList {
    fn drop(self) {
        let CommentList {
            runs: _,
            place: _,
            count: _,
        } = self;
    }
}

impl Model for CommentList {
    ghost use Rattle.std.specs.Prelude.{ℕ, List};
    ghost use Rattle.mark_anchors.specs.CommentLists.{numbers_in, IsList};

    ghost Value = { List ℕ };

    ghost view = { λ c. numbers_in c.runs c.place };

    ghost invariant = { λ c. IsList c.runs c.place c.count };
}

impl CommentList {
    /// No comment.
    pub(crate) fn none() -> CommentList
        ensures { result ≡ [] }
    {
        CommentList {
            runs: None,
            place: 0,
            count: 0,
        }
    }

    /// How many comments there are.
    pub(crate) fn count(&self) -> u32
        ensures { result ≡ length self.now }
    {
        self.count
    }

    /// The numbers, rising.
    pub(crate) fn numbers(&self) -> CommentNumbers<'_>
        ensures value { result ≡ self.now }
        ensures rising { IsStrictlyIncreasing self.now }
    {
        let (runs, place): (&[CommentRun], usize) = match &self.runs {
            Some(runs) => (runs.as_slice(), self.place),
            None => (&[], 0),
        };
        CommentNumbers {
            runs,
            place,
            count: self.count as usize,
        }
    }

    /// Whether the numbers are the same.
    pub(crate) fn is_same(&self, other: &CommentList) -> bool
        ensures { IsTrue result ↔ (self.now ≡ other.now) }
    {
        self.count == other.count && are_same(&self.numbers(), &other.numbers())
    }
}

impl Clone for CommentList {
    ghost is_clone = { λ old new. new ≡ old };

    fn clone(&self) -> Result<CommentList, AllocError> {
        let runs = match &self.runs {
            Some(runs) => Some(runs.clone()?),
            None => None,
        };
        Ok(CommentList {
            runs,
            place: self.place,
            count: self.count,
        })
    }
}

/// The numbers of comments that are left, rising, seen as their list.
#[derive(Drop)]
pub struct CommentNumbers<'a> {
    runs: &'a [CommentRun],
    place: usize,
    count: usize,
}

impl<'a> Model for CommentNumbers<'a> {
    ghost use Rattle.std.specs.Prelude.{ℕ, List};
    ghost use Rattle.mark_anchors.specs.CommentRuns.{numbers_at};
    ghost use Rattle.mark_anchors.specs.CommentLists.{AreCounted};

    ghost Value = { List ℕ };

    ghost view = { λ c. numbers_at c.runs.now c.place };

    ghost invariant = { λ c. AreCounted c.runs.now c.place c.count };
}

/// The index of the first of the runs that has the place.
fn first_at(runs: &[CommentRun], place: usize) -> Option<usize>
    ensures within { IfSome result (λ first. first < length runs.now) }
    ensures first { MatchOption result (numbers_at runs.now place ≡ []) (λ first. (run : CommentRun)
        → slice_get runs.now first ≡ Some run
        → numbers_at runs.now place ≡ run.number ∷ numbers_at (drop (first + 1) runs.now) place) }
{
    next_at(runs, place, 0)
}

impl<'a> Iterator for CommentNumbers<'a> {
    type Item = CommentNumber;

    ghost next_gives = { YieldsFirst (λ rest. rest) };

    ghost remaining = { item_count (λ rest. rest) };

    fn next(&mut self) -> Option<CommentNumber> {
        let first = first_at(self.runs, self.place)?;
        let number = self.runs[first].number;
        self.runs = &self.runs[first + 1..];
        self.count -= 1;
        Some(number)
    }

    fn size_hint(&self) -> (usize, Option<usize>)
        ensures exact { result ≡ (length self.now, Some (length self.now)) }
        ensures lower { IsWithinCount result.0 (item_count (λ rest. rest) self.now) }
        ensures upper { IfSome result.1 (UpTo (item_count (λ rest. rest) self.now)) }
    {
        (self.count, Some(self.count))
    }
}

/// The index of the first of the runs from one on that has the place.
fn next_at(runs: &[CommentRun], place: usize, from: usize) -> Option<usize>
    requires { from ≤ length runs.now }
    ensures within { IfSome result (λ next. next < length runs.now) }
    ensures next { MatchOption result (numbers_at (drop from runs.now) place ≡ []) (λ next. (run : CommentRun)
        → slice_get runs.now next ≡ Some run
        → numbers_at (drop from runs.now) place ≡ run.number ∷ numbers_at (drop (next + 1) runs.now) place) }
{
    for index in from..runs.len() {
        if runs[index].has(place) {
            return Some(index);
        }
    }
    None
}

/// Where the runs go on behind the first of them from one on that has the place, if that is of the number.
fn passed(runs: &[CommentRun], place: usize, from: usize, number: CommentNumber) -> Option<usize>
    requires { from ≤ length runs.now }
    ensures within { IfSome result (λ next. next ≤ length runs.now) }
    ensures passed { MatchOption result ((rest : List ℕ) → numbers_at (drop from runs.now) place ≡ number ∷ rest → ⊥)
        (λ next. numbers_at (drop from runs.now) place ≡ number ∷ numbers_at (drop next runs.now) place) }
{
    let next = next_at(runs, place, from)?;
    if runs[next].number == number {
        Some(next + 1)
    } else {
        None
    }
}

/// Whether none of the runs from one on has the place.
fn are_passed(runs: &[CommentRun], place: usize, from: usize) -> bool
    requires { from ≤ length runs.now }
    ensures { IsTrue result ↔ (numbers_at (drop from runs.now) place ≡ []) }
{
    match next_at(runs, place, from) {
        Some(_next) => false,
        None => true,
    }
}

/// Whether the numbers of the runs that have these places are the same. They are compared where they lie, as characters
/// with thousands of comments are compared often.
fn are_alike(
    first: &[CommentRun],
    first_place: usize,
    second: &[CommentRun],
    second_place: usize,
) -> bool
    ensures { IsTrue result ↔ (numbers_at first.now first_place ≡ numbers_at second.now second_place) }
{
    let mut at = 0;
    for index in 0..first.len() {
        if first[index].has(first_place) {
            let Some(next) = passed(second, second_place, at, first[index].number) else {
                return false;
            };
            at = next;
        }
    }
    are_passed(second, second_place, at)
}

/// Whether the numbers are the same.
fn are_same(first: &CommentNumbers<'_>, second: &CommentNumbers<'_>) -> bool
    ensures { IsTrue result ↔ (first.now ≡ second.now) }
{
    are_alike(first.runs, first.place, second.runs, second.place)
}
