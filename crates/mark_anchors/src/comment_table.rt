//! The comments of a version, for the formats of its characters.
ghost use Rattle.std.specs.Prelude.{◌≡◌, ◌<◌, ◌≤◌, ◌↔◌, ℕ, All, Contains, IfOk, IsTrue, length, slice_index_or};
ghost use Rattle.std.specs.List.{slice_range};
ghost use Rattle.std.specs.List.Sorted.{IsNonDecreasingBy, IsStrictlyIncreasing};
ghost use Rattle.mark_anchors.specs.CommentRuns.{AreOrderly, HasRun, numbers_at};
ghost use Rattle.mark_anchors.specs.CommentLists.{AreAlike, AreSorted, IsSteady, begin_of, end_of, count_up_to};
ghost use Rattle.mark_anchors.specs.declared.comment_runs.CommentRun.{CommentRun};

use crate::comment_list::CommentList;
use crate::comment_runs::CommentRun;
use crate::comment_segments::{segment_cuts, segments};
use crate::key_marks::count_near;
use change_ops::attribute::CommentNumber;
use std::alloc::{AllocError, Global};
use std::marker::Model;
use std::sync::ArcSlice;

/// The runs of all comments, also in the order in which they begin and in that in which they end: as many comments hold
/// at a place as have begun there without having ended, and between two places only those change that begin or end
/// there. Which comments hold at a place is read from the runs of its segment, which begin and end at the cuts.
#[derive(Drop)]
pub(crate) struct CommentTable {
    runs: Vec<CommentRun>,
    begins: Vec<CommentRun>,
    ends: Vec<CommentRun>,
    cuts: Vec<usize>,
    segments: Vec<ArcSlice<CommentRun, Global>>,
}

impl Model for CommentTable {
    ghost use Rattle.std.specs.Prelude.{List};
    ghost use Rattle.std.specs.Arc.{arc_slice_items};
    ghost use Rattle.mark_anchors.specs.CommentLists.{AreSegments, IsTable};
    ghost use Rattle.mark_anchors.specs.declared.comment_runs.CommentRun.{CommentRun};

    ghost Value = { List CommentRun };

    ghost view = { λ t. t.runs.items };

    ghost invariant = { λ t. IsTable t.runs.items t.begins.items t.ends.items
        × AreSegments arc_slice_items t.runs.items t.cuts.items t.segments.items };
}

/// How many runs had begun, how many had ended, and how many cuts were passed, where the last look-up ended: from there
/// the next one begins.
#[derive(Clone, Copy)]
pub(crate) struct RunCounts {
    pub(crate) begun: usize,
    pub(crate) ended: usize,
    pub(crate) cuts: usize,
}

/// The runs in the order in which they begin.
fn by_begin(mut runs: Vec<CommentRun>) -> Vec<CommentRun>
    ensures { AreSorted begin_of runs.items result.items }
{
    runs.sort_unstable_by_key(|run| run.from);
    runs
}

/// The runs in the order in which they end.
fn by_end(mut runs: Vec<CommentRun>) -> Vec<CommentRun>
    ensures { AreSorted end_of runs.items result.items }
{
    runs.sort_unstable_by_key(|run| run.to);
    runs
}

/// How many of the runs begin at the place or before it.
pub(crate) fn begun_up_to(begins: &[CommentRun], place: usize) -> usize
    requires { IsNonDecreasingBy begin_of begins.now }
    ensures count { result ≡ count_up_to begin_of begins.now place }
    ensures within { result ≤ length begins.now }
    ensures first { (k : ℕ) (d : CommentRun) → k < result → (begin_of (slice_index_or begins.now k d)) ≤ place }
    ensures rest { (k : ℕ) (d : CommentRun) → result ≤ k → k < length begins.now
        → place < begin_of (slice_index_or begins.now k d) }
{
    begins.partition_point(|run| run.from <= place)
}

/// How many of the runs end at the place or before it.
pub(crate) fn ended_up_to(ends: &[CommentRun], place: usize) -> usize
    requires { IsNonDecreasingBy end_of ends.now }
    ensures count { result ≡ count_up_to end_of ends.now place }
    ensures within { result ≤ length ends.now }
    ensures first { (k : ℕ) (d : CommentRun) → k < result → (end_of (slice_index_or ends.now k d)) ≤ place }
    ensures rest { (k : ℕ) (d : CommentRun) → result ≤ k → k < length ends.now
        → place < end_of (slice_index_or ends.now k d) }
{
    ends.partition_point(|run| run.to <= place)
}

/// Whether `count` of the runs begin at the place or before it.
fn is_begun_up_to(begins: &[CommentRun], count: usize, place: usize) -> bool
    requires { IsNonDecreasingBy begin_of begins.now }
    ensures count { IsTrue result → count ≡ count_up_to begin_of begins.now place }
    ensures within { IsTrue result → count ≤ length begins.now }
    ensures first { IsTrue result → (k : ℕ) (d : CommentRun) → k < count
        → (begin_of (slice_index_or begins.now k d)) ≤ place }
    ensures rest { IsTrue result → (k : ℕ) (d : CommentRun) → count ≤ k → k < length begins.now
        → place < begin_of (slice_index_or begins.now k d) }
{
    count <= begins.len()
        && (count == 0 || begins[count - 1].from <= place)
        && (count == begins.len() || place < begins[count].from)
}

/// The same number as `begun_up_to`. What was found last, `near`, and one more are tried first.
fn begun_near(begins: &[CommentRun], place: usize, near: &mut usize) -> usize
    requires { IsNonDecreasingBy begin_of begins.now }
    ensures count { result ≡ count_up_to begin_of begins.now place }
    ensures within { result ≤ length begins.now }
    ensures first { (k : ℕ) (d : CommentRun) → k < result → (begin_of (slice_index_or begins.now k d)) ≤ place }
    ensures rest { (k : ℕ) (d : CommentRun) → result ≤ k → k < length begins.now
        → place < begin_of (slice_index_or begins.now k d) }
{
    if !is_begun_up_to(begins, *near, place) {
        let next = near.saturating_add(1);
        *near = if is_begun_up_to(begins, next, place) {
            next
        } else {
            begun_up_to(begins, place)
        };
    }
    *near
}

/// Whether `count` of the runs end at the place or before it.
fn is_ended_up_to(ends: &[CommentRun], count: usize, place: usize) -> bool
    requires { IsNonDecreasingBy end_of ends.now }
    ensures count { IsTrue result → count ≡ count_up_to end_of ends.now place }
    ensures within { IsTrue result → count ≤ length ends.now }
    ensures first { IsTrue result → (k : ℕ) (d : CommentRun) → k < count
        → (end_of (slice_index_or ends.now k d)) ≤ place }
    ensures rest { IsTrue result → (k : ℕ) (d : CommentRun) → count ≤ k → k < length ends.now
        → place < end_of (slice_index_or ends.now k d) }
{
    count <= ends.len()
        && (count == 0 || ends[count - 1].to <= place)
        && (count == ends.len() || place < ends[count].to)
}

/// The same number as `ended_up_to`. What was found last, `near`, and one more are tried first.
fn ended_near(ends: &[CommentRun], place: usize, near: &mut usize) -> usize
    requires { IsNonDecreasingBy end_of ends.now }
    ensures count { result ≡ count_up_to end_of ends.now place }
    ensures within { result ≤ length ends.now }
    ensures first { (k : ℕ) (d : CommentRun) → k < result → (end_of (slice_index_or ends.now k d)) ≤ place }
    ensures rest { (k : ℕ) (d : CommentRun) → result ≤ k → k < length ends.now
        → place < end_of (slice_index_or ends.now k d) }
{
    if !is_ended_up_to(ends, *near, place) {
        let next = near.saturating_add(1);
        *near = if is_ended_up_to(ends, next, place) {
            next
        } else {
            ended_up_to(ends, place)
        };
    }
    *near
}

/// The runs from one index up to another, which is not one of them.
fn part(runs: &[CommentRun], from: usize, to: usize) -> &[CommentRun]
    requires order { from ≤ to }
    requires within { to ≤ length runs.now }
    ensures { result.now ≡ slice_range runs.now from to }
{
    &runs[from..to]
}

/// The runs that begin behind the first place and not behind the second.
fn begun_between<'a>(
    begins: &'a [CommentRun],
    first: usize,
    second: usize,
    near: &mut usize,
) -> &'a [CommentRun]
    requires sorted { IsNonDecreasingBy begin_of begins.now }
    requires order { first ≤ second }
    ensures between { (run : CommentRun) → Contains begins.now run → first < run.from → run.from ≤ second
        → Contains result.now run }
    ensures among { (run : CommentRun) → Contains result.now run → Contains begins.now run }
    ensures inside { (run : CommentRun) → Contains result.now run → (first < run.from) × (run.from ≤ second) }
{
    let from = begun_near(begins, first, near);
    let to = begun_near(begins, second, near);
    part(begins, from, to)
}

/// The runs that end behind the first place and not behind the second.
fn ended_between<'a>(
    ends: &'a [CommentRun],
    first: usize,
    second: usize,
    near: &mut usize,
) -> &'a [CommentRun]
    requires sorted { IsNonDecreasingBy end_of ends.now }
    requires order { first ≤ second }
    ensures between { (run : CommentRun) → Contains ends.now run → first < run.to → run.to ≤ second
        → Contains result.now run }
    ensures among { (run : CommentRun) → Contains result.now run → Contains ends.now run }
    ensures inside { (run : CommentRun) → Contains result.now run → (first < run.to) × (run.to ≤ second) }
{
    let from = ended_near(ends, first, near);
    let to = ended_near(ends, second, near);
    part(ends, from, to)
}

/// Whether the comment of the number holds at the place.
fn holds(runs: &[CommentRun], number: CommentNumber, place: usize) -> bool
    requires { AreOrderly runs.now }
    ensures { IsTrue result ↔ HasRun runs.now number place }
{
    let index = runs.partition_point(|run| {
        run.number.number() < number.number()
            || (run.number.number() == number.number() && run.to <= place)
    });
    match runs.get(index) {
        Some(run) => run.number.number() == number.number() && run.from <= place,
        None => false,
    }
}

/// The same of the comment of one of the runs, which mostly has the place itself, so that no other is searched for.
fn holds_of(runs: &[CommentRun], run: &CommentRun, place: usize) -> bool
    requires orderly { AreOrderly runs.now }
    requires among { Contains runs.now run.now }
    ensures { IsTrue result ↔ HasRun runs.now run.now.number place }
{
    run.has(place) || holds(runs, run.number, place)
}

/// Whether the comment of one of the runs holds at both places or at neither.
fn is_steady(runs: &[CommentRun], run: &CommentRun, first: usize, second: usize) -> bool
    requires orderly { AreOrderly runs.now }
    requires among { Contains runs.now run.now }
    ensures { IsTrue result ↔ IsSteady runs.now run.now.number first second }
{
    holds_of(runs, run, first) == holds_of(runs, run, second)
}

/// Whether the comment of each of the changed ones of the runs holds at both places or at neither.
fn are_steady(runs: &[CommentRun], changed: &[CommentRun], first: usize, second: usize) -> bool
    requires orderly { AreOrderly runs.now }
    requires among { (run : CommentRun) → Contains changed.now run → Contains runs.now run }
    ensures { IsTrue result ↔ All (λ run. IsSteady runs.now run.number first second) changed.now }
{
    for run in changed {
        if !is_steady(runs, run, first, second) {
            return false;
        }
    }
    true
}

impl CommentTable {
    /// The table of the runs.
    pub(crate) fn new(alloc: Global, runs: Vec<CommentRun>) -> Result<CommentTable, AllocError>
        requires { AreOrderly runs.items }
        ensures { IfOk result (λ table. table ≡ runs.items) }
    {
        let begins = by_begin(Vec::from_slice(alloc, &runs)?);
        let ends = by_end(Vec::from_slice(alloc, &runs)?);
        let cuts = segment_cuts(alloc, &begins, &ends)?;
        let segments = segments(alloc, &runs, &begins, &ends, &cuts)?;
        Ok(CommentTable {
            runs,
            begins,
            ends,
            cuts,
            segments,
        })
    }

    /// How many comments hold at the place.
    fn count_at(&self, place: usize, near: &mut RunCounts) -> u32
        ensures { result ≡ length (numbers_at self.now place) }
    {
        let begun = begun_near(&self.begins, place, &mut near.begun);
        let ended = ended_near(&self.ends, place, &mut near.ended);
        (begun - ended) as u32
    }

    /// Whether the places have the same comments.
    pub(crate) fn is_alike(&self, first: usize, second: usize, near: &mut RunCounts) -> bool
        requires { first ≤ second }
        ensures { IsTrue result ↔ AreAlike self.now first second }
    {
        let begun = begun_between(&self.begins, first, second, &mut near.begun);
        let ended = ended_between(&self.ends, first, second, &mut near.ended);
        if begun.is_empty() != ended.is_empty() {
            // A comment that begins without another run of it that ends is new at the second place.
            return false;
        }
        are_steady(&self.runs, begun, first, second) && are_steady(&self.runs, ended, first, second)
    }

    /// The comments that hold at the place.
    pub(crate) fn at(&self, place: usize, near: &mut RunCounts) -> Result<CommentList, AllocError>
        ensures numbers { IfOk result (λ list. list ≡ numbers_at self.now place) }
        ensures rising { IfOk result (λ list. IsStrictlyIncreasing list) }
    {
        let count = self.count_at(place, near);
        if count == 0 {
            return Ok(CommentList::none());
        }
        let segment = count_near(&self.cuts, place, &mut near.cuts);
        Ok(CommentList {
            runs: Some(self.segments[segment].clone()?),
            place,
            count,
        })
    }
}
