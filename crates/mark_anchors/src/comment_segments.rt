//! The places, cut into segments: which comments hold at a place is read from the runs of its segment alone, which are
//! not many more than those that have the place.
ghost use Rattle.std.specs.Prelude.{◌≡◌, ◌<◌, ◌+◌, ◌/◌, ◌∷◌, ◌++◌, [], ℕ, List, IfOk, IfSome, OnOk, length, max};
ghost use Rattle.std.specs.Arc.{arc_slice_items};
ghost use Rattle.std.specs.List.Sorted.{IsNonDecreasing, IsStrictlyIncreasing};
ghost use Rattle.mark_anchors.specs.CommentRuns.{numbers_at};
ghost use Rattle.mark_anchors.specs.CommentLists.{AreEmpty, AreSegments, IsTable, vec_runs};
ghost use Rattle.mark_anchors.specs.declared.comment_runs.CommentRun.{CommentRun};

use crate::comment_runs::CommentRun;
use crate::comment_table::{begun_up_to, ended_up_to};
use crate::key_marks::{count_below_near, count_near};
use std::alloc::{AllocError, Global};
use std::sync::ArcSlice;

/// How many runs may begin and end in a segment behind its first place, however few have that place.
const LEAST_CHANGES: usize = 8;

/// The places at which the runs begin and end, each as often, in order.
fn changes(
    alloc: Global,
    begins: &[CommentRun],
    ends: &[CommentRun],
) -> Result<Vec<usize>, AllocError>
    ensures { IfOk result (λ changes. IsNonDecreasing changes.items) }
{
    let mut changes = Vec::with_capacity(alloc, begins.len() + ends.len())?;
    for run in begins {
        changes.push(run.from)?;
    }
    for run in ends {
        changes.push(run.to)?;
    }
    // Two rising halves: a stable sort merges them.
    changes.sort()?;
    Ok(changes)
}

/// How many of the runs have the place.
fn count_with(begins: &[CommentRun], ends: &[CommentRun], place: usize) -> usize
    requires { (runs : List CommentRun) × IsTable runs begins.now ends.now }
    ensures { (runs : List CommentRun) → IsTable runs begins.now ends.now → result ≡ length (numbers_at runs place) }
{
    begun_up_to(begins, place) - ended_up_to(ends, place)
}

/// How many runs may begin and end behind a segment's first place, in it.
fn most_changes(begins: &[CommentRun], ends: &[CommentRun], first: usize) -> usize
    requires { (runs : List CommentRun) × IsTable runs begins.now ends.now }
    ensures { (runs : List CommentRun) → IsTable runs begins.now ends.now
        → result ≡ max 8 (length (numbers_at runs first) / 2) }
{
    LEAST_CHANGES.max(count_with(begins, ends, first) / 2)
}

/// The place at which the next segment begins, so that at most `most` of the changes are behind `from` and before it.
fn next_cut(changes: &[usize], from: usize, most: usize) -> Option<usize>
    requires { IsNonDecreasing changes.now }
    ensures { IfSome result (λ cut. from < cut) }
{
    let passed = changes.partition_point(|place| *place <= from);
    changes.get(passed.saturating_add(most)).copied()
}

/// The places at which all segments but the first begin. Where `n` runs have a segment's first place, at most n / 2 or
/// 8 begin and end in it behind that: so it has at most three times the runs that have one of its places, and 16 more.
/// And as more begin and end up to the first place of the next one, all segments have at most seven times the runs.
pub(crate) fn segment_cuts(
    alloc: Global,
    begins: &[CommentRun],
    ends: &[CommentRun],
) -> Result<Vec<usize>, AllocError>
    requires { (runs : List CommentRun) × IsTable runs begins.now ends.now }
    ensures { IfOk result (λ cuts. IsStrictlyIncreasing cuts.items) }
{
    let changes = changes(alloc, begins, ends)?;
    let mut cuts = Vec::new(alloc);
    let mut from = 0;
    while let Some(cut) = next_cut(&changes, from, most_changes(begins, ends, from)) {
        cuts.push(cut)?;
        from = cut;
    }
    Ok(cuts)
}

/// As many runs as the segment can have that begins at the place: those that have it, and those that begin behind it.
fn most_runs(begins: &[CommentRun], ends: &[CommentRun], first: usize) -> usize
    requires { (runs : List CommentRun) × IsTable runs begins.now ends.now }
{
    count_with(begins, ends, first).saturating_add(most_changes(begins, ends, first))
}

/// Adds a list of no run, with room for so many.
fn push_empty(
    alloc: Global,
    lists: &mut Vec<Vec<CommentRun>>,
    room: usize,
) -> Result<(), AllocError>
    ensures sized { OnOk result (length lists.new.items ≡ length lists.old.items + 1) }
    ensures empty { OnOk result (AreEmpty lists.old.items → AreEmpty lists.new.items) }
{
    let list = Vec::with_capacity(alloc, room)?;
    lists.push(list)?;
    Ok(())
}

/// A list of no run for the first segment and for that of each cut, with room for its runs.
fn empty_lists(
    alloc: Global,
    begins: &[CommentRun],
    ends: &[CommentRun],
    cuts: &[usize],
) -> Result<Vec<Vec<CommentRun>>, AllocError>
    requires { (runs : List CommentRun) × IsTable runs begins.now ends.now }
    ensures sized { IfOk result (λ lists. length lists.items ≡ length cuts.now + 1) }
    ensures empty { IfOk result (λ lists. AreEmpty lists.items) }
{
    let mut lists = Vec::with_capacity(alloc, cuts.len() + 1)?;
    push_empty(alloc, &mut lists, most_runs(begins, ends, 0))?;
    for cut in cuts {
        push_empty(alloc, &mut lists, most_runs(begins, ends, *cut))?;
    }
    Ok(lists)
}

/// Adds the run to the segments of which it has a place. `near` is where the last look-up ended.
fn add_run(
    cuts: &[usize],
    segments: &mut Vec<Vec<CommentRun>>,
    run: &CommentRun,
    near: &mut usize,
) -> Result<(), AllocError>
    requires rising { IsStrictlyIncreasing cuts.now }
    requires sized { length segments.old.items ≡ length cuts.now + 1 }
    ensures sized { OnOk result (length segments.new.items ≡ length cuts.now + 1) }
    ensures more { OnOk result ((runs : List CommentRun) → AreSegments vec_runs runs cuts.now segments.old.items
        → AreSegments vec_runs (runs ++ run.now ∷ []) cuts.now segments.new.items) }
{
    let first = count_near(cuts, run.from, near);
    let last = count_below_near(cuts, run.to, first);
    for segment in first..last + 1 {
        segments[segment].push(*run)?;
    }
    Ok(())
}

/// The runs of each segment, to be shared.
fn shared(
    alloc: Global,
    segments: &[Vec<CommentRun>],
) -> Result<Vec<ArcSlice<CommentRun, Global>>, AllocError>
    ensures { IfOk result (λ shared. (runs : List CommentRun) (cuts : List ℕ)
        → AreSegments vec_runs runs cuts segments.now → AreSegments arc_slice_items runs cuts shared.items) }
{
    let mut shared = Vec::with_capacity(alloc, segments.len())?;
    for runs in segments {
        shared.push(ArcSlice::from_slice(alloc, runs)?)?;
    }
    Ok(shared)
}

/// The runs of each segment between these cuts, in their order. `begins` and `ends` have the same runs.
pub(crate) fn segments(
    alloc: Global,
    runs: &[CommentRun],
    begins: &[CommentRun],
    ends: &[CommentRun],
    cuts: &[usize],
) -> Result<Vec<ArcSlice<CommentRun, Global>>, AllocError>
    requires table { IsTable runs.now begins.now ends.now }
    requires rising { IsStrictlyIncreasing cuts.now }
    ensures { IfOk result (λ segments. AreSegments arc_slice_items runs.now cuts.now segments.items) }
{
    let mut segments = empty_lists(alloc, begins, ends, cuts)?;
    let mut near = 0;
    for run in runs {
        add_run(cuts, &mut segments, run, &mut near)?;
    }
    shared(alloc, &segments)
}
