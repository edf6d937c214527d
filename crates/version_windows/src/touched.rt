//! The ranges of a text that the lines of a change touch.
ghost use Rattle.std.specs.Prelude.{◌≡◌, ◌+◌, ◌≤◌, ◌⊎◌, ℕ, List, All, Contains, IfOk, length, min, max};
ghost use Rattle.change_ops.specs.Lines.{ops_of, ops_of_lines};
ghost use Rattle.change_ops.specs.Operations.{AnchorNames};
ghost use Rattle.change_ops.specs.IdRuns.{removals_of, revivals_of};
ghost use Rattle.change_ops.specs.Runs.{inserts_of};
ghost use Rattle.change_ops.specs.declared.id.OpId.{OpId as TheId};
ghost use Rattle.change_ops.specs.declared.operation.Op.TheVariants.{Remove};
ghost use Rattle.char_sequence.specs.Held.{HoldsRemovals};
ghost use Rattle.char_sequence.specs.Order.{IsAt, Shows};
ghost use Rattle.char_sequence.specs.Tree.{IsRemoval, Present};
ghost use Rattle.char_sequence.specs.declared.sequence.Element.{Element};
ghost use Rattle.mark_anchors.specs.Places.{IsBoundary};
ghost use Rattle.mark_places.specs.PlaceRanges.{AreApart};
ghost use Rattle.mark_places.specs.declared.range.PlaceRange.{PlaceRange as TheRange};
ghost use Rattle.version_laws.specs.Ranges.{AreGapped};
ghost use Rattle.version_laws.specs.Touched.{TouchesWithin};
ghost use Rattle.version_windows.specs.Edges.{AreWidened, HasKeptEdges, IsWidened};
ghost use Rattle.version_windows.specs.Touches.{AllTouchOneOf, AllTouchWithin};

use crate::ranges::{by_low, joined};
use crate::walk::{first_to_walk, pays_to_walk, places_of_ids};
use change_ops::id::OpId;
use change_ops::id_run::IdRun;
use change_ops::line::Line;
use change_ops::operation::{Anchor, Op};
use change_ops::run::Run;
use char_sequence::sequence::Sequence;
use mark_places::boundary::{characters_before, place_of};
use mark_places::range::PlaceRange;
use std::alloc::{AllocError, Global};

/// The place of a character, alone.
fn place_alone(sequence: &Sequence, id: OpId) -> PlaceRange
    requires { (ops : List Op) × Shows sequence.now.elements ops × Present ops id }
    ensures place { IsAt sequence.now.elements id result.low }
    ensures alone { result.high ≡ result.low + 1 }
    ensures within { result.high ≤ length sequence.now.elements }
{
    let low = place_of(sequence, id);
    // Its contract bounds the places, which the proof needs.
    let _count = sequence.len();
    PlaceRange { low, high: low + 1 }
}

/// The place of the character that a removal removes, alone.
fn place_removed(sequence: &Sequence, removal: OpId) -> PlaceRange
    requires { (ops : List Op) × Shows sequence.now.elements ops × HoldsRemovals sequence.now.removals ops
        × IsRemoval ops removal }
    ensures place { (ops : List Op) → HoldsRemovals sequence.now.removals ops → (x : TheId)
        → Contains ops (Remove removal x) → IsAt sequence.now.elements x result.low }
    ensures alone { result.high ≡ result.low + 1 }
    ensures within { result.high ≤ length sequence.now.elements }
{
    place_alone(sequence, sequence.removed_by(removal).unwrap())
}

/// The places between two anchors; none where the first doesn't stand before the second.
fn places_between(sequence: &Sequence, start: Anchor, end: Anchor) -> PlaceRange
    requires { (ops : List Op) × Shows sequence.now.elements ops
        × ((x : OpId) → AnchorNames start x ⊎ AnchorNames end x → Present ops x) }
    ensures covered { (last : ℕ) × IsBoundary sequence.now.elements start result.low
        × IsBoundary sequence.now.elements end last × (last ≤ result.high) }
    ensures order { result.low ≤ result.high }
    ensures within { result.high ≤ length sequence.now.elements }
{
    let low = characters_before(sequence, start);
    let last = characters_before(sequence, end);
    PlaceRange {
        low,
        high: last.max(low),
    }
}

/// The places that an operation touches.
fn touched_by_operation(sequence: &Sequence, operation: &Op) -> PlaceRange
    requires { (ops : List Op) × Shows sequence.now.elements ops × HoldsRemovals sequence.now.removals ops
        × Contains ops operation.now }
    ensures touched { (ops : List Op) → HoldsRemovals sequence.now.removals ops
        → TouchesWithin ops sequence.now.elements result.low result.high operation.now }
    ensures order { result.low ≤ result.high }
    ensures within { result.high ≤ length sequence.now.elements }
{
    match operation {
        Op::Insert { id, .. } => place_alone(sequence, *id),
        Op::Remove { target, .. } => place_alone(sequence, *target),
        Op::AddMark { start, end, .. } => places_between(sequence, *start, *end),
        Op::RemoveMark { start, end, .. } => places_between(sequence, *start, *end),
        Op::Revive { removal, .. } => place_removed(sequence, *removal),
    }
}

/// The places that the inserts of a run touch: those from its first character on, up to its last one.
fn touched_by_run(sequence: &Sequence, run: &Run) -> PlaceRange
    requires { (ops : List Op) × Shows sequence.now.elements ops × HoldsRemovals sequence.now.removals ops
        × ((o : Op) → Contains (inserts_of run.now) o → Contains ops o) }
    ensures touched { AllTouchWithin sequence.now (inserts_of run.now) result }
    ensures order { result.low ≤ result.high }
    ensures within { result.high ≤ length sequence.now.elements }
{
    let count = run.characters().len();
    let first = run.insert(0);
    let last = run.insert(count - 1);
    let PlaceRange { low, .. } = touched_by_operation(sequence, &first);
    let PlaceRange { high, .. } = touched_by_operation(sequence, &last);
    PlaceRange { low, high }
}

/// The least range that covers two others.
fn hull(first: PlaceRange, second: PlaceRange) -> PlaceRange
    ensures low { result.low ≡ min first.low second.low }
    ensures high { result.high ≡ max first.high second.high }
{
    PlaceRange {
        low: first.low.min(second.low),
        high: first.high.max(second.high),
    }
}

/// The places that the removals of a run touch: those from the first of their characters up to the last one.
fn touched_by_removals(sequence: &Sequence, run: IdRun) -> PlaceRange
    requires { (ops : List Op) × Shows sequence.now.elements ops × HoldsRemovals sequence.now.removals ops
        × ((o : Op) → Contains (removals_of run) o → Contains ops o) }
    ensures touched { AllTouchWithin sequence.now (removals_of run) result }
    ensures order { result.low ≤ result.high }
    ensures within { result.high ≤ length sequence.now.elements }
{
    let count = run.count() as usize;
    if pays_to_walk(sequence, count) {
        return places_of_ids(sequence, run.first(), count);
    }
    let mut all = touched_by_operation(sequence, &run.removal(0));
    for index in 1..count {
        all = hull(all, touched_by_operation(sequence, &run.removal(index)));
    }
    all
}

/// The same of revivals, which touch the characters whose removals they take back.
fn touched_by_revivals(sequence: &Sequence, run: IdRun) -> PlaceRange
    requires { (ops : List Op) × Shows sequence.now.elements ops × HoldsRemovals sequence.now.removals ops
        × ((o : Op) → Contains (revivals_of run) o → Contains ops o) }
    ensures touched { AllTouchWithin sequence.now (revivals_of run) result }
    ensures order { result.low ≤ result.high }
    ensures within { result.high ≤ length sequence.now.elements }
{
    let count = run.count() as usize;
    if let Some(first) = first_to_walk(sequence, run, count) {
        return places_of_ids(sequence, first, count);
    }
    let mut all = touched_by_operation(sequence, &run.revival(0));
    for index in 1..count {
        all = hull(all, touched_by_operation(sequence, &run.revival(index)));
    }
    all
}

/// The places that the operations of a line touch.
fn touched_by_line(sequence: &Sequence, line: &Line) -> PlaceRange
    requires { (ops : List Op) × Shows sequence.now.elements ops × HoldsRemovals sequence.now.removals ops
        × ((o : Op) → Contains (ops_of line.now) o → Contains ops o) }
    ensures touched { AllTouchWithin sequence.now (ops_of line.now) result }
    ensures order { result.low ≤ result.high }
    ensures within { result.high ≤ length sequence.now.elements }
{
    match line {
        Line::Operation(operation) => touched_by_operation(sequence, operation),
        Line::Run(run) => touched_by_run(sequence, run),
        Line::Removals(run) => touched_by_removals(sequence, *run),
        Line::Revivals(run) => touched_by_revivals(sequence, *run),
    }
}

/// The ranges that the lines touch, one for each line.
fn touched_by_each(
    alloc: Global,
    sequence: &Sequence,
    lines: &[Line],
) -> Result<Vec<PlaceRange>, AllocError>
    requires { (ops : List Op) × Shows sequence.now.elements ops × HoldsRemovals sequence.now.removals ops
        × ((o : Op) → Contains (ops_of_lines lines.now) o → Contains ops o) }
    ensures order { IfOk result (λ ranges. All (λ range. range.low ≤ range.high) ranges.items) }
    ensures within { IfOk result (λ ranges. All (λ range. range.high ≤ length sequence.now.elements) ranges.items) }
    ensures touched { IfOk result (λ ranges. AllTouchOneOf sequence.now (ops_of_lines lines.now) ranges.items) }
{
    let mut ranges = Vec::new(alloc);
    for line in lines {
        ranges.push(touched_by_line(sequence, line))?;
    }
    Ok(ranges)
}

/// The range with the last visible character before it and the first one behind it; where there is none, from the
/// start of the text or up to its end.
fn widened(sequence: &Sequence, range: PlaceRange) -> PlaceRange
    requires { (range.low ≤ range.high) × (range.high ≤ length sequence.now.elements) }
    ensures { IsWidened sequence.now.elements range result }
{
    // Its contract bounds the places, which the proof needs.
    let end = sequence.len();
    let high = match sequence.visible_place_from(range.high) {
        Some(last) => last + 1,
        None => end,
    };
    PlaceRange {
        low: sequence.visible_place_before(range.low).unwrap_or(0),
        high,
    }
}

/// Widens each of the ranges.
fn widen(sequence: &Sequence, ranges: &mut [PlaceRange])
    requires order { All (λ range. range.low ≤ range.high) ranges.old }
    requires within { All (λ range. range.high ≤ length sequence.now.elements) ranges.old }
    ensures { AreWidened sequence.now.elements ranges.old ranges.new }
{
    for range in ranges.iter_mut() {
        *range = widened(sequence, *range);
    }
}

/// The ranges that the operations of the lines touch, each with a visible character on both sides that the lines leave
/// as it was, joined where no place lies between them.
pub(crate) fn touched(
    alloc: Global,
    sequence: &Sequence,
    lines: &[Line],
) -> Result<Vec<PlaceRange>, AllocError>
    requires { (ops : List Op) × Shows sequence.now.elements ops × HoldsRemovals sequence.now.removals ops
        × ((o : Op) → Contains (ops_of_lines lines.now) o → Contains ops o) }
    ensures apart { IfOk result (λ ranges. AreApart ranges.items 0 (length sequence.now.elements)) }
    ensures gapped { IfOk result (λ ranges. AreGapped ranges.items) }
    ensures touched { IfOk result (λ ranges. AllTouchOneOf sequence.now (ops_of_lines lines.now) ranges.items) }
    ensures edges { IfOk result (λ ranges. (inner : List TheRange)
        × AllTouchOneOf sequence.now (ops_of_lines lines.now) inner
        × All (HasKeptEdges sequence.now.elements inner) ranges.items) }
{
    let mut each = touched_by_each(alloc, sequence, lines)?;
    widen(sequence, &mut each);
    let each = by_low(each);
    let ranges = joined(alloc, each.as_slice())?;
    Ok(ranges)
}
