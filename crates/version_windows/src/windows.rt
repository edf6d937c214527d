//! What the ranges that a change touches show after it, for the places that they had before it.
ghost use Rattle.std.specs.Prelude.{◌≡◌, ◌<◌, ◌≤◌, ◌-◌, ◌⊎◌, [], ◌∷◌, ℕ, All, IfOk, IsTrue, List, count_by};
ghost use Rattle.std.specs.Prelude.{length, take};
ghost use Rattle.change_ops.specs.Lines.{ops_of_lines};
ghost use Rattle.change_ops.specs.declared.line.Line.{Line as TheLine};
ghost use Rattle.change_ops.specs.declared.operation.Op.{Op};
ghost use Rattle.char_sequence.specs.Order.{Shows};
ghost use Rattle.char_sequence.specs.declared.sequence.Element.{Element};
ghost use Rattle.mark_anchors.specs.Marks.{AreMarks};
ghost use Rattle.mark_places.specs.PlaceRanges.{AreApart};
ghost use Rattle.mark_places.specs.Places.{AreMarkPlaces};
ghost use Rattle.mark_places.specs.declared.range.PlaceRange.{PlaceRange as TheRange};
ghost use Rattle.span_flatten.specs.Taken.{is_visible};
ghost use Rattle.span_flatten.specs.Window.{IsFlattened};
ghost use Rattle.version_glyphs.specs.Replacements.{AreReplacements};
ghost use Rattle.version_laws.specs.Ranges.{AreChangedWithin, AreGapped};
ghost use Rattle.version_windows.specs.Edges.{HasKeptEdges};
ghost use Rattle.version_windows.specs.Neighbors.{GiveAllFormats, GiveFormats, IsLikeNeighbor};
ghost use Rattle.version_windows.specs.Places.{IsSamePlace};
ghost use Rattle.version_windows.specs.Step.{IsStep};
ghost use Rattle.version_windows.specs.Touches.{AllTouchOneOf};

use char_sequence::sequence::Sequence;
use mark_anchors::marks::Marks;
use mark_anchors::resolved::ResolvedMarks;
use mark_places::boundary::place_of;
use mark_places::chosen::chosen_give_formats;
use mark_places::places::MarkPlaces;
use mark_places::range::PlaceRange;
use memory_budget::Budget;
use span_flatten::flatten::{flatten_uniform, flatten_window};
use span_flatten::window::Window;
use std::alloc::{AllocError, Global};
use version_glyphs::replacement::Replacement;
use version_pieces::version::PieceVersion;

/// Where the formats of the characters in ranges come from.
#[derive(Clone, Copy)]
pub(crate) enum Formats<'a> {
    /// Each range has one format, which a character at one of its edges had in the version before.
    OfNeighbors(&'a PieceVersion),
    OfMarks(&'a ResolvedMarks<'a>),
}

/// Where in the old text the character stands that stands at a place of the new one; the end, where there is none.
fn place_before(before: &Sequence, sequence: &Sequence, place: usize) -> usize
    requires shows { (ops : List Op) × Shows before.now.elements ops }
    requires same { (at : ℕ) × IsSamePlace before.now.elements sequence.now.elements at place }
    ensures { (at : ℕ) → IsSamePlace before.now.elements sequence.now.elements at place → result ≡ at }
{
    match sequence.element_at(place) {
        Some(element) => place_of(before, element.id),
        None => before.len(),
    }
}

/// What is paid for each mark that is chosen, where formats are made: they share lists of comments, which are made of
/// these marks.
const COMMENT_BYTES: usize = 160;

/// Which character of the version before has the format of a range: the first one that stood there, or the last one,
/// where the text begins with the range.
fn neighbor_of(range: PlaceRange, from: usize, to: usize) -> usize
    requires { (0 < range.low) ⊎ (0 < to) }
    ensures first { 0 < range.low → result ≡ from }
    ensures last { range.low ≡ 0 → result ≡ to - 1 }
{
    if range.low > 0 { from } else { to - 1 }
}

/// What is visible of a range, which was that of the version before from the character `from` up to `to`.
fn formatted_window(
    alloc: Global,
    sequence: &Sequence,
    formats: Formats<'_>,
    range: PlaceRange,
    from: usize,
    to: usize,
) -> Result<Window, AllocError>
    requires range { (range.low ≤ range.high) × (range.high ≤ length sequence.now.elements) }
    requires formats { (old : List Element) × ((was : TheRange) × ((marks : List Op)
        × (from ≡ count_by is_visible (take was.low old)) × (to ≡ count_by is_visible (take was.high old))
        × GiveFormats formats old sequence.now.elements marks was range)) }
    ensures { IfOk result (λ window. (old : List Element) (was : TheRange) (marks : List Op)
        → from ≡ count_by is_visible (take was.low old) → to ≡ count_by is_visible (take was.high old)
        → GiveFormats formats.entry old sequence.now.elements marks was range
        → IsFlattened sequence.now.elements marks range.low range.high window) }
{
    match formats {
        Formats::OfNeighbors(previous) => {
            let format = previous.format_at(neighbor_of(range, from, to)).unwrap();
            flatten_uniform(alloc, sequence, format, range.low, range.high)
        }
        Formats::OfMarks(resolved) => {
            flatten_window(alloc, sequence, resolved, range.low, range.high)
        }
    }
}

/// What a range shows, in place of what was visible of the range that it was before the change.
fn replacement(
    alloc: Global,
    before: &Sequence,
    sequence: &Sequence,
    formats: Formats<'_>,
    old: PlaceRange,
    range: PlaceRange,
) -> Result<Replacement, AllocError>
    requires old { (old.low ≤ old.high) × (old.high ≤ length before.now.elements) }
    requires range { (range.low ≤ range.high) × (range.high ≤ length sequence.now.elements) }
    requires formats { (marks : List Op)
        × GiveFormats formats before.now.elements sequence.now.elements marks old range }
    ensures { IfOk result (λ made. (marks : List Op)
        → GiveFormats formats.entry before.now.elements sequence.now.elements marks old range
        → AreReplacements before.now.elements sequence.now.elements marks (old ∷ []) (range ∷ []) (made ∷ [])) }
{
    let from = before.visible_before(old.low);
    let to = before.visible_before(old.high);
    let window = formatted_window(alloc, sequence, formats, range, from, to)?;
    // The rows cut the text, which is UTF-8; the proof needs both.
    let _rows = window.rows();
    let _text = window.text();
    Ok(Replacement { from, to, window })
}

/// What each of the ranges shows, in place of what was visible of it before the change.
fn replacements(
    alloc: Global,
    before: &Sequence,
    sequence: &Sequence,
    formats: Formats<'_>,
    ranges: &[PlaceRange],
) -> Result<Vec<Replacement>, AllocError>
    requires shows { (ops : List Op) × Shows before.now.elements ops }
    requires apart { AreApart ranges.now 0 (length sequence.now.elements) }
    requires gapped { AreGapped ranges.now }
    requires changed { (olds : List TheRange)
        × AreChangedWithin before.now.elements sequence.now.elements olds ranges.now 0 0
        × ((marks : List Op)
        × GiveAllFormats formats before.now.elements sequence.now.elements marks olds ranges.now) }
    ensures { IfOk result (λ windows. (olds : List TheRange) (marks : List Op)
        → AreChangedWithin before.now.elements sequence.now.elements olds ranges.now 0 0
        → GiveAllFormats formats.entry before.now.elements sequence.now.elements marks olds ranges.now
        → AreReplacements before.now.elements sequence.now.elements marks olds ranges.now windows.items) }
{
    let mut windows = Vec::new(alloc);
    // Its contract bounds the places, which the proof needs.
    let _count = before.len();
    // Where the last range ended in the old text, and where it ends in the new one.
    let mut old_end = 0;
    let mut end = 0;
    for range in ranges {
        let old = PlaceRange {
            low: old_end + (range.low - end),
            high: place_before(before, sequence, range.high),
        };
        windows.push(replacement(alloc, before, sequence, formats, old, *range)?)?;
        old_end = old.high;
        end = range.high;
    }
    Ok(windows)
}

/// Whether no mark begins or ends in a range that a change touches, and one of its edges is a character that the change
/// leaves as it was: not, where it is the whole text, which ends at `end`.
fn is_like_neighbor(places: &MarkPlaces, range: PlaceRange, end: usize) -> bool
    ensures { IsTrue result → IsLikeNeighbor places.now end range }
{
    (range.low > 0 || range.high < end) && places.is_uniform(range)
}

/// Whether that is so of each of the ranges.
fn are_like_neighbors(places: &MarkPlaces, ranges: &[PlaceRange], end: usize) -> bool
    ensures { IsTrue result → All (IsLikeNeighbor places.now end) ranges.now }
{
    ranges
        .iter()
        .all(|range| is_like_neighbor(places, *range, end))
}

/// Whether a format may be made for a window of a text of `end` characters: the first and the last row have one that
/// is there already, but where the text begins or ends.
fn may_make_formats(window: &Replacement, end: usize) -> bool {
    let there = usize::from(window.from > 0) + usize::from(window.to < end);
    window.window.rows().len() > there
}

/// What each of the ranges shows after the change, formatted by those of the marks that decide there.
fn marked_windows(
    alloc: Global,
    previous: &PieceVersion,
    before: &Sequence,
    sequence: &Sequence,
    marks: &Marks,
    places: &MarkPlaces,
    ranges: &[PlaceRange],
    budget: &mut Budget,
) -> Result<Vec<Replacement>, AllocError>
    requires some { 0 < length ranges.now }
    requires shows { (ops : List Op) × Shows before.now.elements ops }
    requires text { (ops : List Op) × Shows sequence.now.elements ops × AreMarks ops marks.now }
    requires places { AreMarkPlaces sequence.now.elements marks.now places.now }
    requires apart { AreApart ranges.now 0 (length sequence.now.elements) }
    requires gapped { AreGapped ranges.now }
    requires changed { (olds : List TheRange)
        × AreChangedWithin before.now.elements sequence.now.elements olds ranges.now 0 0 }
    ensures replaced { IfOk result (λ windows. (olds : List TheRange)
        → AreChangedWithin before.now.elements sequence.now.elements olds ranges.now 0 0
        → AreReplacements before.now.elements sequence.now.elements marks.now olds ranges.now windows.items) }
    ensures less { budget.new ≤ budget.old }
{
    // Chosen marks give the characters of each range the formats that all marks give, which the proof needs.
    chosen_give_formats();
    let chosen = places.choose(alloc, marks.operations(), ranges)?;
    let resolved = chosen.resolve(alloc, sequence)?;
    let formats = Formats::OfMarks(&resolved);
    let windows = replacements(alloc, before, sequence, formats, ranges)?;
    let end = previous.character_count();
    if windows.iter().any(|window| may_make_formats(window, end)) {
        budget.pay(COMMENT_BYTES.saturating_mul(chosen.count()));
    }
    Ok(windows)
}

/// What each of the ranges shows after the change: no mark is looked up where each has one format, which it had.
pub(crate) fn windows_of(
    alloc: Global,
    previous: &PieceVersion,
    before: &Sequence,
    sequence: &Sequence,
    marks: &Marks,
    places: &MarkPlaces,
    ranges: &[PlaceRange],
    budget: &mut Budget,
) -> Result<Vec<Replacement>, AllocError>
    requires step { (ops : List Op) × ((lines : List TheLine)
        × IsStep ops previous.now before.now.elements sequence.now marks.now lines
        × ((inner : List TheRange)
        × AllTouchOneOf sequence.now (ops_of_lines lines) inner
        × All (HasKeptEdges sequence.now.elements inner) ranges.now)) }
    requires places { AreMarkPlaces sequence.now.elements marks.now places.now }
    requires apart { AreApart ranges.now 0 (length sequence.now.elements) }
    requires gapped { AreGapped ranges.now }
    requires changed { (olds : List TheRange)
        × AreChangedWithin before.now.elements sequence.now.elements olds ranges.now 0 0 }
    ensures replaced { IfOk result (λ windows. (olds : List TheRange)
        → AreChangedWithin before.now.elements sequence.now.elements olds ranges.now 0 0
        → AreReplacements before.now.elements sequence.now.elements marks.now olds ranges.now windows.items) }
    ensures less { budget.new ≤ budget.old }
{
    if ranges.is_empty() {
        return Ok(Vec::new(alloc));
    }
    if !are_like_neighbors(places, ranges, sequence.len()) {
        return marked_windows(
            alloc, previous, before, sequence, marks, places, ranges, budget,
        );
    }
    // The spans of the version before are maximal, which the proof needs.
    previous.keeps();
    let formats = Formats::OfNeighbors(previous);
    replacements(alloc, before, sequence, formats, ranges)
}
