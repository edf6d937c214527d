ghost use Rattle.std.specs.Prelude.{◌≡◌, ◌<◌, ◌≤◌, ◌+◌, ◌-◌, ◌^◌, ◌++◌, ℕ, List, All, IfOk, length, drop, chars};
ghost use Rattle.std.specs.Prelude.{string_bytes};
ghost use Rattle.change_ops.specs.declared.operation.Op.{Op};
ghost use Rattle.char_sequence.specs.declared.sequence.Element.{Element};
ghost use Rattle.char_sequence.specs.Order.{Shows, SameSet};
ghost use Rattle.mark_anchors.specs.Marks.{AreMarks};
ghost use Rattle.mark_anchors.specs.Formatting.{Format as TheFormat};
ghost use Rattle.mark_anchors.specs.Ranges.{IsFormatAt, IsUniform};
ghost use Rattle.span_flatten.specs.Spans.{Shown, Span, AreSpans};
ghost use Rattle.span_flatten.specs.Taken.{IsLastFormat, IsTaken};
ghost use Rattle.span_flatten.specs.Version.{IsPiece, IsDraft, IsVersion};
ghost use Rattle.span_flatten.specs.Window.{IsFlattened};

use crate::version::{Row, Version};
use crate::window::Window;
use char_sequence::sequence::Sequence;
use char_sequence::visible_cursor::VisibleCursor;
use mark_anchors::format::Format;
use mark_anchors::format_sweep::FormatSweep;
use mark_anchors::marks::Marks;
use mark_anchors::resolved::ResolvedMarks;
use std::alloc::{AllocError, Global};

/// Lengthens a row by `characters` characters, up to a new end.
fn lengthen(row: &mut Row, end: usize, characters: usize)
    requires { row.old.characters + characters < 2 ^ 64 }
    ensures { row.new ≡ record {
      start = row.old.start;
      end = end;
      characters = row.old.characters + characters;
      format = row.old.format;
    } }
{
    row.end = end;
    row.characters += characters;
}

/// Where a piece of the text lies: its bytes from `start` up to `end`, and how many characters they spell.
#[derive(Clone, Copy)]
struct Extent {
    start: usize,
    end: usize,
    characters: usize,
}

/// Adds a row with the format of the character at the place `from`, or lengthens the last row where that has the format
/// too. The last row's format is that of the character where the sweep stands, which goes on to the place.
fn add_row(
    rows: &mut Vec<Row>,
    sweep: &mut FormatSweep<'_>,
    from: usize,
    extent: Extent,
) -> Result<(), AllocError>
    requires order { sweep.old.place ≤ from }
    requires there { from < length sweep.old.resolution.elements }
    requires formatted { IsLastFormat sweep.old.resolution.elements sweep.old.resolution.marks sweep.old.place
        rows.old.items }
    requires counted { All (λ earlier. earlier.characters ≤ extent.start) rows.old.items }
    requires within { extent.start + extent.characters ≤ extent.end }
    ensures draft { IfOk result (λ _. (f : TheFormat)
        × IsFormatAt sweep.old.resolution.elements sweep.old.resolution.marks from f
        × ((shown more : List Shown) (piece : Span) (text text' : List ℕ) → IsPiece more piece → piece.format ≡ f
        → text' ≡ text ++ piece.text → extent.start ≡ length text → extent.end ≡ length text'
        → extent.characters ≡ length (chars piece.text) → IsDraft shown text rows.old.items
        → IsDraft (shown ++ more) text' rows.new.items)) }
    ensures formatted { IfOk result (λ _. IsLastFormat sweep.old.resolution.elements sweep.old.resolution.marks from
        rows.new.items) }
    ensures count { IfOk result (λ _. length rows.new.items ≤ length rows.old.items + 1) }
    ensures resolution { sweep.new.resolution ≡ sweep.old.resolution }
    ensures place { sweep.new.place ≡ from }
{
    let alike = sweep.advance(from);
    let count = rows.len();
    if count > 0 {
        if alike {
            lengthen(&mut rows[count - 1], extent.end, extent.characters);
            return Ok(());
        }
    }
    let format = sweep.format()?;
    rows.push(Row {
        start: extent.start,
        end: extent.end,
        characters: extent.characters,
        format,
    })?;
    Ok(())
}

/// Adds the visible text from one place, at which the cursor stands, up to another, between which all characters have
/// one format. Where none of them is visible there is no row. The last row's format is that of the character where the
/// sweep stands.
fn take_in(
    text: &mut String,
    rows: &mut Vec<Row>,
    cursor: &mut VisibleCursor<'_>,
    sweep: &mut FormatSweep<'_>,
    from: usize,
    to: usize,
) -> Result<(), AllocError>
    requires behind { sweep.old.place ≤ from }
    requires order { from ≤ to }
    requires within { to ≤ length sweep.old.resolution.elements }
    requires uniform { IsUniform sweep.old.resolution.elements sweep.old.resolution.marks from to }
    requires at { cursor.old ≡ drop from sweep.old.resolution.elements }
    requires formatted { IsLastFormat sweep.old.resolution.elements sweep.old.resolution.marks sweep.old.place
        rows.old.items }
    requires counted { All (λ row. row.characters ≤ length (string_bytes text.old)) rows.old.items }
    ensures taken { (low : ℕ) → IsTaken sweep.old.resolution.elements sweep.old.resolution.marks low from
        (string_bytes text.old) rows.old.items
        → IfOk result
        (λ _. IsTaken sweep.old.resolution.elements sweep.old.resolution.marks low to (string_bytes text.new)
        rows.new.items) }
    ensures at { IfOk result (λ _. cursor.new ≡ drop to sweep.old.resolution.elements) }
    ensures formatted { IfOk result (λ _. IsLastFormat sweep.old.resolution.elements sweep.old.resolution.marks
        sweep.new.place rows.new.items) }
    ensures behind { sweep.new.place ≤ to }
    ensures resolution { sweep.new.resolution ≡ sweep.old.resolution }
{
    let start = text.len();
    let characters = cursor.push_next(to - from, text)?;
    let end = text.len();
    if start == end {
        return Ok(());
    }
    let extent = Extent {
        start,
        end,
        characters,
    };
    add_row(rows, sweep, from, extent)?;
    Ok(())
}

/// What is visible of the characters from the place `low` up to `high`, cut into spans, by marks with their places.
///
/// `alloc` is for the window.
pub fn flatten_window(
    alloc: Global,
    sequence: &Sequence,
    resolved: &ResolvedMarks<'_>,
    low: usize,
    high: usize,
) -> Result<Window, AllocError>
    requires elements { resolved.now.elements ≡ sequence.now.elements }
    requires order { low ≤ high }
    requires within { high ≤ length sequence.now.elements }
    ensures { IfOk result (λ window. IsFlattened sequence.now.elements resolved.now.marks low high window) }
{
    let cuts = resolved.cuts(alloc, low, high)?;
    let mut text = String::new(alloc);
    let mut rows = Vec::with_capacity(alloc, cuts.len())?;
    let mut cursor = sequence.visible_from(low);
    // Its contract bounds the visible text, and so the spans, which the proof needs.
    let _count = sequence.len();
    let mut sweep = resolved.sweep_from(low);
    let mut from = low;
    for cut in &cuts {
        take_in(&mut text, &mut rows, &mut cursor, &mut sweep, from, *cut)?;
        from = *cut;
    }
    Ok(Window { text, rows })
}

/// What is visible of the characters from the place `low` up to `high`, of which each has this format: one span, or
/// none where nothing is visible.
///
/// `alloc` is for the window.
pub fn flatten_uniform(
    alloc: Global,
    sequence: &Sequence,
    format: &Format,
    low: usize,
    high: usize,
) -> Result<Window, AllocError>
    requires order { low ≤ high }
    requires within { high ≤ length sequence.now.elements }
    ensures { IfOk result (λ window. (marks : List Op) (place : ℕ) → low ≤ place → place < high
        → IsUniform sequence.now.elements marks low high
        → IsFormatAt sequence.now.elements marks place format.now
        → IsFlattened sequence.now.elements marks low high window) }
{
    let mut text = String::new(alloc);
    // Its contract bounds the visible text, which the proof needs.
    let _count = sequence.len();
    let mut cursor = sequence.visible_from(low);
    let characters = cursor.push_next(high - low, &mut text)?;
    let end = text.len();
    if end == 0 {
        let rows = Vec::new(alloc);
        return Ok(Window { text, rows });
    }
    let mut rows = Vec::with_capacity(alloc, 1)?;
    rows.push(Row {
        start: 0,
        end,
        characters,
        format: format.clone()?,
    })?;
    Ok(Window { text, rows })
}

/// The version with this number of the text and its marks.
pub fn flatten(
    alloc: Global,
    sequence: &Sequence,
    marks: &Marks,
    number: u64,
) -> Result<Version, AllocError>
    requires { (ops : List Op) × Shows sequence.now.elements ops × AreMarks ops marks.now }
    ensures { IfOk result (λ version. (ops : List Op) → Shows sequence.now.elements ops → AreMarks ops marks.now
        → IsVersion ops number version) }
{
    let resolved = marks.resolve(alloc, sequence)?;
    let window = flatten_window(alloc, sequence, &resolved, 0, sequence.len())?;
    Ok(window.into_version(number))
}

/// The law that replicas converge: versions with one number of one set of operations are equal,
/// in whatever order the operations were accepted.
pub fn same_set_same_version(first: &Version, second: &Version)
    ensures { (ops others : List Op) (elements : List Element) (number : ℕ) → Shows elements ops → SameSet ops others
        → IsVersion ops number first.now → IsVersion others number second.now → first.now ≡ second.now }
{}

/// The law that replicas converge, of the spans alone: one set of operations has one list of spans,
/// in whatever order and in however many changes the operations were accepted.
pub fn same_set_same_spans(sequence: &Sequence)
    ensures { (ops others : List Op) (spans more : List Span) → Shows sequence.now.elements ops → SameSet ops others
        → AreSpans ops spans → AreSpans others more → spans ≡ more }
{}
