//! The visible text of consecutive elements, and of a range of places.
ghost use Rattle.std.specs.Prelude.{◌≡◌, ◌≤◌, ◌+◌, ◌-◌, ◌*◌, ◌++◌, ◌∷◌, [], true, length, take, drop, slice_range};
ghost use Rattle.std.specs.Prelude.{string_bytes, IfOk, OnOk, OnErr};
ghost use Rattle.std.specs.String.{string_len, string_capacity};
ghost use Rattle.std.specs.String.Boundary.{IsSplitPoint};
ghost use Rattle.char_sequence.specs.Chunks.{joined};
ghost use Rattle.char_sequence.specs.Visible.{visible_text, visible_count};

use crate::chunk::Chunk;
use crate::counting::{count_of_range, count_visible};
use crate::sequence::{CHARACTER_LIMIT, Element};
use std::alloc::AllocError;

/// How many bytes the visible text has.
pub(crate) fn visible_len(elements: &[Element]) -> usize
    requires { length elements.now ≤ CHARACTER_LIMIT }
    ensures value { result ≡ length (visible_text elements.now) }
    ensures limit { result ≤ 4 * length elements.now }
{
    let mut count = 0;
    for element in elements {
        if element.visible {
            count += element.character.value().len_utf8();
        }
    }
    count
}

/// Writes the element's character, where it is visible, into a text from the byte `at` on, for which there is room.
pub(crate) fn write_at(element: &Element, at: usize, text: &mut String)
    requires split { IsSplitPoint (string_bytes text.old) at }
    requires room { string_len text.old + 4 ≤ string_capacity text.old }
    ensures bytes { string_bytes text.new ≡ (take at (string_bytes text.old) ++ visible_text (element.now ∷ []))
        ++ drop at (string_bytes text.old) }
    ensures capacity { string_capacity text.old ≤ string_capacity text.new }
{
    if element.visible {
        text.insert(at, element.character.value()).unwrap();
    }
}

/// Replaces what was there with the visible text, for which there is room.
pub(crate) fn write_text(elements: &[Element], text: &mut String)
    requires { 4 * length elements.now ≤ string_capacity text.old }
    ensures bytes { string_bytes text.new ≡ visible_text elements.now }
    ensures capacity { string_capacity text.old ≤ string_capacity text.new }
{
    text.clear();
    push_with_room(elements, text);
}

/// Appends the visible text, for which there is room.
pub(crate) fn push_with_room(elements: &[Element], text: &mut String)
    requires { string_len text.old + length (visible_text elements.now) ≤ string_capacity text.old }
    ensures bytes { string_bytes text.new ≡ string_bytes text.old ++ visible_text elements.now }
    ensures capacity { string_capacity text.old ≤ string_capacity text.new }
{
    for element in elements {
        if element.visible {
            text.push(element.character.value()).unwrap();
        }
    }
}

/// Appends the visible text of some elements of a chunk, and says how many characters it has; the error is want of
/// memory, and changes nothing.
pub(crate) fn push_some(elements: &[Element], text: &mut String) -> Result<usize, AllocError>
    requires { length elements.now ≤ 64 }
    ensures ok { OnOk result (string_bytes text.new ≡ string_bytes text.old ++ visible_text elements.now) }
    ensures count { IfOk result (λ count. count ≡ visible_count elements.now) }
    ensures err { OnErr result (string_bytes text.new ≡ string_bytes text.old) }
{
    text.reserve(4 * elements.len())?;
    push_with_room(elements, text);
    Ok(count_visible(elements))
}

/// Those of a chunk's elements that stand at the places from `from` up to `to`, where the chunk starts at `start`.
pub(crate) fn part(items: &[Element], start: usize, from: usize, to: usize) -> &[Element]
    requires { from ≤ to }
    ensures value { result.now ≡ slice_range items.now (from - start) (to - start) }
    ensures few { length result.now ≤ length items.now }
{
    let low = from.saturating_sub(start).min(items.len());
    let high = to.saturating_sub(start).min(items.len());
    &items[low..high]
}

/// Whether a part of elements is all of them.
pub(crate) fn is_whole(part: &[Element], items: &[Element]) -> bool
    ensures { result ≡ true → length part.now ≡ length items.now }
{
    part.len() == items.len()
}

/// How many bytes of a chunk's visible text stand in a range of places, where the chunk starts at `start`.
fn visible_len_within(chunk: &Chunk, start: usize, from: usize, to: usize) -> usize
    requires { from ≤ to }
    ensures value { result ≡ length (visible_text (slice_range chunk.now (from - start) (to - start))) }
    ensures limit { result ≤ 4 * length chunk.now }
{
    let items = chunk.as_slice();
    let piece = part(items, start, from, to);
    if is_whole(piece, items) {
        chunk.text().len()
    } else {
        visible_len(piece)
    }
}

/// Appends what of a chunk's visible text stands in a range of places, for which there is room.
fn push_within(chunk: &Chunk, start: usize, from: usize, to: usize, text: &mut String)
    requires order { from ≤ to }
    requires room { string_len text.old + length (visible_text (slice_range chunk.now (from - start) (to - start)))
        ≤ string_capacity text.old }
    ensures bytes { string_bytes text.new ≡ string_bytes text.old
        ++ visible_text (slice_range chunk.now (from - start) (to - start)) }
    ensures capacity { string_capacity text.old ≤ string_capacity text.new }
{
    let items = chunk.as_slice();
    let piece = part(items, start, from, to);
    if is_whole(piece, items) {
        text.push_str(chunk.text()).unwrap();
    } else {
        push_with_room(piece, text);
    }
}

/// How many bytes the visible text of a range of places has.
fn visible_len_of_range(chunks: &[Chunk], from: usize, to: usize) -> usize
    requires order { from ≤ to }
    requires few { length (joined chunks.now) ≤ CHARACTER_LIMIT }
    ensures { result ≡ length (visible_text (slice_range (joined chunks.now) from to)) }
{
    let mut start = 0;
    let mut count = 0;
    for chunk in chunks {
        count += visible_len_within(chunk, start, from, to);
        start += chunk.len();
    }
    count
}

/// Appends the visible text of a range of places, for which there is room.
fn push_range_with_room(chunks: &[Chunk], from: usize, to: usize, text: &mut String)
    requires order { from ≤ to }
    requires few { length (joined chunks.now) ≤ CHARACTER_LIMIT }
    requires room { string_len text.old + length (visible_text (slice_range (joined chunks.now) from to))
        ≤ string_capacity text.old }
    ensures { string_bytes text.new ≡ string_bytes text.old ++ visible_text (slice_range (joined chunks.now) from to) }
{
    let mut start = 0;
    for chunk in chunks {
        push_within(chunk, start, from, to, text);
        start += chunk.len();
    }
}

/// Appends the visible text of a range of places, and says how many characters it has; the error is want of memory, and
/// changes nothing.
pub(crate) fn push_visible(
    chunks: &[Chunk],
    from: usize,
    to: usize,
    text: &mut String,
) -> Result<usize, AllocError>
    requires order { from ≤ to }
    requires few { length (joined chunks.now) ≤ CHARACTER_LIMIT }
    ensures ok { OnOk result (string_bytes text.new ≡ string_bytes text.old
        ++ visible_text (slice_range (joined chunks.now) from to)) }
    ensures count { IfOk result (λ count. count ≡ visible_count (slice_range (joined chunks.now) from to)) }
    ensures err { OnErr result (string_bytes text.new ≡ string_bytes text.old) }
{
    text.reserve(visible_len_of_range(chunks, from, to))?;
    push_range_with_room(chunks, from, to, text);
    Ok(count_of_range(chunks, from, to))
}
