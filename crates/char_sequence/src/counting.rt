//! How many characters of consecutive elements, and of a range of places, are visible.
ghost use Rattle.std.specs.Prelude.{◌≡◌, ◌≤◌, ◌-◌, length, slice_range};
ghost use Rattle.char_sequence.specs.Chunks.{joined};
ghost use Rattle.char_sequence.specs.Visible.{visible_count};

use crate::chunk::Chunk;
use crate::sequence::{CHARACTER_LIMIT, Element};
use crate::visible::{is_whole, part};

/// How many of the elements are visible.
pub(crate) fn count_visible(elements: &[Element]) -> usize
    requires { length elements.now ≤ CHARACTER_LIMIT }
    ensures { result ≡ visible_count elements.now }
{
    let mut count = 0;
    for element in elements {
        if element.visible {
            count += 1;
        }
    }
    count
}

/// How many visible characters of a chunk stand in a range of places, where the chunk starts at `start`.
fn count_within(chunk: &Chunk, start: usize, from: usize, to: usize) -> usize
    requires { from ≤ to }
    ensures value { result ≡ visible_count (slice_range chunk.now (from - start) (to - start)) }
    ensures limit { result ≤ length chunk.now }
{
    let items = chunk.as_slice();
    let piece = part(items, start, from, to);
    if is_whole(piece, items) {
        chunk.shown()
    } else {
        count_visible(piece)
    }
}

/// How many visible characters stand in a range of places.
pub(crate) fn count_of_range(chunks: &[Chunk], from: usize, to: usize) -> usize
    requires order { from ≤ to }
    requires few { length (joined chunks.now) ≤ CHARACTER_LIMIT }
    ensures { result ≡ visible_count (slice_range (joined chunks.now) from to) }
{
    let mut start = 0;
    let mut count = 0;
    for chunk in chunks {
        count += count_within(chunk, start, from, to);
        start += chunk.len();
    }
    count
}
