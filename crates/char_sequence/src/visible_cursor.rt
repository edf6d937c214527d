//! The visible text, read piece after piece in one walk over the chunks.
ghost use Rattle.std.specs.Prelude.{◌≡◌, ◌≤◌, ◌+◌, ◌++◌, length, take, drop, string_bytes, IfOk, OnOk, OnErr};
ghost use Rattle.char_sequence.specs.Chunks.{joined};
ghost use Rattle.char_sequence.specs.PlaceTables.{IsChunkAt};
ghost use Rattle.char_sequence.specs.Visible.{visible_text, visible_count};

use crate::chunk::Chunk;
use crate::place_table::ChunkStart;
use crate::sequence::CHARACTER_LIMIT;
use crate::visible::{part, push_some, push_visible};
use std::alloc::AllocError;
use std::marker::Model;

/// The characters that are left to read, removed ones too, seen as their list.
#[derive(Drop)]
pub struct VisibleCursor<'a> {
    pub(crate) chunks: &'a [Chunk],
    // How many elements of these chunks were read.
    pub(crate) read: usize,
}

impl<'a> Model for VisibleCursor<'a> {
    ghost use Rattle.std.specs.Prelude.{◌≤◌, List, length, drop};
    ghost use Rattle.char_sequence.specs.declared.sequence.Element.{Element};
    ghost use Rattle.char_sequence.specs.Chunks.{joined};

    ghost Value = { List Element };

    ghost view = { λ c. drop c.read (joined c.chunks.now) };

    ghost invariant = { λ c. (c.read ≤ length (joined c.chunks.now)) × (length (joined c.chunks.now) ≤ 262144) };
}

/// The chunk that a place is in, or the end of the chunks.
pub(crate) fn chunk_at(chunks: &[Chunk], place: usize) -> ChunkStart
    requires few { length (joined chunks.now) ≤ CHARACTER_LIMIT }
    ensures { IsChunkAt chunks.now place result }
{
    let mut start = 0;
    for position in 0..chunks.len() {
        let end = start + chunks[position].len();
        if place < end {
            return ChunkStart { position, start };
        }
        start = end;
    }
    ChunkStart {
        position: chunks.len(),
        start,
    }
}

impl<'a> VisibleCursor<'a> {
    /// The characters from a place on, which is in the chunk that starts there.
    pub(crate) fn at(chunks: &'a [Chunk], first: ChunkStart, place: usize) -> VisibleCursor<'a>
        requires first { IsChunkAt chunks.now place first }
        requires within { place ≤ length (joined chunks.now) }
        requires few { length (joined chunks.now) ≤ CHARACTER_LIMIT }
        ensures { result ≡ drop place (joined chunks.now) }
    {
        let (_, rest) = chunks.split_at(first.position);
        VisibleCursor {
            chunks: rest,
            read: place - first.start,
        }
    }
}

impl VisibleCursor<'_> {
    /// The same as `push_next`, for a piece that may end in any of the chunks.
    fn push_through(&mut self, count: usize, text: &mut String) -> Result<usize, AllocError>
        requires { count ≤ length self.old }
        ensures text { OnOk result (string_bytes text.new ≡ string_bytes text.old
            ++ visible_text (take count self.old)) }
        ensures characters { IfOk result (λ characters. characters ≡ visible_count (take count self.old)) }
        ensures left { OnOk result (self.new ≡ drop count self.old) }
        ensures err { OnErr result ((string_bytes text.new ≡ string_bytes text.old) × (self.new ≡ self.old)) }
    {
        let chunks = self.chunks;
        let to = self.read + count;
        let last = chunk_at(chunks, to);
        let count_through = chunks.len().min(last.position + 1);
        let (through, _) = chunks.split_at(count_through);
        let characters = push_visible(through, self.read, to, text)?;
        let (_, rest) = chunks.split_at(last.position);
        self.chunks = rest;
        self.read = to - last.start;
        Ok(characters)
    }

    /// Reads `count` characters, removed ones too, appends those of them that are visible, and returns the number of
    /// these; the error is want of memory, and changes nothing.
    pub fn push_next(&mut self, count: usize, text: &mut String) -> Result<usize, AllocError>
        requires { count ≤ length self.old }
        ensures text { OnOk result (string_bytes text.new ≡ string_bytes text.old
            ++ visible_text (take count self.old)) }
        ensures characters { IfOk result (λ characters. characters ≡ visible_count (take count self.old)) }
        ensures left { OnOk result (self.new ≡ drop count self.old) }
        ensures err { OnErr result ((string_bytes text.new ≡ string_bytes text.old) × (self.new ≡ self.old)) }
    {
        let chunks = self.chunks;
        let to = self.read + count;
        if let Some(first) = chunks.first() {
            // Most pieces lie in one chunk: then the others are not looked at.
            if to < first.len() {
                let characters = push_some(part(first.as_slice(), 0, self.read, to), text)?;
                self.read = to;
                return Ok(characters);
            }
        }
        self.push_through(count, text)
    }
}
