//! How many elements each chunk has, and how many of them are visible. They stand apart from the chunks, close
//! together, since each key takes sums over most of them.
ghost use Rattle.std.specs.Prelude.{◌≡◌, ◌+◌, ◌<◌, ◌≤◌, ◌++◌, ◌∷◌, [], List, OnOk, length, set, insert, sum, take};
ghost use Rattle.std.specs.Prelude.{MatchOption, drop, slice_range};
ghost use Rattle.char_sequence.specs.declared.sequence.Element.{Element};
ghost use Rattle.char_sequence.specs.Chunks.{joined, start_of, AreCounts, IsFirstSome, IsLastSome, IsSumBefore};
ghost use Rattle.char_sequence.specs.PlaceTables.{IsChunkAt};
ghost use Rattle.char_sequence.specs.Visible.{visible_count};

use crate::chunk::Chunk;
use crate::place_table::ChunkStart;
use crate::sequence::CHARACTER_LIMIT;
use std::alloc::{AllocError, Global};
use std::marker::Model;

/// How many chunks one sum passes over in the search for a place.
const BLOCK: usize = 64;

/// The sum. The loop does nothing else, so that the compiler can add several numbers at once.
fn sum_of(numbers: &[u32]) -> usize
    requires { sum numbers.now ≤ CHARACTER_LIMIT }
    ensures { result ≡ sum numbers.now }
{
    let mut total: u32 = 0;
    for number in numbers {
        total += *number;
    }
    total as usize
}

/// The first chunk of the block that a place is in, or that of the chunks after the last whole block.
fn block_of(lengths: &[u32], place: usize) -> ChunkStart
    requires { sum lengths.now ≤ CHARACTER_LIMIT }
    ensures { IsSumBefore lengths.now place result }
{
    let mut start = 0;
    for block in 0..lengths.len() / BLOCK {
        let position = block * BLOCK;
        let end = start + sum_of(&lengths[position..position + BLOCK]);
        if place < end {
            return ChunkStart { position, start };
        }
        start = end;
    }
    ChunkStart {
        position: lengths.len() / BLOCK * BLOCK,
        start,
    }
}

/// The chunk that a place is in, from this one on, or the end of the chunks.
fn chunk_from(lengths: &[u32], first: ChunkStart, place: usize) -> ChunkStart
    requires few { sum lengths.now ≤ CHARACTER_LIMIT }
    requires first { IsSumBefore lengths.now place first }
    ensures reached { IsSumBefore lengths.now place result }
    ensures ahead { result.position < length lengths.now → place < sum (take (result.position + 1) lengths.now) }
{
    let mut start = first.start;
    for position in first.position..lengths.len() {
        let end = start + lengths[position] as usize;
        if place < end {
            return ChunkStart { position, start };
        }
        start = end;
    }
    ChunkStart {
        position: lengths.len(),
        start,
    }
}

/// The index of the last number before an index that is not 0.
fn last_nonzero(numbers: &[u32], end: usize) -> Option<usize>
    requires { end ≤ length numbers.now }
    ensures { MatchOption result (sum (take end numbers.now) ≡ 0) (λ at. IsLastSome numbers.now end at) }
{
    for index in (0..end).rev() {
        if numbers[index] != 0 {
            return Some(index);
        }
    }
    None
}

/// The index of the first number from an index on that is not 0.
fn first_nonzero(numbers: &[u32], start: usize) -> Option<usize>
    requires { start ≤ length numbers.now }
    ensures { MatchOption result (sum (drop start numbers.now) ≡ 0) (λ at. IsFirstSome numbers.now start at) }
{
    for index in start..numbers.len() {
        if numbers[index] != 0 {
            return Some(index);
        }
    }
    None
}

/// The counts of each chunk, in the chunks' order.
#[derive(Drop)]
pub(crate) struct ChunkCounts {
    lengths: Vec<u32>,
    shown: Vec<u32>,
}

impl Model for ChunkCounts {
    ghost use Rattle.std.specs.Prelude.{◌-◌, min, vec_len, vec_capacity};
    ghost use Rattle.char_sequence.specs.Chunks.{ChunkCounts as ChunkCountsValue};

    ghost Value = { ChunkCountsValue };

    ghost view = { λ c. record {
      lengths = c.lengths.items;
      shown = c.shown.items;
      room = min (vec_capacity c.lengths - vec_len c.lengths) (vec_capacity c.shown - vec_len c.shown);
    } };
}

impl ChunkCounts {
    /// No chunk.
    pub(crate) fn new(alloc: Global) -> Self
        ensures { AreCounts [] result }
    {
        ChunkCounts {
            lengths: Vec::new(alloc),
            shown: Vec::new(alloc),
        }
    }

    /// Makes room for one more chunk.
    pub(crate) fn reserve(&mut self) -> Result<(), AllocError>
        ensures same { (self.new.lengths ≡ self.old.lengths) × (self.new.shown ≡ self.old.shown) }
        ensures room { OnOk result (1 ≤ self.new.room) }
    {
        self.lengths.reserve(1)?;
        self.shown.reserve(1)?;
        Ok(())
    }

    /// Counts one chunk more, behind the others.
    pub(crate) fn push(&mut self, chunk: &Chunk)
        requires { 1 ≤ self.old.room }
        ensures { (chunks : List (List Element)) → AreCounts chunks self.old
            → AreCounts (chunks ++ chunk.now ∷ []) self.new }
    {
        self.lengths.push_reserved(chunk.len() as u32);
        self.shown.push_reserved(chunk.shown() as u32);
    }

    /// Counts the elements of a chunk anew.
    pub(crate) fn recount(&mut self, position: usize, chunk: &Chunk)
        requires { (chunks : List (List Element)) × AreCounts chunks self.old × (position < length chunks) }
        ensures counts { (chunks : List (List Element)) → AreCounts chunks self.old
            → AreCounts (set chunks position chunk.now) self.new }
        ensures room { self.new.room ≡ self.old.room }
    {
        self.lengths[position] = chunk.len() as u32;
        self.shown[position] = chunk.shown() as u32;
    }

    /// Counts the two parts that a chunk is split into.
    pub(crate) fn split(&mut self, position: usize, left: &Chunk, right: &Chunk)
        requires there { (chunks : List (List Element)) × AreCounts chunks self.old × (position < length chunks) }
        requires room { 1 ≤ self.old.room }
        ensures { (chunks : List (List Element)) → AreCounts chunks self.old
            → AreCounts (insert (set chunks position left.now) (position + 1) right.now) self.new }
    {
        self.recount(position, left);
        self.lengths
            .insert(position + 1, right.len() as u32)
            .unwrap();
        self.shown
            .insert(position + 1, right.shown() as u32)
            .unwrap();
    }

    /// How many elements the chunks before a position have.
    pub(crate) fn length_before(&self, position: usize) -> usize
        requires { (chunks : List (List Element)) × AreCounts chunks self.now × (position ≤ length chunks)
            × (length (joined chunks) ≤ CHARACTER_LIMIT) }
        ensures { (chunks : List (List Element)) → AreCounts chunks self.now → result ≡ start_of chunks position }
    {
        let (before, _) = self.lengths.split_at(position);
        sum_of(before)
    }

    /// How many elements of the chunks before a position are visible.
    pub(crate) fn shown_before(&self, position: usize) -> usize
        requires { (chunks : List (List Element)) × AreCounts chunks self.now × (position ≤ length chunks)
            × (length (joined chunks) ≤ CHARACTER_LIMIT) }
        ensures { (chunks : List (List Element)) → AreCounts chunks self.now
            → result ≡ visible_count (joined (take position chunks)) }
    {
        let (before, _) = self.shown.split_at(position);
        sum_of(before)
    }

    /// How many elements the chunks from a position up to another one have.
    pub(crate) fn length_between(&self, from: usize, to: usize) -> usize
        requires order { (from ≤ to) × (to ≤ length self.now.lengths) }
        requires few { sum self.now.lengths ≤ CHARACTER_LIMIT }
        ensures { result ≡ sum (slice_range self.now.lengths from to) }
    {
        sum_of(&self.lengths[from..to])
    }

    /// The last chunk before a position of which something is visible.
    pub(crate) fn last_shown(&self, position: usize) -> Option<usize>
        requires { position ≤ length self.now.shown }
        ensures { MatchOption result (sum (take position self.now.shown) ≡ 0)
            (λ at. IsLastSome self.now.shown position at) }
    {
        last_nonzero(&self.shown, position)
    }

    /// The first chunk from a position on of which something is visible.
    pub(crate) fn first_shown(&self, position: usize) -> Option<usize>
        requires { position ≤ length self.now.shown }
        ensures { MatchOption result (sum (drop position self.now.shown) ≡ 0)
            (λ at. IsFirstSome self.now.shown position at) }
    {
        first_nonzero(&self.shown, position)
    }

    /// The chunk that a place is in, or the end of the chunks.
    pub(crate) fn chunk_at(&self, place: usize) -> ChunkStart
        requires { (chunks : List (List Element)) × AreCounts chunks self.now
            × (length (joined chunks) ≤ CHARACTER_LIMIT) }
        ensures { (chunks : List (List Element)) → AreCounts chunks self.now → IsChunkAt chunks place result }
    {
        let first = block_of(&self.lengths, place);
        chunk_from(&self.lengths, first, place)
    }
}

impl Clone for ChunkCounts {
    ghost is_clone = { λ old new. (new.lengths ≡ old.lengths) × (new.shown ≡ old.shown) };

    fn clone(&self) -> Result<ChunkCounts, AllocError> {
        let lengths = self.lengths.clone()?;
        let shown = self.shown.clone()?;
        Ok(ChunkCounts { lengths, shown })
    }
}
