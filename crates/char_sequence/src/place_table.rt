//! The places of a text's characters by their ids, as they stand at one time.
ghost use Rattle.std.specs.Prelude.{◌≡◌, ◌≤◌, ℕ, List, length, Option, MatchOption, IfOk};
ghost use Rattle.change_ops.specs.declared.id.OpId.{OpId};
ghost use Rattle.change_ops.specs.declared.operation.Op.{Op};
ghost use Rattle.char_sequence.specs.Tree.{Present};
ghost use Rattle.char_sequence.specs.Order.{Shows, IsAt};
ghost use Rattle.char_sequence.specs.Index.{HasId};
ghost use Rattle.char_sequence.specs.Chunks.{joined, ArePositions, IsKept};
ghost use Rattle.char_sequence.specs.PlaceTables.{AreStarts};
ghost use Rattle.char_sequence.specs.Named.{name_of};

use crate::chunk::Chunk;
use crate::index::Index;
use crate::sequence::CHARACTER_LIMIT;
use change_ops::id::OpId;
use std::alloc::{AllocError, Global};
use std::marker::Model;

/// The position of a chunk, and how many elements stand before it.
#[derive(Clone, Copy)]
pub(crate) struct ChunkStart {
    pub(crate) position: usize,
    pub(crate) start: usize,
}

/// The places of all characters: each takes two look-ups and a look at the ids of one chunk.
#[derive(Drop)]
pub struct PlaceTable<'a> {
    chunks: &'a [Chunk],
    // The name of each element's chunk.
    index: &'a Index,
    // Where the chunk of each name stands.
    starts: Vec<ChunkStart>,
    count: usize,
}

impl<'a> Model for PlaceTable<'a> {
    ghost use Rattle.std.specs.Prelude.{List};
    ghost use Rattle.char_sequence.specs.declared.sequence.Element.{Element};
    ghost use Rattle.char_sequence.specs.Chunks.{joined};
    ghost use Rattle.char_sequence.specs.PlaceTables.{IsPlaceTable};
    ghost use Rattle.char_sequence.specs.Named.{name_of};

    ghost Value = { List Element };

    ghost view = { λ t. joined t.chunks.now };

    ghost invariant = { λ t. IsPlaceTable t.chunks.now (name_of t.index.now) t.starts.items t.count };
}

/// Where the chunk of each name stands.
fn starts_by_name(
    alloc: Global,
    chunks: &[Chunk],
    names: &[usize],
) -> Result<Vec<ChunkStart>, AllocError>
    requires kept { (find : OpId → Option ℕ) × ((count : ℕ) × IsKept chunks.now names.now find count) }
    requires names { (positions : List ℕ) × ArePositions names.now positions }
    ensures { IfOk result (λ starts. AreStarts chunks.now names.now starts.items) }
{
    let first = ChunkStart {
        position: 0,
        start: 0,
    };
    let mut starts = vec![in alloc; first; names.len()]?;
    let mut start = 0;
    for position in 0..names.len() {
        let name = names[position];
        starts[name] = ChunkStart { position, start };
        start += chunks[position].len();
    }
    Ok(starts)
}

impl<'a> PlaceTable<'a> {
    pub(crate) fn new(
        alloc: Global,
        chunks: &'a [Chunk],
        names: &[usize],
        index: &'a Index,
        count: usize,
    ) -> Result<PlaceTable<'a>, AllocError>
        requires kept { IsKept chunks.now names.now (name_of index.now) count }
        requires names { (positions : List ℕ) × ArePositions names.now positions }
        ensures { IfOk result (λ table. table ≡ joined chunks.now) }
    {
        let starts = starts_by_name(alloc, chunks, names)?;
        Ok(PlaceTable {
            chunks,
            index,
            starts,
            count,
        })
    }
}

impl PlaceTable<'_> {
    /// The number of characters, removed ones too.
    pub fn len(&self) -> usize
        ensures value { result ≡ length self.now }
        ensures limit { length self.now ≤ CHARACTER_LIMIT }
    {
        self.count
    }

    /// The number of characters, removed ones too, before this one.
    pub fn place_of(&self, id: OpId) -> Option<usize>
        ensures found { MatchOption result (HasId self.now id → ⊥) (λ k. IsAt self.now id k) }
        ensures present { (ops : List Op) → Shows self.now ops
            → MatchOption result (Present ops id → ⊥) (λ k. IsAt self.now id k) }
    {
        let name = self.index.name_of(id)?;
        let chunk = self.starts[name];
        let at = self.chunks[chunk.position].index_of(id).unwrap();
        Some(chunk.start + at)
    }
}
