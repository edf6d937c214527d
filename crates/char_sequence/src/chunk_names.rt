//! The names of chunks: numbers that are given once, so that each stays as chunks before it are split.
ghost use Rattle.std.specs.Prelude.{◌≡◌, ℕ, ◌+◌, ◌<◌, ◌≤◌, ◌∷◌, [], List, Some, OnOk, length, map, insert, slice_get};
ghost use Rattle.char_sequence.specs.Chunks.{ArePositions, moved};

use std::alloc::{AllocError, Global};
use std::marker::Model;

/// The position of a chunk once there is one more behind `position`.
fn moved(at: usize, position: usize) -> usize
    requires { at < usize.MAX }
    ensures { result ≡ moved position at }
{
    if at > position { at + 1 } else { at }
}

/// Moves the positions behind one on.
fn move_on(positions: &mut [usize], position: usize)
    requires { (k at : ℕ) → slice_get positions.old k ≡ Some at → at < usize.MAX }
    ensures { positions.new ≡ map (moved position) positions.old }
{
    for name in 0..positions.len() {
        positions[name] = moved(positions[name], position);
    }
}

/// The chunks' names in order, from 0 on in the order in which they were given.
#[derive(Drop)]
pub(crate) struct ChunkNames {
    names: Vec<usize>,
    // The position of each name's chunk.
    positions: Vec<usize>,
}

impl Model for ChunkNames {
    ghost use Rattle.std.specs.Prelude.{◌-◌, min, vec_len, vec_capacity};
    ghost use Rattle.char_sequence.specs.Chunks.{ArePositions, ChunkNames as ChunkNamesValue};

    ghost Value = { ChunkNamesValue };

    ghost view = { λ n. record {
      names = n.names.items;
      room = min (vec_capacity n.names - vec_len n.names) (vec_capacity n.positions - vec_len n.positions);
    } };

    ghost invariant = { λ n. ArePositions n.names.items n.positions.items };
}

impl ChunkNames {
    /// No chunk.
    pub(crate) fn new(alloc: Global) -> Self
        ensures { result.names ≡ [] }
    {
        ChunkNames {
            names: Vec::new(alloc),
            positions: Vec::new(alloc),
        }
    }

    /// The names in the chunks' order.
    pub(crate) fn as_slice(&self) -> &[usize]
        ensures value { result.now ≡ self.now.names }
        ensures positions { (positions : List ℕ) × ArePositions result.now positions }
    {
        self.names.as_slice()
    }

    /// The name of the chunk at a position.
    pub(crate) fn name_at(&self, position: usize) -> usize
        requires { position < length self.now.names }
        ensures { slice_get self.now.names position ≡ Some result }
    {
        self.names[position]
    }

    /// The position of the chunk of a name.
    pub(crate) fn position_of(&self, name: usize) -> usize
        requires { (position : ℕ) × (slice_get self.now.names position ≡ Some name) }
        ensures { (position : ℕ) → slice_get self.now.names position ≡ Some name → result ≡ position }
    {
        self.positions[name]
    }

    /// Makes room for one more name.
    pub(crate) fn reserve(&mut self) -> Result<(), AllocError>
        ensures same { self.new.names ≡ self.old.names }
        ensures room { OnOk result (1 ≤ self.new.room) }
    {
        self.names.reserve(1)?;
        self.positions.reserve(1)?;
        Ok(())
    }

    /// Names the first chunk.
    pub(crate) fn push_first(&mut self)
        requires none { self.old.names ≡ [] }
        requires room { 1 ≤ self.old.room }
        ensures { self.new.names ≡ 0 ∷ [] }
    {
        self.names.push_reserved(0);
        self.positions.push_reserved(0);
    }

    /// Names the chunk that a part of the one at a position moves into, and answers the name.
    pub(crate) fn split(&mut self, position: usize) -> usize
        requires within { position < length self.old.names }
        requires room { 1 ≤ self.old.room }
        ensures name { result ≡ length self.old.names }
        ensures names { self.new.names ≡ insert self.old.names (position + 1) result }
    {
        let name = self.names.len();
        move_on(&mut self.positions, position);
        self.positions.push_reserved(position + 1);
        self.names.insert(position + 1, name).unwrap();
        name
    }
}

impl Clone for ChunkNames {
    ghost is_clone = { λ old new. new.names ≡ old.names };

    fn clone(&self) -> Result<ChunkNames, AllocError> {
        let names = self.names.clone()?;
        let positions = self.positions.clone()?;
        Ok(ChunkNames { names, positions })
    }
}
