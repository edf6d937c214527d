//! The name of each element's chunk, by the element's id.
ghost use Rattle.std.specs.Prelude.{◌≡◌, ◌+◌, ◌<◌, ◌≤◌, [], ℕ, None, Some, false, slice_get, MatchOption, IfOk, OnOk};
ghost use Rattle.std.specs.Map.{lookup};
ghost use Rattle.change_ops.specs.declared.id.OpId.{OpId};
ghost use Rattle.char_sequence.specs.Index.{same_id};
ghost use Rattle.char_sequence.specs.Named.{same_node, name_among, name_of, IsRising, IsPeerPlace};

use change_ops::id::OpId;
use std::alloc::{AllocError, Global};
use std::collections::BTreeMap;
use std::marker::Model;

/// The counters of a peer's elements, which rise as they are entered, and the name of each one's chunk.
#[derive(Drop)]
struct PeerIndex {
    counters: Vec<u64>,
    names: Vec<usize>,
}

impl Model for PeerIndex {
    ghost use Rattle.std.specs.Prelude.{◌-◌, min, vec_len, vec_capacity};
    ghost use Rattle.char_sequence.specs.Named.{PeerIndex as PeerIndexValue, AreRising};

    ghost Value = { PeerIndexValue };

    ghost view = { λ p. record {
      counters = p.counters.items;
      names = p.names.items;
      room = min (vec_capacity p.counters - vec_len p.counters) (vec_capacity p.names - vec_len p.names);
    } };

    ghost invariant = { λ p. AreRising p.counters.items p.names.items };
}

/// The place of a number among rising ones.
fn place_among(numbers: &[u64], number: u64) -> Option<usize>
    ensures { IsRising numbers.now → MatchOption result ((k : ℕ) → slice_get numbers.now k ≡ Some number → ⊥)
        (λ k. slice_get numbers.now k ≡ Some number) }
{
    match numbers.binary_search(&number) {
        Ok(place) => Some(place),
        Err(_) => None,
    }
}

impl PeerIndex {
    /// No element.
    fn new(alloc: Global) -> Self
        ensures counters { result.counters ≡ [] }
        ensures names { result.names ≡ [] }
    {
        PeerIndex {
            counters: Vec::new(alloc),
            names: Vec::new(alloc),
        }
    }

    /// The name of the chunk of the element with this counter.
    fn name_of(&self, counter: u64) -> Option<usize>
        ensures { result ≡ name_among self.now.counters self.now.names counter }
    {
        match place_among(&self.counters, counter) {
            Some(place) => Some(self.names[place]),
            None => None,
        }
    }

    /// Makes room for so many more elements.
    fn reserve(&mut self, count: usize) -> Result<(), AllocError>
        ensures same { (self.new.counters ≡ self.old.counters) × (self.new.names ≡ self.old.names) }
        ensures room { OnOk result (count ≤ self.new.room) }
    {
        self.counters.reserve(count)?;
        self.names.reserve(count)?;
        Ok(())
    }

    /// Enters an element whose counter is above all others.
    fn push(&mut self, counter: u64, name: usize)
        requires room { 1 ≤ self.old.room }
        requires above { (c : ℕ) → (name_among self.old.counters self.old.names c ≡ None → ⊥) → c < counter }
        ensures room { self.old.room ≤ self.new.room + 1 }
        ensures here { name_among self.new.counters self.new.names counter ≡ Some name }
        ensures others { (c : ℕ) → (counter ≡ c → ⊥)
            → name_among self.new.counters self.new.names c ≡ name_among self.old.counters self.old.names c }
    {
        self.counters.push_reserved(counter);
        self.names.push_reserved(name);
    }

    /// Gives an element another name.
    fn rename(&mut self, counter: u64, name: usize)
        requires { name_among self.old.counters self.old.names counter ≡ None → ⊥ }
        ensures here { name_among self.new.counters self.new.names counter ≡ Some name }
        ensures others { (c : ℕ) → (counter ≡ c → ⊥)
            → name_among self.new.counters self.new.names c ≡ name_among self.old.counters self.old.names c }
    {
        let place = place_among(&self.counters, counter).unwrap();
        self.names[place] = name;
    }
}

impl Clone for PeerIndex {
    ghost is_clone = { λ old new. (new.counters ≡ old.counters) × (new.names ≡ old.names) };

    fn clone(&self) -> Result<PeerIndex, AllocError> {
        let counters = self.counters.clone()?;
        let names = self.names.clone()?;
        Ok(PeerIndex { counters, names })
    }
}

/// The name of each element's chunk: since a peer's counters rise, an element is entered behind all others of its peer.
#[derive(Drop)]
pub(crate) struct Index {
    // The place of each peer's part.
    places: BTreeMap<u16, usize>,
    peers: Vec<PeerIndex>,
}

impl Model for Index {
    ghost use Rattle.char_sequence.specs.Named.{Index as IndexValue, HasPlaces};

    ghost Value = { IndexValue };

    ghost view = { λ i. record { places = i.places.entries; peers = i.peers.items } };

    ghost invariant = { λ i. HasPlaces i.places.entries i.peers.items };
}

impl Index {
    /// No element.
    pub(crate) fn new(alloc: Global) -> Self
        ensures { (id : OpId) → name_of result id ≡ None }
    {
        Index {
            places: BTreeMap::new(alloc),
            peers: Vec::new(alloc),
        }
    }

    /// The name of the chunk of the element with this id.
    pub(crate) fn name_of(&self, id: OpId) -> Option<usize>
        ensures { result ≡ name_of self.now id }
    {
        match self.places.get(&id.node()) {
            Some(place) => self.peers[*place].name_of(id.counter()),
            None => None,
        }
    }

    /// The place of a peer's part, which is made where there is none.
    fn place_for(&mut self, node: u16) -> Result<usize, AllocError>
        ensures same { (id : OpId) → name_of self.new id ≡ name_of self.old id }
        ensures place { IfOk result (λ place. lookup (same_node node) self.new.places ≡ Some place) }
    {
        if let Some(place) = self.places.get(&node) {
            return Ok(*place);
        }
        let alloc = *self.peers.allocator();
        self.peers.reserve(1)?;
        let place = self.peers.len();
        self.places.insert(node, place)?;
        self.peers.push_reserved(PeerIndex::new(alloc));
        Ok(place)
    }

    /// Makes room for so many more elements of a peer, and answers the place of its part.
    pub(crate) fn reserve(&mut self, node: u16, count: usize) -> Result<usize, AllocError>
        ensures same { (id : OpId) → name_of self.new id ≡ name_of self.old id }
        ensures room { IfOk result (IsPeerPlace self.new node count) }
    {
        let place = self.place_for(node)?;
        self.peers[place].reserve(count)?;
        Ok(place)
    }

    /// Enters an element whose counter is above all others of its peer.
    pub(crate) fn push(&mut self, place: usize, id: OpId, name: usize)
        requires room { IsPeerPlace self.old id.node 1 place }
        requires above { (other : OpId) → other.node ≡ id.node → (name_of self.old other ≡ None → ⊥)
            → other.counter < id.counter }
        ensures room { (count : ℕ) → IsPeerPlace self.old id.node (count + 1) place
            → IsPeerPlace self.new id.node count place }
        ensures named { name_of self.new id ≡ Some name }
        ensures kept { (other : OpId) → same_id id other ≡ false → name_of self.new other ≡ name_of self.old other }
    {
        self.peers[place].push(id.counter(), name);
    }

    /// Gives an element another name.
    pub(crate) fn rename(&mut self, id: OpId, name: usize)
        requires { name_of self.old id ≡ None → ⊥ }
        ensures named { name_of self.new id ≡ Some name }
        ensures kept { (other : OpId) → same_id id other ≡ false → name_of self.new other ≡ name_of self.old other }
    {
        let place = *self.places.get(&id.node()).unwrap();
        self.peers[place].rename(id.counter(), name);
    }
}

impl Clone for Index {
    ghost is_clone = { λ old new. (id : OpId) → name_of new id ≡ name_of old id };

    fn clone(&self) -> Result<Index, AllocError> {
        let places = self.places.clone()?;
        let peers = self.peers.clone()?;
        Ok(Index { places, peers })
    }
}
