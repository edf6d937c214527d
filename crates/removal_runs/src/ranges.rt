//! Sets of ids, in ranges of the counters of each peer.
ghost use Rattle.std.specs.Prelude.{◌≡◌, ◌<◌, ◌≤◌, ◌↔◌, ◌⊎◌, ◌∷◌, [], Contains, IsTrue, OnOk, OnErr, flat_map, length};
ghost use Rattle.std.specs.List.Sorted.{IsPermutation};
ghost use Rattle.change_ops.specs.declared.id.OpId.{OpId as TheId};
ghost use Rattle.removal_runs.specs.Apart.{IsPlaceOf};
ghost use Rattle.removal_runs.specs.IdSets.{AreCounters, node_of_counters, ids_of_peer};

use crate::peer_ranges::PeerRanges;
use change_ops::id::OpId;
use std::alloc::{AllocError, Global};
use std::marker::Model;

/// A set of ids, kept as ranges of the counters of each peer.
#[derive(Drop)]
pub struct IdRanges {
    // In the order of their nodes.
    peers: Vec<PeerRanges>,
}

impl Model for IdRanges {
    ghost use Rattle.std.specs.Prelude.{List, flat_map};
    ghost use Rattle.change_ops.specs.declared.id.OpId.{OpId as IdValue};
    ghost use Rattle.removal_runs.specs.IdSets.{AreCounters, ids_of_peer};

    ghost Value = { List IdValue };

    ghost view = { λ r. flat_map ids_of_peer r.peers.items };

    ghost invariant = { λ r. AreCounters r.peers.items };
}

/// The place of a peer's counters, or where they would be inserted.
fn place_of(peers: &[PeerRanges], node: u16) -> Result<usize, usize>
    requires { AreCounters peers.now }
    ensures { IsPlaceOf node_of_counters peers.now node result }
{
    peers.binary_search_by_key(&node, |peer| peer.node())
}

/// How many ranges the peers have.
fn count_ranges(peers: &[PeerRanges]) -> usize
    ensures { result ≤ length (flat_map ids_of_peer peers.now) }
{
    let mut count: usize = 0;
    for peer in peers {
        count = count.saturating_add(peer.range_count());
    }
    count
}

impl IdRanges {
    /// No id.
    pub fn new(alloc: Global) -> IdRanges
        ensures { result ≡ [] }
    {
        IdRanges {
            peers: Vec::new(alloc),
        }
    }

    /// Whether the set has the id.
    pub fn has(&self, id: OpId) -> bool
        ensures { IsTrue result ↔ Contains self.now id }
    {
        match place_of(&self.peers, id.node()) {
            Ok(place) => self.peers[place].has(id.counter()),
            Err(_) => false,
        }
    }

    /// Puts the id into the set.
    pub fn insert(&mut self, id: OpId) -> Result<(), AllocError>
        ensures ok { OnOk result ((x : TheId) → Contains self.new x ↔ (Contains self.old x ⊎ (x ≡ id))) }
        ensures err { OnErr result (self.new ≡ self.old) }
    {
        if self.has(id) {
            return Ok(());
        }
        self.add(id)
    }

    /// Adds an id that isn't in the set.
    fn add(&mut self, id: OpId) -> Result<(), AllocError>
        requires { Contains self.old id → ⊥ }
        ensures ok { OnOk result (IsPermutation (id ∷ self.old) self.new) }
        ensures err { OnErr result (self.new ≡ self.old) }
    {
        match place_of(&self.peers, id.node()) {
            Ok(place) => self.peers[place].add(id.counter()),
            Err(place) => {
                let mut peer = PeerRanges::new(*self.peers.allocator(), id.node());
                peer.add(id.counter())?;
                self.peers.insert(place, peer)?;
                Ok(())
            }
        }
    }

    /// How many ranges the ids take.
    pub fn range_count(&self) -> usize
        ensures { result ≤ length self.now }
    {
        count_ranges(&self.peers)
    }
}

impl Clone for IdRanges {
    ghost is_clone = { λ old new. new ≡ old };

    fn clone(&self) -> Result<IdRanges, AllocError> {
        let peers = self.peers.clone()?;
        Ok(IdRanges { peers })
    }
}
