//! The character that each removal removes, by the removal's id.
ghost use Rattle.std.specs.Prelude.{◌≡◌, ◌<◌, ◌≤◌, ◌∷◌, [], Contains, MatchOption, OnOk, OnErr, Some, flat_map, length};
ghost use Rattle.std.specs.List.Sorted.{IsPermutation};
ghost use Rattle.change_ops.specs.declared.id.OpId.{OpId as TheId};
ghost use Rattle.removal_runs.specs.Apart.{IsPlaceOf};
ghost use Rattle.removal_runs.specs.Removals.{Removal, ArePeers, node_of_peer, removals_of_peer};

use crate::peer_runs::PeerRuns;
use change_ops::id::OpId;
use std::alloc::{AllocError, Global};
use std::marker::Model;

/// Removals by their ids, in runs of consecutive ones.
#[derive(Drop)]
pub struct RemovalRuns {
    // In the order of their nodes.
    peers: Vec<PeerRuns>,
}

impl Model for RemovalRuns {
    ghost use Rattle.std.specs.Prelude.{List, flat_map};
    ghost use Rattle.removal_runs.specs.Removals.{Removal, ArePeers, removals_of_peer};

    ghost Value = { List Removal };

    ghost view = { λ r. flat_map removals_of_peer r.peers.items };

    ghost invariant = { λ r. ArePeers r.peers.items };
}

/// The place of a peer's removals, or where they would be inserted.
fn place_of(peers: &[PeerRuns], node: u16) -> Result<usize, usize>
    requires { ArePeers peers.now }
    ensures { IsPlaceOf node_of_peer peers.now node result }
{
    peers.binary_search_by_key(&node, |peer| peer.node())
}

/// How many runs the peers have.
fn count_runs(peers: &[PeerRuns]) -> usize
    ensures { result ≤ length (flat_map removals_of_peer peers.now) }
{
    let mut count: usize = 0;
    for peer in peers {
        count = count.saturating_add(peer.run_count());
    }
    count
}

impl RemovalRuns {
    /// No removal.
    pub fn new(alloc: Global) -> RemovalRuns
        ensures { result ≡ [] }
    {
        RemovalRuns {
            peers: Vec::new(alloc),
        }
    }

    /// The character that the removal with this id removes. No two removals have one id.
    pub fn target_of(&self, removal: OpId) -> Option<OpId>
        ensures cases { MatchOption result
            ((x : TheId) → Contains self.now (record { id = removal; target = x }) → ⊥)
            (λ x. Contains self.now (record { id = removal; target = x })) }
        ensures only { (x : TheId) → Contains self.now (record { id = removal; target = x }) → result ≡ Some x }
    {
        match place_of(&self.peers, removal.node()) {
            Ok(place) => self.peers[place].target_of(removal.counter()),
            Err(_) => None,
        }
    }

    /// Adds a removal, whose counter is above those of its peer's others.
    pub fn add(&mut self, id: OpId, target: OpId) -> Result<(), AllocError>
        requires fresh { (r : Removal) → Contains self.old r → r.id.node ≡ id.node → r.id.counter < id.counter }
        ensures ok { OnOk result (IsPermutation ((record { id = id; target = target }) ∷ self.old) self.new) }
        ensures err { OnErr result (self.new ≡ self.old) }
    {
        match place_of(&self.peers, id.node()) {
            Ok(place) => self.peers[place].push(id.counter(), target),
            Err(place) => {
                let mut peer = PeerRuns::new(*self.peers.allocator(), id.node());
                peer.push(id.counter(), target)?;
                self.peers.insert(place, peer)?;
                Ok(())
            }
        }
    }

    /// How many runs the removals take.
    pub fn run_count(&self) -> usize
        ensures { result ≤ length self.now }
    {
        count_runs(&self.peers)
    }
}

impl Clone for RemovalRuns {
    ghost is_clone = { λ old new. new ≡ old };

    fn clone(&self) -> Result<RemovalRuns, AllocError> {
        let peers = self.peers.clone()?;
        Ok(RemovalRuns { peers })
    }
}
