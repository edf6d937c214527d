ghost use Rattle.std.specs.Prelude.{◌≡◌, ◌↔◌, ◌+◌, ◌^◌, ◌<◌, IsTrue};
ghost use Rattle.std.proofs.Common.{rules};
ghost use Rattle.std.specs.Cmp.{partial_order_from_own_ties};
ghost use Rattle.std.specs.Cmp.Rules.{comparing};
ghost use Rattle.std.specs.Ordering.{as_partial_cmp};
ghost use Rattle.change_ops.specs.IdRuns.{later_id};
ghost use Rattle.change_ops.specs.Ids.{IsId, Less, id_cmp, ComparesIds, within_limits, checked};

use std::cmp::Ordering;
use std::marker::Model;

/// The name of an operation: a counter, 1 to 2^48 - 1, and the node of its peer, 1 to 65,535.
/// Ids are ordered by counter, then by node (Peritext, CSCW 2022: operation ids as Lamport timestamps).
#[derive(Clone, Copy, PartialEq, Eq, Hash)]
pub struct OpId {
    counter: u64,
    node: u16,
}

impl Model for OpId {
    ghost use Rattle.change_ops.specs.Ids.{OpId as OpIdValue, IsId};

    ghost Value = { OpIdValue };

    ghost view = { λ i. record { counter = i.counter; node = i.node } };

    ghost invariant = { λ i. IsId i.counter i.node };

    ghost inverse = { λ i. record { counter = i.counter; node = i.node } };
}

impl Ord for OpId {
    ghost cmp = { id_cmp };

    ghost total = { Prim.search (comparing, rules) };

    ghost matches_partial_cmp = { Prim.search (comparing, rules) };

    ghost matches_eq = { Prim.search (comparing, rules) };

    fn cmp(&self, other: &OpId) -> Ordering {
        self.counter
            .cmp(&other.counter)
            .then(self.node.cmp(&other.node))
    }
}

impl PartialOrd for OpId {
    ghost partial_cmp = { as_partial_cmp id_cmp };

    ghost laws = { partial_order_from_own_ties (Prim.search (comparing, rules)) (Prim.search (comparing, rules)) };

    fn partial_cmp(&self, other: &OpId) -> Option<Ordering> {
        Some(self.cmp(other))
    }
}

/// Ids are compared by the order of ids.
#[tactic(auto, using(crate::proofs::IdLaws::compares_ids))]
pub fn ids_are_ordered()
    ensures { (a b : OpId) → ComparesIds a b }
{}

impl OpId {
    /// The least id.
    pub(crate) fn least() -> Self
        ensures { result ≡ record { counter = 1; node = 1 } }
    {
        OpId {
            counter: 1,
            node: 1,
        }
    }

    /// The id of these numbers, if they are within the limits.
    pub fn new(counter: u64, node: u64) -> Option<Self>
        ensures { result ≡ checked within_limits (record { counter = counter; node = node }) }
    {
        if counter >= 1 && counter < 1 << 48 && node >= 1 && node <= 65535 {
            Some(OpId {
                counter,
                node: node as u16,
            })
        } else {
            None
        }
    }

    /// The node of the peer that made the operation.
    pub fn node(self) -> u16
        ensures value { result ≡ self.node }
        ensures limits { IsId self.counter self.node }
    {
        self.node
    }

    /// The counter.
    pub fn counter(self) -> u64
        ensures value { result ≡ self.counter }
        ensures limits { IsId self.counter self.node }
    {
        self.counter
    }

    /// The id of the same peer whose counter is greater by `by`.
    pub(crate) fn later(self, by: usize) -> Self
        requires { self.counter + by < 2 ^ 48 }
        ensures { result ≡ later_id self by }
    {
        OpId {
            counter: self.counter + by as u64,
            node: self.node,
        }
    }

    /// Whether this id is the lesser: by counter, then by node.
    #[tactic(auto, unfolding(crate::specs::Ids::Less))]
    pub fn is_below(self, other: OpId) -> bool
        ensures { IsTrue result ↔ Less self other }
    {
        self < other
    }
}
