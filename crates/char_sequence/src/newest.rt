ghost use Rattle.std.specs.Prelude.{◌≡◌, ◌++◌, ◌∷◌, [], List, Contains, IsTrue, ◌↔◌, MatchOption, IfOk, IfErr};
ghost use Rattle.std.specs.Prelude.{ℕ, Some, None, IsSome, nat_eq};
ghost use Rattle.indexmap.specs.IndexMap.{get as get_counter};
ghost use Rattle.std.specs.Ordering.{nat_cmp};
ghost use Rattle.std.specs.FinMap.{FinMap, get};
ghost use Rattle.change_ops.specs.Operations.{id_of};
ghost use Rattle.change_ops.specs.declared.operation.Op.{Op};
ghost use Rattle.char_sequence.specs.Acceptance.{Used};
ghost use Rattle.char_sequence.specs.Newest.{IsNewest, IsLast, IsLastCounter};

use change_ops::id::OpId;
use indexmap::IndexMap;
use std::alloc::{AllocError, Global};
use std::marker::Model;

/// The last counter of each peer among the operations noted.
#[derive(Drop)]
pub struct Newest {
    counters: IndexMap<u16, u64>,
}

impl Model for Newest {
    ghost use Rattle.std.specs.Prelude.{ℕ};
    ghost use Rattle.std.specs.Ordering.{nat_cmp};
    ghost use Rattle.std.specs.FinMap.{FinMap, from_entries, code};
    ghost use Rattle.std.specs.Coded.{coded_ℕ};

    ghost Value = { FinMap nat_cmp ℕ };

    ghost coded = { code coded_ℕ coded_ℕ };

    ghost view = { λ n. from_entries n.counters.entries };
}

/// Gives a peer that has a counter its earlier one.
fn put_back(counters: &mut IndexMap<u16, u64>, node: u16, before: u64)
    requires { IsSome (get_counter nat_eq counters.old node) }
    ensures here { get_counter nat_eq counters.new node ≡ Some before }
    ensures others { (other : ℕ) → (node ≡ other → ⊥)
        → get_counter nat_eq counters.new other ≡ get_counter nat_eq counters.old other }
{
    if let Some(counter) = counters.get_mut(&node) {
        *counter = before;
    }
}

impl Newest {
    /// No operation is noted.
    pub fn new(alloc: Global) -> Self
        ensures { IsNewest [] result }
    {
        Newest {
            counters: IndexMap::new(alloc),
        }
    }

    /// The last counter of a peer, if it made an operation.
    pub fn last(&self, node: u16) -> Option<u64>
        ensures { (ops : List Op) → IsNewest ops self.now
            → MatchOption result ((o : Op) → Contains ops o → (id_of o).node ≡ node → ⊥) (IsLast ops node) }
    {
        self.counters.get(&node).copied()
    }

    /// What is kept of a peer.
    pub(crate) fn kept(&self, node: u16) -> Option<u64>
        ensures { result ≡ get self.now node }
    {
        self.counters.get(&node).copied()
    }

    /// Whether an operation of the same peer has a counter as great.
    pub fn is_used(&self, id: OpId) -> bool
        ensures { (ops : List Op) → IsNewest ops self.now → IsTrue result ↔ Used ops id }
    {
        match self.counters.get(&id.node()) {
            Some(last) => id.counter() <= *last,
            None => false,
        }
    }

    /// The last counter of a peer, 0 where it has no operation.
    pub fn last_counter(&self, node: u16) -> u64
        ensures { (ops : List Op) → IsNewest ops self.now → IsLastCounter ops node result }
    {
        match self.last(node) {
            Some(last) => last,
            None => 0,
        }
    }

    /// Notes an operation whose id is not used; the error is want of memory, and changes nothing.
    pub fn note(&mut self, id: OpId) -> Result<(), AllocError>
        requires { (ops : List Op) × IsNewest ops self.old × (Used ops id → ⊥) }
        ensures noted { (ops : List Op) (op : Op) → id_of op ≡ id → IsNewest ops self.old
            → IfOk result (λ _. IsNewest (ops ++ op ∷ []) self.new) }
        ensures here { IfOk result (λ _. get self.new id.node ≡ Some id.counter) }
        ensures others { IfOk result (λ _. (node : ℕ) → (node ≡ id.node → ⊥) → get self.new node ≡ get self.old node) }
        ensures err { IfErr result (λ _. self.new ≡ self.old) }
    {
        self.counters.insert(id.node(), id.counter())?;
        Ok(())
    }

    /// Takes a note back, before which this was kept of the peer.
    pub(crate) fn restore(&mut self, node: u16, kept: Option<u64>)
        requires { get self.old node ≡ None → ⊥ }
        ensures { (before : FinMap nat_cmp ℕ) → get before node ≡ kept
            → ((other : ℕ) → (other ≡ node → ⊥) → get before other ≡ get self.old other) → self.new ≡ before }
    {
        match kept {
            Some(before) => put_back(&mut self.counters, node, before),
            None => {
                self.counters.swap_remove(&node);
            }
        }
    }
}

impl Clone for Newest {
    ghost is_clone = { λ old new. new ≡ old };

    fn clone(&self) -> Result<Newest, AllocError> {
        let counters = self.counters.clone()?;
        Ok(Newest { counters })
    }
}
