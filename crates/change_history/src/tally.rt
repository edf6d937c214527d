//! What acceptance asks of the operations before a peer's next one.
ghost use Rattle.std.specs.Prelude.{◌≡◌, ◌↔◌, ◌++◌, ◌∷◌, [], ◌&&◌, ℕ, List, Contains, true, false, IsTrue, IfOk};
ghost use Rattle.std.specs.Prelude.{◌+◌, nat_le};
ghost use Rattle.change_ops.specs.Sizes.{most_characters, most_marks};
ghost use Rattle.change_ops.specs.declared.size.Size.{Size};
ghost use Rattle.std.specs.List.Sorted.{IsStrictlyIncreasing};
ghost use Rattle.change_ops.specs.Operations.{id_of, is_insert, is_mark};
ghost use Rattle.change_ops.specs.declared.operation.Op.{Op};
ghost use Rattle.char_sequence.specs.Acceptance.{IsStale};
ghost use Rattle.char_sequence.specs.Tree.{Present, IsRemoval};
ghost use Rattle.change_history.specs.Accepted.{MayFollow};
ghost use Rattle.change_history.specs.Tally.{IsTally};

use change_ops::id::OpId;
use change_ops::operation::Op;
use change_ops::size::Size;
use char_sequence::sequence::is_above_named;
use removal_runs::ranges::IdRanges;
use std::alloc::AllocError;

/// What is counted of the operations that were applied, and of the peer's own that follow them and are not applied yet.
#[derive(Drop)]
pub struct Tally {
    pub(crate) node: u16,
    // The peer's last counter, 0 where it made no operation.
    pub(crate) last: u64,
    pub(crate) characters: usize,
    pub(crate) marks: usize,
    // The counters of the inserts that are not applied.
    pub(crate) inserted: Vec<u64>,
    // The removals that are not applied.
    pub(crate) removed: IdRanges,
}

/// Whether a number is among rising ones.
fn is_among(numbers: &[u64], number: u64) -> bool
    ensures { IsStrictlyIncreasing numbers.now → IsTrue result ↔ Contains numbers.now number }
{
    match numbers.binary_search(&number) {
        Ok(_) => true,
        Err(_) => false,
    }
}

impl Tally {
    /// Whether the counter of the peer's next operation is not above each that it has to be above.
    pub fn is_stale(&self, op: &Op) -> bool
        ensures yes { (ops own : List Op) (node : ℕ) → IsTally ops own node self.now → (id_of op.now).node ≡ node
            → result ≡ true → IsStale (ops ++ own) op.now }
        ensures no { (ops own : List Op) (node : ℕ) → IsTally ops own node self.now → (id_of op.now).node ≡ node
            → result ≡ false → IsStale (ops ++ own) op.now → ⊥ }
    {
        op.id().counter() <= self.last || !is_above_named(op)
    }

    /// Whether an operation that is not applied inserts the character.
    pub fn has(&self, id: OpId) -> bool
        ensures { (ops own : List Op) (node : ℕ) → IsTally ops own node self.now → IsTrue result ↔ Present own id }
    {
        id.node() == self.node && is_among(&self.inserted, id.counter())
    }

    /// Whether an operation that is not applied is the removal with this id.
    pub fn has_removal(&self, removal: OpId) -> bool
        ensures { (ops own : List Op) (node : ℕ) → IsTally ops own node self.now
            → IsTrue result ↔ IsRemoval own removal }
    {
        self.removed.has(removal)
    }

    /// Whether the operation inserts one character too many.
    pub fn is_character_too_many(&self, size: Size, op: &Op) -> bool
        ensures { result ≡ (is_insert op.now && nat_le (most_characters size) self.now.characters) }
    {
        op.is_insert() && self.characters >= size.characters()
    }

    /// Whether so many characters more are not too many.
    pub fn has_room(&self, size: Size, count: usize) -> bool
        ensures { result ≡ nat_le (self.now.characters + count) (most_characters size) }
    {
        let limit = size.characters();
        count <= limit && self.characters <= limit - count
    }

    /// Whether the operation is one mark operation too many.
    pub fn is_mark_too_many(&self, size: Size, op: &Op) -> bool
        ensures { result ≡ (is_mark op.now && nat_le (most_marks size) self.now.marks) }
    {
        op.is_mark() && self.marks >= size.marks()
    }

    /// Counts the peer's next operation, which is accepted; after an error the tally is of no use.
    pub fn note(&mut self, op: &Op) -> Result<(), AllocError>
        requires { (size : Size) × ((ops : List Op) × ((own : List Op)
            × ((node : ℕ) × IsTally ops own node self.old × MayFollow size (ops ++ own) op.now))) }
        ensures { (size : Size) (ops own : List Op) (node : ℕ) → IsTally ops own node self.old
            → (id_of op.now).node ≡ node → MayFollow size (ops ++ own) op.now
            → IfOk result (λ _. IsTally ops (own ++ op.now ∷ []) node self.new) }
    {
        let counter = op.id().counter();
        self.last = counter;
        match op {
            Op::Insert { .. } => {
                self.inserted.push(counter)?;
                self.characters += 1;
                Ok(())
            }
            Op::Remove { id, .. } => {
                self.removed.insert(*id)?;
                Ok(())
            }
            Op::Revive { .. } => Ok(()),
            Op::AddMark { .. } => {
                self.marks += 1;
                Ok(())
            }
            Op::RemoveMark { .. } => {
                self.marks += 1;
                Ok(())
            }
        }
    }
}
