ghost use Rattle.std.specs.Prelude.{◌≡◌, ◌≤◌, ◌++◌, ◌∷◌, [], ◌↔◌, List, Contains, true, length, IfOk, IsTrue};
ghost use Rattle.std.specs.Prelude.{MatchOption, OnOk, OnErr};
ghost use Rattle.std.specs.List.Sorted.{IsPermutation};
ghost use Rattle.change_ops.specs.Operations.{id_of, is_mark};
ghost use Rattle.mark_anchors.specs.Marks.{AreMarks};
ghost use Rattle.mark_anchors.specs.Anchored.{Begins, Ends, AreApart, AreRising, AreIdsAt};

use crate::mark_range::mark_range;
use change_ops::id::OpId;
use change_ops::operation::{Anchor, Op};
use std::alloc::{AllocError, Global};
use std::marker::Model;

/// The most mark operations of a document of any size.
pub const MARK_LIMIT: usize = 16384;

/// Why a mark operation was not added.
#[derive(Clone, Copy)]
pub enum MarksError {
    /// 16,384 mark operations are held.
    MarksFull,
    OutOfMemory,
}

impl From<AllocError> for MarksError {
    ghost use Rattle.mark_anchors.specs.declared.marks.MarksError.TheVariants.{OutOfMemory};

    ghost from_gives = { λ _ e. e ≡ OutOfMemory };

    fn from(_error: AllocError) -> MarksError {
        MarksError::OutOfMemory
    }
}

/// The operations that add and remove marks, in the order in which they came.
#[derive(Drop)]
pub struct Marks {
    operations: Vec<Op>,
}

impl Model for Marks {
    ghost use Rattle.std.specs.Prelude.{List};
    ghost use Rattle.change_ops.specs.declared.operation.Op.{Op};
    ghost use Rattle.mark_anchors.specs.Marks.{AreKept};

    ghost Value = { List Op };

    ghost view = { λ m. m.operations.items };

    ghost invariant = { λ m. AreKept m.operations.items };
}

/// Puts a clone of the operation last. Want of memory changes nothing.
fn push_clone(operations: &mut Vec<Op>, op: &Op) -> Result<(), AllocError>
    ensures ok { OnOk result (operations.new.items ≡ operations.old.items ++ op.now ∷ []) }
    ensures err { OnErr result (operations.new.items ≡ operations.old.items) }
{
    let clone = op.clone()?;
    operations.push(clone)?;
    Ok(())
}

/// Whether this is the mark's first anchor.
fn begins_at(operation: &Op, anchor: &Anchor) -> bool
    ensures { IsTrue result ↔ Begins operation.now anchor.now }
{
    match mark_range(operation) {
        Some(range) => range.start == *anchor,
        None => false,
    }
}

/// Whether this is the mark's second anchor.
fn ends_at(operation: &Op, anchor: &Anchor) -> bool
    ensures { IsTrue result ↔ Ends operation.now anchor.now }
{
    match mark_range(operation) {
        Some(range) => range.end == *anchor,
        None => false,
    }
}

/// The ids in their order.
fn sorted(mut ids: Vec<OpId>) -> Vec<OpId>
    ensures rising { AreApart ids.items → AreRising result.items }
    ensures same { IsPermutation ids.items result.items }
{
    ids.sort_unstable();
    ids
}

impl Marks {
    /// No marks.
    pub fn new(alloc: Global) -> Marks
        ensures { result ≡ [] }
    {
        Marks {
            operations: Vec::new(alloc),
        }
    }

    /// Whether no further mark operation is taken.
    pub fn is_full(&self) -> bool
        ensures full { IsTrue result ↔ (length self.now ≡ 16384) }
        ensures limit { length self.now ≤ 16384 }
    {
        self.operations.len() >= MARK_LIMIT
    }

    /// Adds a mark operation, or leaves the marks unchanged.
    pub fn add(&mut self, op: &Op) -> Result<(), MarksError>
        requires mark { is_mark op.now ≡ true }
        requires fresh { (o : Op) → Contains self.old o → id_of o ≡ id_of op.now → ⊥ }
        ensures ok { OnOk result (self.new ≡ self.old ++ op.now ∷ []) }
        ensures marks { (ops : List Op) → AreMarks ops self.old → OnOk result (AreMarks (ops ++ op.now ∷ []) self.new) }
        ensures full { (result ≡ Err MarksError.MarksFull) ↔ (length self.old ≡ 16384) }
        ensures err { OnErr result (self.new ≡ self.old) }
    {
        if self.is_full() {
            return Err(MarksError::MarksFull);
        }
        push_clone(&mut self.operations, op)?;
        Ok(())
    }

    /// The operation of the id, if it is held.
    pub fn mark(&self, id: OpId) -> Option<&Op>
        ensures { MatchOption result ((o : Op) → Contains self.now o → id_of o ≡ id
            → ⊥) (λ o. Contains self.now o.now × (id_of o.now ≡ id)) }
    {
        for operation in &self.operations {
            if operation.id() == id {
                return Some(operation);
            }
        }
        None
    }

    /// The ids, rising, of the marks whose first anchor this is.
    pub fn begin_at(&self, alloc: Global, anchor: &Anchor) -> Result<Vec<OpId>, AllocError>
        ensures { IfOk result (λ ids. AreIdsAt Begins self.now anchor.now ids.items) }
    {
        let mut ids = Vec::new(alloc);
        for operation in &self.operations {
            if begins_at(operation, anchor) {
                ids.push(operation.id())?;
            }
        }
        Ok(sorted(ids))
    }

    /// The ids, rising, of the marks whose second anchor this is.
    pub fn end_at(&self, alloc: Global, anchor: &Anchor) -> Result<Vec<OpId>, AllocError>
        ensures { IfOk result (λ ids. AreIdsAt Ends self.now anchor.now ids.items) }
    {
        let mut ids = Vec::new(alloc);
        for operation in &self.operations {
            if ends_at(operation, anchor) {
                ids.push(operation.id())?;
            }
        }
        Ok(sorted(ids))
    }

    /// The operations, in the order in which they came.
    pub fn operations(&self) -> &[Op]
        ensures { result.now ≡ self.now }
    {
        &self.operations
    }
}

impl Clone for Marks {
    ghost is_clone = { λ old new. new ≡ old };

    fn clone(&self) -> Result<Marks, AllocError> {
        let operations = self.operations.clone()?;
        Ok(Marks { operations })
    }
}
