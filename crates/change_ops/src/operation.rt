ghost use Rattle.std.specs.Prelude.{◌≡◌, ◌⊎◌, ◌↔◌, Some};

use crate::attribute::{Attribute, Key};
use crate::character::Character;
use crate::id::OpId;
use std::alloc::{AllocError, Global};
use std::default::MadeWith;

/// A side of a character, or an end of the text (Peritext, CSCW 2022).
#[derive(Clone, Copy, PartialEq, Eq, Hash)]
pub enum Anchor {
    TextStart,
    BeforeCharacter(OpId),
    AfterCharacter(OpId),
    TextEnd,
}

/// One operation (Peritext, CSCW 2022).
pub enum Op {
    /// A character after its parent, or at the start.
    Insert {
        id: OpId,
        parent: Option<OpId>,
        character: Character,
    },
    /// A character is removed, and stays as a tombstone.
    Remove {
        id: OpId,
        target: OpId,
    },
    /// A mark between two anchors.
    AddMark {
        id: OpId,
        attribute: Attribute,
        start: Anchor,
        end: Anchor,
    },
    /// The removal of a key between two anchors.
    RemoveMark {
        id: OpId,
        key: Key,
        start: Anchor,
        end: Anchor,
    },
    /// A removal is taken back.
    Revive {
        id: OpId,
        removal: OpId,
    },
}

impl Drop for Op {
    fn drop(self) {
        match self {
            Op::Insert {
                id: _,
                parent: _,
                character: _,
            } => {}
            Op::Remove { id: _, target: _ } => {}
            Op::AddMark {
                id: _,
                attribute: _,
                start: _,
                end: _,
            } => {}
            Op::RemoveMark {
                id: _,
                key: _,
                start: _,
                end: _,
            } => {}
            Op::Revive { id: _, removal: _ } => {}
        }
    }
}

/// The at most two characters that an operation names.
#[derive(Clone, Copy)]
pub struct Named {
    pub first: Option<OpId>,
    pub second: Option<OpId>,
}

impl Anchor {
    ghost use Rattle.change_ops.specs.Operations.{AnchorNames};

    /// The character that the anchor is beside.
    pub fn character(self) -> Option<OpId>
        ensures { (x : OpId) → AnchorNames self x ↔ result ≡ Some x }
    {
        match self {
            Anchor::TextStart => None,
            Anchor::BeforeCharacter(id) => Some(id),
            Anchor::AfterCharacter(id) => Some(id),
            Anchor::TextEnd => None,
        }
    }
}

impl Clone for Op {
    ghost is_clone = { λ old new. new ≡ old };

    fn clone(&self) -> Result<Op, AllocError> {
        match self {
            Op::Insert {
                id,
                parent,
                character,
            } => Ok(Op::Insert {
                id: *id,
                parent: *parent,
                character: *character,
            }),
            Op::Remove { id, target } => Ok(Op::Remove {
                id: *id,
                target: *target,
            }),
            Op::AddMark {
                id,
                attribute,
                start,
                end,
            } => Ok(Op::AddMark {
                id: *id,
                attribute: attribute.clone()?,
                start: *start,
                end: *end,
            }),
            Op::RemoveMark {
                id,
                key,
                start,
                end,
            } => Ok(Op::RemoveMark {
                id: *id,
                key: *key,
                start: *start,
                end: *end,
            }),
            Op::Revive { id, removal } => Ok(Op::Revive {
                id: *id,
                removal: *removal,
            }),
        }
    }
}

/// The blank that stands in the unused slots of a list of operations.
impl MadeWith<Global> for Op {
    ghost use Rattle.change_ops.specs.Operations.{blank};

    ghost is_made_with = { λ op. op ≡ blank };

    fn made_with(_alloc: Global) -> Self {
        Op::Remove {
            id: OpId::least(),
            target: OpId::least(),
        }
    }
}

impl Op {
    ghost use Rattle.change_ops.specs.Operations.{id_of, is_insert, is_mark, bytes_of, Names};

    /// The operation's own id.
    pub fn id(&self) -> OpId
        ensures { result ≡ id_of self.now }
    {
        match self {
            Op::Insert { id, .. } => *id,
            Op::Remove { id, .. } => *id,
            Op::AddMark { id, .. } => *id,
            Op::RemoveMark { id, .. } => *id,
            Op::Revive { id, .. } => *id,
        }
    }

    /// Whether the operation inserts a character.
    pub fn is_insert(&self) -> bool
        ensures { result ≡ is_insert self.now }
    {
        matches!(self, Op::Insert { .. })
    }

    /// How many bytes the character of an insert has, as UTF-8; any other operation has none.
    pub fn byte_count(&self) -> usize
        ensures { result ≡ bytes_of self.now }
    {
        match self {
            Op::Insert { character, .. } => character.value().len_utf8(),
            Op::Remove { .. } => 0,
            Op::AddMark { .. } => 0,
            Op::RemoveMark { .. } => 0,
            Op::Revive { .. } => 0,
        }
    }

    /// Whether the operation adds or removes a mark.
    pub fn is_mark(&self) -> bool
        ensures { result ≡ is_mark self.now }
    {
        matches!(self, Op::AddMark { .. } | Op::RemoveMark { .. })
    }

    /// The characters that the operation names: a parent, a removed character, those beside its anchors.
    pub fn named(&self) -> Named
        ensures names { (x : OpId) → Names self.now x → (result.first ≡ Some x) ⊎ (result.second ≡ Some x) }
        ensures first { (x : OpId) → result.first ≡ Some x → Names self.now x }
        ensures second { (x : OpId) → result.second ≡ Some x → Names self.now x }
    {
        match self {
            Op::Insert { parent, .. } => Named {
                first: *parent,
                second: None,
            },
            Op::Remove { target, .. } => Named {
                first: Some(*target),
                second: None,
            },
            Op::AddMark { start, end, .. } => Named {
                first: start.character(),
                second: end.character(),
            },
            Op::RemoveMark { start, end, .. } => Named {
                first: start.character(),
                second: end.character(),
            },
            Op::Revive { .. } => Named {
                first: None,
                second: None,
            },
        }
    }
}
