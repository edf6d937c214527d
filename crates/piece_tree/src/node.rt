//! A node of the tree, which versions share.
ghost use Rattle.std.specs.Prelude.{◌≡◌, ◌<◌, ◌≤◌, ◌-◌, ◌^◌, IfOk, length, sum_by};
ghost use Rattle.piece_tree.specs.Budgets.{list_bytes};
ghost use Rattle.piece_tree.specs.Nodes.{AreShort};

use crate::piece::{Measure, Piece};
use memory_budget::Budget;
use std::alloc::{AllocError, Global};
use std::marker::Model;
use std::sync::Arc;

/// The most pieces that a node has.
pub const FULL: usize = 32;

/// The least that it has, if it isn't the last one.
pub const HALF: usize = 16;

/// What a counted value with a list takes apart from the list's handles: the value's own allocation and the list's,
/// each with what the allocator adds to it.
pub const NODE_BYTES: usize = 96;

/// What a handle in a list takes.
pub const HANDLE_BYTES: usize = 8;

/// Pieces, with how large they are together. Contracts see the pieces.
struct Content<T: Piece> {
    pieces: Vec<T>,
    parts: usize,
    characters: usize,
}

impl<T: Piece> Drop for Content<T> {
    fn drop(self) {
        let Content {
            pieces: _,
            parts: _,
            characters: _,
        } = self;
    }
}

impl<T: Piece> Model for Content<T> {
    ghost use Rattle.std.specs.Prelude.{◌≡◌, List, sum_by};
    ghost use Rattle.piece_tree.specs.declared.piece.Measure.TheVariants.{Parts, Characters};

    ghost Value = { List T };

    ghost view = { λ c. c.pieces.items };

    ghost invariant = { λ c. (c.parts ≡ sum_by (T.size Parts) c.pieces.items)
        × (c.characters ≡ sum_by (T.size Characters) c.pieces.items) };
}

/// A node, which versions share. Contracts see its pieces.
pub struct Node<T: Piece> {
    content: Arc<Content<T>, Global>,
}

impl<T: Piece> Drop for Node<T> {
    fn drop(self) {
        let Node { content: _ } = self;
    }
}

impl<T: Piece> Model for Node<T> {
    ghost use Rattle.std.specs.Prelude.{List};
    ghost use Rattle.std.specs.Arc.{arc_value};

    ghost Value = { List T };

    ghost view = { λ n. arc_value n.content };
}

/// How large the pieces are together.
pub fn size_of<T: Piece>(pieces: &[T], measure: Measure) -> usize
    requires { sum_by (T.size measure) pieces.now < 2 ^ 63 }
    ensures { result ≡ sum_by (T.size measure) pieces.now }
{
    let mut size: usize = 0;
    for piece in pieces {
        size += piece.size(measure);
    }
    size
}

impl<T: Piece> Content<T> {
    /// The pieces.
    fn pieces(&self) -> &[T]
        ensures { result.now ≡ self.now }
    {
        self.pieces.as_slice()
    }

    /// How large the pieces are together.
    fn size(&self, measure: Measure) -> usize
        ensures { result ≡ sum_by (T.size measure) self.now }
    {
        match measure {
            Measure::Parts => self.parts,
            Measure::Characters => self.characters,
        }
    }
}

impl<T: Piece> Node<T> {
    /// A node with these pieces. It is the one way to make a node that others don't have already, and it is paid for:
    /// the counted value with the sizes, and the list of the pieces' handles.
    pub fn new(alloc: Global, pieces: Vec<T>, budget: &mut Budget) -> Result<Node<T>, AllocError>
        requires few { length pieces.items ≤ 32 }
        requires short { AreShort T.size pieces.items }
        ensures node { IfOk result (λ node. node ≡ pieces.items) }
        ensures paid { budget.new ≡ budget.old - list_bytes (length pieces.items) }
    {
        budget.pay(NODE_BYTES + HANDLE_BYTES * pieces.len());
        let parts = size_of(pieces.as_slice(), Measure::Parts);
        let characters = size_of(pieces.as_slice(), Measure::Characters);
        let content = Content {
            pieces,
            parts,
            characters,
        };
        let content = Arc::new(alloc, content)?;
        Ok(Node { content })
    }

    /// The same node once more: nothing of it is copied.
    pub fn shared(&self) -> Result<Node<T>, AllocError>
        ensures { IfOk result (λ again. again ≡ self.now) }
    {
        let content = Arc::try_clone(&self.content)?;
        Ok(Node { content })
    }

    /// Its pieces.
    pub fn pieces(&self) -> &[T]
        ensures { result.now ≡ self.now }
    {
        self.content.pieces()
    }

    /// How large its pieces are together.
    pub fn size(&self, measure: Measure) -> usize
        ensures { result ≡ sum_by (T.size measure) self.now }
    {
        self.content.size(measure)
    }
}
