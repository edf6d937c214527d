//! Pieces, one after another.
ghost use Rattle.std.specs.Iterator.{YieldsFirstRef, item_count};

use crate::node::Node;
use crate::piece::Piece;
use std::iter::FusedIterator;
use std::marker::Model;

/// The pieces that are left, seen as their list. A step reads the next piece of a node, or goes on to the next node:
/// nothing is searched for.
#[derive(Drop)]
pub struct PiecesFrom<'a, T: Piece> {
    /// What is left of a node.
    pub(crate) rest: &'a [T],
    /// The nodes behind it.
    pub(crate) nodes: &'a [Node<T>],
}

impl<'a, T: Piece> Model for PiecesFrom<'a, T> {
    ghost use Rattle.std.specs.Prelude.{◌<◌, ◌++◌, List, All, length};
    ghost use Rattle.piece_tree.specs.Nodes.{pieces_of};

    ghost Value = { List T };

    ghost view = { λ p. p.rest.now ++ pieces_of p.nodes.now };

    ghost invariant = { λ p. All (λ node. 0 < length node) p.nodes.now };
}

impl<'a, T: Piece> Iterator for PiecesFrom<'a, T> {
    type Item = &'a T;

    ghost next_gives = { YieldsFirstRef (λ rest. rest) };

    ghost remaining = { item_count (λ rest. rest) };

    fn next(&mut self) -> Option<&'a T> {
        if let Some((first, rest)) = self.rest.split_first() {
            self.rest = rest;
            return Some(first);
        }
        let (node, nodes) = self.nodes.split_first()?;
        let (first, behind) = node.pieces().split_first()?;
        self.rest = behind;
        self.nodes = nodes;
        Some(first)
    }
}

impl<'a, T: Piece> FusedIterator for PiecesFrom<'a, T> {}
