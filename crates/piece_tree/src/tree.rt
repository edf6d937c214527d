//! The tree.
ghost use Rattle.std.specs.Prelude.{◌≡◌, ◌<◌, ◌≤◌, ◌+◌, ◌-◌, ◌^◌, ◌++◌, [], Some, IfOk};
ghost use Rattle.std.specs.Prelude.{length, take, drop, slice_get, sum_by};
ghost use Rattle.piece_tree.specs.Budgets.{list_bytes, root_bytes, window_bytes};
ghost use Rattle.piece_tree.specs.Nodes.{AreFilled, AreShort, pieces_of};
ghost use Rattle.piece_tree.specs.Spots.{IsReached};

use crate::iter::PiecesFrom;
use crate::node::{HANDLE_BYTES, NODE_BYTES, Node};
use crate::piece::{Measure, Piece};
use crate::spot::{Spot, spot_in};
use crate::window::{node_reaching, pieces_at, replaced};
use memory_budget::Budget;
use std::alloc::{AllocError, Global};
use std::marker::Model;
use std::sync::Arc;

/// Nodes, with how many pieces they have and how large these are together. Contracts see the pieces.
struct Root<T: Piece> {
    nodes: Vec<Node<T>>,
    count: usize,
    parts: usize,
    characters: usize,
}

impl<T: Piece> Drop for Root<T> {
    fn drop(self) {
        let Root {
            nodes: _,
            count: _,
            parts: _,
            characters: _,
        } = self;
    }
}

impl<T: Piece> Model for Root<T> {
    ghost use Rattle.std.specs.Prelude.{List};
    ghost use Rattle.piece_tree.specs.Nodes.{IsRoot, pieces_of};

    ghost Value = { List T };

    ghost view = { λ r. pieces_of r.nodes.items };

    ghost invariant = { λ r. IsRoot T.size r.nodes.items r.count r.parts r.characters };
}

/// A sequence of pieces, in nodes that it shares with those that were made from it. Contracts see the pieces.
pub struct PieceTree<T: Piece> {
    root: Arc<Root<T>, Global>,
}

impl<T: Piece> Drop for PieceTree<T> {
    fn drop(self) {
        let PieceTree { root: _ } = self;
    }
}

impl<T: Piece> Model for PieceTree<T> {
    ghost use Rattle.std.specs.Prelude.{List};
    ghost use Rattle.std.specs.Arc.{arc_value};

    ghost Value = { List T };

    ghost view = { λ t. arc_value t.root };
}

impl<T: Piece> Root<T> {
    /// The law that there are few pieces and that they are short together.
    fn keeps(&self)
        ensures few { length self.now ≤ 2097152 }
        ensures short { AreShort T.size self.now }
    {
        let _count = self.count;
    }

    /// The nodes.
    fn nodes(&self) -> &[Node<T>]
        ensures pieces { pieces_of result.now ≡ self.now }
        ensures filled { AreFilled result.now }
    {
        self.nodes.as_slice()
    }

    /// How many pieces there are.
    fn count(&self) -> usize
        ensures { result ≡ length self.now }
    {
        self.count
    }

    /// How large the pieces are together.
    fn size(&self, measure: Measure) -> usize
        ensures { result ≡ sum_by (T.size measure) self.now }
    {
        match measure {
            Measure::Parts => self.parts,
            Measure::Characters => self.characters,
        }
    }
}

/// How large the nodes are together.
fn size_of_nodes<T: Piece>(nodes: &[Node<T>], measure: Measure) -> usize
    requires { sum_by (T.size measure) (pieces_of nodes.now) < 2 ^ 63 }
    ensures { result ≡ sum_by (T.size measure) (pieces_of nodes.now) }
{
    let mut size: usize = 0;
    for node in nodes {
        size += node.size(measure);
    }
    size
}

impl<T: Piece> PieceTree<T> {
    /// The tree of these nodes. Its root is made anew, and paid for: the counted value with the sizes, and the list of
    /// the nodes' handles.
    fn of_nodes(
        alloc: Global,
        nodes: Vec<Node<T>>,
        count: usize,
        budget: &mut Budget,
    ) -> Result<PieceTree<T>, AllocError>
        requires filled { AreFilled nodes.items }
        requires counted { count ≡ length (pieces_of nodes.items) }
        requires few { count ≤ 2097152 }
        requires short { AreShort T.size (pieces_of nodes.items) }
        ensures pieces { IfOk result (λ tree. tree ≡ pieces_of nodes.items) }
        ensures paid { budget.new ≡ budget.old - list_bytes (length nodes.items) }
        ensures spent { budget.old ≤ budget.new + root_bytes count }
    {
        budget.pay(NODE_BYTES + HANDLE_BYTES * nodes.len());
        let parts = size_of_nodes(nodes.as_slice(), Measure::Parts);
        let characters = size_of_nodes(nodes.as_slice(), Measure::Characters);
        let root = Root {
            nodes,
            count,
            parts,
            characters,
        };
        let root = Arc::new(alloc, root)?;
        Ok(PieceTree { root })
    }

    /// No piece.
    pub fn new(alloc: Global, budget: &mut Budget) -> Result<PieceTree<T>, AllocError>
        ensures pieces { IfOk result (λ tree. tree ≡ []) }
        ensures paid { budget.new ≡ budget.old - 96 }
    {
        PieceTree::of_nodes(alloc, Vec::new(alloc), 0, budget)
    }

    /// The same tree once more: nothing of it is copied.
    pub fn shared(&self) -> Result<PieceTree<T>, AllocError>
        ensures { IfOk result (λ again. again ≡ self.now) }
    {
        let root = Arc::try_clone(&self.root)?;
        Ok(PieceTree { root })
    }

    /// The law that there are few pieces and that they are short together.
    pub fn keeps(&self)
        ensures few { length self.now ≤ 2097152 }
        ensures short { AreShort T.size self.now }
    {
        self.root.keeps();
    }

    /// How many pieces there are.
    pub fn len(&self) -> usize
        ensures { result ≡ length self.now }
    {
        self.root.count()
    }

    /// How large the pieces are together.
    pub fn size(&self, measure: Measure) -> usize
        ensures { result ≡ sum_by (T.size measure) self.now }
    {
        self.root.size(measure)
    }

    /// The first piece that ends at the place or behind it.
    pub fn spot(&self, measure: Measure, place: usize) -> Spot
        ensures { IsReached T.size measure self.now place result }
    {
        self.root.keeps();
        spot_in(self.root.nodes(), measure, place)
    }

    /// The piece with this index.
    pub fn piece(&self, index: usize) -> &T
        requires { index < length self.now }
        ensures { slice_get self.now index ≡ Some result.now }
    {
        // How many pieces there are, which the proof needs.
        self.root.keeps();
        let nodes = self.root.nodes();
        let spot = node_reaching(nodes, index + 1);
        &pieces_at(nodes, spot.node)[index - spot.start]
    }

    /// The pieces from one on, in order. There is none from beyond the last one.
    pub fn pieces_from(&self, index: usize) -> PiecesFrom<'_, T>
        ensures { result ≡ drop index self.now }
    {
        // How many pieces there are, which the proof needs.
        self.root.keeps();
        let nodes = self.root.nodes();
        if index >= self.root.count() {
            return PiecesFrom {
                rest: &[],
                nodes: &[],
            };
        }
        let spot = node_reaching(nodes, index + 1);
        PiecesFrom {
            rest: &pieces_at(nodes, spot.node)[index - spot.start..],
            nodes: &nodes[spot.node + 1..],
        }
    }

    /// The tree with `new` in place of the pieces from `from` up to `to`. Nodes that the window doesn't touch are
    /// shared: what is paid for is the window's nodes and the root.
    pub fn with_window(
        &self,
        alloc: Global,
        from: usize,
        to: usize,
        new: &[T],
        budget: &mut Budget,
    ) -> Result<PieceTree<T>, AllocError>
        requires order { from ≤ to }
        requires within { to ≤ length self.now }
        requires few { from + length new.now + (length self.now - to) ≤ 2097152 }
        requires short { AreShort T.size (take from self.now ++ (new.now ++ drop to self.now)) }
        ensures pieces { IfOk result (λ next. next ≡ take from self.now ++ (new.now ++ drop to self.now)) }
        ensures spent { budget.old ≤ budget.new + (window_bytes (length new.now)
            + root_bytes (from + length new.now + (length self.now - to))) }
        ensures less { budget.new ≤ budget.old }
    {
        self.root.keeps();
        let count = from + new.len() + (self.root.count() - to);
        let nodes = replaced(alloc, self.root.nodes(), from, to, new, budget)?;
        PieceTree::of_nodes(alloc, nodes, count, budget)
    }
}
