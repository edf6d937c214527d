//! A window in a list of nodes.
ghost use Rattle.std.specs.Prelude.{◌≡◌, ◌<◌, ◌≤◌, ◌+◌, ◌-◌, ◌^◌, ◌⊎◌, ◌++◌, ◌∷◌, [], IfOk, length, take, drop, get_or};
ghost use Rattle.std.specs.Prelude.{true, false, if◌then◌else◌, sum_by};
ghost use Rattle.piece_tree.specs.Budgets.{nodes_bytes, window_bytes};
ghost use Rattle.piece_tree.specs.Nodes.{AreFilled, AreHalfFull, AreShort, pieces_of};

use crate::node::{FULL, HALF, Node};
use crate::piece::Piece;
use memory_budget::Budget;
use std::alloc::{AllocError, Global};

/// Adds the pieces to others, shared.
fn share_all<T: Piece>(pieces: &[T], to: &mut Vec<T>) -> Result<(), AllocError>
    ensures { IfOk result (λ _. to.new.items ≡ to.old.items ++ pieces.now) }
{
    for piece in pieces {
        to.push(piece.share()?)?;
    }
    Ok(())
}

/// Adds the nodes to others, shared.
fn share_nodes<T: Piece>(nodes: &[Node<T>], to: &mut Vec<Node<T>>) -> Result<(), AllocError>
    ensures { IfOk result (λ _. to.new.items ≡ to.old.items ++ nodes.now) }
{
    for node in nodes {
        to.push(node.shared()?)?;
    }
    Ok(())
}

/// What stands before a window, what is made for it and what stands behind it.
fn in_order<T: Piece>(
    alloc: Global,
    before: &[Node<T>],
    made: &[Node<T>],
    behind: &[Node<T>],
) -> Result<Vec<Node<T>>, AllocError>
    ensures { IfOk result (λ all. all.items ≡ before.now ++ (made.now ++ behind.now)) }
{
    let count = before.len() + made.len() + behind.len();
    let mut all = Vec::with_capacity(alloc, count)?;
    share_nodes(before, &mut all)?;
    share_nodes(made, &mut all)?;
    share_nodes(behind, &mut all)?;
    Ok(all)
}

/// Adds a node.
fn add<T: Piece>(node: Node<T>, to: &mut Vec<Node<T>>) -> Result<(), AllocError>
    ensures { IfOk result (λ _. to.new.items ≡ to.old.items ++ node ∷ []) }
{
    to.push(node)?;
    Ok(())
}

/// How many of so many pieces the next node takes.
fn next_size(rest: usize) -> usize
    requires { 0 < rest }
    ensures some { 0 < result }
    ensures within { result ≤ rest }
    ensures at_most { result ≤ 32 }
    ensures half { 16 ≤ rest → 16 ≤ result }
    ensures rest_half { (16 ≤ rest - result) ⊎ (result ≡ rest) }
{
    if rest <= FULL {
        rest
    } else if rest >= FULL + HALF {
        FULL
    } else {
        rest / 2
    }
}

/// Nodes that have the pieces, as few as they can be, and each at least half full if there are enough pieces.
pub fn cut<T: Piece>(
    alloc: Global,
    pieces: &[T],
    budget: &mut Budget,
) -> Result<Vec<Node<T>>, AllocError>
    requires { AreShort T.size pieces.now }
    ensures flat { IfOk result (λ nodes. pieces_of nodes.items ≡ pieces.now) }
    ensures filled { IfOk result (λ nodes. AreFilled nodes.items) }
    ensures half { 16 ≤ length pieces.now → IfOk result (λ nodes. AreHalfFull nodes.items) }
    ensures spent { budget.old ≤ budget.new + nodes_bytes (length pieces.now) }
    ensures less { budget.new ≤ budget.old }
{
    let mut nodes = Vec::with_capacity(alloc, pieces.len().div_ceil(FULL))?;
    let mut at: usize = 0;
    while at < pieces.len() {
        let size = next_size(pieces.len() - at);
        let mut part = Vec::with_capacity(alloc, size)?;
        share_all(&pieces[at..at + size], &mut part)?;
        let node = Node::new(alloc, part, budget)?;
        add(node, &mut nodes)?;
        at += size;
    }
    Ok(nodes)
}

/// The nodes that `cut` makes, of a list that is given away: where one node has room for all pieces, it gets the list
/// itself.
fn cut_list<T: Piece>(
    alloc: Global,
    pieces: Vec<T>,
    budget: &mut Budget,
) -> Result<Vec<Node<T>>, AllocError>
    requires { AreShort T.size pieces.items }
    ensures flat { IfOk result (λ nodes. pieces_of nodes.items ≡ pieces.items) }
    ensures filled { IfOk result (λ nodes. AreFilled nodes.items) }
    ensures half { 16 ≤ length pieces.items → IfOk result (λ nodes. AreHalfFull nodes.items) }
    ensures spent { budget.old ≤ budget.new + nodes_bytes (length pieces.items) }
    ensures less { budget.new ≤ budget.old }
{
    if pieces.is_empty() || pieces.len() > FULL {
        return cut(alloc, pieces.as_slice(), budget);
    }
    let mut nodes = Vec::with_capacity(alloc, 1)?;
    let node = Node::new(alloc, pieces, budget)?;
    add(node, &mut nodes)?;
    Ok(nodes)
}

/// Nodes made for a window, and whether they have the pieces of the node behind it too.
#[derive(Drop)]
struct Made<T: Piece> {
    nodes: Vec<Node<T>>,
    took_next: bool,
}

/// The nodes for a window: what stays of the node in which it begins, what is new, and what stays of the node in which
/// it ends. Where that isn't half a node, they take the pieces of the next node too.
fn made_between<T: Piece>(
    alloc: Global,
    front: &[T],
    new: &[T],
    back: &[T],
    next: &[T],
    budget: &mut Budget,
) -> Result<Made<T>, AllocError>
    requires front { length front.now ≤ 32 }
    requires back { length back.now ≤ 32 }
    requires next { length next.now ≤ 32 }
    requires short { AreShort T.size (front.now ++ (new.now ++ (back.now ++ next.now))) }
    ensures flat { IfOk result (λ made. pieces_of made.nodes.items
        ≡ front.now ++ (new.now ++ (back.now ++ (if made.took_next then next.now else [])))) }
    ensures filled { IfOk result (λ made. AreFilled made.nodes.items) }
    ensures half { IfOk result (λ made. made.took_next ≡ false → 0 < length next.now → AreHalfFull made.nodes.items) }
    ensures half_with_next { IfOk result (λ made. made.took_next ≡ true → 16 ≤ length next.now
        → AreHalfFull made.nodes.items) }
    ensures took_some { IfOk result (λ made. made.took_next ≡ true → 0 < length next.now) }
    ensures spent { budget.old ≤ budget.new + window_bytes (length new.now) }
    ensures less { budget.new ≤ budget.old }
{
    let kept = new.len().saturating_add(front.len() + back.len());
    let took_next = kept < HALF && !next.is_empty();
    let taken: &[T] = if took_next { next } else { &[] };
    let mut pieces = Vec::with_capacity(alloc, kept.saturating_add(taken.len()))?;
    share_all(front, &mut pieces)?;
    share_all(new, &mut pieces)?;
    share_all(back, &mut pieces)?;
    share_all(taken, &mut pieces)?;
    let nodes = cut_list(alloc, pieces, budget)?;
    Ok(Made { nodes, took_next })
}

/// A place among the pieces of nodes: the node, and how many pieces stand before it.
#[derive(Clone, Copy)]
pub struct NodeSpot {
    pub node: usize,
    pub start: usize,
}

/// The first node that ends at the place or behind it.
pub fn node_reaching<T: Piece>(nodes: &[Node<T>], place: usize) -> NodeSpot
    requires short { length (pieces_of nodes.now) < 2 ^ 63 }
    requires some { 0 < length nodes.now }
    requires within { place ≤ length (pieces_of nodes.now) }
    ensures within { result.node < length nodes.now }
    ensures start { result.start ≡ length (pieces_of (take result.node nodes.now)) }
    ensures up_to { result.start ≤ place }
    ensures before { 0 < result.node → result.start < place }
    ensures reached { place ≤ result.start + length (get_or nodes.now result.node []) }
{
    let mut start: usize = 0;
    for (node, content) in nodes.iter().enumerate() {
        let count = content.pieces().len();
        if place - start <= count {
            return NodeSpot { node, start };
        }
        start += count;
    }
    unreachable!()
}

/// The pieces of the node with this index, and none behind the last node.
pub fn pieces_at<T: Piece>(nodes: &[Node<T>], index: usize) -> &[T]
    ensures { result.now ≡ get_or nodes.now index [] }
{
    match nodes.get(index) {
        Some(node) => node.pieces(),
        None => &[],
    }
}

/// The nodes with `new` in place of the pieces from `from` up to `to`. Nodes that the window doesn't touch are shared.
pub fn replaced<T: Piece>(
    alloc: Global,
    nodes: &[Node<T>],
    from: usize,
    to: usize,
    new: &[T],
    budget: &mut Budget,
) -> Result<Vec<Node<T>>, AllocError>
    requires filled { AreFilled nodes.now }
    requires few { length (pieces_of nodes.now) < 2 ^ 63 }
    requires order { from ≤ to }
    requires within { to ≤ length (pieces_of nodes.now) }
    requires short { AreShort T.size (take from (pieces_of nodes.now) ++ (new.now ++ drop to (pieces_of nodes.now))) }
    ensures flat { IfOk result (λ all. pieces_of all.items
        ≡ take from (pieces_of nodes.now) ++ (new.now ++ drop to (pieces_of nodes.now))) }
    ensures filled { IfOk result (λ all. AreFilled all.items) }
    ensures spent { budget.old ≤ budget.new + window_bytes (length new.now) }
    ensures less { budget.new ≤ budget.old }
{
    if nodes.is_empty() {
        return cut(alloc, new, budget);
    }
    let first = node_reaching(nodes, from);
    let last = node_reaching(nodes, to);
    let front = &pieces_at(nodes, first.node)[..from - first.start];
    let back = &pieces_at(nodes, last.node)[to - last.start..];
    let next = pieces_at(nodes, last.node + 1);
    let made = made_between(alloc, front, new, back, next, budget)?;
    let end = if made.took_next {
        last.node + 2
    } else {
        last.node + 1
    };
    let all = in_order(
        alloc,
        &nodes[..first.node],
        made.nodes.as_slice(),
        &nodes[end..],
    )?;
    Ok(all)
}
