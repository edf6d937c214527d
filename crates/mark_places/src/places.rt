//! Where marks begin and end, kept from change to change: characters that are put into the text shift the places, so
//! that no anchor is looked up twice.
ghost use Rattle.std.specs.Prelude.{◌≡◌, ◌==◌, ◌+◌, ◌/◌, ◌%◌, ◌<◌, ◌^◌, ◌++◌, ◌∷◌, [], ℕ, true, List};
ghost use Rattle.std.specs.Prelude.{◌≤◌, IfOk, IsTrue, OnOk, OnErr, length, map, All};
ghost use Rattle.std.specs.List.{flat_map, list_all};
ghost use Rattle.std.specs.List.Sorted.{IsPermutation};
ghost use Rattle.change_ops.specs.Operations.{is_mark, Names};
ghost use Rattle.char_sequence.specs.declared.sequence.Element.{Element};
ghost use Rattle.char_sequence.specs.Order.{Shows};
ghost use Rattle.char_sequence.specs.Tree.{Present};
ghost use Rattle.mark_anchors.specs.Ranges.{IsUniform};
ghost use Rattle.mark_places.specs.MarkPlace.{MarkPlace};
ghost use Rattle.mark_places.specs.PlaceRanges.{AreApart};
ghost use Rattle.mark_places.specs.Places.{AreMarkPlaces, IsMarkPlace, gives_way};
ghost use Rattle.mark_places.specs.Ranks.{mark_raised, place_of, IsBelow};
ghost use Rattle.mark_places.specs.Touching.{touching};
ghost use Rattle.mark_places.specs.Uniform.{has_none_between, is_whole};

use crate::block::{PLACE_LIMIT, PlaceBlock};
use crate::boundary::characters_before;
use crate::range::PlaceRange;
use crate::ranked::RankedMark;
use crate::shift::RankShift;
use change_ops::id::OpId;
use change_ops::operation::{Anchor, Op};
use char_sequence::sequence::Sequence;
use mark_anchors::mark_range::mark_range;
use mark_anchors::placed::PlacedMark;
use std::alloc::{AllocError, Global};
use std::marker::Model;

/// Whether characters that are put where the anchor is stand before it.
fn gives_way(anchor: Anchor) -> bool
    ensures { result ≡ gives_way anchor }
{
    matches!(anchor, Anchor::BeforeCharacter(_) | Anchor::TextEnd)
}

/// The rank of an end: twice as many as characters stand before it, and one more if it gives way.
fn rank(before: usize, gives_way: bool) -> u32
    requires { before < 2 ^ 30 }
    ensures place { result / 2 ≡ before }
    ensures gives_way { (result % 2 == 1) ≡ gives_way }
    ensures limit { result < 2 ^ 31 }
{
    2 * before as u32 + u32::from(gives_way)
}

/// The mark operation with its index and the ranks of its anchors, which are looked up.
fn ranked_mark(sequence: &Sequence, operation: &Op, index: usize) -> RankedMark
    requires mark { is_mark operation.now ≡ true }
    requires there { (ops : List Op) × Shows sequence.now.elements ops
        × ((x : OpId) → Names operation.now x → Present ops x) }
    ensures place { IsMarkPlace sequence.now.elements operation.now (place_of result) }
    ensures index { result.index ≡ index }
    ensures below { IsBelow (2 ^ 31) result }
{
    let Some(range) = mark_range(operation) else {
        unreachable!();
    };
    // Its contract bounds the places, which the proof needs.
    let _count = sequence.len();
    let start = characters_before(sequence, range.start);
    let end = characters_before(sequence, range.end);
    RankedMark {
        index,
        id: operation.id(),
        key: range.key,
        start: rank(start, gives_way(range.start)),
        end: rank(end, gives_way(range.end)),
    }
}

/// Moves the ranks of all blocks.
fn raise(blocks: &mut [PlaceBlock], shift: RankShift)
    requires { All (λ mark. IsBelow (2 ^ 31) (mark_raised shift.from shift.by mark))
        (flat_map (λ block. block) blocks.old) }
    ensures { flat_map (λ block. block) blocks.new
        ≡ map (mark_raised shift.from shift.by) (flat_map (λ block. block) blocks.old) }
{
    for block in blocks.iter_mut() {
        block.raise(shift.from, shift.by);
    }
}

/// The last block that begins at the rank or before it, or the first one.
fn block_at(blocks: &[PlaceBlock], start: u32) -> usize
    requires { 0 < length blocks.now }
    ensures { result < length blocks.now }
{
    let begun = blocks.partition_point(|block| block.begins_by(start));
    begun.saturating_sub(1)
}

/// Splits the block in two if it is full.
fn make_room(blocks: &mut Vec<PlaceBlock>, at: usize) -> Result<(), AllocError>
    requires { at < length blocks.old.items }
    ensures same { flat_map (λ block. block) blocks.new.items ≡ flat_map (λ block. block) blocks.old.items }
    ensures count { length blocks.old.items ≤ length blocks.new.items }
{
    if !blocks[at].is_full() {
        return Ok(());
    }
    let alloc = *blocks.allocator();
    let count = blocks[at].len();
    let front = blocks[at].part(alloc, 0, count / 2)?;
    let back = blocks[at].part(alloc, count / 2, count)?;
    blocks.insert(at + 1, back)?;
    blocks[at] = front;
    Ok(())
}

/// Adds a mark to the block that it belongs in.
fn add(blocks: &mut Vec<PlaceBlock>, mark: &RankedMark) -> Result<(), AllocError>
    requires { IsBelow (2 ^ 31) mark.now }
    ensures ok { OnOk result (IsPermutation (mark.now ∷ flat_map (λ block. block) blocks.old.items)
        (flat_map (λ block. block) blocks.new.items)) }
    ensures err { OnErr result (flat_map (λ block. block) blocks.new.items
        ≡ flat_map (λ block. block) blocks.old.items) }
{
    if blocks.is_empty() {
        let block = PlaceBlock::of(*blocks.allocator(), mark)?;
        blocks.push(block)?;
        return Ok(());
    }
    let at = block_at(blocks, mark.start);
    make_room(blocks, at)?;
    let at = block_at(blocks, mark.start);
    blocks[at].insert(mark)?;
    Ok(())
}

/// Whether no mark of the blocks has an end with a rank from `from` on and below `below`.
fn have_none_between(blocks: &[PlaceBlock], from: u32, below: u32) -> bool
    ensures { result ≡ list_all (λ block. list_all (has_none_between from below) block) blocks.now }
{
    blocks
        .iter()
        .all(|block| block.has_none_between(from, below))
}

/// Where the marks of a text begin and end. Each block begins where the one before it does or behind that, so that most
/// characters come between the ends of few blocks, and most places are covered by the marks of few blocks.
#[derive(Drop)]
pub struct MarkPlaces {
    blocks: Vec<PlaceBlock>,
    /// The number of marks.
    mark_count: usize,
    /// Belongs to the ranks of all blocks. As each key follows the last one, a run of keys is one shift.
    pending: RankShift,
}

impl Model for MarkPlaces {
    ghost use Rattle.std.specs.Prelude.{◌≡◌, ◌^◌, List, map, All, length};
    ghost use Rattle.std.specs.List.{flat_map};
    ghost use Rattle.mark_places.specs.MarkPlace.{MarkPlace};
    ghost use Rattle.mark_places.specs.Ranks.{mark_raised, place_of, IsBelow};

    ghost Value = { List MarkPlace };

    ghost view = { λ p. map place_of
        (map (mark_raised p.pending.from p.pending.by) (flat_map (λ block. block) p.blocks.items)) };

    ghost invariant = { λ p. (p.mark_count ≡ length (flat_map (λ block. block) p.blocks.items))
        × All (λ mark. IsBelow (2 ^ 31) (mark_raised p.pending.from p.pending.by mark))
        (flat_map (λ block. block) p.blocks.items) };
}

impl MarkPlaces {
    /// Of no mark.
    pub fn new(alloc: Global) -> MarkPlaces
        ensures { (es : List Element) → AreMarkPlaces es [] result }
    {
        MarkPlaces {
            blocks: Vec::new(alloc),
            mark_count: 0,
            pending: RankShift::none(),
        }
    }

    /// Adds the places of the next mark, whose anchors are looked up.
    pub fn add(&mut self, sequence: &Sequence, operation: &Op) -> Result<(), AllocError>
        requires mark { is_mark operation.now ≡ true }
        requires there { (ops : List Op) × Shows sequence.now.elements ops
            × ((x : OpId) → Names operation.now x → Present ops x) }
        ensures { (operations : List Op) → AreMarkPlaces sequence.now.elements operations self.old
            → IfOk result (λ _. AreMarkPlaces sequence.now.elements (operations ++ operation.now ∷ []) self.new) }
    {
        // No memory holds as many marks as there are numbers.
        let Some(mark_count) = self.mark_count.checked_add(1) else {
            return Err(AllocError);
        };
        let mark = ranked_mark(sequence, operation, self.mark_count);
        raise(&mut self.blocks, self.pending);
        self.pending = RankShift::none();
        add(&mut self.blocks, &mark)?;
        self.mark_count = mark_count;
        Ok(())
    }

    /// Shifts the places for `count` characters that were put into the text at a place.
    pub fn shift(&mut self, place: usize, count: usize)
        requires { (es : List Element) × ((operations : List Op) × AreMarkPlaces es operations self.old
            × (length es + count < 2 ^ 30)) }
        ensures { (front run back : List Element) (operations : List Op) → length front ≡ place → length run ≡ count
            → AreMarkPlaces (front ++ back) operations self.old
            → AreMarkPlaces (front ++ (run ++ back)) operations self.new }
    {
        // No mark is behind such a place.
        if place >= PLACE_LIMIT {
            return;
        }
        let from = 2 * place as u32 + 1;
        let by = 2 * count as u32;
        let next = RankShift { from, by };
        if let Some(joined) = self.pending.joined(next) {
            self.pending = joined;
            return;
        }
        raise(&mut self.blocks, self.pending);
        self.pending = next;
    }

    /// Whether no mark begins or ends between the first place of the range and its end.
    pub fn is_uniform(&self, range: PlaceRange) -> bool
        ensures value { result ≡ list_all (λ (place : MarkPlace). is_whole range place.mark) self.now }
        ensures uniform { IsTrue result → (es : List Element) (operations : List Op)
            → AreMarkPlaces es operations self.now → IsUniform es operations range.low range.high }
    {
        // No rank of an end reaches the limits.
        let from = 2 * range.low.min(PLACE_LIMIT) as u32 + 2;
        let below = 2 * range.high.min(PLACE_LIMIT) as u32;
        let shift = self.pending;
        have_none_between(&self.blocks, shift.lowered(from), shift.lowered(below))
    }

    /// The marks that cover a place of the ranges.
    ///
    /// `alloc` is for the list of the result.
    pub(crate) fn touching(
        &self,
        alloc: Global,
        ranges: &[PlaceRange],
    ) -> Result<Vec<PlacedMark>, AllocError>
        requires { (end : ℕ) × AreApart ranges.now 0 end }
        ensures { IfOk result (λ marks. marks.items ≡ touching ranges.now self.now) }
    {
        let mut marks = Vec::new(alloc);
        for block in &self.blocks {
            block.gather(self.pending, ranges, &mut marks)?;
        }
        Ok(marks)
    }
}

impl Clone for MarkPlaces {
    ghost is_clone = { λ old new. new ≡ old };

    fn clone(&self) -> Result<MarkPlaces, AllocError> {
        let blocks = self.blocks.clone()?;
        Ok(MarkPlaces { blocks, ..*self })
    }
}
