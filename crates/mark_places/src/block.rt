//! Some marks with the ranks of their ends: the characters that are put into a text mostly move all of them or none, so
//! that they are gone through only where the characters come between their ends.
ghost use Rattle.std.specs.Prelude.{◌≡◌, ◌↔◌, ◌+◌, ◌-◌, ◌<◌, ◌≤◌, ◌^◌, ◌++◌, ◌∷◌, [], ℕ, IfOk, OnOk, OnErr, IsTrue};
ghost use Rattle.std.specs.Prelude.{Some, false, length, map, take, drop, All, Contains, slice_get, slice_index};
ghost use Rattle.std.specs.List.{list_all, list_any};
ghost use Rattle.std.specs.List.Sorted.{IsPermutation};
ghost use Rattle.mark_places.specs.Blocks.{ranked};
ghost use Rattle.mark_places.specs.PlaceRanges.{AreApart, CoversAny};
ghost use Rattle.mark_places.specs.Ranks.{raised, mark_raised, placed, place_of, IsBelow};
ghost use Rattle.mark_places.specs.Touching.{touching, IsApart};
ghost use Rattle.mark_places.specs.Uniform.{has_none_between, is_between};
ghost use Rattle.mark_places.specs.declared.ranked.RankedMark.{RankedMark as TheRankedMark};

use crate::range::{PlaceRange, covers_any, overlapping};
use crate::ranked::RankedMark;
use crate::shift::RankShift;
use change_ops::attribute::Key;
use change_ops::id::OpId;
use mark_anchors::placed::PlacedMark;
use std::alloc::{AllocError, Global};
use std::marker::Model;

/// The most marks of a block.
const BLOCK_LIMIT: usize = 256;

/// No end of a mark has so many characters before it.
pub(crate) const PLACE_LIMIT: usize = 1 << 30;

/// A mark without its ranks.
#[derive(Clone, Copy)]
pub(crate) struct MarkName {
    index: usize,
    id: OpId,
    key: Key,
}

/// Some marks. Those that begin earlier stand before the others, so that a full block is split where its marks are.
#[derive(Drop)]
pub(crate) struct PlaceBlock {
    /// Belongs to each rank of `starts` and `ends`.
    offset: u32,
    /// No rank is below it.
    least: u32,
    /// The greatest rank.
    greatest: u32,
    names: Vec<MarkName>,
    starts: Vec<u32>,
    ends: Vec<u32>,
}

impl Model for PlaceBlock {
    ghost use Rattle.std.specs.Prelude.{List};
    ghost use Rattle.mark_places.specs.declared.ranked.RankedMark.{RankedMark};
    ghost use Rattle.mark_places.specs.Blocks.{ranked, IsBlock};

    ghost Value = { List RankedMark };

    ghost view = { λ b. ranked b.offset b.names.items b.starts.items b.ends.items };

    ghost invariant = { λ b. IsBlock b.offset b.least b.greatest b.names.items b.starts.items b.ends.items };
}

/// The rank, moved if it is from `from` on.
fn raised(rank: u32, from: u32, by: u32) -> u32
    requires { raised from by rank < 2 ^ 32 }
    ensures { result ≡ raised from by rank }
{
    if rank >= from { rank + by } else { rank }
}

/// Moves the ranks from `from` on.
fn raise(ranks: &mut [u32], from: u32, by: u32)
    requires { All (λ rank. rank + by < 2 ^ 32) ranks.old }
    ensures { ranks.new ≡ map (raised from by) ranks.old }
{
    for rank in ranks.iter_mut() {
        *rank = raised(*rank, from, by);
    }
}

fn is_between(start: u32, end: u32, starts_below: u32, ends_from: u32) -> bool
    ensures { result ≡ false → start < starts_below → end < ends_from }
{
    (start < starts_below) & (end >= ends_from)
}

/// Whether a mark has its start below the one rank, and its end at the other one or behind it.
fn is_any_between(starts: &[u32], ends: &[u32], starts_below: u32, ends_from: u32) -> bool
    requires { length starts.now ≡ length ends.now }
    ensures { result ≡ false → (k : ℕ) → k < length starts.now → slice_index starts.now k < starts_below
        → slice_index ends.now k < ends_from }
{
    // All of them are read, as a loop without branches compares many at once.
    let mut found = false;
    for i in 0..starts.len() {
        found |= is_between(starts[i], ends[i], starts_below, ends_from);
    }
    found
}

/// Whether some rank is from `from` on and below `below`.
fn has_rank_between(ranks: &[u32], from: u32, below: u32) -> bool
    ensures { result ≡ list_any (is_between from below) ranks.now }
{
    let width = below.saturating_sub(from);
    // The differences of ranks below `from` wrap around to large ones. The least of all takes no branch, so that many
    // are found at once.
    let mut least = u32::MAX;
    for rank in ranks {
        least = least.min(rank.wrapping_sub(from));
    }
    least < width
}

/// The least of the ranks.
fn least_of(ranks: &[u32]) -> u32
    requires { 0 < length ranks.now }
    ensures bound { All (λ rank. result ≤ rank) ranks.now }
    ensures reached { Contains ranks.now result }
{
    let mut least = ranks[0];
    for rank in ranks {
        least = least.min(*rank);
    }
    least
}

/// The greatest of the ranks.
fn greatest_of(ranks: &[u32]) -> u32
    requires { 0 < length ranks.now }
    ensures bound { All (λ rank. rank ≤ result) ranks.now }
    ensures reached { Contains ranks.now result }
{
    let mut greatest = ranks[0];
    for rank in ranks {
        greatest = greatest.max(*rank);
    }
    greatest
}

impl PlaceBlock {
    /// Of marks by their lists: the ranks are those of the names, without the offset.
    fn of_lists(
        alloc: Global,
        offset: u32,
        names: &[MarkName],
        starts: &[u32],
        ends: &[u32],
    ) -> Result<PlaceBlock, AllocError>
        requires some { 0 < length names.now }
        requires sized { (length starts.now ≡ length names.now) × (length ends.now ≡ length names.now) }
        requires below { All (IsBelow (2 ^ 31)) (ranked offset names.now starts.now ends.now) }
        ensures { IfOk result (λ block. block ≡ ranked offset names.now starts.now ends.now) }
    {
        let greatest = offset + greatest_of(starts).max(greatest_of(ends));
        let least = offset + least_of(starts).min(least_of(ends));
        let names = Vec::from_slice(alloc, names)?;
        let starts = Vec::from_slice(alloc, starts)?;
        let ends = Vec::from_slice(alloc, ends)?;
        Ok(PlaceBlock {
            offset,
            least,
            greatest,
            names,
            starts,
            ends,
        })
    }

    /// Of one mark.
    pub(crate) fn of(alloc: Global, mark: &RankedMark) -> Result<PlaceBlock, AllocError>
        requires { IsBelow (2 ^ 31) mark.now }
        ensures { IfOk result (λ block. block ≡ mark.now ∷ []) }
    {
        let name = MarkName {
            index: mark.index,
            id: mark.id,
            key: mark.key,
        };
        PlaceBlock::of_lists(alloc, 0, &[name], &[mark.start], &[mark.end])
    }

    /// The marks from `first` up to `last`, as a block.
    pub(crate) fn part(
        &self,
        alloc: Global,
        first: usize,
        last: usize,
    ) -> Result<PlaceBlock, AllocError>
        requires { (first < last) × (last ≤ length self.now) }
        ensures { IfOk result (λ part. part ≡ take (last - first) (drop first self.now)) }
    {
        let names = &self.names[first..last];
        let starts = &self.starts[first..last];
        let ends = &self.ends[first..last];
        PlaceBlock::of_lists(alloc, self.offset, names, starts, ends)
    }

    /// Whether it takes no more marks.
    pub(crate) fn is_full(&self) -> bool
        ensures { IsTrue result ↔ 256 ≤ length self.now }
    {
        self.len() >= BLOCK_LIMIT
    }

    /// Whether its first mark begins at the rank or before it.
    pub(crate) fn begins_by(&self, rank: u32) -> bool {
        match self.starts.first() {
            Some(first) => rank >= self.offset && *first <= rank - self.offset,
            None => true,
        }
    }

    /// How many of the marks begin at the rank or before it.
    fn begun_by(&self, rank: u32) -> usize
        ensures { result ≤ length self.now }
    {
        if rank < self.offset {
            return 0;
        }
        let limit = rank - self.offset;
        self.starts.partition_point(|start| *start <= limit)
    }

    /// Adds a mark, before those that begin later.
    pub(crate) fn insert(&mut self, mark: &RankedMark) -> Result<(), AllocError>
        requires { IsBelow (2 ^ 31) mark.now }
        ensures ok { OnOk result (IsPermutation (mark.now ∷ self.old) self.new) }
        ensures err { OnErr result (self.new ≡ self.old) }
    {
        let at = self.begun_by(mark.start);
        self.names.reserve(1)?;
        self.starts.reserve(1)?;
        self.ends.reserve(1)?;
        // The offset may be above the new ranks.
        let offset = self.offset;
        raise(&mut self.starts, 0, offset);
        raise(&mut self.ends, 0, offset);
        self.offset = 0;
        self.least = self.least.min(mark.start).min(mark.end);
        self.greatest = self.greatest.max(mark.start).max(mark.end);
        let name = MarkName {
            index: mark.index,
            id: mark.id,
            key: mark.key,
        };
        self.names.insert(at, name).unwrap();
        self.starts.insert(at, mark.start).unwrap();
        self.ends.insert(at, mark.end).unwrap();
        Ok(())
    }

    /// Moves the ends whose ranks are from `from` on.
    pub(crate) fn raise(&mut self, from: u32, by: u32)
        requires { All (λ mark. IsBelow (2 ^ 31) (mark_raised from by mark)) self.old }
        ensures { self.new ≡ map (mark_raised from by) self.old }
    {
        if self.greatest < from {
            return;
        }
        self.greatest += by;
        if from <= self.least {
            self.offset += by;
            self.least += by;
            return;
        }
        let from = from - self.offset;
        raise(&mut self.starts, from, by);
        raise(&mut self.ends, from, by);
    }
}

impl PlaceBlock {
    /// The number of marks.
    pub(crate) fn len(&self) -> usize
        ensures { result ≡ length self.now }
    {
        self.names.len()
    }

    /// Whether some mark may cover a place from `low` up to `high` behind the shift.
    fn may_touch_between(&self, shift: RankShift, low: usize, high: usize) -> bool
        requires { All (λ mark. IsBelow (2 ^ 31) (mark_raised shift.from shift.by mark)) self.now }
        ensures { result ≡ false → All (IsApart low high) (map (mark_raised shift.from shift.by) self.now) }
    {
        let ends_from = shift.lowered(2 * low.min(PLACE_LIMIT) as u32 + 2);
        let starts_below = shift.lowered(2 * high.min(PLACE_LIMIT) as u32);
        let ends_from = ends_from.saturating_sub(self.offset);
        let starts_below = starts_below.saturating_sub(self.offset);
        is_any_between(&self.starts, &self.ends, starts_below, ends_from)
    }

    /// Whether some mark may cover a place of the ranges behind the shift.
    fn may_touch(&self, shift: RankShift, ranges: &[PlaceRange]) -> bool
        requires apart { (end : ℕ) × AreApart ranges.now 0 end }
        requires below { All (λ mark. IsBelow (2 ^ 31) (mark_raised shift.from shift.by mark)) self.now }
        ensures { result ≡ false → All (λ mark. CoversAny ranges.now (placed mark) → ⊥)
            (map (mark_raised shift.from shift.by) self.now) }
    {
        let low = shift.place_of(self.least);
        let high = shift.place_of(self.greatest);
        match overlapping(ranges, low, high) {
            Some(hull) => self.may_touch_between(shift, hull.low, hull.high),
            None => false,
        }
    }

    /// Whether no mark has an end with a rank from `from` on and below `below`.
    pub(crate) fn has_none_between(&self, from: u32, below: u32) -> bool
        ensures { result ≡ list_all (has_none_between from below) self.now }
    {
        if self.greatest < from || below <= self.least {
            return true;
        }
        let from = from.saturating_sub(self.offset);
        let below = below.saturating_sub(self.offset);
        !has_rank_between(&self.starts, from, below) && !has_rank_between(&self.ends, from, below)
    }

    /// A mark with its places behind the shift.
    fn mark(&self, shift: RankShift, at: usize) -> PlacedMark
        requires { at < length self.now }
        ensures { (mark : TheRankedMark) × (slice_get (map (mark_raised shift.from shift.by) self.now) at ≡ Some mark)
            × (result ≡ placed mark) }
    {
        let name = &self.names[at];
        PlacedMark {
            index: name.index,
            id: name.id,
            key: name.key,
            start: shift.place_of(self.offset + self.starts[at]),
            end: shift.place_of(self.offset + self.ends[at]),
        }
    }

    /// Adds the marks that cover a place of the ranges behind the shift to those that were found.
    pub(crate) fn gather(
        &self,
        shift: RankShift,
        ranges: &[PlaceRange],
        found: &mut Vec<PlacedMark>,
    ) -> Result<(), AllocError>
        requires apart { (end : ℕ) × AreApart ranges.now 0 end }
        requires below { All (λ mark. IsBelow (2 ^ 31) (mark_raised shift.from shift.by mark)) self.now }
        ensures { OnOk result (found.new.items ≡ found.old.items
            ++ touching ranges.now (map place_of (map (mark_raised shift.from shift.by) self.now))) }
    {
        if !self.may_touch(shift, ranges) {
            return Ok(());
        }
        for i in 0..self.len() {
            let mark = self.mark(shift, i);
            if covers_any(ranges, &mark) {
                found.extend_from_slice(&[mark])?;
            }
        }
        Ok(())
    }
}

impl Clone for PlaceBlock {
    ghost is_clone = { λ old new. new ≡ old };

    fn clone(&self) -> Result<PlaceBlock, AllocError> {
        let names = self.names.clone()?;
        let starts = self.starts.clone()?;
        let ends = self.ends.clone()?;
        Ok(PlaceBlock {
            names,
            starts,
            ends,
            ..*self
        })
    }
}
