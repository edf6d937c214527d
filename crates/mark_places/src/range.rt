//! Some places of a text, range by range.
ghost use Rattle.std.specs.Prelude.{◌≡◌, ◌↔◌, ◌<◌, ◌≤◌, [], ℕ, IsTrue, MatchOption, Some, length, slice_index_or};
ghost use Rattle.mark_anchors.specs.declared.placed.PlacedMark.{PlacedMark as TheMark};
ghost use Rattle.mark_places.specs.PlaceRanges.{AreApart, CoversAny, CoversSome, IsHull};
ghost use Rattle.mark_places.specs.declared.range.PlaceRange.{PlaceRange as TheRange};

use mark_anchors::placed::PlacedMark;

/// Places of a text: from `low` up to `high`, which is not one of them.
#[derive(Clone, Copy)]
pub struct PlaceRange {
    pub low: usize,
    pub high: usize,
}

/// The places from the first range's low to the last one's high.
pub(crate) fn hull(ranges: &[PlaceRange]) -> Option<PlaceRange>
    ensures { MatchOption result (ranges.now ≡ []) (λ hull. IsHull ranges.now hull) }
{
    if ranges.is_empty() {
        return None;
    }
    Some(PlaceRange {
        low: ranges[0].low,
        high: ranges[ranges.len() - 1].high,
    })
}

/// How many of the ranges end at the place or before it.
fn ended_up_to(ranges: &[PlaceRange], place: usize) -> usize
    requires { (end : ℕ) × AreApart ranges.now 0 end }
    ensures within { result ≤ length ranges.now }
    ensures first { (k : ℕ) (d : TheRange) → k < result → (slice_index_or ranges.now k d).high ≤ place }
    ensures rest { (k : ℕ) (d : TheRange) → result ≤ k → k < length ranges.now
        → place < (slice_index_or ranges.now k d).high }
{
    ranges.partition_point(|range| range.high <= place)
}

/// How many of the ranges begin before the place.
fn begun_before(ranges: &[PlaceRange], place: usize) -> usize
    requires { (end : ℕ) × AreApart ranges.now 0 end }
    ensures within { result ≤ length ranges.now }
    ensures first { (k : ℕ) (d : TheRange) → k < result → (slice_index_or ranges.now k d).low < place }
    ensures rest { (k : ℕ) (d : TheRange) → result ≤ k → k < length ranges.now
        → place ≤ (slice_index_or ranges.now k d).low }
{
    ranges.partition_point(|range| range.low < place)
}

/// The places from the first to the last of those ranges that marks from `low` up to `high` can cover some of.
pub(crate) fn overlapping(ranges: &[PlaceRange], low: usize, high: usize) -> Option<PlaceRange>
    requires { (end : ℕ) × AreApart ranges.now 0 end }
    ensures { (mark : TheMark) → low ≤ mark.start → mark.end ≤ high → CoversAny ranges.now mark
        → (hull : TheRange) × (result ≡ Some hull) × CoversSome hull mark }
{
    let first = ended_up_to(ranges, low);
    let last = begun_before(ranges, high);
    if first >= last {
        return None;
    }
    Some(PlaceRange {
        low: ranges[first].low,
        high: ranges[last - 1].high,
    })
}

/// Whether the mark covers a place of one of the ranges.
pub(crate) fn covers_any(ranges: &[PlaceRange], mark: &PlacedMark) -> bool
    requires { (end : ℕ) × AreApart ranges.now 0 end }
    ensures { IsTrue result ↔ CoversAny ranges.now mark.now }
{
    let index = ended_up_to(ranges, mark.start);
    if index >= ranges.len() || mark.start >= mark.end {
        return false;
    }
    ranges[index].low < mark.end
}
