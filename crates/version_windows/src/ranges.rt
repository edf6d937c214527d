//! Ranges of places, joined so that a place lies between each two.
ghost use Rattle.std.specs.Prelude.{◌≤◌, ℕ, All, Contains, IfOk};
ghost use Rattle.std.specs.List.Sorted.{IsNonDecreasingBy, IsPermutation};
ghost use Rattle.mark_places.specs.PlaceRanges.{AreApart};
ghost use Rattle.mark_places.specs.declared.range.PlaceRange.{PlaceRange as TheRange};
ghost use Rattle.version_laws.specs.Ranges.{AreGapped};
ghost use Rattle.version_windows.specs.Joined.{HasEndsOf, IsCovered, low_of};

use mark_places::range::PlaceRange;
use std::alloc::{AllocError, Global};

/// The ranges in the order in which they begin.
pub(crate) fn by_low(mut ranges: Vec<PlaceRange>) -> Vec<PlaceRange>
    ensures sorted { IsNonDecreasingBy low_of result.items }
    ensures same { IsPermutation ranges.items result.items }
{
    ranges.sort_unstable_by_key(|range| range.low);
    ranges
}

/// Those of the ranges joined between which no place lies.
pub(crate) fn joined(alloc: Global, ranges: &[PlaceRange]) -> Result<Vec<PlaceRange>, AllocError>
    requires sorted { IsNonDecreasingBy low_of ranges.now }
    requires order { All (λ range. range.low ≤ range.high) ranges.now }
    ensures apart { IfOk result (λ all. (end : ℕ) → All (λ range. range.high ≤ end) ranges.now
        → AreApart all.items 0 end) }
    ensures gapped { IfOk result (λ all. AreGapped all.items) }
    ensures ends { IfOk result (λ all. All (HasEndsOf ranges.now) all.items) }
    ensures covered { IfOk result (λ all. (range : TheRange) → Contains ranges.now range
        → IsCovered all.items range) }
{
    let mut all = Vec::new(alloc);
    let Some((first, others)) = ranges.split_first() else {
        return Ok(all);
    };
    let mut last = *first;
    for range in others {
        if range.low <= last.high {
            last.high = last.high.max(range.high);
        } else {
            all.push(last)?;
            last = *range;
        }
    }
    all.push(last)?;
    Ok(all)
}
