//! One tail of a number x: a number t, if it is there, so that x + t is at most a length.
ghost use Rattle.std.specs.Prelude.{◌≡◌, ℕ, ◌+◌, ◌-◌, ◌^◌, ◌≤◌, min, Option, Some, None, IfSome, option_map};
ghost use Rattle.intervals.specs.Interval.{interval_of};
ghost use Rattle.abstract_state.specs.Estimate.{under_tail, raised_tail, greater_tail, lesser_tail};
ghost use Rattle.abstract_state.specs.Transfer.{sum_tail};
ghost use Rattle.abstract_state.specs.Lent.{HasTail, InRange, InRanges};
ghost use Rattle.abstract_state.specs.Exact.{tail_after};

use intervals::Range;
use span_context::profile::Profile;

/// The interval cut to what the tail allows, where lengths are up to `limit`.
#[tactic(auto, unfolding(crate::specs::Estimate::under_tail))]
pub fn narrow(tail: Option<u32>, limit: u64, range: Range) -> Option<Range>
    ensures contains { (long x : ℕ) → long ≤ limit → InRange range x → HasTail tail long x → InRanges result x }
    ensures within { IfSome result (λ r. (range.low ≤ r.low) × (r.high ≤ range.high)) }
    ensures limits { (t : ℕ) → tail ≡ Some t → IfSome result (λ r. r.high + t ≤ limit) }
    ensures rule { option_map interval_of result ≡ under_tail limit tail (interval_of range) }
{
    let Some(t) = tail else {
        return Some(range);
    };
    let t = u64::from(t);
    if t > limit {
        return None;
    }
    range.at_most(limit - t)
}

/// The tail after up to `added` is added.
pub fn after(tail: Option<u32>, added: u64) -> Option<u32>
    ensures contains { (long x y : ℕ) → HasTail tail long x → y ≤ added → HasTail result long (x + y) }
    ensures value { result ≡ tail_after tail added }
{
    match tail {
        Some(t) if u64::from(t) >= added => Some(t - added as u32),
        _ => None,
    }
}

/// The tail of the sum of a number up to `high` with this tail and of a number up to `added` with the other: where the
/// profile has more rules the greater of what the two give, else the first that there is.
#[tactic(auto, unfolding(crate::specs::Transfer::sum_tail))]
pub fn sum(
    profile: Profile,
    tail: Option<u32>,
    high: u64,
    other: Option<u32>,
    added: u64,
) -> Option<u32>
    ensures contains { (long x y : ℕ) → HasTail tail long x → x ≤ high → HasTail other long y → y ≤ added
        → HasTail result long (x + y) }
    ensures alone { other ≡ None → result ≡ tail_after tail added }
    ensures rule { result ≡ sum_tail profile high added tail other }
{
    let own = after(tail, added);
    let others = after(other, high);
    if profile.has_more_rules() {
        greater(own, others)
    } else {
        own.or(others)
    }
}

/// A tail that is greater by so much, or the greatest of 32 bits. That is past each region's limit, so that no number
/// has it.
fn more(tail: u32, by: u64) -> u32
    ensures bound { result ≤ tail + by }
    ensures rule { result ≡ min (tail + by) (2 ^ 32 - 1) }
{
    u64::from(tail).saturating_add(by).min(u64::from(u32::MAX)) as u32
}

/// The tail after at least `taken` is taken away.
pub fn difference(tail: Option<u32>, taken: u64) -> Option<u32>
    ensures contains { (long x y : ℕ) → HasTail tail long (x + y) → taken ≤ y → HasTail result long x }
    ensures rule { result ≡ raised_tail taken tail }
{
    let Some(t) = tail else {
        return None;
    };
    Some(more(t, taken))
}

/// The tail of a number that is no greater than either.
pub fn greater(a: Option<u32>, b: Option<u32>) -> Option<u32>
    ensures contains { (long x y z : ℕ) → HasTail a long x → HasTail b long y → z ≤ x → z ≤ y → HasTail result long z }
    ensures there { (u : ℕ) → b ≡ Some u → (t : ℕ) × (result ≡ Some t) }
    ensures none { a ≡ None → b ≡ None → result ≡ None }
    ensures rule { result ≡ greater_tail a b }
{
    match (a, b) {
        (Some(t), Some(u)) => Some(t.max(u)),
        (Some(t), None) => Some(t),
        (None, _) => b,
    }
}

/// The tail of a number that may be either.
pub fn lesser(a: Option<u32>, b: Option<u32>) -> Option<u32>
    ensures left { (long x : ℕ) → HasTail a long x → HasTail result long x }
    ensures right { (long x : ℕ) → HasTail b long x → HasTail result long x }
    ensures lesser { (t u : ℕ) → a ≡ Some t → b ≡ Some u → result ≡ Some (min t u) }
    ensures rule { result ≡ lesser_tail a b }
{
    match (a, b) {
        (Some(t), Some(u)) => Some(t.min(u)),
        _ => None,
    }
}

/// The tail of a number that is less by at least so much.
pub fn raised(tail: Option<u32>, by: u64) -> Option<u32>
    ensures contains { (long x y : ℕ) → HasTail tail long y → x + by ≤ y → HasTail result long x }
    ensures there { (t : ℕ) → tail ≡ Some t → (u : ℕ) × (result ≡ Some u) }
    ensures rule { result ≡ raised_tail by tail }
{
    let Some(t) = tail else {
        return None;
    };
    Some(more(t, by))
}
