//! Numbers of which all that is known of a second is known too.
ghost use Rattle.std.specs.Prelude.{◌↔◌, IsTrue, Option};
ghost use Rattle.known_bits.specs.KnownBits.{known_of};
ghost use Rattle.intervals.specs.Interval.{interval_of};
ghost use Rattle.abstract_state.specs.Estimate.{estimate_of};
ghost use Rattle.abstract_state.specs.Situation.{least_of};
ghost use Rattle.state_inclusion.specs.Numbers.{AreBitsWithin, IsIntervalWithin, IsTailWithin, IsNumberWithin};

use abstract_state::bounds::Bounds;
use abstract_state::quantity::Quantity;
use intervals::Range;
use known_bits::Bits;

/// Whether the second bits have the least number of the first and the greatest: they have all between then.
fn are_bits_within(a: Bits, b: Bits) -> bool
    ensures { IsTrue result ↔ AreBitsWithin (known_of a) (known_of b) }
{
    b.has(a.least()) && b.has(a.greatest())
}

fn is_range_within(a: Range, b: Range) -> bool
    ensures { IsTrue result ↔ IsIntervalWithin (interval_of a) (interval_of b) }
{
    b.low <= a.low && a.high <= b.high
}

/// Whether a number up to `high` with a tail has the other tail, where the region has at least `least` bytes.
fn is_tail_within(least: u64, high: u64, tail: Option<u32>, other: Option<u32>) -> bool
    ensures { IsTrue result ↔ IsTailWithin least high tail other }
{
    let Some(asked) = other else {
        return true;
    };
    let asked = u64::from(asked);
    if high <= least && asked <= least - high {
        return true;
    }
    match tail {
        Some(own) => asked <= u64::from(own),
        None => false,
    }
}

/// Whether all that is known of the second number follows for the first.
pub fn is_number_within(bounds: Bounds, a: Quantity, b: Quantity) -> bool
    ensures { IsTrue result ↔ IsNumberWithin (least_of bounds) (estimate_of a) (estimate_of b) }
{
    are_bits_within(a.bits, b.bits)
        && is_range_within(a.range, b.range)
        && is_tail_within(bounds.text, a.range.high, a.tails.text, b.tails.text)
        && is_tail_within(bounds.link, a.range.high, a.tails.link, b.tails.link)
}
