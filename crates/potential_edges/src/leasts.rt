//! A number that a term weighs at least.
ghost use Rattle.std.specs.Prelude.{◌≡◌, ◌≤◌, ◌^◌, pos, ◌*ℤ◌, IfSome, unsigned_abs};
ghost use Rattle.intervals.specs.Interval.{interval_of};
ghost use Rattle.potential_edges.specs.Leasts as rules;

use abstract_state::state::AbsState;
use intervals::Range;
use label_potentials::counted::counted;
use label_potentials::potential::Term;

/// The number of an interval at which a weight weighs least.
fn lightest(weight: i32, range: Range) -> u64
    ensures { result ≡ rules.lightest weight (interval_of range) }
{
    if weight < 0 { range.high } else { range.low }
}

/// A weight times a number.
fn times(weight: i32, count: u64) -> i128
    ensures value { result ≡ weight *ℤ pos count }
    ensures small { unsigned_abs result ≤ 2 ^ 95 }
{
    i128::from(weight) * i128::from(count)
}

/// A number that what a term weighs is at least.
pub(crate) fn least_weight(state: &AbsState, term: &Term) -> Option<i128>
    ensures rule { result ≡ rules.least_in state.now term.now }
    ensures small { IfSome result (λ least. unsigned_abs least ≤ 2 ^ 95) }
{
    if term.weight == 0 {
        return Some(0);
    }
    let quantity = counted(state, term.holder, term.base)?;
    Some(times(term.weight, lightest(term.weight, quantity.range)))
}
