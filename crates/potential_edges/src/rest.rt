//! What two terms, one before an edge and one behind it, leave to be weighed before it.
ghost use Rattle.std.specs.Prelude.{◌≡◌, ◌≤◌, ◌^◌, pos, ◌*ℤ◌, ◌+ℤ◌, ◌-ℤ◌, IfSome, unsigned_abs};
ghost use Rattle.potential_edges.specs.Edges as rules;

use crate::ahead::ahead_of;
use crate::leasts::least_weight;
use crate::same::is_base;
use crate::source::{Source, source_of};
use abstract_state::state::AbsState;
use bpf_words::instruction::Insn;
use label_potentials::positive::weighed_of;
use label_potentials::potential::Term;
use potentials::Weighed;
use tracked_state::state::TrackedState;

/// What is left to be weighed, and a number that is added.
#[derive(Clone, Copy)]
pub struct Rest {
    pub less: Weighed,
    pub more: i128,
}

/// How much more than a source's holder there is, where a weight weighs least.
fn lightest(weight: i32, from: Source) -> i64
    ensures { result ≡ rules.lightest_more weight from }
{
    if weight < 0 { from.high } else { from.low }
}

/// How far ahead a number is, and more.
fn further(ahead: i128, more: i64) -> i128
    requires { unsigned_abs ahead ≤ 2 ^ 64 }
    ensures value { result ≡ ahead +ℤ more }
    ensures small { unsigned_abs result ≤ 2 ^ 65 }
{
    ahead + i128::from(more)
}

/// How much more the second term counts behind the edge than the first before it; of several numbers the one at which
/// it weighs least.
fn more_from(state: &TrackedState, before: &Term, after: &Term, from: Source) -> Option<i128>
    ensures rule { result ≡ rules.more_from state.now before.now after.now from }
    ensures small { IfSome result (λ more. unsigned_abs more ≤ 2 ^ 65) }
{
    match ahead_of(state, before.holder, from.holder) {
        Some(ahead) => Some(further(ahead, lightest(after.weight, from))),
        None => None,
    }
}

/// The same, where both are counted from one base, and the source is known.
fn more_of(state: &TrackedState, insn: &Insn, before: &Term, after: &Term) -> Option<i128>
    ensures rule { result ≡ rules.more_in state.now insn.now before.now after.now }
    ensures small { IfSome result (λ more. unsigned_abs more ≤ 2 ^ 65) }
{
    if !is_base(after.base, before.base) {
        return None;
    }
    let from = source_of(&state.state, insn, after.holder)?;
    more_from(state, before, after, from)
}

/// A weight less another.
fn weight_less(one: i32, other: i32) -> Option<i32>
    ensures { result ≡ rules.in_word (one -ℤ other) }
{
    one.checked_sub(other)
}

/// A weight times a number.
fn times(weight: i32, more: i128) -> i128
    requires { unsigned_abs more ≤ 2 ^ 65 }
    ensures value { result ≡ weight *ℤ more }
    ensures small { unsigned_abs result ≤ 2 ^ 96 }
{
    i128::from(weight) * more
}

/// What two terms leave that count the same, but for a constant.
fn together(state: &AbsState, before: &Term, after: &Term, more: i128) -> Option<Rest>
    requires { unsigned_abs more ≤ 2 ^ 65 }
    ensures rule { result ≡ rules.rest_together state.now before.now after.now more }
    ensures small { IfSome result (λ rest. unsigned_abs rest.more ≤ 2 ^ 96) }
{
    let weight = weight_less(before.weight, after.weight)?;
    let term = Term { weight, ..*before };
    let less = weighed_of(state, &term)?;
    let more = times(after.weight, more);
    Some(Rest { less, more })
}

/// What two terms leave that are weighed apart.
fn apart(state: &AbsState, behind: &AbsState, before: &Term, after: &Term) -> Option<Rest>
    ensures rule { result ≡ rules.rest_apart state.now behind.now before.now after.now }
    ensures small { IfSome result (λ rest. unsigned_abs rest.more ≤ 2 ^ 96) }
{
    let less = weighed_of(state, before)?;
    let more = least_weight(behind, after)?;
    Some(Rest { less, more })
}

/// What two terms leave.
pub(crate) fn rest_of(
    state: &TrackedState,
    insn: &Insn,
    behind: &AbsState,
    before: &Term,
    after: &Term,
) -> Option<Rest>
    ensures rule { result ≡ rules.rest_in state.now insn.now behind.now (before.now, after.now) }
    ensures small { IfSome result (λ rest. unsigned_abs rest.more ≤ 2 ^ 96) }
{
    match more_of(state, insn, before, after) {
        Some(more) => together(&state.state, before, after, more),
        None => apart(&state.state, behind, before, after),
    }
}
