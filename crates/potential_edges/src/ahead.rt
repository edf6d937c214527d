//! How far the number in one register is ahead of that in another, where their marks name one value.
ghost use Rattle.std.specs.Prelude.{◌≡◌, ◌≤◌, ◌<◌, ◌^◌, ℕ, IfSome, unsigned_abs};
ghost use Rattle.intervals.specs.Interval.{interval_of};
ghost use Rattle.semantics.specs.Value.{bits_of};
ghost use Rattle.value_marks.specs.Mark.{mark_at};
ghost use Rattle.potential_edges.specs.Ahead as rules;

use crate::same::is_holder;
use crate::source::{fits, numbers_in, stays};
use abstract_state::state::AbsState;
use abstract_state::transfer::greatest;
use bpf_words::instruction::Width;
use intervals::Range;
use label_potentials::potential::Holder;
use tracked_state::state::TrackedState;
use value_marks::mark::Mark;
use value_marks::marks::Marks;

/// The mark of the register of a number; none of one that there isn't.
#[tactic(auto, using(std::proofs::lemmas::List::get_or_past, std::proofs::lemmas::List::get_or_default))]
fn mark_at(marks: &Marks, number: u8) -> Option<Mark>
    ensures { result ≡ mark_at marks.now.registers number }
{
    let _first = marks.registers[0];
    if number < 11 {
        marks.registers[usize::from(number)]
    } else {
        None
    }
}

/// The same, where marks are kept at all.
fn mark_of(state: &TrackedState, number: u8) -> Option<Mark>
    ensures { result ≡ rules.mark_of state.now number }
{
    match &state.copies.marks {
        Some(marks) => mark_at(marks, number),
        None => None,
    }
}

/// What is added to each number of an interval, where it is known modulo the width and the sum has no more bits.
fn unwrapped(width: Width, ahead: u64, from: Range) -> Option<i128>
    requires { ahead < 2 ^ bits_of width }
    ensures rule { result ≡ rules.unwrapped width ahead (interval_of from) }
    ensures small { IfSome result (λ more. unsigned_abs more ≤ 2 ^ 64) }
{
    let more = i128::from(ahead);
    if stays(width, from, more) {
        return Some(more);
    }
    let less = more - i128::from(greatest(width)) - 1;
    if stays(width, from, less) {
        return Some(less);
    }
    None
}

/// How far the second register is ahead, by marks of both.
fn ahead_by(state: &AbsState, first: u8, second: u8, from: Mark, to: Mark) -> Option<i128>
    ensures rule { result ≡ rules.ahead_by state.now first second from to }
    ensures small { IfSome result (λ more. unsigned_abs more ≤ 2 ^ 64) }
{
    if from.origin != to.origin {
        return None;
    }
    let width = from.common_width(to);
    let range = numbers_in(state, first)?;
    let other = numbers_in(state, second)?;
    if !fits(width, other) {
        return None;
    }
    unwrapped(width, from.distance_to(to, width), range)
}

/// The same, where both registers bear marks.
fn ahead_by_marks(state: &TrackedState, first: u8, second: u8) -> Option<i128>
    ensures rule { result ≡ rules.ahead_by_marks state.now first second }
    ensures small { IfSome result (λ more. unsigned_abs more ≤ 2 ^ 64) }
{
    let from = mark_of(state, first)?;
    let to = mark_of(state, second)?;
    ahead_by(&state.state, first, second, from, to)
}

/// How far what the second holder holds is ahead of what the first holds, where that is known.
pub fn ahead_of(state: &TrackedState, first: Holder, second: Holder) -> Option<i128>
    ensures rule { result ≡ rules.ahead_in state.now first second }
    ensures small { IfSome result (λ more. unsigned_abs more ≤ 2 ^ 64) }
{
    if is_holder(first, second) {
        return Some(0);
    }
    match (first, second) {
        (Holder::Register(first), Holder::Register(second)) => ahead_by_marks(state, first, second),
        _ => None,
    }
}
