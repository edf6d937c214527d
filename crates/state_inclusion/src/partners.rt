//! Marks that follow from what another state knows. A name means nothing by itself: it says how far its holders are
//! apart, and the other state has to know that of each two of them.
ghost use Rattle.std.specs.Prelude.{◌≡◌, ◌↔◌, ℕ, ◌+◌, ◌<◌, IsTrue, Option, option_map, option_and_then};
ghost use Rattle.semantics.specs.Value.{cut};
ghost use Rattle.abstract_state.specs.Addresses.{content_of, number_of};
ghost use Rattle.abstract_state.specs.Situation.{situation_of, register_of};
ghost use Rattle.abstract_state.specs.Stacks.{eight_of, whole_in};
ghost use Rattle.value_marks.specs.Mark.{narrower};
ghost use Rattle.tracked_state.specs.Tracked.{tracked_of};
ghost use Rattle.state_inclusion.specs.Partners as rules;
ghost use Rattle.state_inclusion.specs.Partners.{IsAheadByMarks, IsAheadByNumbers, IsAhead, IsMarkWithin, IsPairWithin};
ghost use Rattle.state_inclusion.specs.Partners.{AreMarksWithin};

use abstract_state::known::Known;
use abstract_state::slot::Slot;
use abstract_state::state::{AbsReg, AbsState};
use bpf_words::instruction::Width;
use tracked_state::state::TrackedState;
use value_marks::mark::Mark;

/// Registers come first among the places of marks, the slots of the stack behind them.
const REGISTERS: usize = 11;

/// How many places there are.
const PLACES: usize = 75;

/// What is known of a place: its mark, and the one number that it can hold.
#[derive(Clone, Copy)]
pub struct Holder {
    pub mark: Option<Mark>,
    pub number: Option<u64>,
}

fn mark_at(state: &TrackedState, place: usize) -> Option<Mark>
    requires { place < 75 }
    ensures { result ≡ rules.mark_at (tracked_of state.now) place }
{
    let Some(marks) = &state.copies.marks else {
        return None;
    };
    if place < REGISTERS {
        marks.registers[place]
    } else {
        marks.slots[place - REGISTERS]
    }
}

fn known_in(register: AbsReg) -> Option<Known>
    ensures { option_map content_of result ≡ register_of register }
{
    match register {
        AbsReg::Set(known) => Some(known),
        AbsReg::Unset => None,
    }
}

fn known_in_slot(slot: Slot) -> Option<Known>
    ensures { option_map content_of result ≡ whole_in (eight_of slot) }
{
    match slot {
        Slot::Spilled(known) => Some(known),
        Slot::Marks(_) => None,
    }
}

fn known_at(state: &AbsState, place: usize) -> Option<Known>
    requires { place < 75 }
    ensures { option_map content_of result ≡ rules.content_at (situation_of state.now) place }
{
    if place < REGISTERS {
        known_in(state.registers[place])
    } else {
        known_in_slot(state.stack[place - REGISTERS])
    }
}

/// The one number that can stand there.
fn number_at(state: &AbsState, place: usize) -> Option<u64>
    requires { place < 75 }
    ensures { result ≡ option_and_then number_of (rules.content_at (situation_of state.now) place) }
{
    let known = known_at(state, place)?;
    known.only()
}

pub fn holder_at(state: &TrackedState, place: usize) -> Holder
    requires { place < 75 }
    ensures { result ≡ rules.holder_at (tracked_of state.now) place }
{
    let mark = mark_at(state, place);
    let number = number_at(&state.state, place);
    Holder { mark, number }
}

/// Whether a mark tells of as many bits.
fn reaches(mark: Mark, width: Width) -> bool
    ensures { IsTrue result ↔ narrower mark.width width ≡ width }
{
    match (mark.width, width) {
        (Width::Full, _) => true,
        (Width::Narrow, Width::Narrow) => true,
        (Width::Narrow, Width::Full) => false,
    }
}

/// Whether the marks say that the second holder is so far ahead of the first.
fn is_ahead_by_marks(width: Width, ahead: u64, first: Option<Mark>, second: Option<Mark>) -> bool
    ensures { IsTrue result ↔ IsAheadByMarks width ahead first second }
{
    let (Some(m), Some(n)) = (first, second) else {
        return false;
    };
    m.origin == n.origin
        && reaches(m, width)
        && reaches(n, width)
        && m.distance_to(n, width) == ahead
}

/// The low bits of a number.
fn cut_to(width: Width, number: u64) -> u64
    ensures { result ≡ cut width number }
{
    match width {
        Width::Full => number,
        Width::Narrow => number % (1 << 32),
    }
}

/// Whether the numbers are so far apart.
fn is_ahead_by_numbers(width: Width, ahead: u64, first: Option<u64>, second: Option<u64>) -> bool
    ensures { IsTrue result ↔ IsAheadByNumbers width ahead first second }
{
    let (Some(x), Some(y)) = (first, second) else {
        return false;
    };
    cut_to(width, y) == cut_to(width, x.wrapping_add(ahead))
}

fn is_ahead(width: Width, ahead: u64, first: Holder, second: Holder) -> bool
    ensures { IsTrue result ↔ IsAhead width ahead first second }
{
    is_ahead_by_marks(width, ahead, first.mark, second.mark)
        || is_ahead_by_numbers(width, ahead, first.number, second.number)
}

/// Whether what two marks say of the holders at two places is known of these.
fn is_mark_within(state: &TrackedState, first: usize, second: usize, m: Mark, n: Mark) -> bool
    requires first { first < 75 }
    requires second { second < 75 }
    ensures { let a = tracked_of state.now in
        IsTrue result ↔ IsMarkWithin (rules.holder_at a first) (rules.holder_at a second) m n }
{
    if m.origin != n.origin {
        return true;
    }
    let width = m.common_width(n);
    let ahead = m.distance_to(n, width);
    is_ahead(
        width,
        ahead,
        holder_at(state, first),
        holder_at(state, second),
    )
}

/// Whether what the marks of two places say, if both have one, is known of these.
fn is_pair_within(
    state: &TrackedState,
    first: usize,
    second: usize,
    m: Option<Mark>,
    n: Mark,
) -> bool
    requires first { first < 75 }
    requires second { second < 75 }
    ensures { let a = tracked_of state.now in
        IsTrue result ↔ IsPairWithin (rules.holder_at a first) (rules.holder_at a second) m (Option.Some n) }
{
    match m {
        Some(m) => is_mark_within(state, first, second, m, n),
        None => true,
    }
}

/// Whether what a mark of a place says of it and of each place before it is known of these.
fn is_marked_place_within(
    first: &TrackedState,
    second: &TrackedState,
    place: usize,
    mark: Mark,
) -> bool
    requires { place < 75 }
    ensures { let a = tracked_of first.now in
        IsTrue result ↔ ((j : ℕ) → j < place → IsPairWithin (rules.holder_at a j) (rules.holder_at a place)
        (rules.mark_at (tracked_of second.now) j) (Option.Some mark)) }
{
    for j in 0..place {
        if !is_pair_within(first, j, place, mark_at(second, j), mark) {
            return false;
        }
    }
    true
}

/// Whether what the mark of a place says, if it has one, of it and of each place before it is known of these.
fn is_place_within(first: &TrackedState, second: &TrackedState, place: usize) -> bool
    requires { place < 75 }
    ensures { let a = tracked_of first.now in
        IsTrue result ↔ ((j : ℕ) → j < place → IsPairWithin (rules.holder_at a j) (rules.holder_at a place)
        (rules.mark_at (tracked_of second.now) j) (rules.mark_at (tracked_of second.now) place)) }
{
    match mark_at(second, place) {
        Some(mark) => is_marked_place_within(first, second, place, mark),
        None => true,
    }
}

/// Whether the marks of the second state follow from what the first knows.
pub fn are_marks_within(first: &TrackedState, second: &TrackedState) -> bool
    ensures { IsTrue result ↔ AreMarksWithin (tracked_of first.now) (tracked_of second.now) }
{
    for i in 0..PLACES {
        if !is_place_within(first, second, i) {
            return false;
        }
    }
    true
}
