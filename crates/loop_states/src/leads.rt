//! How far the number in one register is ahead of that in another at least.
ghost use Rattle.std.specs.Prelude.{◌≡◌, option_map};
ghost use Rattle.abstract_state.specs.Addresses.{content_of};
ghost use Rattle.abstract_state.specs.Situation.{registers_of};
ghost use Rattle.tracked_state.specs.Tracked.{tracked_of};
ghost use Rattle.state_inclusion.specs.Partners.{marks_in};
ghost use Rattle.loop_states.specs.Leads as rules;

use abstract_state::known::Known;
use abstract_state::region::{Region, Tails};
use bpf_words::instruction::Width;
use bpf_words::register::Register;
use length_marks::names::{LINK_LENGTH, TEXT_LENGTH};
use tracked_state::state::TrackedState;
use value_marks::mark::Mark;

/// The region whose length has the name.
fn region_of(name: usize) -> Option<Region>
    ensures { result ≡ rules.region_of name }
{
    if name == TEXT_LENGTH {
        Some(Region::Text)
    } else if name == LINK_LENGTH {
        Some(Region::Link)
    } else {
        None
    }
}

/// What is left of a tail.
fn left_of(taken: u64, tail: u32) -> Option<u64>
    ensures { result ≡ rules.left_of taken tail }
{
    let tail = u64::from(tail);
    if taken <= tail {
        Some(tail - taken)
    } else {
        None
    }
}

/// How far a value with the mark is ahead of a number with the tails, counted from a base.
fn lead_by(base: u64, tails: Tails, mark: Mark) -> Option<u64>
    ensures { result ≡ rules.lead_by mark.width base tails mark }
{
    let Width::Full = mark.width else {
        return None;
    };
    let region = region_of(mark.origin)?;
    let tail = tails.of(region)?;
    left_of(base.wrapping_sub(mark.addend), tail)
}

fn lead_from(width: Width, known: Known, mark: Mark) -> Option<u64>
    ensures { result ≡ rules.lead_from (content_of known) width mark }
{
    match (known, width) {
        (Known::Number(quantity), _) => lead_by(0, quantity.tails, mark),
        (Known::Lent(address), Width::Full) => lead_by(
            address.region.base(),
            address.offset.tails,
            mark,
        ),
        _ => None,
    }
}

fn mark_of(state: &TrackedState, register: Register) -> Option<Mark>
    ensures { result ≡ (marks_in (tracked_of state.now)).registers register }
{
    let Some(marks) = &state.copies.marks else {
        return None;
    };
    marks.registers[register.index()]
}

fn known_of(state: &TrackedState, register: Register) -> Option<Known>
    ensures { option_map content_of result ≡ registers_of state.now.state.registers register }
{
    match state.state.read(register) {
        Ok(known) => Some(known),
        Err(_) => None,
    }
}

/// How far the number in the second register is ahead of that in the first at least, of as many bits as the width has.
pub(crate) fn lead(
    state: &TrackedState,
    width: Width,
    behind: Register,
    ahead: Register,
) -> Option<u64>
    ensures rule { result ≡ rules.lead_in width (tracked_of state.now) behind ahead }
{
    let known = known_of(state, behind)?;
    let mark = mark_of(state, ahead)?;
    lead_from(width, known, mark)
}
