//! Where what a refused instruction wants was known last, in words.
ghost use Rattle.std.specs.Prelude.{◌≡◌, ◌++◌, ◌∷◌, [], ◌<◌, ◌≤◌, OnOk, codes, length, string_bytes};
ghost use Rattle.std.specs.Fmt.{decimal};
ghost use Rattle.bpf_words.specs.Words.{program_of};
ghost use Rattle.abstract_state.specs.Situation.{situation_of};
ghost use Rattle.refusal_needs.specs.Wanted.{place_text, wanted_text};
ghost use Rattle.known_ways.specs.Ways.{KnownBelow, ways_into};
ghost use Rattle.need_trails.specs.Trail.{EndsBy, until_text, end_text, origin_text, since_text, wanted_trail_text};
ghost use Rattle.need_trails.specs.Trail.{joined_text, trail_text};

use crate::back::{End, Trail, follow};
use crate::copies::push_copy;
use crate::joined::push_joined;
use crate::told::{insn_of, state_before};
use abstract_state::refusal::Refusal;
use abstract_state::state::AbsState;
use known_ways::knowledge::Knowledge;
use refusal_needs::refused_for::refused_for;
use refusal_needs::wanted::Wanted;
use refusal_needs::words::push_place;
use std::alloc::{AllocError, Global};

fn until(known: bool) -> &'static str
    ensures { result.now ≡ until_text known }
{
    if known {
        "known until slot "
    } else {
        "never known: slot "
    }
}

/// Appends at which slot another value is written.
fn push_written(
    text: &mut String,
    wanted: &Wanted,
    slot: usize,
    known: bool,
) -> Result<(), AllocError>
    ensures { OnOk result (string_bytes text.new ≡ string_bytes text.old
        ++ (until_text known ++ decimal slot ++ codes " writes " ++ place_text wanted.now.place ++ 10 ∷ [])) }
{
    text.push_str(until(known))?;
    write!(text, "{slot} writes ")?;
    push_place(text, wanted.place)?;
    text.push('\n')
}

/// Appends before which slot it is known.
fn push_lost(text: &mut String, slot: usize) -> Result<(), AllocError>
    ensures { OnOk result (string_bytes text.new ≡ string_bytes text.old
        ++ (codes "known before slot " ++ decimal slot ++ codes ", not behind it" ++ 10 ∷ [])) }
{
    writeln!(text, "known before slot {slot}, not behind it")
}

/// Appends on which of the ways that join at a slot it is known.
fn push_joins(
    alloc: Global,
    text: &mut String,
    knowledge: &Knowledge<'_>,
    wanted: &Wanted,
    slot: usize,
) -> Result<(), AllocError>
    requires known { KnownBelow knowledge.now.profile (program_of knowledge.now.words.now)
        knowledge.now.states.items }
    requires within { slot ≤ length knowledge.now.states.items }
    ensures { OnOk result (string_bytes text.new ≡ string_bytes text.old
        ++ joined_text wanted.now slot (ways_into knowledge.now.profile (program_of knowledge.now.words.now) slot)) }
{
    let ways = knowledge.ways_into(alloc, slot)?;
    push_joined(text, ways.as_slice(), wanted, slot)
}

/// Appends why one goes back no further.
#[tactic(auto, unfolding(crate::specs::Trail::end_text))]
fn push_end(
    alloc: Global,
    text: &mut String,
    knowledge: &Knowledge<'_>,
    trail: &Trail,
) -> Result<(), AllocError>
    requires known { KnownBelow knowledge.now.profile (program_of knowledge.now.words.now)
        knowledge.now.states.items }
    requires within { EndsBy (length knowledge.now.states.items) trail.now.end }
    ensures { OnOk result (string_bytes text.new ≡ string_bytes text.old
        ++ end_text knowledge.now.profile (program_of knowledge.now.words.now) trail.now) }
{
    match trail.end {
        End::Written(slot, known) => push_written(text, &trail.wanted, slot, known),
        End::Lost(slot) => push_lost(text, slot),
        End::Joined(slot) => push_joins(alloc, text, knowledge, &trail.wanted, slot),
        End::Start => text.push_str("never known\n"),
    }
}

/// Appends what is wanted, and the line's end.
fn push_want(text: &mut String, wanted: &Wanted, state: &AbsState) -> Result<(), AllocError>
    ensures { OnOk result (string_bytes text.new ≡ string_bytes text.old
        ++ (wanted_text (situation_of state.now) wanted.now ++ 10 ∷ [])) }
{
    wanted.push(text, state)?;
    text.push('\n')
}

fn push_origin(
    text: &mut String,
    slot: usize,
    wanted: &Wanted,
    state: &AbsState,
) -> Result<(), AllocError>
    ensures { OnOk result (string_bytes text.new ≡ string_bytes text.old
        ++ origin_text slot wanted.now (situation_of state.now)) }
{
    write!(text, "before slot {slot}: ")?;
    push_want(text, wanted, state)
}

/// Appends what is wanted of the value where it comes from, if that is before another slot.
#[tactic(auto, unfolding(crate::specs::Trail::since_text))]
fn push_since(
    text: &mut String,
    knowledge: &Knowledge<'_>,
    trail: &Trail,
    slot: usize,
) -> Result<(), AllocError>
    requires known { KnownBelow knowledge.now.profile (program_of knowledge.now.words.now)
        knowledge.now.states.items }
    requires within { slot < length knowledge.now.states.items }
    ensures { OnOk result (string_bytes text.new ≡ string_bytes text.old
        ++ since_text knowledge.now.profile (program_of knowledge.now.words.now) trail.now slot) }
{
    if trail.slot >= slot {
        return Ok(());
    }
    match state_before(knowledge, trail.slot) {
        Some(state) => push_origin(text, trail.slot, &trail.wanted, state),
        None => Ok(()),
    }
}

/// Appends what is wanted, and where that was known last.
#[tactic(auto, unfolding(crate::specs::Trail::wanted_trail_text))]
fn push_wanted(
    alloc: Global,
    text: &mut String,
    knowledge: &Knowledge<'_>,
    state: &AbsState,
    slot: usize,
    wanted: Wanted,
) -> Result<(), AllocError>
    requires known { KnownBelow knowledge.now.profile (program_of knowledge.now.words.now)
        knowledge.now.states.items }
    requires within { slot < length knowledge.now.states.items }
    ensures { OnOk result (string_bytes text.new ≡ string_bytes text.old
        ++ wanted_trail_text knowledge.now.profile (program_of knowledge.now.words.now) (situation_of state.now)
        slot wanted) }
{
    let found = follow(alloc, knowledge, wanted, slot)?;
    text.push_str("wanted: ")?;
    push_want(text, &wanted, state)?;
    push_copy(alloc, text, knowledge, state, wanted, slot)?;
    push_since(text, knowledge, &found, slot)?;
    push_end(alloc, text, knowledge, &found)
}

/// Appends what the refused instruction wants of a value, what is wanted of that value where it comes from, and where
/// that was known last; nothing where more than one value is at fault.
#[tactic(auto, unfolding(crate::specs::Trail::trail_text))]
pub fn push_trail(
    alloc: Global,
    text: &mut String,
    knowledge: &Knowledge<'_>,
    slot: usize,
    fault: Refusal,
) -> Result<(), AllocError>
    requires known { KnownBelow knowledge.now.profile (program_of knowledge.now.words.now)
        knowledge.now.states.items }
    requires within { slot < length knowledge.now.states.items }
    ensures { OnOk result (string_bytes text.new ≡ string_bytes text.old
        ++ trail_text knowledge.now.profile (program_of knowledge.now.words.now) slot fault) }
{
    let Some(state) = state_before(knowledge, slot) else {
        return Ok(());
    };
    let Some(insn) = insn_of(knowledge, slot) else {
        return Ok(());
    };
    match refused_for(state, &insn, fault) {
        Some(wanted) => push_wanted(alloc, text, knowledge, state, slot, wanted),
        None => Ok(()),
    }
}
