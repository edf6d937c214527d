//! Back from a slot before which what is wanted isn't known, to where it was known last.
ghost use Rattle.std.specs.Prelude.{◌≡◌, ℕ, ◌<◌, IfOk, length};
ghost use Rattle.bpf_words.specs.Words.{program_of};
ghost use Rattle.abstract_state.specs.Situation.{situation_of};
ghost use Rattle.known_ways.specs.Ways.{KnownBelow, situation_before, ways_into};
ghost use Rattle.known_ways.specs.Told.{ways_seen};
ghost use Rattle.need_trails.specs.Trail as rules;
ghost use Rattle.need_trails.specs.Trail.{EndsBy, GoesBelow, back_through, back_past, back_from, trail};

use crate::knowing::is_joined;
use crate::origin::{Origin, origin_of};
use crate::told::{insn_of, state_before};
use abstract_state::state::AbsState;
use known_ways::knowledge::Knowledge;
use known_ways::way::KnownWay;
use refusal_needs::wanted::Wanted;
use std::alloc::{AllocError, Global};

/// Where one goes back no further from.
#[derive(Clone, Copy)]
pub enum End {
    /// At this slot another value is written; whether what is wanted was known before that, of what it writes over.
    Written(usize, bool),
    /// What is wanted is known before this slot, and not behind it.
    Lost(usize),
    /// Ways join at this slot, and it is known on one of them.
    Joined(usize),
    Start,
}

/// A step back from a slot before which what is wanted isn't known.
#[derive(Clone, Copy)]
pub enum Back {
    /// No further.
    Ends(End),
    /// To this slot, before which the same is wanted.
    Same(usize),
    /// To this slot, before which this is wanted.
    Other(usize, Wanted),
}

/// The trail of what is wanted, back from a refused instruction.
#[derive(Clone, Copy)]
pub struct Trail {
    /// What is wanted at last, before which slot.
    pub wanted: Wanted,
    pub slot: usize,
    pub end: End,
}

/// Back through an instruction, before which this is known.
#[tactic(auto, unfolding(crate::specs::Trail::back_through))]
fn back_through(state: &AbsState, from: usize, wanted: Wanted, origin: Origin) -> Back
    ensures value { result ≡ back_through (situation_of state.now) from wanted origin }
    ensures below { (at : ℕ) → from < at → GoesBelow at result }
{
    match origin {
        Origin::Left => {
            if wanted.is_known(state) {
                Back::Ends(End::Lost(from))
            } else {
                Back::Same(from)
            }
        }
        Origin::Of(before) => {
            if before.is_known(state) {
                Back::Ends(End::Lost(from))
            } else {
                Back::Other(from, before)
            }
        }
        Origin::Written => Back::Ends(End::Written(from, wanted.is_known(state))),
    }
}

/// Back on the way that leads from a slot.
fn back_past(knowledge: &Knowledge<'_>, from: usize, wanted: Wanted) -> Back
    requires known { KnownBelow knowledge.now.profile (program_of knowledge.now.words.now)
        knowledge.now.states.items }
    requires within { from < length knowledge.now.states.items }
    ensures value { result
        ≡ back_past (situation_before knowledge.now.profile (program_of knowledge.now.words.now) from)
        (rules.insn_at (program_of knowledge.now.words.now) from) from wanted }
    ensures below { (at : ℕ) → from < at → GoesBelow at result }
{
    let Some(state) = state_before(knowledge, from) else {
        return Back::Ends(End::Start);
    };
    match insn_of(knowledge, from) {
        Some(insn) => back_through(state, from, wanted, origin_of(state, &insn, wanted)),
        None => Back::Ends(End::Start),
    }
}

/// Back on the last of the ways into a slot; no further where ways join of which one knows it.
fn back_by(knowledge: &Knowledge<'_>, wanted: Wanted, at: usize, ways: &[KnownWay]) -> Back
    requires known { KnownBelow knowledge.now.profile (program_of knowledge.now.words.now)
        knowledge.now.states.items }
    requires within { at < length knowledge.now.states.items }
    requires are { ways_seen ways.now
        ≡ ways_into knowledge.now.profile (program_of knowledge.now.words.now) at }
    ensures value { result ≡ back_from knowledge.now.profile (program_of knowledge.now.words.now) wanted at }
    ensures below { GoesBelow at result }
{
    if is_joined(&wanted, ways) {
        return Back::Ends(End::Joined(at));
    }
    match ways.last() {
        Some(way) => back_past(knowledge, way.from, wanted),
        None => Back::Ends(End::Start),
    }
}

fn back_from(
    alloc: Global,
    knowledge: &Knowledge<'_>,
    wanted: Wanted,
    at: usize,
) -> Result<Back, AllocError>
    requires known { KnownBelow knowledge.now.profile (program_of knowledge.now.words.now)
        knowledge.now.states.items }
    requires within { at < length knowledge.now.states.items }
    ensures value { IfOk result (λ back. back
        ≡ back_from knowledge.now.profile (program_of knowledge.now.words.now) wanted at) }
    ensures below { IfOk result (λ back. GoesBelow at back) }
{
    let ways = knowledge.ways_into(alloc, at)?;
    Ok(back_by(knowledge, wanted, at, ways.as_slice()))
}

/// Goes back from a slot before which what is wanted isn't known.
pub(crate) fn follow(
    alloc: Global,
    knowledge: &Knowledge<'_>,
    wanted: Wanted,
    slot: usize,
) -> Result<Trail, AllocError>
    requires known { KnownBelow knowledge.now.profile (program_of knowledge.now.words.now)
        knowledge.now.states.items }
    requires within { slot < length knowledge.now.states.items }
    ensures value { IfOk result (λ found. found
        ≡ trail knowledge.now.profile (program_of knowledge.now.words.now) wanted slot) }
    ensures within { IfOk result (λ found. EndsBy (length knowledge.now.states.items) found.end) }
{
    let mut last = wanted;
    let mut since = slot;
    let mut at = slot;
    for _step in 0..slot {
        let back = back_from(alloc, knowledge, last, at)?;
        match back {
            Back::Ends(end) => {
                return Ok(Trail {
                    wanted: last,
                    slot: since,
                    end,
                });
            }
            Back::Same(from) => at = from,
            Back::Other(from, before) => {
                last = before;
                since = from;
                at = from;
            }
        }
    }
    Ok(Trail {
        wanted: last,
        slot: since,
        end: End::Start,
    })
}
