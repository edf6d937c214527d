//! How far one register's value is from another's.
ghost use Rattle.std.specs.Prelude.{◌≡◌, ◌-ℤ◌, ◌<◌, IfOk, IfSome, length, pos};
ghost use Rattle.bpf_words.specs.Words.{program_of};
ghost use Rattle.abstract_state.specs.Situation.{situation_of};
ghost use Rattle.refusal_needs.specs.Wanted.{in_i64};
ghost use Rattle.known_ways.specs.Ways.{KnownBelow, situation_before};
ghost use Rattle.need_trails.specs.Trail as rules;
ghost use Rattle.need_trails.specs.Trail.{distance_in, distance_by, earlier, pair_earlier, both_earlier, pair_before};
ghost use Rattle.need_trails.specs.Trail.{is_same_place, of_register, met, distance_between};

use crate::numbers::difference;
use crate::origin::{Origin, origin_of};
use crate::told::{insn_of, state_before};
use abstract_state::region::Region;
use abstract_state::state::AbsState;
use bpf_words::instruction::Insn;
use known_ways::knowledge::Knowledge;
use refusal_needs::wanted::{Need, Place, Wanted};
use std::alloc::{AllocError, Global};

/// How far a value is from that at a place before a slot.
#[derive(Clone, Copy)]
pub struct Distance {
    pub place: Place,
    pub by: i64,
}

/// How far two values are from those at places before one slot.
#[derive(Clone, Copy)]
pub struct Pair {
    pub first: Distance,
    pub second: Distance,
    pub slot: usize,
}

fn distance_in(place: Place, need: Need) -> Option<Distance>
    ensures { result ≡ distance_in place need }
{
    match need {
        Need::Within(_, by) => Some(Distance { place, by }),
        _ => None,
    }
}

fn distance_by(value: Distance, origin: Origin) -> Option<Distance>
    ensures { result ≡ distance_by value origin }
{
    match origin {
        Origin::Left => Some(value),
        Origin::Of(wanted) => distance_in(wanted.place, wanted.need),
        Origin::Written => None,
    }
}

/// What the value at a place behind an instruction was before it, and how far from that.
#[tactic(auto, unfolding(crate::specs::Trail::earlier))]
fn earlier(state: &AbsState, insn: &Insn, value: Distance) -> Option<Distance>
    ensures { result ≡ earlier (situation_of state.now) insn.now value }
{
    let wanted = Wanted {
        place: value.place,
        need: Need::Within(Region::Text, value.by),
    };
    distance_by(value, origin_of(state, insn, wanted))
}

/// The two values before an instruction.
fn pair_earlier(state: &AbsState, insn: &Insn, from: usize, pair: &Pair) -> Option<Pair>
    ensures value { result ≡ pair_earlier (situation_of state.now) insn.now from pair.now }
    ensures there { IfSome result (λ p. p.slot ≡ from) }
{
    let first = earlier(state, insn, pair.first)?;
    let second = earlier(state, insn, pair.second)?;
    Some(Pair {
        first,
        second,
        slot: from,
    })
}

/// The two values before the instruction of a slot.
fn both_earlier(knowledge: &Knowledge<'_>, from: usize, pair: &Pair) -> Option<Pair>
    requires known { KnownBelow knowledge.now.profile (program_of knowledge.now.words.now)
        knowledge.now.states.items }
    requires within { from < length knowledge.now.states.items }
    ensures value { result
        ≡ both_earlier (situation_before knowledge.now.profile (program_of knowledge.now.words.now) from)
        (rules.insn_at (program_of knowledge.now.words.now) from) from pair.now }
    ensures there { IfSome result (λ p. p.slot ≡ from) }
{
    let Some(state) = state_before(knowledge, from) else {
        return None;
    };
    match insn_of(knowledge, from) {
        Some(insn) => pair_earlier(state, &insn, from, pair),
        None => None,
    }
}

/// The two values before the instruction from which alone a way leads there.
fn pair_before(
    alloc: Global,
    knowledge: &Knowledge<'_>,
    pair: &Pair,
) -> Result<Option<Pair>, AllocError>
    requires known { KnownBelow knowledge.now.profile (program_of knowledge.now.words.now)
        knowledge.now.states.items }
    requires within { pair.now.slot < length knowledge.now.states.items }
    ensures value { IfOk result (λ before. before
        ≡ pair_before knowledge.now.profile (program_of knowledge.now.words.now) pair.now) }
    ensures below { IfOk result (λ before. IfSome before (λ p. p.slot < pair.now.slot)) }
{
    let only = knowledge.only_way_into(alloc, pair.slot)?;
    match only {
        Some(from) => Ok(both_earlier(knowledge, from, pair)),
        None => Ok(None),
    }
}

fn is_same_place(a: Place, b: Place) -> bool
    ensures { result ≡ is_same_place a b }
{
    match (a, b) {
        (Place::Register(a), Place::Register(b)) => a == b,
        (Place::Eight(a), Place::Eight(b)) => a == b,
        (Place::Bytes(a, m), Place::Bytes(b, n)) => a == b && m == n,
        _ => false,
    }
}

fn of_register(register: u8) -> Distance
    ensures { result ≡ of_register register }
{
    Distance {
        place: Place::Register(register),
        by: 0,
    }
}

/// How far the first of two values from one is from the second.
fn apart(pair: &Pair) -> Option<i64>
    ensures { result ≡ in_i64 (pair.now.first.by -ℤ pair.now.second.by) }
{
    difference(pair.first.by, pair.second.by)
}

/// How far the first of two values is from the second, where they are from one.
fn met(pair: &Pair) -> Option<i64>
    ensures { result ≡ met pair.now }
{
    if is_same_place(pair.first.place, pair.second.place) {
        apart(pair)
    } else {
        None
    }
}

/// How far the value of one register is from that of another before a slot, where it is computed from that, or both
/// from one, and no ways join in between.
pub(crate) fn distance_between(
    alloc: Global,
    knowledge: &Knowledge<'_>,
    slot: usize,
    register: u8,
    other: u8,
) -> Result<Option<i64>, AllocError>
    requires known { KnownBelow knowledge.now.profile (program_of knowledge.now.words.now)
        knowledge.now.states.items }
    requires within { slot < length knowledge.now.states.items }
    ensures { IfOk result (λ distance. distance
        ≡ distance_between knowledge.now.profile (program_of knowledge.now.words.now) slot register other) }
{
    let mut pair = Pair {
        first: of_register(register),
        second: of_register(other),
        slot,
    };
    for _step in 0..slot {
        if is_same_place(pair.first.place, pair.second.place) {
            return Ok(apart(&pair));
        }
        let earlier = pair_before(alloc, knowledge, &pair)?;
        match earlier {
            Some(before) => pair = before,
            None => return Ok(None),
        }
    }
    Ok(met(&pair))
}
