//! Registers of which what is wanted of another one is known, as they are copies of it, or so far from it.
ghost use Rattle.std.specs.Prelude.{◌≡◌, ◌++◌, ◌<◌, IfOk, OnOk, length, string_bytes};
ghost use Rattle.bpf_words.specs.Words.{program_of};
ghost use Rattle.abstract_state.specs.Situation.{situation_of};
ghost use Rattle.known_ways.specs.Ways.{KnownBelow};
ghost use Rattle.need_trails.specs.Trail.{is_order, wanted_in, neighbor_of, neighbor_by, neighbor_at, first_neighbor};
ghost use Rattle.need_trails.specs.Trail.{relation_text, neighbor_text, copy_text_in, copy_text};

use crate::adding::before_adding;
use crate::distance::distance_between;
use crate::numbers::opposite;
use abstract_state::state::AbsState;
use known_ways::knowledge::Knowledge;
use refusal_needs::wanted::{Need, Place, Wanted};
use refusal_needs::words::push_difference;
use std::alloc::{AllocError, Global};

/// A register by how far it is from another one, and what is known of it.
#[derive(Clone, Copy)]
pub struct Neighbor {
    pub register: u8,
    pub by: i64,
    pub need: Need,
}

/// Whether it says how a value stands to others.
fn is_order(need: Need) -> bool
    ensures { result ≡ is_order need }
{
    match need {
        Need::Set | Need::Number | Need::OneNumber | Need::Address | Need::StackAddress => false,
        Need::Within(_, _) | Need::Behind(_, _) | Need::AtMost(_) => true,
    }
}

fn wanted_in(register: u8, need: Need) -> Wanted
    ensures { result ≡ wanted_in register need }
{
    Wanted {
        place: Place::Register(register),
        need,
    }
}

fn neighbor_of(state: &AbsState, register: u8, by: i64, need: Need) -> Option<Neighbor>
    ensures { result ≡ neighbor_of (situation_of state.now) register by need }
{
    if wanted_in(register, need).is_known(state) {
        Some(Neighbor { register, by, need })
    } else {
        None
    }
}

#[tactic(auto, unfolding(crate::specs::Trail::neighbor_by))]
fn neighbor_by(state: &AbsState, need: Need, register: u8, by: i64) -> Option<Neighbor>
    ensures { result ≡ neighbor_by (situation_of state.now) need register by }
{
    let back = opposite(by)?;
    neighbor_of(state, register, by, before_adding(need, back)?)
}

#[tactic(auto, unfolding(crate::specs::Trail::neighbor_at))]
fn neighbor_at(
    alloc: Global,
    knowledge: &Knowledge<'_>,
    state: &AbsState,
    slot: usize,
    number: u8,
    need: Need,
    register: u8,
) -> Result<Option<Neighbor>, AllocError>
    requires known { KnownBelow knowledge.now.profile (program_of knowledge.now.words.now)
        knowledge.now.states.items }
    requires within { slot < length knowledge.now.states.items }
    ensures { IfOk result (λ neighbor. neighbor ≡ neighbor_at knowledge.now.profile
        (program_of knowledge.now.words.now) (situation_of state.now) slot number need register) }
{
    if register == number {
        return Ok(None);
    }
    match distance_between(alloc, knowledge, slot, register, number)? {
        Some(by) => Ok(neighbor_by(state, need, register, by)),
        None => Ok(None),
    }
}

/// The first register from r0 to r9 that is so far from the wanted one and of which it is known.
fn first_neighbor(
    alloc: Global,
    knowledge: &Knowledge<'_>,
    state: &AbsState,
    slot: usize,
    number: u8,
    need: Need,
) -> Result<Option<Neighbor>, AllocError>
    requires known { KnownBelow knowledge.now.profile (program_of knowledge.now.words.now)
        knowledge.now.states.items }
    requires within { slot < length knowledge.now.states.items }
    ensures { IfOk result (λ neighbor. neighbor ≡ first_neighbor knowledge.now.profile
        (program_of knowledge.now.words.now) (situation_of state.now) slot number need 10) }
{
    for register in 0..10 {
        let neighbor = neighbor_at(alloc, knowledge, state, slot, number, need, register)?;
        if neighbor.is_some() {
            return Ok(neighbor);
        }
    }
    Ok(None)
}

fn push_relation(text: &mut String, number: u8, neighbor: &Neighbor) -> Result<(), AllocError>
    ensures { OnOk result (string_bytes text.new ≡ string_bytes text.old ++ relation_text number neighbor.now) }
{
    let register = neighbor.register;
    write!(text, "r{register} is r{number}")?;
    push_difference(text, neighbor.by)
}

fn push_neighbor(
    text: &mut String,
    state: &AbsState,
    number: u8,
    neighbor: &Neighbor,
) -> Result<(), AllocError>
    ensures { OnOk result (string_bytes text.new ≡ string_bytes text.old
        ++ neighbor_text (situation_of state.now) number neighbor.now) }
{
    push_relation(text, number, neighbor)?;
    text.push_str(", and known is: ")?;
    wanted_in(neighbor.register, neighbor.need).push(text, state)?;
    text.push('\n')
}

fn push_copy_in(
    alloc: Global,
    text: &mut String,
    knowledge: &Knowledge<'_>,
    state: &AbsState,
    number: u8,
    need: Need,
    slot: usize,
) -> Result<(), AllocError>
    requires known { KnownBelow knowledge.now.profile (program_of knowledge.now.words.now)
        knowledge.now.states.items }
    requires within { slot < length knowledge.now.states.items }
    ensures { OnOk result (string_bytes text.new ≡ string_bytes text.old
        ++ copy_text_in knowledge.now.profile (program_of knowledge.now.words.now) (situation_of state.now)
        (Place.Register number) need slot) }
{
    if !is_order(need) {
        return Ok(());
    }
    match first_neighbor(alloc, knowledge, state, slot, number, need)? {
        Some(neighbor) => push_neighbor(text, state, number, &neighbor),
        None => Ok(()),
    }
}

/// Appends which register what is wanted of one is known of, as it is a copy, or so far from it.
#[tactic(auto, unfolding(crate::specs::Trail::copy_text))]
pub(crate) fn push_copy(
    alloc: Global,
    text: &mut String,
    knowledge: &Knowledge<'_>,
    state: &AbsState,
    wanted: Wanted,
    slot: usize,
) -> Result<(), AllocError>
    requires known { KnownBelow knowledge.now.profile (program_of knowledge.now.words.now)
        knowledge.now.states.items }
    requires within { slot < length knowledge.now.states.items }
    ensures { OnOk result (string_bytes text.new ≡ string_bytes text.old
        ++ copy_text knowledge.now.profile (program_of knowledge.now.words.now) (situation_of state.now)
        wanted slot) }
{
    match wanted.place {
        Place::Register(number) => {
            push_copy_in(alloc, text, knowledge, state, number, wanted.need, slot)
        }
        Place::Eight(_) | Place::Bytes(_, _) => Ok(()),
    }
}
