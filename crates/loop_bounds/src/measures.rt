//! A value that moves one way in a loop, wherever it is held.

use crate::edges::{Edge, Slots, States};
use abstract_state::known::Known;
use abstract_state::quantity::Quantity;
use abstract_state::region::Region;
use abstract_state::state::AbsState;
use bpf_words::words::Words;
use label_potentials::counted::{counted, held};
use label_potentials::potential::{Base, Holder};
use potential_edges::ahead::ahead_of;
use potential_edges::source::{Source, source_of};
use std::alloc::{AllocError, Global};
use tracked_state::state::TrackedState;

/// How many holders there are: eleven registers, and 64 slots of the stack.
pub(crate) const HOLDERS: u8 = 75;

pub(crate) fn holder_at(place: u8) -> Holder {
    if place < 11 {
        Holder::Register(place)
    } else {
        Holder::StackSlot(place - 11)
    }
}

fn tracked_at(states: States<'_>, slot: usize) -> Option<&TrackedState> {
    match states.get(slot) {
        Some(Some(state)) => Some(state),
        _ => None,
    }
}

pub(crate) fn state_at(states: States<'_>, slot: usize) -> Option<&AbsState> {
    match states.get(slot) {
        Some(Some(state)) => Some(&state.state),
        _ => None,
    }
}

/// From where a holder's value is counted: an address from where its region begins.
pub(crate) fn base_of(state: &AbsState, holder: Holder) -> Option<Base> {
    match held(state, holder)? {
        Known::Number(_) => Some(Base::Zero),
        Known::Lent(address) => match address.region {
            Region::Text => Some(Base::Text),
            Region::Link => Some(Base::Link),
        },
        _ => None,
    }
}

pub(crate) fn value_at(states: States<'_>, slot: usize, holder: Holder) -> Option<Quantity> {
    let state = state_at(states, slot)?;
    counted(state, holder, base_of(state, holder)?)
}

/// Where one value is held, at each slot of a loop.
#[derive(Drop)]
pub(crate) struct Held {
    holders: Vec<Option<Holder>>,
}

impl Held {
    fn nowhere(alloc: Global, slots: usize) -> Result<Held, AllocError> {
        let mut holders = Vec::with_capacity(alloc, slots)?;
        for _slot in 0..slots {
            holders.push(None)?;
        }
        Ok(Held { holders })
    }

    pub(crate) fn at(&self, slot: usize) -> Option<Holder> {
        match self.holders.get(slot) {
            Some(holder) => *holder,
            None => None,
        }
    }

    fn set(&mut self, slot: usize, holder: Holder) {
        if let Some(place) = self.holders.get_mut(slot) {
            *place = Some(holder);
        }
    }
}

/// What is held behind an edge, before it.
fn source(words: &Words<'_>, states: States<'_>, edge: &Edge, behind: Holder) -> Option<Source> {
    if edge.from >= words.len() {
        return None;
    }
    let Some(insn) = words.insn(edge.from) else {
        return None;
    };
    let state = state_at(states, edge.from)?;
    source_of(state, &insn, behind)
}

/// Goes back over each edge once. Whether a slot is new.
fn go_back(words: &Words<'_>, states: States<'_>, edges: &[Edge], held: &mut Held) -> Option<bool> {
    let mut grew = false;
    for edge in edges {
        let Some(behind) = held.at(edge.to) else {
            continue;
        };
        if held.at(edge.from).is_some() {
            continue;
        }
        let holder = source(words, states, edge, behind)?.holder;
        let _value = value_at(states, edge.from, holder)?;
        held.set(edge.from, holder);
        grew = true;
    }
    Some(grew)
}

/// Where the value in a holder at a slot is held at each slot of its loop.
pub(crate) fn follow_back(
    alloc: Global,
    words: &Words<'_>,
    states: States<'_>,
    edges: &[Edge],
    start: usize,
    holder: Holder,
) -> Result<Option<Held>, AllocError> {
    let mut held = Held::nowhere(alloc, words.len())?;
    if value_at(states, start, holder).is_none() {
        return Ok(None);
    }
    held.set(start, holder);
    for _pass in 0..words.len() {
        match go_back(words, states, edges, &mut held) {
            None => return Ok(None),
            Some(false) => break,
            Some(true) => {}
        }
    }
    Ok(Some(held))
}

/// Between which numbers lies how much the value grows on an edge.
#[derive(Clone, Copy)]
pub(crate) struct Moves {
    pub low: i64,
    pub high: i64,
}

fn is_same_base(one: Base, other: Base) -> bool {
    match (one, other) {
        (Base::Zero, Base::Zero) => true,
        (Base::Text, Base::Text) => true,
        (Base::Link, Base::Link) => true,
        _ => false,
    }
}

/// How much the value grows on an edge; where it is another holder's that goes on there, this one may be known to be
/// ahead of it.
pub(crate) fn growth(
    words: &Words<'_>,
    states: States<'_>,
    edge: &Edge,
    held: &Held,
) -> Option<Moves> {
    let before = held.at(edge.from)?;
    let behind = held.at(edge.to)?;
    let base = base_of(state_at(states, edge.from)?, before)?;
    if !is_same_base(base, base_of(state_at(states, edge.to)?, behind)?) {
        return None;
    }
    let from = source(words, states, edge, behind)?;
    let ahead = ahead_of(tracked_at(states, edge.from)?, before, from.holder)?;
    let ahead = i64::try_from(ahead).ok()?;
    Some(Moves {
        low: from.low.checked_add(ahead)?,
        high: from.high.checked_add(ahead)?,
    })
}

/// What is known of a value at all slots of a loop together.
#[derive(Clone, Copy)]
pub(crate) struct Reach {
    pub low: u64,
    pub high: u64,
    pub tail: Option<u64>,
    pub link_tail: Option<u64>,
}

fn tail_of(tail: Option<u32>, bound: u64, high: u64) -> Option<u64> {
    match tail {
        Some(tail) => Some(u64::from(tail)),
        None => bound.checked_sub(high),
    }
}

fn lesser(one: Option<u64>, other: Option<u64>) -> Option<u64> {
    Some(one?.min(other?))
}

fn reach_at(states: States<'_>, slot: usize, holder: Holder) -> Option<Reach> {
    let quantity = value_at(states, slot, holder)?;
    let bounds = state_at(states, slot)?.bounds;
    let high = quantity.range.high;
    Some(Reach {
        low: quantity.range.low,
        high,
        tail: tail_of(quantity.tails.text, bounds.text, high),
        link_tail: tail_of(quantity.tails.link, bounds.link, high),
    })
}

impl Reach {
    fn with(self, other: Reach) -> Reach {
        Reach {
            low: self.low.min(other.low),
            high: self.high.max(other.high),
            tail: lesser(self.tail, other.tail),
            link_tail: lesser(self.link_tail, other.link_tail),
        }
    }
}

/// What is known of the value wherever it is held; none where it isn't held at a slot.
pub(crate) fn reach_of(states: States<'_>, slots: &Slots, held: &Held) -> Option<Reach> {
    let mut reach: Option<Reach> = None;
    for slot in 0..slots.len() {
        if !slots.has(slot) {
            continue;
        }
        let here = reach_at(states, slot, held.at(slot)?)?;
        reach = match reach {
            Some(reach) => Some(reach.with(here)),
            None => Some(here),
        };
    }
    reach
}
