//! Potentials: in each loop so much for each turn that its measure has left, and within it the same again without the
//! edges on which the measure moves.

use crate::edges::{Edge, Slots, States, component, edges_of, within};
use crate::linear::{Linear, greatest, one_step, with_more};
use crate::measures::{
    HOLDERS, Held, Reach, base_of, follow_back, growth, holder_at, reach_of, state_at,
};
use bpf_words::words::Words;
use label_potentials::potential::{Potential, Term};
use std::alloc::{AllocError, Global};

/// How deep loops stand within one another at most: each has a term of the potential.
const DEPTH: u8 = 8;

/// The potential before each slot, where there is one.
pub type Potentials = Vec<Option<Potential>>;

#[derive(Clone, Copy)]
struct Bounding<'a> {
    alloc: Global,
    words: &'a Words<'a>,
    states: States<'a>,
}

fn none_found(alloc: Global, slots: usize) -> Result<Potentials, AllocError> {
    let mut found = Vec::with_capacity(alloc, slots)?;
    for _slot in 0..slots {
        found.push(None)?;
    }
    Ok(found)
}

fn found_at(found: &[Option<Potential>], slot: usize) -> Option<Potential> {
    match found.get(slot) {
        Some(potential) => *potential,
        None => None,
    }
}

fn put(found: &mut Potentials, slot: usize, potential: Potential) {
    if let Some(place) = found.get_mut(slot) {
        *place = Some(potential);
    }
}

impl Bounding<'_> {
    /// What a slot's potential is at most.
    fn most_at(&self, found: &[Option<Potential>], slot: usize) -> Option<Linear> {
        let potential = found_at(found, slot)?;
        greatest(state_at(self.states, slot)?, &potential)
    }

    /// What is left at most behind the edges that lead out of a component; none where that isn't known yet.
    fn behind(&self, found: &[Option<Potential>], edges: &[Edge], part: &Slots) -> Option<Linear> {
        let mut most = Linear::nothing();
        for edge in edges {
            if part.has(edge.from) && !part.has(edge.to) {
                most = most.greater(self.most_at(found, edge.to)?);
            }
        }
        Some(most)
    }

    /// What the slots of a component are at most.
    fn worst(&self, found: &[Option<Potential>], part: &Slots) -> Option<Linear> {
        let mut most = Linear::nothing();
        for slot in 0..part.len() {
            if part.has(slot) {
                most = most.greater(self.most_at(found, slot)?);
            }
        }
        Some(most)
    }

    /// Potentials of the slots, in which edges lead between them; none where a loop has no measure.
    #[cycle(bound)]
    fn potentials(
        &self,
        depth: u8,
        slots: &Slots,
        edges: &[Edge],
    ) -> Result<Option<Potentials>, AllocError> {
        let mut found = none_found(self.alloc, slots.len())?;
        for _pass in 0..slots.len() {
            let mut grew = false;
            for slot in (0..slots.len()).rev() {
                if !slots.has(slot) || found_at(&found, slot).is_some() {
                    continue;
                }
                let part = component(self.alloc, slots.len(), slot, edges)?;
                let Some(rest) = self.behind(&found, edges, &part) else {
                    continue;
                };
                let inner = within(self.alloc, edges, &part)?;
                let Some(turns) = self.turns(depth, &part, &inner)? else {
                    return Ok(None);
                };
                grew = true;
                if !settle(&mut found, &part, &turns, rest) {
                    return Ok(None);
                }
            }
            if !grew {
                break;
            }
        }
        Ok(Some(found))
    }

    /// Potentials of a component by itself: of one slot, or of a loop by the measure that bounds it best.
    #[cycle(bound)]
    fn turns(
        &self,
        depth: u8,
        part: &Slots,
        inner: &[Edge],
    ) -> Result<Option<Potentials>, AllocError> {
        if inner.is_empty() {
            return Ok(Some(single(self.alloc, part)?));
        }
        if depth == 0 {
            return Ok(None);
        }
        let mut best: Option<(i64, Potentials)> = None;
        for edge in inner {
            if edge.to > edge.from {
                continue;
            }
            for place in 0..HOLDERS {
                let held = follow_back(
                    self.alloc,
                    self.words,
                    self.states,
                    inner,
                    edge.to,
                    holder_at(place),
                )?;
                let Some(held) = held else {
                    continue;
                };
                let Some(by) = self.moves(inner, &held) else {
                    continue;
                };
                let rest = self.still(inner, &held, by)?;
                let Some(turn) = self.potentials(depth - 1, part, &rest)? else {
                    continue;
                };
                let Some(paid) = self.paid(depth - 1, part, &held, by, turn)? else {
                    continue;
                };
                let Some(most) = self.worst(&paid, part) else {
                    continue;
                };
                best = better(best, most.most(), paid);
            }
        }
        Ok(best.map(|(_most, potentials)| potentials))
    }

    /// By how much a value moves at least on the edges where it does, and which way; none where it doesn't go one way.
    fn moves(&self, inner: &[Edge], held: &Held) -> Option<i64> {
        let mut up = Some(0);
        let mut down = Some(0);
        for edge in inner {
            let by = growth(self.words, self.states, edge, held)?;
            up = slower(up, by.low);
            down = slower(down, by.high.checked_neg()?);
        }
        match (up, down) {
            (Some(0) | None, Some(0) | None) => None,
            (Some(0) | None, Some(by)) => by.checked_neg(),
            (by, _) => by,
        }
    }

    /// The edges on which it may stand still.
    fn still(&self, inner: &[Edge], held: &Held, by: i64) -> Result<Vec<Edge>, AllocError> {
        let mut rest = Vec::new(self.alloc);
        for edge in inner {
            let least = match growth(self.words, self.states, edge, held) {
                Some(growth) if by > 0 => growth.low,
                Some(growth) => growth.high,
                None => 0,
            };
            if least == 0 {
                rest.push(*edge)?;
            }
        }
        Ok(rest)
    }

    /// The potentials of a turn, and so much more as all turns that are left may take.
    fn paid(
        &self,
        place: u8,
        part: &Slots,
        held: &Held,
        by: i64,
        mut turn: Potentials,
    ) -> Result<Option<Potentials>, AllocError> {
        let Some((weight, more)) = self.price(part, held, by, &turn) else {
            return Ok(None);
        };
        for slot in 0..part.len() {
            if !part.has(slot) {
                continue;
            }
            let Some(potential) = self.with_turns(&turn, slot, place, held, weight, more) else {
                return Ok(None);
            };
            put(&mut turn, slot, potential);
        }
        Ok(Some(turn))
    }

    /// What each unit of the measure costs, and what all units may.
    fn price(
        &self,
        part: &Slots,
        held: &Held,
        by: i64,
        turn: &[Option<Potential>],
    ) -> Option<(i32, Linear)> {
        let worst = self.worst(turn, part)?.each();
        let step = i64::try_from(by.unsigned_abs()).ok()?;
        let each = worst.checked_add(step.checked_sub(1)?)?.checked_div(step)?;
        let each = i32::try_from(each).ok()?;
        all_units(reach_of(self.states, part, held)?, by, each)
    }

    fn with_turns(
        &self,
        turn: &[Option<Potential>],
        slot: usize,
        place: u8,
        held: &Held,
        weight: i32,
        more: Linear,
    ) -> Option<Potential> {
        let holder = held.at(slot)?;
        let base = base_of(state_at(self.states, slot)?, holder)?;
        let mut potential = with_more(&found_at(turn, slot)?, more)?;
        let term = potential.less.get_mut(usize::from(place))?;
        *term = Term {
            weight,
            holder,
            base,
        };
        Some(potential)
    }
}

/// The weight of the measure, and what it is taken from: the length behind a value that grows, or its greatest value;
/// of a value that falls what it is above its least.
fn all_units(reach: Reach, by: i64, each: i32) -> Option<(i32, Linear)> {
    let mut all = Linear::nothing();
    if by < 0 {
        let low = i64::try_from(reach.low).ok()?;
        all.constant = i64::from(each).checked_mul(low)?.checked_neg()?;
        return Some((each.checked_neg()?, all));
    }
    if reach.tail.is_some() {
        all.per_byte = each;
    } else if reach.link_tail.is_some() {
        all.per_link_byte = each;
    } else {
        all.constant = i64::from(each).checked_mul(i64::try_from(reach.high).ok()?)?;
    }
    Some((each, all))
}

/// The lesser of two moves one way, but for none; none where one goes the other way.
fn slower(by: Option<i64>, more: i64) -> Option<i64> {
    let by = by?;
    if more < 0 {
        return None;
    }
    if by == 0 || more == 0 {
        return Some(by.max(more));
    }
    Some(by.min(more))
}

/// The one of two that is less at the longest texts.
fn better(
    best: Option<(i64, Potentials)>,
    most: i64,
    paid: Potentials,
) -> Option<(i64, Potentials)> {
    match best {
        Some((least, potentials)) if least <= most => Some((least, potentials)),
        _ => Some((most, paid)),
    }
}

fn single(alloc: Global, part: &Slots) -> Result<Potentials, AllocError> {
    let mut found = none_found(alloc, part.len())?;
    for slot in 0..part.len() {
        if part.has(slot) {
            put(&mut found, slot, one_step());
        }
    }
    Ok(found)
}

/// Notes a component's potentials, and what is left behind it. Whether all fit.
fn settle(found: &mut Potentials, part: &Slots, turns: &[Option<Potential>], rest: Linear) -> bool {
    for slot in 0..part.len() {
        if !part.has(slot) {
            continue;
        }
        let Some(potential) = found_at(turns, slot) else {
            return false;
        };
        let Some(potential) = with_more(&potential, rest) else {
            return false;
        };
        put(found, slot, potential);
    }
    true
}

/// Potentials of a program whose states are known; none where a loop has no measure that is found.
pub fn find_potentials(
    alloc: Global,
    words: &Words<'_>,
    states: States<'_>,
) -> Result<Option<Potentials>, AllocError> {
    let edges = edges_of(alloc, words, states)?;
    let mut slots = Slots::none(alloc, words.len())?;
    for slot in 0..words.len() {
        if state_at(states, slot).is_some() {
            slots.add(slot);
        }
    }
    let bounding = Bounding {
        alloc,
        words,
        states,
    };
    bounding.potentials(DEPTH, &slots, &edges)
}
