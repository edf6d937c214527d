//! Edges between the slots of a program, and what can be reached by them.

use bpf_words::instruction::Insn;
use bpf_words::words::Words;
use std::alloc::{AllocError, Global};
use tracked_state::state::TrackedState;

/// From one slot to another, by the instruction of the first.
#[derive(Clone, Copy)]
pub(crate) struct Edge {
    pub from: usize,
    pub to: usize,
}

/// What is known before each slot, where a run can come there.
pub type States<'a> = &'a [Option<Box<TrackedState>>];

/// The slot to which an instruction at a slot jumps.
fn target(slot: usize, distance: i32) -> Option<usize> {
    let behind = i64::try_from(slot).ok()?.checked_add(1)?;
    let to = behind.checked_add(i64::from(distance))?;
    usize::try_from(to).ok()
}

/// The slot behind an instruction, where a run can go on there.
fn next(slot: usize, insn: &Insn) -> Option<usize> {
    match insn {
        Insn::Jump { .. } | Insn::JumpLong { .. } | Insn::Exit => None,
        _ => slot.checked_add(insn.slots()),
    }
}

fn is_reached(states: States<'_>, slot: usize) -> bool {
    match states.get(slot) {
        Some(Some(_)) => true,
        _ => false,
    }
}

fn add(
    edges: &mut Vec<Edge>,
    states: States<'_>,
    from: usize,
    to: Option<usize>,
) -> Result<(), AllocError> {
    let Some(to) = to else {
        return Ok(());
    };
    if is_reached(states, to) {
        edges.push(Edge { from, to })?;
    }
    Ok(())
}

/// Whether what is known before a comparison tells that no run goes along its edge where it holds, or along the other.
fn is_dead(states: States<'_>, slot: usize, insn: &Insn, taken: bool) -> bool {
    match (states.get(slot), insn) {
        (
            Some(Some(known)),
            Insn::Branch {
                width,
                comparison,
                left,
                right,
                ..
            },
        ) => known
            .state
            .is_dead_edge(*width, *comparison, *left, right, taken),
        _ => false,
    }
}

/// The edges from slots to which runs come.
pub(crate) fn edges_of(
    alloc: Global,
    words: &Words<'_>,
    states: States<'_>,
) -> Result<Vec<Edge>, AllocError> {
    let mut edges = Vec::new(alloc);
    for slot in 0..words.len() {
        let Some(insn) = words.insn(slot) else {
            continue;
        };
        if !is_reached(states, slot) {
            continue;
        }
        if !is_dead(states, slot, &insn, true) {
            let jump = insn.distance().and_then(|distance| target(slot, distance));
            add(&mut edges, states, slot, jump)?;
        }
        if !is_dead(states, slot, &insn, false) {
            add(&mut edges, states, slot, next(slot, &insn))?;
        }
    }
    Ok(edges)
}

/// A set of slots.
#[derive(Drop)]
pub(crate) struct Slots {
    members: Vec<bool>,
}

impl Slots {
    pub(crate) fn none(alloc: Global, slots: usize) -> Result<Slots, AllocError> {
        let mut members = Vec::with_capacity(alloc, slots)?;
        for _slot in 0..slots {
            members.push(false)?;
        }
        Ok(Slots { members })
    }

    pub(crate) fn len(&self) -> usize {
        self.members.len()
    }

    pub(crate) fn has(&self, slot: usize) -> bool {
        match self.members.get(slot) {
            Some(member) => *member,
            None => false,
        }
    }

    pub(crate) fn add(&mut self, slot: usize) {
        if let Some(member) = self.members.get_mut(slot) {
            *member = true;
        }
    }

    /// Adds where an edge leads from a member. Whether that is new.
    fn follow(&mut self, from: usize, to: usize) -> bool {
        let is_new = self.has(from) && !self.has(to) && to < self.len();
        if is_new {
            self.add(to);
        }
        is_new
    }

    pub(crate) fn remove(&mut self, slot: usize) {
        if let Some(member) = self.members.get_mut(slot) {
            *member = false;
        }
    }
}

/// Adds what one pass over the edges reaches, from the last edge on where they are followed back, since most lead to a
/// later slot. Whether anything is new.
fn extend(reached: &mut Slots, edges: &[Edge], is_forward: bool) -> bool {
    let mut grew = false;
    for number in 0..edges.len() {
        grew |= if is_forward {
            let edge = edges[number];
            reached.follow(edge.from, edge.to)
        } else {
            let edge = edges[edges.len() - 1 - number];
            reached.follow(edge.to, edge.from)
        };
    }
    grew
}

/// The slots that edges lead to from a slot, or from which they lead to it.
fn reach(
    alloc: Global,
    slots: usize,
    start: usize,
    edges: &[Edge],
    is_forward: bool,
) -> Result<Slots, AllocError> {
    let mut reached = Slots::none(alloc, slots)?;
    reached.add(start);
    for _pass in 0..slots {
        if !extend(&mut reached, edges, is_forward) {
            break;
        }
    }
    Ok(reached)
}

/// The slots that lead to one another with a slot.
pub(crate) fn component(
    alloc: Global,
    slots: usize,
    start: usize,
    edges: &[Edge],
) -> Result<Slots, AllocError> {
    let mut both = reach(alloc, slots, start, edges, true)?;
    let back = reach(alloc, slots, start, edges, false)?;
    for slot in 0..slots {
        if !back.has(slot) {
            both.remove(slot);
        }
    }
    Ok(both)
}

/// The edges within a set of slots.
pub(crate) fn within(
    alloc: Global,
    edges: &[Edge],
    slots: &Slots,
) -> Result<Vec<Edge>, AllocError> {
    let mut inner = Vec::new(alloc);
    for edge in edges {
        if slots.has(edge.from) && slots.has(edge.to) {
            inner.push(*edge)?;
        }
    }
    Ok(inner)
}
