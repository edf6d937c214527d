//! What the verifier knows of a program with a jump back (docs/PROGRAMS.md, "What the verifier knew").
use crate::potential_lines::{push_excess, push_potential};
use bpf_words::instruction::Insn;
use bpf_words::words::Words;
use known_lines::lines::KnownLines;
use label_potentials::potential::Potential;
use loop_bounds::bounds::{Potentials, find_potentials};
use loop_check::label::Bound;
use loop_search::states::{SearchError, Visits, find_states};
use loop_verifier::verify::{COARSE, FINE};
use span_context::profile::Profile;
use std::alloc::{AllocError, Global};
use step_lines::lines::push_instruction;
use tracked_state::state::TrackedState;

/// What is known before each slot, where a run can come there.
type States = Vec<Option<Box<TrackedState>>>;

/// A jump, by the slots from which and to which it leads.
#[derive(Clone, Copy)]
struct Jump {
    from: usize,
    to: usize,
}

impl Jump {
    /// The jump of an instruction at a slot.
    fn of(from: usize, insn: &Insn) -> Option<Jump> {
        let distance = insn.distance()?;
        let behind = from.checked_add(1)?;
        let by = distance.unsigned_abs() as usize;
        let to = if distance < 0 {
            behind.checked_sub(by)?
        } else {
            behind.checked_add(by)?
        };
        Some(Jump { from, to })
    }

    fn is_back(&self) -> bool {
        self.to <= self.from
    }
}

/// The jumps of a program, by rising slots.
fn jumps_of(alloc: Global, words: &Words<'_>) -> Result<Vec<Jump>, AllocError> {
    let mut jumps = Vec::new(alloc);
    for slot in 0..words.len() {
        let Some(insn) = words.insn(slot) else {
            continue;
        };
        if let Some(jump) = Jump::of(slot, &insn) {
            jumps.push(jump)?;
        }
    }
    Ok(jumps)
}

/// Appends from where jumps back lead to a slot.
fn push_sources(text: &mut String, jumps: &[Jump], head: usize) -> Result<(), AllocError> {
    let mut between = "  back from ";
    for jump in jumps {
        if jump.is_back() && jump.to == head {
            write!(text, "{between}{}", jump.from)?;
            between = ", ";
        }
    }
    text.push('\n')
}

/// What a search found of a program.
#[derive(Drop)]
struct Found {
    states: States,
    /// How many steps are left; none where a loop has no measure.
    potentials: Option<Potentials>,
}

impl Found {
    /// What a search of this fineness finds, unless it ends before.
    fn by(alloc: Global, words: &Words<'_>, fine: u8) -> Result<Option<Found>, AllocError> {
        let states = match find_states(alloc, words, fine, &mut Visits::all()) {
            Ok(states) => states,
            Err(SearchError::OutOfMemory) => return Err(AllocError),
            Err(_) => return Ok(None),
        };
        let potentials = find_potentials(alloc, words, &states)?;
        Ok(Some(Found { states, potentials }))
    }

    /// How many steps are left before a slot.
    fn left_at(&self, slot: usize) -> Option<&Potential> {
        self.potentials.as_ref()?.get(slot)?.as_ref()
    }

    /// Whether this is the bound of all steps that was found.
    fn has_bound(&self, bound: &Bound) -> bool {
        match self.left_at(0) {
            Some(left) => {
                i64::try_from(bound.constant).ok() == Some(left.constant)
                    && i32::try_from(bound.per_byte).ok() == Some(left.per_byte)
                    && i32::try_from(bound.per_link_byte).ok() == Some(left.per_link_byte)
            }
            None => false,
        }
    }

    /// The lines of what is known before a slot, if a run may come there.
    fn lines_before(&self, alloc: Global, slot: usize) -> Result<Option<KnownLines>, AllocError> {
        match self.states.get(slot) {
            Some(Some(known)) => Ok(Some(KnownLines::of(alloc, Profile::Three, &known.state)?)),
            _ => Ok(None),
        }
    }

    /// Appends what is said of a head of a loop beside what is known there.
    fn push_head(&self, text: &mut String, jumps: &[Jump], slot: usize) -> Result<(), AllocError> {
        push_sources(text, jumps, slot)?;
        match self.left_at(slot) {
            Some(left) => push_potential(text, left),
            None => Ok(()),
        }
    }

    /// Appends the heads of loops and what is known there; where the whole program is to be listed, each slot, and what
    /// has changed from the one before on, unless a jump leads there.
    fn push(
        &self,
        alloc: Global,
        text: &mut String,
        words: &Words<'_>,
        is_whole: bool,
    ) -> Result<(), AllocError> {
        let jumps = jumps_of(alloc, words)?;
        let mut earlier = None;
        for slot in 0..words.len() {
            let is_head = jumps.iter().any(|jump| jump.is_back() && jump.to == slot);
            let Some(insn) = words.insn(slot) else {
                continue;
            };
            if !is_whole && !is_head {
                continue;
            }
            push_instruction(text, slot, insn)?;
            if is_head {
                self.push_head(text, &jumps, slot)?;
            }
            let lines = self.lines_before(alloc, slot)?;
            if jumps.iter().any(|jump| jump.to == slot) {
                earlier = None;
            }
            push_lines(text, &earlier, &lines)?;
            earlier = lines;
        }
        Ok(())
    }

    /// What is known before the slots from one to another, and nothing before others.
    fn within(&self, alloc: Global, first: usize, last: usize) -> Result<States, AllocError> {
        let mut within = Vec::with_capacity(alloc, self.states.len())?;
        for slot in 0..self.states.len() {
            let state = match &self.states[slot] {
                Some(state) if first <= slot && slot <= last => {
                    Some(Box::new(alloc, state.copy(alloc)?)?)
                }
                _ => None,
            };
            within.push(state)?;
        }
        Ok(within)
    }

    /// The first jump back of which nothing is known to fall between where it leads and the jump itself.
    fn unmeasured(&self, alloc: Global, words: &Words<'_>) -> Result<Option<Jump>, AllocError> {
        for jump in &jumps_of(alloc, words)? {
            if !jump.is_back() {
                continue;
            }
            let turn = self.within(alloc, jump.to, jump.from)?;
            if find_potentials(alloc, words, &turn)?.is_none() {
                return Ok(Some(*jump));
            }
        }
        Ok(None)
    }
}

/// Appends what is known before a slot: where something is known from the one before on, what has changed.
fn push_lines(
    text: &mut String,
    earlier: &Option<KnownLines>,
    lines: &Option<KnownLines>,
) -> Result<(), AllocError> {
    match (earlier, lines) {
        (Some(earlier), Some(lines)) => lines.push_beside(text, earlier),
        (None, Some(lines)) => lines.push(text),
        (_, None) => text.push_str("  no run comes there\n"),
    }
}

/// Appends what is known of an accepted program that has this bound: before the heads of its loops, or all slots.
pub(crate) fn push_bounded(
    alloc: Global,
    text: &mut String,
    words: &Words<'_>,
    bound: &Bound,
    is_whole: bool,
) -> Result<(), AllocError> {
    for fine in [COARSE, FINE] {
        if let Some(found) = Found::by(alloc, words, fine)? {
            if found.has_bound(bound) {
                return found.push(alloc, text, words, is_whole);
            }
        }
    }
    Ok(())
}

/// Appends why a program that loops has no bound, and what is known of it: before the heads of its loops, or all slots.
pub(crate) fn push_unbounded(
    alloc: Global,
    text: &mut String,
    words: &Words<'_>,
    is_whole: bool,
) -> Result<(), AllocError> {
    let Some(found) = Found::by(alloc, words, FINE)? else {
        return Ok(());
    };
    match found.left_at(0) {
        Some(all) => push_excess(text, all)?,
        None => {
            if let Some(Jump { from, to }) = found.unmeasured(alloc, words)? {
                writeln!(
                    text,
                    "nothing is known to fall on the way from slot {from} back to {to}"
                )?;
            }
        }
    }
    found.push(alloc, text, words, is_whole)
}
