//! What is known before each slot: passes over the slots in order, until no head of a loop grows any more.

ghost use Rattle.std.specs.Prelude.{IsTrue};
ghost use Rattle.abstract_state.specs.Steps.{MayStep};

use crate::join::{join, rename};
use crate::thresholds::Thresholds;
use crate::widening::{Ages, widen};
use abstract_state::refusal::Refusal;
use abstract_state::step::Flow;
use bpf_words::instruction::Insn;
use bpf_words::words::Words;
use loop_states::branch::branch;
use loop_states::state::{entry, step};
use loop_states::within::is_within;
use std::alloc::{AllocError, AllocFailed, Global};
use tracked_state::branch::TrackedEdges;
use tracked_state::state::TrackedState;
use tracked_state::stop::Stop;

/// How many slots the searches for one program's states visit at most, all together.
pub const MOST_VISITS: u32 = 3_072;

/// How many slots the searches for a program's states may still visit.
#[derive(Clone, Copy)]
pub struct Visits {
    left: u32,
}

impl Visits {
    /// As many as the searches for one program have.
    pub fn all() -> Visits {
        Visits { left: MOST_VISITS }
    }

    /// Takes one. Whether there was one.
    fn take(&mut self) -> bool {
        if self.left == 0 {
            return false;
        }
        self.left -= 1;
        true
    }
}

/// How many slots a program has at most that is searched. What is known of one takes some five kilobytes.
pub const MOST_SEARCHED: usize = 1_024;

/// Why a search ends without states.
#[derive(Clone, Copy)]
pub enum SearchError {
    /// What is known before the slot refuses its instruction.
    Refused { slot: usize, fault: Refusal },
    /// The instruction leads out of the program, or writes r10.
    Leaves { slot: usize },
    /// It visited too many slots.
    Limit,
    OutOfMemory,
}

impl From<AllocError> for SearchError {
    fn from(_e: AllocError) -> SearchError {
        SearchError::OutOfMemory
    }
}

impl<T: Drop> From<AllocFailed<T>> for SearchError {
    fn from(_e: AllocFailed<T>) -> SearchError {
        SearchError::OutOfMemory
    }
}

/// What is known of one slot, if a run can come there.
#[derive(Drop)]
struct Place {
    state: Option<Box<TrackedState>>,
    /// A jump back leads here.
    is_head: bool,
    /// The pass that came here last.
    pass: u32,
    ages: Ages,
}

#[derive(Drop)]
struct Search {
    alloc: Global,
    thresholds: Thresholds,
    /// How many growths go to the program's own numbers.
    fine: u8,
    places: Vec<Place>,
    pass: u32,
    visits: Visits,
    grew: bool,
}

/// The slot to which an instruction at a slot jumps.
fn target(slot: usize, distance: i32) -> Option<usize> {
    let from = i64::try_from(slot).ok()?;
    let behind = from.checked_add(1)?;
    let to = behind.checked_add(i64::from(distance))?;
    usize::try_from(to).ok()
}

fn places_of(alloc: Global, words: &Words<'_>) -> Result<Vec<Place>, AllocError> {
    let mut places = Vec::with_capacity(alloc, words.len())?;
    for _slot in 0..words.len() {
        places.push(Place {
            state: None,
            is_head: false,
            pass: 0,
            ages: Ages::none(),
        })?;
    }
    for slot in 0..words.len() {
        let Some(insn) = words.insn(slot) else {
            continue;
        };
        if let Some(head) = back_from(slot, &insn) {
            if let Some(place) = places.get_mut(head) {
                place.is_head = true;
            }
        }
    }
    Ok(places)
}

/// The slot to which an instruction jumps back.
fn back_from(slot: usize, insn: &Insn) -> Option<usize> {
    let head = target(slot, insn.distance()?)?;
    if head <= slot { Some(head) } else { None }
}

/// How many slots a program has at most.
const MOST_SLOTS: usize = 4096;

/// Whether an instruction, which is no comparison, leaves r10 as it is.
fn may_step(insn: &Insn) -> bool
    ensures { IsTrue result → MayStep insn.now }
{
    match *insn {
        Insn::Compute { destination, .. }
        | Insn::Negate { destination, .. }
        | Insn::Extend { destination, .. }
        | Insn::Convert { destination, .. }
        | Insn::Load { destination, .. }
        | Insn::LoadSigned { destination, .. }
        | Insn::LoadWide { destination, .. } => destination.number() != 10,
        Insn::Branch { .. } => false,
        _ => true,
    }
}

/// What is known where an instruction leads; the slot is none where that lies before the program.
#[derive(Drop)]
struct Edge {
    to: Option<usize>,
    state: Box<TrackedState>,
}

/// By the jump, and to the next instruction; none where no run goes.
#[derive(Drop)]
struct Edges {
    taken: Option<Edge>,
    untaken: Option<Edge>,
}

fn edge_to(
    alloc: Global,
    to: Option<usize>,
    state: Option<TrackedState>,
) -> Result<Option<Edge>, AllocError> {
    let Some(state) = state else {
        return Ok(None);
    };
    let state = Box::new(alloc, state)?;
    Ok(Some(Edge { to, state }))
}

fn compared(
    alloc: Global,
    slot: usize,
    insn: &Insn,
    state: &TrackedState,
) -> Result<Edges, SearchError> {
    let Insn::Branch {
        width,
        comparison,
        left,
        right,
        distance,
    } = *insn
    else {
        return Err(SearchError::Leaves { slot });
    };
    let TrackedEdges { taken, untaken } = branch(
        state, alloc, width, comparison, left, &right,
    ).map_err(|stop| error_at(slot, stop))?;
    let taken = edge_to(alloc, target(slot, i32::from(distance)), taken)?;
    let untaken = edge_to(alloc, slot.checked_add(1), untaken)?;
    Ok(Edges { taken, untaken })
}

fn stepped(
    alloc: Global,
    slot: usize,
    insn: &Insn,
    state: &TrackedState,
) -> Result<Edges, SearchError> {
    if slot >= MOST_SLOTS || !may_step(insn) {
        return Err(SearchError::Leaves { slot });
    }
    let mut next = state.copy(alloc)?;
    let next = match step(&mut next, slot, insn) {
        Ok(Flow::Live) => Some(next),
        Ok(Flow::Dead) => None,
        Err(fault) => return Err(SearchError::Refused { slot, fault }),
    };
    let untaken = edge_to(alloc, slot.checked_add(insn.slots()), next)?;
    Ok(Edges {
        taken: None,
        untaken,
    })
}

/// What is known behind an instruction, by what is known before it.
fn edges_from(
    alloc: Global,
    slot: usize,
    insn: &Insn,
    state: &TrackedState,
) -> Result<Edges, SearchError> {
    match *insn {
        Insn::Branch { .. } => return compared(alloc, slot, insn, state),
        Insn::Exit => {
            state
                .exit()
                .map_err(|fault| SearchError::Refused { slot, fault })?;
            return Ok(Edges {
                taken: None,
                untaken: None,
            });
        }
        _ => {}
    }
    let Some(distance) = insn.distance() else {
        return stepped(alloc, slot, insn, state);
    };
    let taken = edge_to(alloc, target(slot, distance), Some(state.copy(alloc)?))?;
    Ok(Edges {
        taken,
        untaken: None,
    })
}

impl Search {
    /// What an edge leads to a head of a loop.
    fn meet(&mut self, slot: usize, state: Box<TrackedState>) -> Result<(), SearchError> {
        let Some(place) = self.places.get_mut(slot) else {
            return Ok(());
        };
        let Some(known) = &mut place.state else {
            let mut state = state;
            rename(self.alloc, &mut state)?;
            place.state = Some(state);
            self.grew = true;
            return Ok(());
        };
        if is_within(&state, known) {
            return Ok(());
        }
        let old = known.state;
        join(self.alloc, known, &state)?;
        widen(
            &self.thresholds,
            self.fine,
            &mut place.ages,
            &old,
            &mut known.state,
        );
        self.grew = true;
        Ok(())
    }

    /// What an edge leads to a slot.
    fn arrive(
        &mut self,
        from: usize,
        slot: Option<usize>,
        state: Box<TrackedState>,
    ) -> Result<(), SearchError> {
        let Some(slot) = slot else {
            return Err(SearchError::Leaves { slot: from });
        };
        let Some(place) = self.places.get_mut(slot) else {
            return Err(SearchError::Leaves { slot: from });
        };
        if place.is_head {
            return self.meet(slot, state);
        }
        if place.pass == self.pass {
            if let Some(known) = &mut place.state {
                join(self.alloc, known, &state)?;
                return Ok(());
            }
        }
        place.state = Some(state);
        place.pass = self.pass;
        Ok(())
    }

    /// Takes what is known behind an instruction to the slots of its edges.
    fn follow(&mut self, from: usize, edge: Option<Edge>) -> Result<(), SearchError> {
        match edge {
            Some(edge) => self.arrive(from, edge.to, edge.state),
            None => Ok(()),
        }
    }

    /// Whether the pass comes to a slot, and what is known there then.
    fn taken_at(&mut self, slot: usize) -> Option<Box<TrackedState>> {
        let place = self.places.get_mut(slot)?;
        if place.is_head || place.pass == self.pass {
            place.state.take()
        } else {
            None
        }
    }

    fn put_back(&mut self, slot: usize, state: Box<TrackedState>) {
        if let Some(place) = self.places.get_mut(slot) {
            place.state = Some(state);
        }
    }

    fn go_past(&mut self, slot: usize, insn: &Insn) -> Result<(), SearchError> {
        let Some(state) = self.taken_at(slot) else {
            return Ok(());
        };
        if !self.visits.take() {
            return Err(SearchError::Limit);
        }
        // the state is back before its edges arrive, which may lead here
        let edges = edges_from(self.alloc, slot, insn, &state);
        self.put_back(slot, state);
        let Edges { taken, untaken } = edges?;
        self.follow(slot, taken)?;
        self.follow(slot, untaken)
    }
}

fn error_at(slot: usize, stop: Stop) -> SearchError {
    match stop {
        Stop::Refused(fault) => SearchError::Refused { slot, fault },
        Stop::OutOfMemory => SearchError::OutOfMemory,
    }
}

impl Search {
    /// A search that has come to nothing but the start.
    fn new(
        alloc: Global,
        words: &Words<'_>,
        fine: u8,
        visits: Visits,
    ) -> Result<Search, SearchError> {
        let mut search = Search {
            alloc,
            thresholds: Thresholds::of(alloc, words)?,
            fine,
            places: places_of(alloc, words)?,
            pass: 1,
            visits,
            grew: false,
        };
        let first = Box::new(alloc, entry(alloc)?)?;
        search.arrive(0, Some(0), first)?;
        Ok(search)
    }

    /// Takes the slots in order once. Whether a head grew.
    fn pass(&mut self, words: &Words<'_>) -> Result<bool, SearchError> {
        self.grew = false;
        for slot in 0..words.len() {
            if let Some(insn) = words.insn(slot) {
                self.go_past(slot, &insn)?;
            }
        }
        Ok(self.grew)
    }

    /// The next pass begins as the first did.
    fn begin_again(&mut self) -> Result<(), SearchError> {
        self.pass = self.pass.wrapping_add(1);
        let first = Box::new(self.alloc, entry(self.alloc)?)?;
        self.arrive(0, Some(0), first)
    }
}

/// How many passes there are at most.
const MOST_PASSES: usize = 100;

/// What is known before each slot, where a run can come there: what no edge leads out of. What the search visits is
/// taken from `visits`.
pub fn find_states(
    alloc: Global,
    words: &Words<'_>,
    fine: u8,
    visits: &mut Visits,
) -> Result<Vec<Option<Box<TrackedState>>>, SearchError> {
    if words.len() > MOST_SEARCHED {
        return Err(SearchError::Limit);
    }
    let mut search = Search::new(alloc, words, fine, *visits)?;
    let ended = search.go_on(words);
    *visits = search.visits;
    ended?;
    Ok(search.states(alloc)?)
}

impl Search {
    /// Makes passes until no head grows.
    fn go_on(&mut self, words: &Words<'_>) -> Result<(), SearchError> {
        for _pass in 0..MOST_PASSES {
            if !self.pass(words)? {
                return Ok(());
            }
            self.begin_again()?;
        }
        Err(SearchError::Limit)
    }

    /// The states to which the last pass came.
    fn states(mut self, alloc: Global) -> Result<Vec<Option<Box<TrackedState>>>, AllocError> {
        let mut states = Vec::with_capacity(alloc, self.places.len())?;
        for slot in 0..self.places.len() {
            let state = self.taken_at(slot);
            states.push(state)?;
        }
        Ok(states)
    }
}
