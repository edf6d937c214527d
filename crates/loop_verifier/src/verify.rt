//! Search and check.
ghost use Rattle.std.specs.Prelude.{◌≡◌, ◌≤◌, IsTrue, IfOk, IfSome};
ghost use Rattle.span_context.specs.declared.profile.Profile.TheVariants.{Three};
ghost use Rattle.bpf_words.specs.Words.{program_of};
ghost use Rattle.loop_labels.specs.Bounded.{EndsWithin};
ghost use Rattle.loop_labels.specs.Potential.{most_steps};
ghost use Rattle.loop_check.specs.Labels.{bound_of};
ghost use Rattle.loop_verifier.specs.Labelled.{HasLabels};
ghost use Rattle.loop_verifier.specs.Limit.{longest_run};

use crate::error::LoopError;
use bpf_words::words::Words;
use label_potentials::potential::Potential;
use loop_bounds::bounds::find_potentials;
use loop_check::check::check;
use loop_check::label::{Bound, Label};
use loop_search::states::{Visits, find_states};
use span_context::context::{LINK_LIMIT, TEXT_LIMIT};
use std::alloc::{AllocError, Global};
use tracked_state::state::TrackedState;

/// How many steps a run may take at most.
pub const STEP_LIMIT: u64 = 1 << 23;

/// After how many growths a bound goes to few limits: at first.
pub const COARSE: u8 = 2;

/// The same where the first search isn't enough.
pub const FINE: u8 = 22;

/// The bound that a potential is, whatever it is less by.
fn bound_at(potential: &Potential) -> Option<Bound> {
    Some(Bound {
        constant: u64::try_from(potential.constant).ok()?,
        per_byte: u32::try_from(potential.per_byte).ok()?,
        per_link_byte: u32::try_from(potential.per_link_byte).ok()?,
    })
}

/// How many steps the bound allows at most.
fn most(bound: &Bound) -> Option<u64>
    ensures { IfSome result (λ n. n ≡ most_steps (bound_of bound.now)) }
{
    let text = u64::from(bound.per_byte).checked_mul(TEXT_LIMIT as u64)?;
    let link = u64::from(bound.per_link_byte).checked_mul(LINK_LIMIT as u64)?;
    bound.constant.checked_add(text.checked_add(link)?)
}

/// What is known before each slot, and how many steps are left.
fn labels_of(
    alloc: Global,
    mut states: Vec<Option<Box<TrackedState>>>,
    potentials: &[Option<Potential>],
) -> Result<Vec<Option<Label>>, AllocError> {
    let mut labels = Vec::with_capacity(alloc, states.len())?;
    for slot in 0..states.len() {
        let label = match (states[slot].take(), potential_at(potentials, slot)) {
            (Some(state), Some(potential)) => Some(Label {
                state: Box::into_inner(state),
                potential,
            }),
            _ => None,
        };
        labels.push(label)?;
    }
    Ok(labels)
}

fn potential_at(potentials: &[Option<Potential>], slot: usize) -> Option<Potential> {
    match potentials.get(slot) {
        Some(potential) => *potential,
        None => None,
    }
}

/// Whether a bound is within the limit.
#[tactic(auto, unfolding(crate::specs::Limit::longest_run))]
fn is_within_limit(bound: &Bound) -> bool
    ensures { IsTrue result → most_steps (bound_of bound.now) ≤ longest_run }
{
    match most(bound) {
        Some(steps) => steps <= STEP_LIMIT,
        None => false,
    }
}

/// Searches with so many growths to fine thresholds, and checks what is found.
fn verify_at(
    alloc: Global,
    words: &Words<'_>,
    fine: u8,
    visits: &mut Visits,
) -> Result<Bound, LoopError>
    ensures ends { IfOk result (λ bound. EndsWithin Three (program_of words.now) (bound_of bound)) }
    ensures limit { IfOk result (λ bound. most_steps (bound_of bound) ≤ longest_run) }
    ensures labels { IfOk result (λ bound. HasLabels (program_of words.now) (bound_of bound)) }
{
    let states = find_states(alloc, words, fine, visits)?;
    let Some(potentials) = find_potentials(alloc, words, &states)? else {
        return Err(LoopError::NoMeasure);
    };
    let Some(first) = potential_at(&potentials, 0) else {
        return Err(LoopError::NoMeasure);
    };
    let Some(bound) = bound_at(&first) else {
        return Err(LoopError::NoMeasure);
    };
    if !is_within_limit(&bound) {
        return Err(LoopError::TooManySteps);
    }
    let labels = labels_of(alloc, states, &potentials)?;
    check(alloc, words, &labels, &bound)?;
    Ok(bound)
}

/// Accepts a program that may loop, with a bound of its steps: every run on what the third profile lends ends with a
/// number, within the bound, which is at most [`STEP_LIMIT`] on the longest texts. That is so by labels of the program
/// that are inductive (`labels`).
pub fn verify_loops(alloc: Global, words: &Words<'_>) -> Result<Bound, LoopError>
    ensures ends { IfOk result (λ bound. EndsWithin Three (program_of words.now) (bound_of bound)) }
    ensures limit { IfOk result (λ bound. most_steps (bound_of bound) ≤ longest_run) }
    ensures labels { IfOk result (λ bound. HasLabels (program_of words.now) (bound_of bound)) }
{
    let mut visits = Visits::all();
    match verify_at(alloc, words, COARSE, &mut visits) {
        Ok(bound) => Ok(bound),
        Err(LoopError::OutOfMemory) => Err(LoopError::OutOfMemory),
        Err(LoopError::SearchLimit) => Err(LoopError::SearchLimit),
        Err(first) => match verify_at(alloc, words, FINE, &mut visits) {
            Ok(bound) => Ok(bound),
            Err(second) => Err(first.before(second)),
        },
    }
}
