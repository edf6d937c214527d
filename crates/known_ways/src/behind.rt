//! What is known behind an instruction.
ghost use Rattle.std.specs.Prelude.{◌≡◌, ◌≢◌, ℕ, Option, Some, None, Result, Err, IfOk, option_map};
ghost use Rattle.bpf_words.specs.Flow.{written_by};
ghost use Rattle.abstract_state.specs.declared.refusal.Refusal.{Refusal as TheRefusal};
ghost use Rattle.abstract_state.specs.Situation.{Situation, Flows, situation_of};
ghost use Rattle.abstract_state.specs.Stepping.{stepped};
ghost use Rattle.abstract_state.specs.Steps.{MayStep};
ghost use Rattle.tracked_state.specs.Rules.{TrackedWays, branched};
ghost use Rattle.tracked_state.specs.Tracked.{TrackedSituation, IsTrackedIn, tracked_of};
ghost use Rattle.tracked_state.specs.Tracking.{AnswersTrackedBranch};
ghost use Rattle.verifier.specs.Decides.{granted, led, trimmed_situation};
ghost use Rattle.known_ways.specs.Ways.{known_on};
ghost use Rattle.known_ways.specs.Told.{IsBehind, left_by};

use crate::whole::is_state_whole;
use abstract_state::state::AbsState;
use abstract_state::step::Flow;
use bpf_words::instruction::{Comparison, Insn, Operand, Width};
use bpf_words::register::Register;
use span_context::profile::Profile;
use std::alloc::{AllocError, Global};
use tracked_state::state::TrackedState;
use tracked_state::stop::Stop;

/// What is known behind an instruction: where it goes on to the next one, and where it jumps.
#[derive(Clone, Copy)]
pub(crate) struct Behind {
    pub next: Option<AbsState>,
    pub jumped: Option<AbsState>,
}

impl Behind {
    fn nowhere() -> Behind
        ensures next { result.next ≡ None }
        ensures jumped { result.jumped ≡ None }
    {
        Behind {
            next: None,
            jumped: None,
        }
    }

    fn jumped(before: &AbsState) -> Behind
        ensures next { result.next ≡ None }
        ensures jumped { option_map situation_of result.jumped
            ≡ Some (trimmed_situation (situation_of before.now)) }
    {
        is_state_whole(before);
        Behind {
            next: None,
            jumped: Some(*before),
        }
    }

    fn stepped(profile: Profile, before: &AbsState, insn: &Insn) -> Behind
        requires { MayStep insn.now }
        ensures next { option_map situation_of result.next
            ≡ left_by (stepped profile insn.now (situation_of before.now)) }
        ensures jumped { result.jumped ≡ None }
    {
        let next = step(profile, before, insn);
        Behind { next, jumped: None }
    }
}

fn state_of(tracked: &Option<TrackedState>) -> Option<AbsState>
    ensures { (edge : Option TrackedSituation) → IsTrackedIn tracked.now edge
        → option_map situation_of result ≡ known_on edge }
{
    match tracked {
        Some(held) => {
            is_state_whole(&held.state);
            Some(held.state)
        }
        None => None,
    }
}

/// What is known behind a comparison that is refused: nothing.
fn stopped(stop: Stop) -> Result<Behind, AllocError>
    ensures { (rule : Result TrackedWays TheRefusal) → AnswersTrackedBranch rule (Err stop)
        → IfOk result (λ behind. IsBehind behind (granted rule)) }
{
    match stop {
        Stop::OutOfMemory => Err(AllocError),
        Stop::Refused(_) => Ok(Behind::nowhere()),
    }
}

/// What is known behind a comparison, of its sides and of their copies.
fn compare(
    alloc: Global,
    before: &TrackedState,
    width: Width,
    comparison: Comparison,
    left: Register,
    right: &Operand,
) -> Result<Behind, AllocError>
    ensures { IfOk result (λ behind. IsBehind behind
        (granted (branched width comparison left right.now (tracked_of before.now)))) }
{
    match before.branch(alloc, width, comparison, left, right) {
        Ok(edges) => {
            let next = state_of(&edges.untaken);
            let jumped = state_of(&edges.taken);
            Ok(Behind { next, jumped })
        }
        Err(stop) => stopped(stop),
    }
}

/// A state, if a run can come there.
fn live(flow: Flow, state: &AbsState) -> Option<AbsState>
    ensures { (o : Option Situation) → Flows o flow state.now
        → option_map situation_of result ≡ option_map trimmed_situation o }
{
    match flow {
        Flow::Live => {
            is_state_whole(state);
            Some(*state)
        }
        Flow::Dead => None,
    }
}

/// What is known behind an instruction that is no jump.
fn step(profile: Profile, before: &AbsState, insn: &Insn) -> Option<AbsState>
    requires { MayStep insn.now }
    ensures { option_map situation_of result ≡ left_by (stepped profile insn.now (situation_of before.now)) }
{
    let mut next = *before;
    match next.step(profile, insn) {
        Ok(flow) => live(flow, &next),
        Err(_) => None,
    }
}

/// What is known behind an instruction, by what is known before it.
pub(crate) fn pass(
    alloc: Global,
    profile: Profile,
    before: &TrackedState,
    insn: &Insn,
) -> Result<Behind, AllocError>
    requires { written_by insn.now ≢ Some 10 }
    ensures { (slot : ℕ) → IfOk result (λ behind. IsBehind behind
        (granted (led profile slot insn.now (tracked_of before.now)))) }
{
    match *insn {
        Insn::Jump { .. } => Ok(Behind::jumped(&before.state)),
        Insn::JumpLong { .. } => Ok(Behind::jumped(&before.state)),
        Insn::Exit => Ok(Behind::nowhere()),
        Insn::Branch {
            width,
            comparison,
            left,
            right,
            ..
        } => compare(alloc, before, width, comparison, left, &right),
        _ => Ok(Behind::stepped(profile, &before.state, insn)),
    }
}
