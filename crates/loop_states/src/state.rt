//! From what is known before an instruction to what is known behind it.
ghost use Rattle.std.specs.Prelude.{◌≡◌, ◌<◌, ℤ, Option, Ok, IfOk, option_map};
ghost use Rattle.semantics.specs.State.{State, start};
ghost use Rattle.semantics.specs.Step.{On};
ghost use Rattle.span_context.specs.declared.profile.Profile.TheVariants.{Three};
ghost use Rattle.abstract_state.specs.State.{Span, lengths_of, Contains, does};
ghost use Rattle.abstract_state.specs.Situation.{situation_of};
ghost use Rattle.abstract_state.specs.Steps.{MayStep};
ghost use Rattle.value_marks.specs.Marking.{Marking};
ghost use Rattle.value_marks.specs.Copies.{AreMarking, kept};
ghost use Rattle.length_marks.specs.Following.{followed};
ghost use Rattle.tracked_state.specs.Tracked.{IsTracked, tracked_of};
ghost use Rattle.tracked_state.specs.Tracking.{AnswersTrackedStep, after_tracked};
ghost use Rattle.tracked_state.specs.Rules as plain;
ghost use Rattle.loop_states.specs.Contained.{BearIn, ContainsInLoop, StepsInLoop};
ghost use Rattle.loop_states.specs.Rules as rules;

use abstract_state::refusal::Refusal;
use abstract_state::state::AbsState;
use abstract_state::step::Flow;
use bpf_words::instruction::Insn;
use length_marks::following::follow;
use span_context::profile::Profile;
use std::alloc::{AllocError, Global};
use tracked_state::state::TrackedState;
use value_marks::copies::Copies;

/// What is known at the start of each run.
pub fn entry(alloc: Global) -> Result<TrackedState, AllocError>
    ensures contains { IfOk result (λ a. (span : Span) → ContainsInLoop a (lengths_of span) start) }
    ensures rule { IfOk result (λ a. IsTracked a (plain.entry Three)) }
{
    TrackedState::entry(alloc, Profile::Three)
}

/// Notes in the marks, where they are kept, what the instruction at a slot does, by what is known before it.
fn follow_copies(copies: &mut Copies, at: usize, insn: &Insn, known: &AbsState)
    ensures rule { (o : Option Marking) → AreMarking (kept copies.old) o
        → AreMarking (kept copies.new) (option_map (followed at insn.now (situation_of known.now)) o) }
    ensures sound { (span : Span) (s next : State) (far : ℤ) → at < 4096 → span.profile ≡ Three
        → Contains known.now (lengths_of span) s → BearIn (lengths_of span) (kept copies.old) s
        → does span s insn.now ≡ Ok (On next far) → BearIn (lengths_of span) (kept copies.new) next }
{
    let Some(mut marks) = copies.marks.take() else {
        return;
    };
    follow(&mut marks, at, insn, known);
    copies.marks = Some(marks);
}

/// Makes of what is known before the instruction at a slot, which is no comparison, what is known behind it. A state
/// that answers `Dead`, or a refusal, says nothing more.
pub fn step(state: &mut TrackedState, at: usize, insn: &Insn) -> Result<Flow, Refusal>
    requires plain { MayStep insn.now }
    requires slot { at < 4096 }
    ensures rule { AnswersTrackedStep (rules.stepped at insn.now (tracked_of state.old)) result state.new }
    ensures sound { IfOk result (λ flow. StepsInLoop state.old insn.now (after_tracked flow state.new)) }
{
    follow_copies(&mut state.copies, at, insn, &state.state);
    state.state.step(Profile::Three, insn)
}
