//! Whether a label is kept: each edge of its instruction leads to a label.
ghost use Rattle.std.specs.Prelude.{◌≡◌, ◌↔◌, ◌<◌, Some, IsTrue, IsOk, IfOk, IfErr, MatchOption};
ghost use Rattle.bpf_words.specs.declared.instruction.Insn.{Insn as TheInsn};
ghost use Rattle.bpf_words.specs.Flow.{StartsAt, written_by};
ghost use Rattle.bpf_words.specs.Words.{program_of};
ghost use Rattle.abstract_state.specs.Steps.{MayStep};
ghost use Rattle.tracked_state.specs.Tracked.{tracked_of};
ghost use Rattle.tracked_state.specs.Tracking.{after_tracked};
ghost use Rattle.loop_states.specs.Contained.{StepsInLoop};
ghost use Rattle.loop_states.specs.Rules.{stepped};
ghost use Rattle.loop_labels.specs.Rules.{IsKeptBy};
ghost use Rattle.loop_check.specs.Labels.{labelled, labels_of};
ghost use Rattle.loop_check.specs.Rules.{loop_rules};
ghost use Rattle.loop_check.specs.Meanings.{meanings};
ghost use Rattle.loop_check.specs.Always.{GoesAlways, KeepsAlways};
ghost use Rattle.loop_check.specs.Leads.{AnswersBehind, GoesBy, IsJump, IsComparison, IsPlain};

use crate::label::Label;
use crate::leads::{fall_on, jump_on, jump_to};
use crate::refusal::{Failure, LabelFault};
use abstract_state::step::Flow;
use bpf_words::instruction::Insn;
use bpf_words::words::Words;
use label_potentials::positive::is_positive;
use loop_states::branch::branch;
use loop_states::state::step;
use std::alloc::Global;
use tracked_state::state::TrackedState;
use tracked_state::stop::Stop;

/// Whether a jump goes on to a label.
fn jump(labels: &[Option<Label>], slot: usize, from: &Label, insn: &Insn) -> Result<(), LabelFault>
    requires few { slot < 4096 }
    requires jumps { IsJump insn.now }
    ensures rule { IsOk result ↔ GoesBy loop_rules labels.now slot from.now insn.now }
    ensures sound { IsOk result → GoesBy meanings labels.now slot from.now insn.now }
    ensures complete { GoesAlways labels.now slot from.now insn.now → IsOk result }
{
    jump_to(labels, slot, from, insn, &from.state)
}

/// Whether a comparison goes on to labels.
fn compare(
    alloc: Global,
    labels: &[Option<Label>],
    slot: usize,
    from: &Label,
    insn: &Insn,
) -> Result<(), Failure>
    requires few { slot < 4096 }
    requires compares { IsComparison insn.now }
    ensures rule { IfOk result (λ _. GoesBy loop_rules labels.now slot from.now insn.now) }
    ensures sound { IfOk result (λ _. GoesBy meanings labels.now slot from.now insn.now) }
    ensures complete { GoesAlways labels.now slot from.now insn.now
        → IfErr result (λ failure. failure ≡ Failure.OutOfMemory) }
{
    let Insn::Branch {
        width,
        comparison,
        left,
        right,
        ..
    } = *insn
    else {
        unreachable!()
    };
    let edges = branch(&from.state, alloc, width, comparison, left, &right)?;
    jump_on(labels, slot, from, insn, &edges.taken)?;
    fall_on(labels, slot, from, insn, &edges.untaken)?;
    Ok(())
}

/// The state after a step, where a run can come there.
fn state_after(flow: Flow, state: TrackedState) -> Option<TrackedState>
    ensures { result ≡ after_tracked flow state }
{
    match flow {
        Flow::Live => Some(state),
        Flow::Dead => None,
    }
}

/// What is known behind an instruction with no edge but to the next one; nothing where no run comes there.
fn known_behind(
    alloc: Global,
    slot: usize,
    insn: &Insn,
    state: &TrackedState,
) -> Result<Option<TrackedState>, Stop>
    requires few { slot < 4096 }
    requires spares { MayStep insn.now }
    ensures rule { AnswersBehind (stepped slot insn.now (tracked_of state.now)) result }
    ensures sound { IfOk result (λ behind. StepsInLoop state.now insn.now behind) }
{
    let Ok(mut behind) = state.copy(alloc) else {
        return Err(Stop::OutOfMemory);
    };
    match step(&mut behind, slot, insn) {
        Ok(flow) => Ok(state_after(flow, behind)),
        Err(refusal) => Err(Stop::Refused(refusal)),
    }
}

fn writes_r10(insn: &Insn) -> bool
    ensures { IsTrue result ↔ (written_by insn.now ≡ Some 10) }
{
    match insn.written() {
        Some(register) => register.index() == 10,
        None => false,
    }
}

/// Whether an instruction with no edge but to the next one goes on to a label.
fn step_on(
    alloc: Global,
    labels: &[Option<Label>],
    slot: usize,
    from: &Label,
    insn: &Insn,
) -> Result<(), Failure>
    requires few { slot < 4096 }
    requires plain { IsPlain insn.now }
    ensures rule { IfOk result (λ _. GoesBy loop_rules labels.now slot from.now insn.now) }
    ensures sound { IfOk result (λ _. GoesBy meanings labels.now slot from.now insn.now) }
    ensures complete { GoesAlways labels.now slot from.now insn.now
        → IfErr result (λ failure. failure ≡ Failure.OutOfMemory) }
{
    if writes_r10(insn) {
        return Err(Failure::Fault(LabelFault::WritesR10));
    }
    let behind = known_behind(alloc, slot, insn, &from.state)?;
    fall_on(labels, slot, from, insn, &behind)?;
    Ok(())
}

/// Whether each edge of the instruction at a slot leads to a label.
fn go_on(
    alloc: Global,
    labels: &[Option<Label>],
    slot: usize,
    from: &Label,
    insn: &Insn,
) -> Result<(), Failure>
    requires { slot < 4096 }
    ensures rule { IfOk result (λ _. GoesBy loop_rules labels.now slot from.now insn.now) }
    ensures sound { IfOk result (λ _. GoesBy meanings labels.now slot from.now insn.now) }
    ensures complete { GoesAlways labels.now slot from.now insn.now
        → IfErr result (λ failure. failure ≡ Failure.OutOfMemory) }
{
    match *insn {
        Insn::Jump { .. } => Ok(jump(labels, slot, from, insn)?),
        Insn::JumpLong { .. } => Ok(jump(labels, slot, from, insn)?),
        Insn::Branch { .. } => compare(alloc, labels, slot, from, insn),
        Insn::Exit => Ok(from.state.exit()?),
        _ => step_on(alloc, labels, slot, from, insn),
    }
}

/// The instruction that starts at a slot, if there is one.
fn insn_at(words: &Words<'_>, slot: usize) -> Option<Insn>
    ensures { MatchOption result ((insn : TheInsn) → StartsAt (program_of words.now) slot insn → ⊥)
        (λ insn. StartsAt (program_of words.now) slot insn × (slot < 4096)) }
{
    if slot >= words.len() {
        return None;
    }
    words.insn(slot)
}

/// Whether the label at a slot is kept.
pub(crate) fn keep(
    alloc: Global,
    words: &Words<'_>,
    labels: &[Option<Label>],
    slot: usize,
    label: &Label,
) -> Result<(), Failure>
    ensures rule { IfOk result (λ _.
        IsKeptBy loop_rules (program_of words.now) (labels_of labels.now) (labelled slot label.now)) }
    ensures sound { IfOk result (λ _.
        IsKeptBy meanings (program_of words.now) (labels_of labels.now) (labelled slot label.now)) }
    ensures complete { KeepsAlways (program_of words.now) labels.now slot label.now
        → IfErr result (λ failure. failure ≡ Failure.OutOfMemory) }
{
    let Some(insn) = insn_at(words, slot) else {
        return Err(Failure::Fault(LabelFault::NoInstruction));
    };
    if !is_positive(&label.state.state, &label.potential) {
        return Err(Failure::Fault(LabelFault::NotPositive));
    }
    go_on(alloc, labels, slot, label, &insn)
}
