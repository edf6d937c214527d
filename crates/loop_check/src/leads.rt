//! Whether the edges of an instruction lead to labels.
ghost use Rattle.std.specs.Prelude.{◌≡◌, ◌↔◌, ◌<◌, ◌+◌, ℕ, ℤ, pos, ◌+ℤ◌, Some, IsOk, MatchOption, slice_get};
ghost use Rattle.bpf_words.specs.Flow.{jump_of, slots_of};
ghost use Rattle.loop_check.specs.declared.label.Label.{Label as TheLabel};
ghost use Rattle.loop_check.specs.Rules.{loop_rules};
ghost use Rattle.loop_check.specs.Meanings.{meanings};
ghost use Rattle.loop_check.specs.Leads.{Enters, LeadsOn, LeadsIf};

use crate::label::Label;
use crate::refusal::LabelFault;
use bpf_words::instruction::Insn;
use loop_states::within::is_within;
use potential_edges::edges::falls;
use tracked_state::state::TrackedState;

/// Whether a label says no more than is known on an edge, and the potential falls there.
fn enter(from: &Label, insn: &Insn, behind: &TrackedState, label: &Label) -> Result<(), LabelFault>
    ensures rule { IsOk result ↔ Enters loop_rules from.now insn.now behind.now label.now }
    ensures sound { IsOk result → Enters meanings from.now insn.now behind.now label.now }
{
    if !is_within(behind, &label.state) {
        return Err(LabelFault::NotContained);
    }
    if !falls(
        &from.state,
        insn,
        &behind.state,
        &from.potential,
        &label.potential,
    ) {
        return Err(LabelFault::NotFalling);
    }
    Ok(())
}

/// The label at a slot, if there is one.
pub(crate) fn label_at(labels: &[Option<Label>], slot: usize) -> Option<&Label>
    ensures { MatchOption result ((label : TheLabel) → slice_get labels.now slot ≡ Some (Some label) → ⊥)
        (λ label. slice_get labels.now slot ≡ Some (Some label.now)) }
{
    if slot >= labels.len() {
        return None;
    }
    labels[slot].as_ref()
}

/// Whether an edge to a slot leads to a label.
fn lead_to(
    labels: &[Option<Label>],
    from: &Label,
    insn: &Insn,
    slot: usize,
    behind: &TrackedState,
) -> Result<(), LabelFault>
    ensures rule { IsOk result ↔ LeadsOn loop_rules labels.now from.now insn.now (pos slot) behind.now }
    ensures sound { IsOk result → LeadsOn meanings labels.now from.now insn.now (pos slot) behind.now }
{
    match label_at(labels, slot) {
        Some(label) => enter(from, insn, behind, label),
        None => Err(LabelFault::NotContained),
    }
}

/// The slot to which a jump leads; none where it lies before the program.
fn target(slot: usize, distance: i32) -> Option<usize>
    requires { slot < 4096 }
    ensures { MatchOption result ((place : ℕ) → pos place ≡ pos (slot + 1) +ℤ distance → ⊥)
        (λ place. pos place ≡ pos (slot + 1) +ℤ distance) }
{
    let far = distance.unsigned_abs() as usize;
    if distance >= 0 {
        return Some(slot + 1 + far);
    }
    if far > slot + 1 {
        return None;
    }
    Some(slot + 1 - far)
}

/// Whether an edge by a distance leads to a label.
fn jump_by(
    labels: &[Option<Label>],
    slot: usize,
    from: &Label,
    insn: &Insn,
    distance: i32,
    behind: &TrackedState,
) -> Result<(), LabelFault>
    requires { slot < 4096 }
    ensures rule { IsOk result
        ↔ LeadsOn loop_rules labels.now from.now insn.now (pos (slot + 1) +ℤ distance) behind.now }
    ensures sound { IsOk result
        → LeadsOn meanings labels.now from.now insn.now (pos (slot + 1) +ℤ distance) behind.now }
{
    match target(slot, distance) {
        Some(to) => lead_to(labels, from, insn, to, behind),
        None => Err(LabelFault::NotContained),
    }
}

/// Whether the edge of a jump leads to a label.
pub(crate) fn jump_to(
    labels: &[Option<Label>],
    slot: usize,
    from: &Label,
    insn: &Insn,
    behind: &TrackedState,
) -> Result<(), LabelFault>
    requires { slot < 4096 }
    ensures rule { (distance : ℤ) → jump_of insn.now ≡ Some distance → (IsOk result
        ↔ LeadsOn loop_rules labels.now from.now insn.now (pos (slot + 1) +ℤ distance) behind.now) }
    ensures sound { (distance : ℤ) → jump_of insn.now ≡ Some distance → IsOk result
        → LeadsOn meanings labels.now from.now insn.now (pos (slot + 1) +ℤ distance) behind.now }
{
    match insn.distance() {
        Some(distance) => jump_by(labels, slot, from, insn, distance, behind),
        None => Err(LabelFault::NotContained),
    }
}

/// Whether the edge of a comparison that holds leads to a label, where a run can come there.
pub(crate) fn jump_on(
    labels: &[Option<Label>],
    slot: usize,
    from: &Label,
    insn: &Insn,
    behind: &Option<TrackedState>,
) -> Result<(), LabelFault>
    requires { slot < 4096 }
    ensures rule { (distance : ℤ) → jump_of insn.now ≡ Some distance → (IsOk result
        ↔ LeadsIf loop_rules labels.now from.now insn.now (pos (slot + 1) +ℤ distance) behind.now) }
    ensures sound { (distance : ℤ) → jump_of insn.now ≡ Some distance → IsOk result
        → LeadsIf meanings labels.now from.now insn.now (pos (slot + 1) +ℤ distance) behind.now }
{
    match behind {
        Some(state) => jump_to(labels, slot, from, insn, state),
        None => Ok(()),
    }
}

/// Whether the edge to the next instruction leads to a label, where a run can come there.
pub(crate) fn fall_on(
    labels: &[Option<Label>],
    slot: usize,
    from: &Label,
    insn: &Insn,
    behind: &Option<TrackedState>,
) -> Result<(), LabelFault>
    requires { slot < 4096 }
    ensures rule { IsOk result
        ↔ LeadsIf loop_rules labels.now from.now insn.now (pos (slot + slots_of insn.now)) behind.now }
    ensures sound { IsOk result
        → LeadsIf meanings labels.now from.now insn.now (pos (slot + slots_of insn.now)) behind.now }
{
    match behind {
        Some(state) => lead_to(labels, from, insn, slot + insn.slots(), state),
        None => Ok(()),
    }
}
