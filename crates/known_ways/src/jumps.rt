//! Where jumps lead forward.
ghost use Rattle.std.specs.Prelude.{◌≡◌, ℕ, ◌<◌, ◌||◌, false, None, length, slice_get, slice_index_or, IfOk};
ghost use Rattle.bpf_words.specs.Flow.{jump_of};
ghost use Rattle.bpf_words.specs.Words.{program_of};
ghost use Rattle.semantics.specs.Step.{Program};
ghost use Rattle.known_ways.specs.Ways.{forward_target, leads_to, target_at as target_in};
ghost use Rattle.known_ways.specs.Told.{AreTargets, AreJumpedTo};

use crate::place::insn_at;
use bpf_words::instruction::Insn;
use bpf_words::words::Words;
use std::alloc::{AllocError, Global};

/// The slot to which an instruction jumps forward.
pub(crate) fn target(slot: usize, insn: &Insn) -> Option<usize>
    requires { slot < 4096 }
    ensures { result ≡ forward_target slot (jump_of insn.now) }
{
    match insn.distance() {
        Some(distance) if distance >= 0 => Some(slot + 1 + distance.unsigned_abs() as usize),
        _ => None,
    }
}

/// Whether a jump leads to a slot, by where it leads forward.
pub(crate) fn leads(target: Option<usize>, slot: usize) -> bool
    ensures { result ≡ leads_to slot target }
{
    match target {
        Some(at) => slot == at,
        None => false,
    }
}

fn target_at(words: &Words<'_>, slot: usize) -> Option<usize>
    ensures { result ≡ target_in slot (slice_get (program_of words.now) slot) }
{
    match insn_at(words, slot) {
        Some(insn) => target(slot, &insn),
        None => None,
    }
}

/// Where each slot's jump leads.
pub(crate) fn targets(alloc: Global, words: &Words<'_>) -> Result<Vec<Option<usize>>, AllocError>
    ensures { IfOk result (λ targets. AreTargets (program_of words.now) targets.items) }
{
    let mut targets = Vec::new(alloc);
    for slot in 0..words.len() {
        let target = target_at(words, slot);
        targets.push(target)?;
    }
    Ok(targets)
}

/// Notes that a jump leads to a slot.
#[tactic(auto, using(crate::proofs::Gathering::marks))]
fn mark(are: &mut Vec<bool>, target: Option<usize>)
    ensures size { length are.new.items ≡ length are.old.items }
    ensures marked { (slot : ℕ) → slot < length are.old.items
        → slice_index_or are.new.items slot false ≡ (slice_index_or are.old.items slot false || leads_to slot target) }
{
    if let Some(slot) = target {
        if slot < are.len() {
            are[slot] = true;
        }
    }
}

/// To which slots a jump leads.
pub(crate) fn are_jumped_to(
    alloc: Global,
    targets: &[Option<usize>],
) -> Result<Vec<bool>, AllocError>
    ensures { (program : Program) → AreTargets program targets.now
        → IfOk result (λ are. AreJumpedTo program are.items) }
{
    let mut are = vec![in alloc; false; targets.len()]?;
    for from in 0..targets.len() {
        let target = targets[from];
        mark(&mut are, target);
    }
    Ok(are)
}
