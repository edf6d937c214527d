//! Where all instructions lead, and the first jump back.
ghost use Rattle.std.specs.Prelude.{◌≡◌, ◌≢◌, ◌<◌, ℕ, length, Some, IsTrue, ◌↔◌, MatchResult, MatchOption};
ghost use Rattle.bpf_words.specs.Words.{program_of};
ghost use Rattle.bpf_words.specs.Flow.{StartsAt, jump_of};
ghost use Rattle.block_layout.specs.Meaning.{IsForward};
ghost use Rattle.block_layout.specs.Structure.{Faults, IsSound, IsConnected, FirstFault, FirstBack};
ghost use Rattle.block_layout.specs.declared.refusal.WayFault.{WayFault};

use crate::refusal::WayFault;
use crate::ways::{falls, target};
use bpf_words::instruction::Insn;
use bpf_words::words::Words;

/// The first slot at fault, and what is wrong there.
#[derive(Clone, Copy)]
pub struct Misplaced {
    pub slot: usize,
    pub fault: WayFault,
}

/// Looks at where an instruction jumps, if it does.
fn check_jump(words: &Words<'_>, slot: usize, insn: &Insn) -> Result<(), WayFault>
    requires { slot < length (program_of words.now) }
    ensures { MatchResult result
        (λ _. (fault : WayFault) → fault ≢ WayFault.FallOff → Faults (program_of words.now) slot insn.now fault → ⊥)
        (λ fault. Faults (program_of words.now) slot insn.now fault) }
{
    let count = words.len();
    let Some(distance) = insn.distance() else {
        return Ok(());
    };
    match target(slot, distance) {
        Some(to) if to < count => {
            if words.insn(to).is_none() {
                Err(WayFault::JumpIntoWide)
            } else {
                Ok(())
            }
        }
        _ => Err(WayFault::JumpOut),
    }
}

fn check_insn(words: &Words<'_>, slot: usize, insn: &Insn) -> Result<(), WayFault>
    requires { slot < length (program_of words.now) }
    ensures { MatchResult result (λ _. IsSound (program_of words.now) slot insn.now)
        (λ fault. Faults (program_of words.now) slot insn.now fault) }
{
    check_jump(words, slot, insn)?;
    let count = words.len();
    if falls(insn) && slot + insn.slots() >= count {
        return Err(WayFault::FallOff);
    }
    Ok(())
}

/// Looks at each instruction in order.
pub fn check(words: &Words<'_>) -> Result<(), Misplaced>
    ensures { MatchResult result (λ _. IsConnected (program_of words.now))
        (λ wrong. FirstFault (program_of words.now) wrong.slot wrong.fault) }
{
    for slot in 0..words.len() {
        if let Some(insn) = words.insn(slot) {
            if let Err(fault) = check_insn(words, slot, &insn) {
                return Err(Misplaced { slot, fault });
            }
        }
    }
    Ok(())
}

/// The slot of the first jump back.
pub fn first_back(words: &Words<'_>) -> Option<usize>
    ensures { MatchOption result (IsForward (program_of words.now)) (λ slot. FirstBack (program_of words.now) slot) }
{
    for slot in 0..words.len() {
        if let Some(insn) = words.insn(slot) {
            if insn.distance().is_some_and(|distance| distance < 0) {
                return Some(slot);
            }
        }
    }
    None
}
