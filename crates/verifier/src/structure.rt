//! The positions and targets of all instructions, before anything is known of the machine.
ghost use Rattle.std.specs.Prelude.{◌≡◌, ◌<◌, Some, length, IsTrue, ◌↔◌, MatchResult};
ghost use Rattle.bpf_words.specs.Words.{program_of};
ghost use Rattle.bpf_words.specs.Flow.{StartsAt, written_by};
ghost use Rattle.verifier.specs.Structure.{JumpFaults, Jumps, Faults, LeastFault, IsSound, IsStructured, FirstFault};
ghost use Rattle.verifier.specs.declared.refusal.StructureFault.{StructureFault};

use crate::refusal::StructureFault;
use bpf_words::instruction::Insn;
use bpf_words::words::Words;

/// The first slot at fault, and what is wrong there.
#[derive(Clone, Copy)]
pub struct Misplaced {
    pub slot: usize,
    pub fault: StructureFault,
}

fn check_jump(words: &Words<'_>, slot: usize, distance: i32) -> Result<(), StructureFault>
    requires { slot < length (program_of words.now) }
    ensures { MatchResult result (λ _. (fault : StructureFault)
        → JumpFaults (program_of words.now) slot distance fault
        → ⊥) (λ fault. JumpFaults (program_of words.now) slot distance fault) }
{
    let count = words.len();
    if distance < 0 {
        return Err(StructureFault::BackwardJump);
    }
    let target = slot + 1 + distance as usize;
    if target >= count {
        return Err(StructureFault::JumpOut);
    }
    if words.insn(target).is_none() {
        return Err(StructureFault::JumpIntoWide);
    }
    Ok(())
}

/// Looks at where an instruction jumps, if it does.
fn check_jumps(words: &Words<'_>, slot: usize, insn: &Insn) -> Result<(), StructureFault>
    requires { slot < length (program_of words.now) }
    ensures { MatchResult result (λ _. (fault : StructureFault) → Jumps (program_of words.now) slot insn.now fault
        → ⊥) (λ fault. Jumps (program_of words.now) slot insn.now fault) }
{
    match insn.distance() {
        Some(distance) => check_jump(words, slot, distance),
        None => Ok(()),
    }
}

fn falls_off(words: &Words<'_>, slot: usize, insn: &Insn) -> bool
    requires { slot < length (program_of words.now) }
    ensures { IsTrue result ↔ Faults (program_of words.now) slot insn.now StructureFault.FallOff }
{
    let count = words.len();
    slot + insn.slots() >= count && !matches!(insn, Insn::Exit)
}

fn writes_r10(insn: &Insn) -> bool
    ensures { IsTrue result ↔ (written_by insn.now ≡ Some 10) }
{
    match insn.written() {
        Some(register) => register.index() == 10,
        None => false,
    }
}

fn check_insn(words: &Words<'_>, slot: usize, insn: &Insn) -> Result<(), StructureFault>
    requires { slot < length (program_of words.now) }
    ensures { MatchResult result (λ _. IsSound (program_of words.now) slot insn.now)
        (λ fault. LeastFault (program_of words.now) slot insn.now fault) }
{
    check_jumps(words, slot, insn)?;
    if falls_off(words, slot, insn) {
        return Err(StructureFault::FallOff);
    }
    if writes_r10(insn) {
        return Err(StructureFault::WriteR10);
    }
    Ok(())
}

/// Looks at each instruction in order.
pub fn check(words: &Words<'_>) -> Result<(), Misplaced>
    ensures { MatchResult result (λ _. IsStructured (program_of words.now))
        (λ wrong. FirstFault (program_of words.now) wrong.slot wrong.fault) }
{
    for slot in 0..words.len() {
        if let Some(insn) = words.insn(slot) {
            if let Err(fault) = check_insn(words, slot, &insn) {
                return Err(Misplaced { slot, fault });
            }
        }
    }
    Ok(())
}
