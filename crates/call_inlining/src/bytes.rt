//! The bytes of a list of instructions.
ghost use Rattle.std.specs.Prelude.{◌≡◌, IsTrue, IfOk, IfSome};
ghost use Rattle.bpf_words.specs.Words.{IsProgram, program_of};

use crate::instructions::is_same;
use bpf_words::encoding::encode;
use bpf_words::instruction::Insn;
use bpf_words::words::Words;
use std::alloc::{AllocError, Global};

/// Whether two slots are the same.
fn is_same_slot(a: Option<Insn>, b: Option<Insn>) -> bool
    ensures { IsTrue result → a ≡ b }
{
    match (a, b) {
        (Some(a), Some(b)) => is_same(a, b),
        (None, None) => true,
        _ => false,
    }
}

/// Whether a program has those slots.
fn is_program(words: &Words<'_>, program: &[Option<Insn>]) -> bool
    ensures { IsTrue result → program_of words.now ≡ program.now }
{
    if words.len() != program.len() {
        return false;
    }
    for (slot, insn) in program.iter().enumerate() {
        let there = words.insn(slot);
        if !is_same_slot(there, *insn) {
            return false;
        }
    }
    true
}

fn encoded(alloc: Global, program: &[Option<Insn>]) -> Result<Vec<u8>, AllocError> {
    let mut bytes = Vec::new(alloc);
    for insn in program {
        if let Some(insn) = insn {
            bytes.extend_from_slice(encode(*insn).bytes())?;
        }
    }
    Ok(bytes)
}

fn are_program(bytes: &[u8], program: &[Option<Insn>]) -> bool
    ensures program { IsTrue result → IsProgram bytes.now }
    ensures same { IsTrue result → program_of bytes.now ≡ program.now }
{
    match Words::new(bytes) {
        Ok(words) => is_program(&words, program),
        Err(_) => false,
    }
}

/// The bytes of a program that has those slots, if there is one.
pub fn program_bytes(alloc: Global, program: &[Option<Insn>]) -> Result<Option<Vec<u8>>, AllocError>
    ensures program { IfOk result (λ found. IfSome found (λ bytes. IsProgram bytes.items)) }
    ensures same { IfOk result (λ found. IfSome found (λ bytes. program_of bytes.items ≡ program.now)) }
{
    let bytes = encoded(alloc, program)?;
    if are_program(&bytes, program) {
        Ok(Some(bytes))
    } else {
        Ok(None)
    }
}
