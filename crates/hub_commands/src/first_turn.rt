//! What the verifier knows before a refused instruction of a program with a jump back, where runs come there first.
use abstract_state::refusal::Refusal;
use bpf_words::encoding::encode;
use bpf_words::instruction::{Arithmetic, Insn, Operand, Width};
use bpf_words::register::Register;
use bpf_words::words::Words;
use known_lines::lines::KnownLines;
use known_ways::place::insn_at;
use loop_search::states::{SearchError, Visits, find_states};
use loop_verifier::verify::FINE;
use refusal_needs::refused_for::refused_for;
use span_context::profile::Profile;
use std::alloc::{AllocError, Global};
use step_lines::lines::push_instruction;
use tracked_state::state::TrackedState;

/// The bytes of the program with a jump in place of the instruction at a slot, to an end with the verdict 0.
fn ended_at(alloc: Global, words: &Words<'_>, slot: usize) -> Result<Option<Vec<u8>>, AllocError> {
    let behind = words.len().saturating_sub(slot).saturating_sub(1);
    let Ok(distance) = i16::try_from(behind) else {
        return Ok(None);
    };
    let whole = words.copy(alloc)?;
    let mut bytes = words.copy(alloc)?;
    bytes.truncate(slot.saturating_mul(8));
    bytes.extend_from_slice(encode(Insn::Jump { distance }).bytes())?;
    let rest = whole.get(bytes.len()..).unwrap_or(&[]);
    bytes.extend_from_slice(rest)?;
    let zero = encode(Insn::Compute {
        width: Width::Full,
        operation: Arithmetic::Mov,
        destination: Register::r0(),
        operand: Operand::Immediate(0),
    });
    bytes.extend_from_slice(zero.bytes())?;
    bytes.extend_from_slice(encode(Insn::Exit).bytes())?;
    Ok(Some(bytes))
}

/// What is known before a slot on the ways there that don't lead past it, if that is found.
fn known_first(
    alloc: Global,
    words: &Words<'_>,
    slot: usize,
) -> Result<Option<Box<TrackedState>>, AllocError> {
    let Some(bytes) = ended_at(alloc, words, slot)? else {
        return Ok(None);
    };
    let Ok(ended) = Words::new(&bytes) else {
        return Ok(None);
    };
    match find_states(alloc, &ended, FINE, &mut Visits::all()) {
        Ok(mut states) => Ok(states.get_mut(slot).and_then(|state| state.take())),
        Err(SearchError::OutOfMemory) => Err(AllocError),
        Err(_) => Ok(None),
    }
}

/// Appends the instruction at which a program that loops is refused; what is known before it where runs come there
/// first, and what it wants of that, unless it is refused for a later turn alone.
pub(crate) fn push_first_turn(
    alloc: Global,
    text: &mut String,
    words: &Words<'_>,
    slot: usize,
    fault: Refusal,
) -> Result<(), AllocError> {
    let Some(insn) = insn_at(words, slot) else {
        return Ok(());
    };
    push_instruction(text, slot, insn)?;
    let Some(known) = known_first(alloc, words, slot)? else {
        return Ok(());
    };
    let state = &known.state;
    let wanted = refused_for(state, &insn, fault);
    if wanted.is_some_and(|wanted| wanted.is_known(state)) {
        return text.push_str("  accepted where runs come there first, refused in a later turn\n");
    }
    KnownLines::of(alloc, Profile::Three, state)?.push(text)?;
    if let Some(wanted) = wanted {
        text.push_str("wanted: ")?;
        wanted.push(text, state)?;
        text.push('\n')?;
    }
    Ok(())
}
