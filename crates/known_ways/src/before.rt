//! What is known before the slots below one at which the verifier refuses a program.
ghost use Rattle.std.specs.Prelude.{◌≡◌, ◌+◌, ◌<◌, ◌≤◌, length, IfOk, IfSome};
ghost use Rattle.bpf_words.specs.Words.{program_of};
ghost use Rattle.tracked_state.specs.Tracked.{IsTrackedIn};
ghost use Rattle.verifier.specs.Decides.{IsAllowedBelow, known_before};
ghost use Rattle.known_ways.specs.Ways.{KnownBelow};
ghost use Rattle.known_ways.specs.Told.{BeginsWith};

use bpf_words::encoding::encode;
use bpf_words::instruction::{Arithmetic, Insn, Operand, Width};
use bpf_words::register::Register;
use bpf_words::words::Words;
use span_context::profile::Profile;
use std::alloc::{AllocError, Global};
use tracked_state::state::TrackedState;
use verifier::before::{state_before, states_before};
use verifier::refusal::VerifyError;

/// The most slots of a program.
const MOST_SLOTS: usize = 4096;

/// The bytes of a program that is accepted if no slot below the last one is refused: the instructions below it, and
/// 0 as the verdict from there on. A slot may be left out at the end, where the program would be too long.
fn ended_at(alloc: Global, words: &Words<'_>, last: usize) -> Result<Vec<u8>, AllocError>
    requires { last < length (program_of words.now) }
    ensures { IfOk result (λ bytes. BeginsWith last words.now bytes.items) }
{
    let slots = words.len();
    let mut bytes = words.copy(alloc)?;
    bytes.truncate(last * 8);
    let zero = encode(Insn::Compute {
        width: Width::Full,
        operation: Arithmetic::Mov,
        destination: Register::r0(),
        operand: Operand::Immediate(0),
    });
    for _slot in last..slots.min(MOST_SLOTS - 1) {
        bytes.extend_from_slice(zero.bytes())?;
    }
    bytes.extend_from_slice(encode(Insn::Exit).bytes())?;
    Ok(bytes)
}

/// What is known before each of the first slots of a program, by one walk over it; none where that is refused.
fn states_first(
    alloc: Global,
    words: &Words<'_>,
    profile: Profile,
    count: usize,
) -> Result<Option<Vec<Option<TrackedState>>>, AllocError>
    requires { count ≤ length (program_of words.now) }
    ensures size { IfOk result (λ o. IfSome o (λ states. length states.items ≡ count)) }
    ensures known { IfOk result (λ o. IfSome o
        (λ states. KnownBelow profile (program_of words.now) states.items)) }
{
    match states_before(alloc, words, profile) {
        Ok(mut states) => {
            states.truncate(count);
            Ok(Some(states))
        }
        Err(VerifyError::OutOfMemory) => Err(AllocError),
        Err(_) => Ok(None),
    }
}

/// What is known before each slot below the last one, by one walk over another program of the same slots below it; none
/// where that is refused too.
fn states_ended(
    alloc: Global,
    words: &Words<'_>,
    profile: Profile,
    last: usize,
) -> Result<Option<Vec<Option<TrackedState>>>, AllocError>
    requires { last < length (program_of words.now) }
    ensures size { IfOk result (λ o. IfSome o (λ states. length states.items ≡ last)) }
    ensures known { IfOk result (λ o. IfSome o
        (λ states. KnownBelow profile (program_of words.now) states.items)) }
{
    let bytes = ended_at(alloc, words, last)?;
    match Words::new(&bytes) {
        Ok(ended) => states_first(alloc, &ended, profile, last),
        Err(_) => Ok(None),
    }
}

/// What is known before a slot below which none is refused. So want of memory is all that can be amiss.
pub(crate) fn known_at(
    alloc: Global,
    words: &Words<'_>,
    profile: Profile,
    slot: usize,
) -> Result<Option<TrackedState>, AllocError>
    requires within { slot < length (program_of words.now) }
    requires allowed { IsAllowedBelow profile (program_of words.now) slot }
    ensures { IfOk result (λ known. IsTrackedIn known (known_before profile (program_of words.now) slot)) }
{
    match state_before(alloc, words, profile, slot) {
        Ok(known) => Ok(known),
        Err(_) => Err(AllocError),
    }
}

/// What is known before each slot below the last one, by a walk to each.
fn states_each(
    alloc: Global,
    words: &Words<'_>,
    profile: Profile,
    last: usize,
) -> Result<Vec<Option<TrackedState>>, AllocError>
    requires within { last < length (program_of words.now) }
    requires allowed { IsAllowedBelow profile (program_of words.now) last }
    ensures size { IfOk result (λ states. length states.items ≡ last) }
    ensures known { IfOk result (λ states. KnownBelow profile (program_of words.now) states.items) }
{
    let mut states = Vec::new(alloc);
    for slot in 0..last {
        let known = known_at(alloc, words, profile, slot)?;
        states.push(known)?;
    }
    Ok(states)
}

/// What is known before each slot below the last one, by one walk where that can be, else by a walk to each.
fn states_below(
    alloc: Global,
    words: &Words<'_>,
    profile: Profile,
    last: usize,
) -> Result<Vec<Option<TrackedState>>, AllocError>
    requires within { last < length (program_of words.now) }
    requires allowed { IsAllowedBelow profile (program_of words.now) last }
    ensures size { IfOk result (λ states. length states.items ≡ last) }
    ensures known { IfOk result (λ states. KnownBelow profile (program_of words.now) states.items) }
{
    match states_ended(alloc, words, profile, last)? {
        Some(states) => Ok(states),
        None => states_each(alloc, words, profile, last),
    }
}

/// What is known before each slot up to the last one, below which `verify` refuses none.
pub(crate) fn states_until(
    alloc: Global,
    words: &Words<'_>,
    profile: Profile,
    last: usize,
) -> Result<Vec<Option<TrackedState>>, AllocError>
    requires within { last < length (program_of words.now) }
    requires allowed { IsAllowedBelow profile (program_of words.now) last }
    ensures size { IfOk result (λ states. length states.items ≡ last + 1) }
    ensures known { IfOk result (λ states. KnownBelow profile (program_of words.now) states.items) }
{
    let mut states = states_below(alloc, words, profile, last)?;
    let known = known_at(alloc, words, profile, last)?;
    states.push(known)?;
    Ok(states)
}
