//! What the verifier knows of a program, printed behind what `check` answers.
ghost use Rattle.std.specs.Prelude.{◌≡◌, ℕ, pos, ◌+◌, ◌<◌, ◌≤◌, ◌++◌, List, Some, true, IfOk, OnOk, IfSome};
ghost use Rattle.std.specs.Prelude.{if◌then◌else◌, slice_index, length, string_bytes};
ghost use Rattle.bpf_words.specs.Flow.{jump_of, falls_through, slots_of};
ghost use Rattle.span_context.specs.Context.{SpanBytes};
ghost use Rattle.bpf_words.specs.Words.{program_of};
ghost use Rattle.semantics.specs.State.{start};
ghost use Rattle.semantics.specs.Outcomes.{outcome, outcome_from};
ghost use Rattle.semantics.specs.Safe.{IsSpan, Safe, SafeIn};
ghost use Rattle.verifier.specs.Structure.{IsStructured};
ghost use Rattle.hub_commands.specs.Answers.{IsAnswered};
ghost use Rattle.span_context.specs.declared.profile.Profile.TheVariants.{Two};
ghost use Rattle.program_reads.specs.Reads.{Determines};
ghost use Rattle.verifier.specs.Judged.{Rejects};
ghost use Rattle.verifier.specs.Decides.{IsAllowed};
ghost use Rattle.hub_commands.specs.Digits.{AreDigits};
ghost use Rattle.hub_commands.specs.Hexadecimal.{without_blanks};
ghost use Rattle.hub_commands.specs.Hints.{digits_hint};
ghost use Rattle.known_ways.specs.Ways.{KnownBelow};
ghost use Rattle.program_listing.specs.Listing.{listing_text};
ghost use Rattle.hub_commands.specs.Explained.{listing_if, refused_text, IsExplainedReply, IsExplainReply};

use crate::answer::Answer;
use crate::digits::Digits;
use crate::ended::Ended;
use crate::failure::Failure;
use crate::hex_input::HexInput;
use crate::output::write_answer;
use abstract_state::refusal::Refusal;
use bpf_words::instruction::Insn;
use bpf_words::words::Words;
use filters::refusal::FilterError;
use known_ways::knowledge::Knowledge;
use need_trails::trail::push_trail;
use program_listing::instructions::push_instructions;
use program_listing::listing::{push_listing, push_slot};
use program_reads::lines::push_reads;
use program_reads::reads::Reads;
use refusals::reason::Reason;
use span_context::profile::Profile;
use std::alloc::{AllocError, Global};
use std::io::{Read, Write};
use verifier::before::states_before;
use verifier::refusal::VerifyError;
use verifier::verify::verify;

/// Whether a run can go on to the next instruction.
fn falls_through(insn: &Insn) -> bool
    ensures { result ≡ falls_through insn.now }
{
    !matches!(insn, Insn::Jump { .. } | Insn::JumpLong { .. } | Insn::Exit)
}

/// The number at a slot; none behind the last.
fn steps_at(steps: &[usize], slot: usize) -> usize
    ensures { result ≡ slice_index steps.now slot }
{
    if slot < steps.len() { steps[slot] } else { 0 }
}

/// The greatest number of steps past an instruction that goes on to the next one.
fn steps_past(steps: &[usize], slot: usize, insn: &Insn) -> usize
    requires slot { slot < 4096 }
    ensures bound { (most : ℕ) → ((k : ℕ) → slice_index steps.now k ≤ most) → result ≤ most }
    ensures falls { falls_through insn.now ≡ true → result ≡ slice_index steps.now (slot + slots_of insn.now) }
{
    if falls_through(insn) {
        steps_at(steps, slot + insn.slots())
    } else {
        0
    }
}

/// The greatest number of steps from where an instruction jumps to.
fn steps_behind(steps: &[usize], slot: usize, insn: &Insn) -> usize
    requires slot { slot < 4096 }
    ensures bound { (most : ℕ) → ((k : ℕ) → slice_index steps.now k ≤ most) → result ≤ most }
    ensures jumps { (n : ℕ) → jump_of insn.now ≡ Some (pos n) → result ≡ slice_index steps.now (slot + 1 + n) }
{
    match insn.distance() {
        Some(distance) => steps_at(steps, slot + 1 + distance.unsigned_abs() as usize),
        None => 0,
    }
}

/// The greatest number of steps from a slot on, where those of the slots behind it are known.
fn steps_from(steps: &[usize], slot: usize, insn: &Insn) -> usize
    requires slot { slot < 4096 }
    requires few { (k : ℕ) → slice_index steps.now k ≤ 4096 }
    ensures bound { (most : ℕ) → ((k : ℕ) → slice_index steps.now k ≤ most) → result ≤ most + 1 }
    ensures some { 1 ≤ result }
    ensures falls { falls_through insn.now ≡ true → slice_index steps.now (slot + slots_of insn.now) < result }
    ensures jumps { (n : ℕ) → jump_of insn.now ≡ Some (pos n) → slice_index steps.now (slot + 1 + n) < result }
{
    let past = steps_past(steps, slot, insn);
    let behind = steps_behind(steps, slot, insn);
    past.max(behind) + 1
}

/// The greatest number of steps of a program whose jumps all lead forward: the instructions on its longest path. No run
/// takes more.
fn most_steps(alloc: Global, words: &Words<'_>) -> Result<usize, AllocError>
    requires structured { IsStructured (program_of words.now) }
    requires safe { Safe (program_of words.now) }
    ensures { IfOk result (λ most. (bytes : SpanBytes) → IsSpan bytes
        → outcome_from (program_of words.now) bytes most start ≡ outcome (program_of words.now) bytes) }
{
    let mut steps = vec![in alloc; 0; words.len()]?;
    for done in 0..words.len() {
        let slot = words.len() - 1 - done;
        if let Some(insn) = words.insn(slot) {
            steps[slot] = steps_from(&steps, slot, &insn);
        }
    }
    Ok(steps[0])
}

/// Appends the listing of the instructions below a slot, where the whole program is to be listed.
fn push_listing_if(
    alloc: Global,
    text: &mut String,
    knowledge: &Knowledge<'_>,
    slot: usize,
    is_whole: bool,
) -> Result<(), AllocError>
    requires known { KnownBelow knowledge.now.profile (program_of knowledge.now.words.now)
        knowledge.now.states.items }
    requires within { slot ≤ length knowledge.now.states.items }
    ensures { OnOk result (string_bytes text.new ≡ string_bytes text.old
        ++ listing_if is_whole knowledge.now.profile (program_of knowledge.now.words.now) slot) }
{
    if is_whole {
        push_listing(alloc, text, knowledge, slot)
    } else {
        Ok(())
    }
}

/// Appends the instruction at which a program is refused for what is known before it, that, and where what it wants was
/// known last; before these what is known before each instruction below, where the whole program is to be listed.
fn push_known_refused(
    alloc: Global,
    text: &mut String,
    knowledge: &Knowledge<'_>,
    slot: usize,
    fault: Refusal,
    is_whole: bool,
) -> Result<(), AllocError>
    requires known { KnownBelow knowledge.now.profile (program_of knowledge.now.words.now)
        knowledge.now.states.items }
    requires within { slot < length knowledge.now.states.items }
    ensures { OnOk result (string_bytes text.new ≡ string_bytes text.old
        ++ refused_text is_whole knowledge.now.profile (program_of knowledge.now.words.now)
        (VerifyError.State slot fault)) }
{
    push_listing_if(alloc, text, knowledge, slot, is_whole)?;
    push_slot(alloc, text, knowledge, slot)?;
    push_trail(alloc, text, knowledge, slot, fault)?;
    Ok(())
}

/// The slot from which on the instructions of a refused program are printed up to one.
fn first_printed(slot: usize, is_whole: bool) -> usize
    ensures { result ≡ (if is_whole then 0 else slot) }
{
    if is_whole { 0 } else { slot }
}

/// Appends the instruction at which a program is refused, where the whole program is to be listed behind all others up
/// to there; and what is known before it where it is refused for that.
#[tactic(auto, unfolding(crate::specs::Explained::refused_text))]
pub(crate) fn push_refused(
    alloc: Global,
    text: &mut String,
    words: &Words<'_>,
    profile: Profile,
    error: VerifyError,
    is_whole: bool,
) -> Result<(), AllocError>
    requires { Rejects profile (program_of words.now) error }
    ensures { OnOk result (string_bytes text.new ≡ string_bytes text.old
        ++ refused_text is_whole profile (program_of words.now) error) }
{
    match error {
        VerifyError::Structure { slot, .. } => {
            push_instructions(text, words, first_printed(slot, is_whole), slot)
        }
        VerifyError::State { slot, fault } => {
            let knowledge = Knowledge::until(alloc, words, profile, slot)?;
            push_known_refused(alloc, text, &knowledge, slot, fault, is_whole)
        }
        VerifyError::OutOfMemory => Ok(()),
    }
}

/// What is answered to a program that isn't accepted: what `check` answers, and where the program is at fault.
fn refused_answer(
    alloc: Global,
    words: &Words<'_>,
    profile: Profile,
    error: VerifyError,
    is_whole: bool,
) -> Result<Answer, AllocError>
    requires { Rejects profile (program_of words.now) error }
    ensures { IfOk result (λ answer. IsExplainedReply is_whole profile words.now answer) }
{
    let Answer { ending, mut text } = Answer::refused(
        alloc,
        &Reason::Unverified(FilterError::Program(error)),
    )?;
    push_refused(alloc, &mut text, words, profile, error, is_whole)?;
    Ok(Answer { ending, text })
}

/// The listing of an accepted program, where that is asked for.
pub(crate) fn listing(
    alloc: Global,
    words: &Words<'_>,
    profile: Profile,
    is_whole: bool,
) -> Result<String, AllocError>
    requires structured { IsStructured (program_of words.now) }
    requires allowed { IsAllowed profile (program_of words.now) }
    ensures { IfOk result (λ text. string_bytes text
        ≡ listing_if is_whole profile (program_of words.now) (length (program_of words.now))) }
{
    if is_whole {
        whole_listing(alloc, words, profile)
    } else {
        Ok(String::new(alloc))
    }
}

/// The listing of an accepted program.
fn whole_listing(alloc: Global, words: &Words<'_>, profile: Profile) -> Result<String, AllocError>
    requires structured { IsStructured (program_of words.now) }
    requires allowed { IsAllowed profile (program_of words.now) }
    ensures { IfOk result (λ text. string_bytes text
        ≡ listing_text profile (program_of words.now) (length (program_of words.now))) }
{
    let Ok(states) = states_before(alloc, words, profile) else {
        return Err(AllocError);
    };
    let knowledge = Knowledge::of(alloc, words, profile, states)?;
    let mut text = String::new(alloc);
    push_listing(alloc, &mut text, &knowledge, words.len())?;
    Ok(text)
}

/// What is answered to an accepted program: what `check` answers, the greatest number of its steps, and what it can
/// read of a span; then its listing, where that is asked for.
fn accepted_answer(
    alloc: Global,
    words: &Words<'_>,
    profile: Profile,
    reads: &Reads,
    is_whole: bool,
) -> Result<Answer, AllocError>
    requires structured { IsStructured (program_of words.now) }
    requires seen { SafeIn profile (program_of words.now) }
    requires allowed { IsAllowed profile (program_of words.now) }
    requires determines { Determines reads.now Two (program_of words.now) }
    ensures { IfOk result (λ answer. IsExplainedReply is_whole profile words.now answer) }
{
    let slots = words.len();
    let steps = most_steps(alloc, words)?;
    let mut text = format!(in alloc; "accepted {slots}\nsteps <= {steps}\n")?;
    push_reads(&mut text, reads, profile)?;
    let listing = listing(alloc, words, profile, is_whole)?;
    text.push_str(listing.as_str())?;
    Ok(Answer::done(text))
}

/// What `check` answers to a program, and behind it what is known of the program. The verifier is asked once, so that
/// both are of one answer of it where memory is short.
fn explained_answer(
    alloc: Global,
    words: &Words<'_>,
    profile: Profile,
    is_whole: bool,
) -> Result<Answer, AllocError>
    ensures { IfOk result (λ answer. IsExplainedReply is_whole profile words.now answer) }
{
    match verify(alloc, words, profile) {
        Ok(verified) => accepted_answer(alloc, words, profile, &verified.reads(), is_whole),
        Err(error) => refused_answer(alloc, words, profile, error, is_whole),
    }
}

/// What `check --explain` answers to a program in hexadecimal, or `check --explain=all`, which lists the whole program.
pub fn explain_answer(
    alloc: Global,
    profile: Profile,
    is_whole: bool,
    digits: &Digits,
) -> Result<Answer, AllocError>
    ensures { IfOk result (λ answer. (input : List ℕ) → AreDigits (without_blanks input) digits.now
        → IsExplainReply is_whole profile input answer) }
{
    let Some(bytes) = digits.bytes(alloc)? else {
        return Answer::refused(alloc, &Reason::BadHex);
    };
    match Words::new(&bytes) {
        Ok(words) => explained_answer(alloc, &words, profile, is_whole),
        Err(error) => Answer::refused(alloc, &Reason::Words(error)),
    }
}

/// The commands `check --explain` and `check --explain=all`: whether a program in hexadecimal is accepted, and what the
/// verifier knows of it.
pub fn explain<R: Read, W: Write>(
    alloc: Global,
    profile: Profile,
    is_whole: bool,
    reader: &mut R,
    writer: &mut W,
) -> Result<Ended, Failure>
    ensures answered { IfOk result (λ ended. IsAnswered (IsExplainReply is_whole profile) (R.remaining reader.old)
        (W.contents writer.old) (W.contents writer.new) ended.status) }
    ensures hinted { IfOk result (λ ended. IfSome (R.remaining reader.old) (λ input. ended.hint ≡ digits_hint input)) }
{
    let input = HexInput::read(alloc, reader)?;
    let answer = explain_answer(alloc, profile, is_whole, &input.digits)?;
    let status = write_answer(writer, &answer)?;
    Ok(Ended {
        status,
        hint: input.hint(),
        word: None,
    })
}
