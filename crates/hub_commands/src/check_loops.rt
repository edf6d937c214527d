//! The command `check --context 4`: whether a program, which may loop, is accepted.
ghost use Rattle.std.specs.Prelude.{◌≡◌, ℕ, List, IfOk, IfSome};
ghost use Rattle.bpf_words.specs.Words.{program_of};
ghost use Rattle.filters.specs.Accepted.{IsAccepted, IsRefused};
ghost use Rattle.filters.specs.declared.rules.RuleSet.TheVariants.{Looping};
ghost use Rattle.hub_commands.specs.Answers.{IsAnswered};
ghost use Rattle.hub_commands.specs.Digits.{AreDigits};
ghost use Rattle.hub_commands.specs.Hexadecimal.{without_blanks};
ghost use Rattle.hub_commands.specs.Hints.{digits_hint};
ghost use Rattle.hub_commands.specs.Loops.{IsJudgment, IsLoopsReply, IsDetailedReply, IsLoopsCheckReply};

use crate::answer::Answer;
use crate::digits::Digits;
use crate::ended::Ended;
use crate::explain::{listing, push_refused};
use crate::failure::Failure;
use crate::first_turn::push_first_turn;
use crate::hex_input::HexInput;
use crate::loop_lines::{push_bounded, push_unbounded};
use crate::output::write_answer;
use block_layout::structure::first_back;
use bpf_words::words::Words;
use filters::accept::accept;
use filters::filter::Filter;
use filters::refusal::FilterError;
use filters::rules::RuleSet;
use hub_requests::Detail;
use program_listing::instructions::push_instructions;
use program_reads::lines::push_reads;
use refusals::reason::Reason;
use span_context::profile::Profile;
use std::alloc::{AllocError, Global};
use std::io::{Read, Write};
use verifier::refusal::VerifyError;

/// What is answered to an accepted program: the number of its slots, and a bound of its steps.
fn accepted_answer(alloc: Global, words: &Words<'_>, filter: &Filter) -> Result<Answer, AllocError>
    requires same { filter.now ≡ program_of words.now }
    requires accepted { IsAccepted Looping (program_of words.now) }
    ensures { IfOk result (λ answer. IsLoopsReply words.now answer) }
{
    let slots = words.len();
    let bound = filter.bound();
    let constant = bound.constant;
    let per_byte = bound.per_byte;
    let per_link_byte = bound.per_link_byte;
    let text = format!(in alloc;
        "accepted {slots}, steps <= {constant} + {per_byte} * length + {per_link_byte} * link length\n"
    )?;
    Ok(Answer::done(text))
}

/// What `check` answers to a program.
fn plain_answer(
    alloc: Global,
    words: &Words<'_>,
    judged: &Result<Filter, FilterError>,
) -> Result<Answer, AllocError>
    requires { IsJudgment (program_of words.now) judged.now }
    ensures { IfOk result (λ answer. IsLoopsReply words.now answer) }
{
    match judged {
        Ok(filter) => accepted_answer(alloc, words, filter),
        Err(error) => Answer::refused(alloc, &Reason::Unverified(*error)),
    }
}

/// Appends the instruction at which a program is refused, and what is known there; at the heads of its loops, where no
/// bound of its steps is found.
fn push_known(
    alloc: Global,
    text: &mut String,
    words: &Words<'_>,
    error: FilterError,
    is_whole: bool,
) -> Result<(), AllocError>
    requires { IsRefused Looping (program_of words.now) error }
{
    match (error, first_back(words)) {
        (FilterError::Program(error), None) => {
            push_refused(alloc, text, words, Profile::Three, error, is_whole)
        }
        _ => push_known_looping(alloc, text, words, error, is_whole),
    }
}

/// The same of a program with a jump back.
fn push_known_looping(
    alloc: Global,
    text: &mut String,
    words: &Words<'_>,
    error: FilterError,
    is_whole: bool,
) -> Result<(), AllocError> {
    match error {
        FilterError::Program(VerifyError::Structure { slot, .. }) => {
            push_instructions(text, words, slot, slot)
        }
        FilterError::Program(VerifyError::State { slot, fault }) => {
            push_first_turn(alloc, text, words, slot, fault)
        }
        FilterError::UnboundedLoop { slot } => {
            push_instructions(text, words, slot, slot)?;
            push_unbounded(alloc, text, words, is_whole)
        }
        FilterError::Program(VerifyError::OutOfMemory) | FilterError::SearchLimit => Ok(()),
    }
}

/// Appends what is known of an accepted program.
fn push_accepted(
    alloc: Global,
    text: &mut String,
    words: &Words<'_>,
    filter: &Filter,
    is_whole: bool,
) -> Result<(), AllocError>
    requires { IsAccepted Looping (program_of words.now) }
{
    match (filter.reads(), first_back(words)) {
        (Some(reads), None) => {
            push_reads(text, &reads, Profile::Three)?;
            text.push_str(listing(alloc, words, Profile::Three, is_whole)?.as_str())
        }
        _ => push_bounded(alloc, text, words, &filter.bound(), is_whole),
    }
}

/// What is said further of a program, by how much is asked for.
fn further(
    alloc: Global,
    words: &Words<'_>,
    judged: &Result<Filter, FilterError>,
    detail: Detail,
) -> Result<String, AllocError>
    requires { IsJudgment (program_of words.now) judged.now }
{
    let mut text = String::new(alloc);
    let is_whole = matches!(detail, Detail::Listing);
    match (detail, judged) {
        (Detail::Verdict, _) => {}
        (_, Ok(filter)) => push_accepted(alloc, &mut text, words, filter, is_whole)?,
        (_, Err(error)) => push_known(alloc, &mut text, words, *error, is_whole)?,
    }
    Ok(text)
}

/// What is answered to a program, by how much is asked for.
fn detailed_answer(alloc: Global, words: &Words<'_>, detail: Detail) -> Result<Answer, AllocError>
    ensures { IfOk result (λ answer. IsDetailedReply words.now answer) }
{
    let judged = accept(alloc, words, RuleSet::Looping);
    let Answer { ending, mut text } = plain_answer(alloc, words, &judged)?;
    let more = further(alloc, words, &judged, detail)?;
    text.push_str(more.as_str())?;
    Ok(Answer { ending, text })
}

/// What `check --context 4` answers to a program in hexadecimal.
fn loops_answer(alloc: Global, detail: Detail, digits: &Digits) -> Result<Answer, AllocError>
    ensures { IfOk result (λ answer. (input : List ℕ) → AreDigits (without_blanks input) digits.now
        → IsLoopsCheckReply input answer) }
{
    let Some(bytes) = digits.bytes(alloc)? else {
        return Answer::refused(alloc, &Reason::BadHex);
    };
    match Words::new(&bytes) {
        Ok(words) => detailed_answer(alloc, &words, detail),
        Err(error) => Answer::refused(alloc, &Reason::Words(error)),
    }
}

/// The command `check --context 4`: whether a program in hexadecimal, which may loop, is accepted, and what is known of
/// it.
pub fn check_loops<R: Read, W: Write>(
    alloc: Global,
    detail: Detail,
    reader: &mut R,
    writer: &mut W,
) -> Result<Ended, Failure>
    ensures answered { IfOk result (λ ended. IsAnswered IsLoopsCheckReply (R.remaining reader.old)
        (W.contents writer.old) (W.contents writer.new) ended.status) }
    ensures hinted { IfOk result (λ ended. IfSome (R.remaining reader.old) (λ input. ended.hint ≡ digits_hint input)) }
{
    let input = HexInput::read(alloc, reader)?;
    let answer = loops_answer(alloc, detail, &input.digits)?;
    let status = write_answer(writer, &answer)?;
    Ok(Ended {
        status,
        hint: input.hint(),
        word: None,
    })
}
