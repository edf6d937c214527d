ghost use Rattle.std.specs.Prelude.{◌≡◌, ◌≤◌, length, IfOk, IfSome};
ghost use Rattle.bpf_words.specs.Words.{program_of};
ghost use Rattle.hub_commands.specs.Answers.{IsAnswered};
ghost use Rattle.hub_commands.specs.Programs.{fault_name, facts_of, link_of, steps_of};
ghost use Rattle.hub_commands.specs.Programs.{outcome_reply, IsSpanReply, IsShownReply, IsRunReply};

use crate::answer::Answer;
use crate::failure::Failure;
use crate::input::read_past;
use crate::output::write_answer;
use crate::trace::steps_answer;
use bpf_words::words::Words;
use filters::filter::longest_run;
use hub_requests::{RunLimit, Shown, SpanOptions};
use interpreter::run::run_steps;
use refusals::reason::Reason;
use semantics::{FaultKind, Outcome};
use span_context::context::{Context, Facts, TEXT_LIMIT};
use std::alloc::{AllocError, Global};
use std::io::{Read, Write};

fn fault_name(kind: FaultKind) -> &'static str
    ensures { result.now ≡ fault_name kind }
{
    match kind {
        FaultKind::UnsetRegister => "F1 UnsetRegister",
        FaultKind::BadAddress => "F2 BadAddress",
        FaultKind::ReadOnly => "F3 ReadOnly",
        FaultKind::UnsetStack => "F4 UnsetStack",
        FaultKind::BadInstruction => "F5 BadInstruction",
        FaultKind::OutOfCode => "F6 OutOfCode",
        FaultKind::WriteR10 => "F7 WriteR10",
    }
}

/// The text of the link that the options name; it has no byte where they name none.
pub fn link(options: &SpanOptions) -> &[u8]
    ensures value { result.now ≡ link_of options.now }
    ensures short { length result.now ≤ 1024 }
{
    match &options.link {
        Some(link) => link.target().as_bytes(),
        None => &[],
    }
}

/// What the options and the text say of the span.
pub fn facts(options: &SpanOptions, text: &str) -> Facts
    requires { length text.now ≤ 131072 }
    ensures value { result ≡ facts_of options.now text.now }
    ensures link_short { result.link_len ≤ 1024 }
{
    Facts {
        text_len: text.len() as u32,
        characters: text.chars().count() as u32,
        flags: options.flags,
        color: options.color,
        link_len: link(options).len() as u32,
        comments: options.comments,
        index: options.index,
        count: options.count,
        version: options.version,
    }
}

/// How many steps the options let a run take.
pub fn step_limit(options: &SpanOptions, words: &Words<'_>) -> usize
    ensures { result ≡ steps_of options.now.limit (program_of words.now) }
{
    match options.limit {
        RunLimit::Slots => words.len(),
        RunLimit::Longest => longest_run(),
    }
}

/// What is answered to the outcome of a run.
pub fn outcome_answer(alloc: Global, outcome: Outcome) -> Result<Answer, AllocError>
    ensures { IfOk result (λ answer. answer ≡ outcome_reply outcome) }
{
    match outcome {
        Outcome::Done(verdict) => {
            let text = format!(in alloc; "verdict {verdict}\n")?;
            Ok(Answer::done(text))
        }
        Outcome::Fault { slot, kind } => {
            let name = fault_name(kind);
            let reason = format!(in alloc; "fault {slot} {name}")?;
            Answer::failed(alloc, &reason)
        }
        Outcome::OutOfSteps => Answer::failed(alloc, &"out of steps"),
    }
}

/// What is answered to a program on the span whose text is the input.
pub fn span_answer(
    alloc: Global,
    words: &Words<'_>,
    options: &SpanOptions,
    input: &[u8],
) -> Result<Answer, AllocError>
    ensures { IfOk result (λ answer. IsSpanReply options.now input.now words.now answer) }
{
    let Ok(text) = std::str::from_utf8(input) else {
        return Answer::refused(alloc, &Reason::TextRefused);
    };
    if text.len() > TEXT_LIMIT {
        return Answer::refused(alloc, &Reason::TextRefused);
    }
    let context = Context::new(&facts(options, text));
    outcome_answer(
        alloc,
        run_steps(
            words,
            step_limit(options, words),
            &context,
            text.as_bytes(),
            link(options),
        ),
    )
}

/// The same, or behind the steps.
fn shown_answer(
    alloc: Global,
    words: &Words<'_>,
    options: &SpanOptions,
    shown: Shown,
    input: &[u8],
) -> Result<Answer, AllocError>
    ensures { IfOk result (λ answer. IsShownReply shown options.now input.now words.now answer) }
{
    match shown {
        Shown::Outcome => span_answer(alloc, words, options, input),
        Shown::Steps => steps_answer(alloc, words, options, input),
    }
}

/// What `run` answers to a program in hexadecimal, on the span whose text is the input. The text is read only where the
/// bytes are a program.
fn run_answer<R: Read>(
    alloc: Global,
    digits: &[u8],
    options: &SpanOptions,
    shown: Shown,
    reader: &mut R,
) -> Result<Answer, Failure>
    ensures { IfOk result (λ answer. IfSome (R.remaining reader.old)
        (λ text. IsRunReply shown digits.now options.now text answer)) }
{
    let Some(bytes) = hex_table::decode(alloc, digits)? else {
        return Ok(Answer::refused(alloc, &Reason::BadHex)?);
    };
    match Words::new(&bytes) {
        Ok(words) => {
            let input = read_past(alloc, reader, TEXT_LIMIT as u64)?;
            Ok(shown_answer(alloc, &words, options, shown, &input)?)
        }
        Err(error) => Ok(Answer::refused(alloc, &Reason::Words(error))?),
    }
}

/// The command `run`, with `--trace` where the steps are shown: one program, in hexadecimal, on one span, whose text is
/// the input.
pub fn run<R: Read, W: Write>(
    alloc: Global,
    digits: &[u8],
    options: &SpanOptions,
    shown: Shown,
    reader: &mut R,
    writer: &mut W,
) -> Result<u8, Failure>
    ensures { IfOk result (λ status. IsAnswered (IsRunReply shown digits.now options.now) (R.remaining reader.old)
        (W.contents writer.old) (W.contents writer.new) status) }
{
    let answer = run_answer(alloc, digits, options, shown, reader)?;
    write_answer(writer, &answer)
}
