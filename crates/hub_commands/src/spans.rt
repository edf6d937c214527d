//! The command `spans`: the spans of the version that the changes of its input make.
ghost use Rattle.std.specs.Prelude.{◌≡◌, ◌≢◌, ◌<◌, List, ℕ, length, IfOk, IfSome, MatchResult, OnErr};
ghost use Rattle.std.specs.Str.{IsUtf8};
ghost use Rattle.change_ops.specs.declared.refusal.ChangeError.TheVariants.{OutOfMemory as NoMemory};
ghost use Rattle.span_flatten.specs.Spans.{Span, AreSpans};
ghost use Rattle.change_history.specs.Accepted.{operations_of};
ghost use Rattle.change_history.specs.declared.refusal.SubmitError.TheVariants.{OutOfMemory};
ghost use Rattle.refusals.specs.declared.reason.Reason.TheVariants.{Unread, Unaccepted};
ghost use Rattle.hub_commands.specs.Answers.{done, IsAnswered};
ghost use Rattle.hub_commands.specs.ChangesInput.{IsWholeInput, fault_reply};
ghost use Rattle.hub_commands.specs.Hints.{text_hint};
ghost use Rattle.hub_commands.specs.Reasons.{in_change};
ghost use Rattle.span_lines.specs.SpanLines.{span_lines};
ghost use Rattle.hub_commands.specs.SpansReply.{IsSpansReply};
ghost use Rattle.hub_commands.specs.Stopping.{MatchStop, StopsAt, Takes};

use crate::answer::Answer;
use crate::changes_input::{ChangesInput, Fault};
use crate::ended::Ended;
use crate::failure::Failure;
use crate::output::write_answer;
use change_history::history::History;
use change_history::refusal::SubmitError;
use change_ops::change::read_change;
use change_ops::refusal::ChangeError;
use change_ops::size::Size;
use refusals::reason::{ChangeReason, Reason};
use span_lines::printing::lines_of;
use std::alloc::{AllocError, Global};
use std::io::{Read, Write};

/// Why the changes of an input make no version.
#[derive(Drop)]
pub(crate) enum Stop {
    /// A change can't be read, or isn't accepted after those before it.
    Refused(ChangeReason),
    /// No memory was found.
    Memory,
}

/// Where the change of this number can't be read.
fn unread(number: usize, error: ChangeError) -> Stop
    ensures { MatchStop result (error ≡ NoMemory) (λ reason. (error ≢ NoMemory)
        × (reason ≡ in_change number (Unread error))) }
{
    match error {
        ChangeError::OutOfMemory => Stop::Memory,
        _ => Stop::Refused(ChangeReason {
            number,
            reason: Reason::Unread(error),
        }),
    }
}

/// Where the change of this number isn't accepted.
fn unaccepted(number: usize, error: SubmitError) -> Stop
    ensures { MatchStop result (error ≡ OutOfMemory) (λ reason. (error ≢ OutOfMemory)
        × (reason ≡ in_change number (Unaccepted error))) }
{
    match error {
        SubmitError::OutOfMemory => Stop::Memory,
        _ => Stop::Refused(ChangeReason {
            number,
            reason: Reason::Unaccepted(error),
        }),
    }
}

/// Takes the change at the front of the text in, and lends what follows it.
pub(crate) fn take_change<'a>(
    alloc: Global,
    history: &mut History,
    text: &'a str,
) -> Result<&'a str, Stop>
    ensures taken { MatchResult result
        (λ rest. Takes history.old.size history.old.changes text.now history.new.changes rest.now)
        (StopsAt history.old.size history.old.changes text.now) }
    ensures size { history.new.size ≡ history.old.size }
    ensures text { IfOk result (λ rest. IsUtf8 rest.now) }
    ensures shorter { IfOk result (λ rest. length rest.now < length text.now) }
    ensures unchanged { OnErr result (history.new ≡ history.old) }
{
    let number = history.len() + 1;
    let (change, rest) = match read_change(alloc, text) {
        Ok(read) => read,
        Err(error) => return Err(unread(number, error)),
    };
    match history.accept(change) {
        Ok(()) => Ok(rest),
        Err(error) => Err(unaccepted(number, error)),
    }
}

/// The spans that the changes of a history make.
fn shown(alloc: Global, history: &History) -> Result<Answer, AllocError>
    ensures { IfOk result (λ answer. (spans : List Span) × AreSpans (operations_of history.now.changes) spans
        × (answer ≡ done (span_lines spans))) }
{
    let version = history.version(alloc)?;
    let lines = lines_of(alloc, &version)?;
    Ok(Answer::done(lines))
}

/// What is answered to an input that is refused.
pub(crate) fn fault_answer(alloc: Global, fault: Fault) -> Result<Answer, AllocError>
    ensures { IfOk result (λ answer. answer ≡ fault_reply fault) }
{
    match fault {
        Fault::NotText => Answer::refused(alloc, &Reason::TextRefused),
        Fault::Change(reason) => Answer::refused(alloc, &reason),
    }
}

/// What `spans` answers to its input.
fn spans_answer(alloc: Global, input: &ChangesInput) -> Result<Answer, AllocError>
    ensures { IfOk result (λ answer. (size : Size) (bytes : List ℕ) → IsWholeInput size bytes input.now
        → IsSpansReply size bytes answer) }
{
    match input.fault {
        None => shown(alloc, &input.history),
        Some(fault) => fault_answer(alloc, fault),
    }
}

/// The command `spans`: the spans of the last version that the changes of the input make, in a document of the size.
pub fn spans<R: Read, W: Write>(
    alloc: Global,
    size: Size,
    reader: &mut R,
    writer: &mut W,
) -> Result<Ended, Failure>
    ensures answered { IfOk result (λ ended. IsAnswered (IsSpansReply size) (R.remaining reader.old)
        (W.contents writer.old) (W.contents writer.new) ended.status) }
    ensures hinted { IfOk result (λ ended. IfSome (R.remaining reader.old) (λ input. ended.hint ≡ text_hint input)) }
{
    let input = ChangesInput::read(alloc, size, reader)?;
    let answer = spans_answer(alloc, &input)?;
    let status = write_answer(writer, &answer)?;
    Ok(Ended {
        status,
        hint: input.hint(),
        word: None,
    })
}
