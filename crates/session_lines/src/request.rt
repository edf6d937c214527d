//! The requests of a session.
ghost use Rattle.std.specs.Prelude.{◌≡◌, ◌++◌, ◌∷◌, [], Result, IfOk, IsTrue, string_bytes};
ghost use Rattle.change_ops.specs.Changes.{Change};
ghost use Rattle.change_ops.specs.declared.refusal.ChangeError.{ChangeError};
ghost use Rattle.change_ops.specs.declared.refusal.ChangeError.TheVariants as reading;
ghost use Rattle.session_lines.specs.Changes.{legible};
ghost use Rattle.session_lines.specs.Gathering.{Gathers, IsSettled, KeepsLine};
ghost use Rattle.session_lines.specs.Requests.{changed, unended_as, IsRead, IsNext, GoesOn};

use crate::changes::{followers, is_header, push_line};
use crate::commands::command_of;
use crate::fault::{LineRefusal, ReadFault};
use crate::foreign::is_foreign;
use crate::query::Query;
use crate::reader::{Arrival, LineReader};
use change_ops::change::{Change, read_change};
use change_ops::refusal::ChangeError;
use filters::rules::RuleSet;
use std::alloc::{AllocError, Global};
use std::io::Read;

/// The most bytes of a line that a change can have: a run of 256 characters of six digits each has no more.
const LONGEST_RIGHT_LINE: usize = 2048;

/// What a session is asked for.
#[derive(Drop)]
pub enum SessionRequest {
    /// To accept a change.
    Change(Change),
    /// To add a subscriber: with room for 1 to 1,024 items, with bytes that are yet to be looked at as those of a
    /// program that these rules accept, and from the latest version on, or from the one with this number.
    Subscribe {
        rules: RuleSet,
        capacity: usize,
        program: Vec<u8>,
        first: Option<u64>,
    },
    /// To take 1 to 1,024 items of a subscriber.
    Pull {
        subscriber: usize,
        count: usize,
    },
    /// To close a subscriber.
    Close {
        subscriber: usize,
    },
    /// To read of the text.
    Read(Query),
}

/// What comes next of a session's input.
#[derive(Drop)]
pub enum Next {
    /// A request.
    Request(SessionRequest),
    /// A line, or the lines of a change, that are refused; the session goes on behind them.
    Refused(LineRefusal),
    /// A line of more than 70,000 bytes: the session ends.
    TooLong,
    /// A line of another protocol, with which no session can have begun: the session ends.
    Foreign,
    /// Nothing: the session ends.
    End,
}

/// What came of the lines behind a change's first line.
#[derive(Clone, Copy)]
enum Gathered {
    /// All are there.
    AllThere,
    /// The input ends before the last of them.
    Cut,
    /// One of them has more than 70,000 bytes.
    TooLong,
}

impl From<Result<SessionRequest, LineRefusal>> for Next {
    ghost use Rattle.session_lines.specs.Requests.{answered};
    ghost use Rattle.std.specs.Prelude.{◌≡◌};

    ghost from_gives = { λ answer next. next ≡ answered answer };

    fn from(answer: Result<SessionRequest, LineRefusal>) -> Next {
        match answer {
            Ok(request) => Next::Request(request),
            Err(refusal) => Next::Refused(refusal),
        }
    }
}

/// Whether the refusal is of a line that is there.
fn names_line(error: ChangeError) -> bool
    ensures cut { IsTrue result → ¬ (error ≡ reading.Truncated) }
    ensures memory { IsTrue result → ¬ (error ≡ reading.OutOfMemory) }
{
    match error {
        ChangeError::BadLine(_)
        | ChangeError::Limit(_)
        | ChangeError::CharRefused(_)
        | ChangeError::WrongPeer(_) => true,
        ChangeError::Truncated | ChangeError::OutOfMemory => false,
    }
}

/// Whether what is read of the text doesn't wait for further lines.
fn is_settled(alloc: Global, text: &str) -> bool
    ensures { IsTrue result → IsSettled text.now }
{
    match read_change(alloc, text) {
        Ok(_) => true,
        Err(error) => names_line(error),
    }
}

/// Keeps a line behind the text of a change, unless what is read of that is settled. It answers whether it is then.
/// Only a line that is too long to be right is worth the look: so what is kept is never much longer than a right
/// change's text.
fn keep_line(
    alloc: Global,
    text: &mut String,
    line: &[u8],
    settled: bool,
) -> Result<bool, AllocError>
    ensures { IfOk result (λ now. KeepsLine settled (string_bytes text.old) (legible line.now ++ 10 ∷ []) now
        (string_bytes text.new)) }
{
    if settled {
        return Ok(true);
    }
    push_line(text, line)?;
    if line.len() <= LONGEST_RIGHT_LINE {
        return Ok(false);
    }
    Ok(is_settled(alloc, text.as_str()))
}

#[tactic(auto, using(crate::proofs::Gatherings::gathered_none, crate::proofs::Gatherings::gathered_more, crate::proofs::Gatherings::gathered_all, crate::proofs::Gatherings::gathered_cut, crate::proofs::Gatherings::gathered_end, crate::proofs::Gatherings::gathered_long))]
/// Reads `count` lines, and appends them to the text of a change, as far as what is read of it needs them.
fn gather<R: Read>(
    alloc: Global,
    reader: &mut LineReader<R>,
    count: usize,
    text: &mut String,
) -> Result<Gathered, ReadFault>
    ensures { IfOk result (λ gathered. Gathers count reader.old.left (string_bytes text.old) gathered reader.new.left
        (string_bytes text.new)) }
{
    let mut settled = false;
    for _ in 0..count {
        match reader.advance()? {
            Arrival::Whole => settled = keep_line(alloc, text, reader.line(), settled)?,
            Arrival::Unended | Arrival::End => return Ok(Gathered::Cut),
            Arrival::TooLong => return Ok(Gathered::TooLong),
        }
    }
    Ok(Gathered::AllThere)
}

/// What the text of a change's lines is read as.
fn change_of(alloc: Global, text: &str) -> Next
    ensures { (read : Result Change ChangeError) × IsRead text.now read × (result ≡ changed read) }
{
    match read_change(alloc, text) {
        Ok((change, _)) => Next::Request(SessionRequest::Change(change)),
        Err(error) => Next::Refused(LineRefusal::BadChange(error)),
    }
}

/// What comes of the change whose first line was read.
fn next_change<R: Read>(alloc: Global, reader: &mut LineReader<R>) -> Result<Next, ReadFault>
    ensures { IfOk result (λ next. GoesOn reader.old.line reader.old.left next reader.new.left) }
{
    let mut text = String::new(alloc);
    let line = reader.line();
    push_line(&mut text, line)?;
    let count = followers(line);
    match gather(alloc, reader, count, &mut text)? {
        Gathered::AllThere => Ok(change_of(alloc, &text)),
        Gathered::Cut => Ok(change_of(alloc, &text)),
        Gathered::TooLong => Ok(Next::TooLong),
    }
}

/// What a last line without LF is taken for.
fn unended(line: &[u8]) -> Next
    ensures { result ≡ unended_as line.now }
{
    if is_foreign(line) {
        Next::Foreign
    } else if is_header(line) {
        Next::Refused(LineRefusal::BadChange(ChangeError::Truncated))
    } else {
        Next::Refused(LineRefusal::BadCommand)
    }
}

#[tactic(auto, using(crate::proofs::Nexts::next_end))]
/// Reads the next request of a session, a change with all its lines. A failure ends the session: what is left of the
/// input may then begin within a request.
pub fn next_request<R: Read>(alloc: Global, reader: &mut LineReader<R>) -> Result<Next, ReadFault>
    ensures { IfOk result (λ next. IsNext reader.old.left next reader.new.left) }
{
    match reader.advance()? {
        Arrival::Whole => {
            if is_foreign(reader.line()) {
                Ok(Next::Foreign)
            } else if is_header(reader.line()) {
                next_change(alloc, reader)
            } else {
                Ok(Next::from(command_of(alloc, reader.line())))
            }
        }
        Arrival::Unended => Ok(unended(reader.line())),
        Arrival::TooLong => Ok(Next::TooLong),
        Arrival::End => Ok(Next::End),
    }
}
