ghost use Rattle.std.specs.Prelude.{◌≡◌, ◌≤◌, ◌↔◌, ◌++◌, ℕ, [], IfOk, IfErr, OnOk, OnErr, string_bytes};
ghost use Rattle.std.specs.Io.KnownBytes.{Appends};
ghost use Rattle.refusals.specs.declared.reason.Reason.TheVariants as why;
ghost use Rattle.session_lines.specs.declared.fault.ReadFault.TheVariants as read_fault;
ghost use Rattle.session_lines.specs.declared.reply.Reply.TheVariants as told;
ghost use Rattle.session_lines.specs.declared.request.SessionRequest.TheVariants as asked;
ghost use Rattle.session_subscribers.specs.Holding.{PullsShort};
ghost use Rattle.session_reads.specs.Found.{found_text};
ghost use Rattle.hub_sessions.specs.Sessions.{session_state, begins, Answers, AreApart, found_in, read_in};
ghost use Rattle.hub_sessions.specs.Sessions.{TakesTurn, BreaksTurn, Ends, IsSession, ClosesAll, IsUnwritten};
ghost use Rattle.hub_sessions.specs.Sessions.{reply_line};
ghost use Rattle.hub_sessions.specs.declared.conversation.TurnFault.TheVariants as turn_fault;

use crate::submitting::submit;
use call_history::knowledge::HistoryNaming;
use change_keeping::keeper::Keeper;
use core_history::share::Share;
use hub_requests::limits::{SessionLimits, SessionOptions};
use ingest_workers::hub::Hub;
use refusals::reason::Reason;
use session_lines::fault::ReadFault;
use session_lines::reader::LineReader;
use session_lines::reply::Reply;
use session_lines::request::{Next, SessionRequest, next_request};
use session_reads::found::{Answer, Found};
use session_reads::reading::read;
use session_subscribers::session_hub::{Held, SessionHub};
use std::alloc::{AllocError, Global};
use std::io;
use std::io::{Read, Write};
use std::sync::Wait;
use std::sync::ledger::Ledger;
use std::thread::Threads;
use version_history::published::{Naming, Published};

/// Room for the lines that answer one request, but for what is read of the text: 1,024 items of 36 bytes, and one line
/// more. What longer items take beyond is given back before the next request.
const REPLY_ROOM: usize = 37_000;

/// Why a session ended before its end.
#[derive(Clone, Copy)]
pub enum SessionFault {
    /// A read failed.
    Read(io::Error),
    /// A write failed.
    Write(io::Error),
}

/// Whether a session goes on.
#[derive(Drop)]
enum Turn<'a> {
    /// What was found is printed before the lines.
    More(Found<'a>),
    Last,
}

/// Why a turn came to no reply, or to no whole one.
#[derive(Clone, Copy)]
enum TurnFault {
    Read(io::Error),
    Memory,
}

impl From<AllocError> for TurnFault {
    ghost from_gives = { λ _ fault. fault ≡ turn_fault.Memory };

    fn from(_error: AllocError) -> TurnFault {
        TurnFault::Memory
    }
}

impl From<ReadFault> for TurnFault {
    ghost from_gives = { λ from fault. (fault ≡ turn_fault.Memory) ↔ (from ≡ read_fault.Memory) };

    fn from(fault: ReadFault) -> TurnFault {
        match fault {
            ReadFault::Device(error) => TurnFault::Read(error),
            ReadFault::Memory => TurnFault::Memory,
        }
    }
}

/// Writes lines and flushes them.
pub(crate) fn write_lines<W: Write>(writer: &mut W, out: &str) -> Result<(), SessionFault>
    ensures ok { OnOk result (Appends (W.contents writer.old) (W.contents writer.new) out.now) }
    ensures err { IfErr result IsUnwritten }
{
    if out.is_empty() {
        return Ok(());
    }
    writer
        .write_all(out.as_bytes())
        .map_err(SessionFault::Write)?;
    writer.flush().map_err(SessionFault::Write)
}

/// Writes that no memory was found. The session ends.
fn write_no_memory<W: Write>(writer: &mut W) -> Result<(), SessionFault>
    ensures ok { OnOk result (Appends (W.contents writer.old) (W.contents writer.new)
        (reply_line (told.Refused why.OutOfMemory))) }
    ensures err { IfErr result IsUnwritten }
{
    write_lines(writer, "no 45 OutOfMemory\n")
}

/// Writes what answers one request, whole: what was found, then lines.
fn write_reply<W: Write>(
    writer: &mut W,
    turn: &Result<Turn<'_>, TurnFault>,
    lines: &str,
) -> Result<(), SessionFault>
    ensures ok { OnOk result (Appends (W.contents writer.old) (W.contents writer.new) (read_in turn.now ++ lines.now)) }
    ensures err { IfErr result IsUnwritten }
{
    match turn {
        Ok(Turn::More(found)) => {
            found.write(lines, writer).map_err(SessionFault::Write)?;
            writer.flush().map_err(SessionFault::Write)
        }
        _ => write_lines(writer, lines),
    }
}

/// Does what is asked, appends the lines of items to an empty string, and answers what was found and the line after
/// that or those.
fn answer<
    's,
    N: Naming + HistoryNaming + Ledger + Send + Sync,
    R: Threads + Wait + Copy + Send + Sync,
    K: Keeper,
>(
    hub: &SessionHub<'s, '_, N, R>,
    keeper: &mut K,
    share: &mut Share<N>,
    held: &mut Vec<Held<N>>,
    left: &mut SessionLimits,
    request: SessionRequest,
    out: &mut String,
) -> Result<Answer<'s>, AllocError>
    requires empty { string_bytes out.old ≡ [] }
    ensures answers { IfOk result (λ answer. Answers request
        (session_state N.size K.kept (K.stores keeper.old) share.old held.old.items left.old hub.now.options)
        (string_bytes out.old)
        (found_text answer.found ++ string_bytes out.new)
        answer.reply
        (session_state N.size K.kept (K.stores keeper.new) share.new held.new.items left.new hub.now.options)) }
    ensures apart { IfOk result (λ answer. AreApart request (found_text answer.found) (string_bytes out.new)) }
    ensures short { OnErr result ((id : ℕ) × (count : ℕ) × (request ≡ asked.Pull id count) × (left.new ≡ left.old)
        × PullsShort N.size share.old share.new id count held.old.items held.new.items [] (string_bytes out.new)) }
    ensures same { K.stores keeper.new ≡ K.stores keeper.old }
{
    match request {
        SessionRequest::Change(change) => Ok(Answer::line(submit(
            hub, keeper, share, left, change,
        ))),
        SessionRequest::Subscribe {
            rules,
            capacity,
            program,
            first,
        } => Ok(Answer::line(hub.subscribe(share, held, left, rules, capacity, &program, first))),
        SessionRequest::Pull { subscriber, count } => {
            let reply = hub.pull(share, held, subscriber, count, out)?;
            Ok(Answer::line(reply))
        }
        SessionRequest::Close { subscriber } => Ok(Answer::line(hub.close(
            share, held, subscriber,
        ))),
        SessionRequest::Read(query) => Ok(read(
            &hub.rt,
            hub.hub,
            share,
            hub.published,
            hub.options.reads,
            hub.options.hub,
            hub.options.memory,
            query,
        )),
    }
}

/// Empties the lines of a reply, and gives back the room that they took beyond the one that is kept.
fn empty_reply(out: &mut String)
    ensures { string_bytes out.new ≡ [] }
{
    out.clear();
    out.shrink_to(REPLY_ROOM);
}

/// Reads a request, does what it asks, and puts the lines of the reply where those of the one before were. The last
/// line is there before what was found is written, so that no want of memory can come between them.
fn take_turn<
    's,
    N: Naming + HistoryNaming + Ledger + Send + Sync,
    R: Threads + Wait + Copy + Send + Sync,
    K: Keeper,
    I: Read,
>(
    hub: &SessionHub<'s, '_, N, R>,
    keeper: &mut K,
    share: &mut Share<N>,
    held: &mut Vec<Held<N>>,
    left: &mut SessionLimits,
    lines: &mut LineReader<I>,
    out: &mut String,
) -> Result<Turn<'s>, TurnFault>
    ensures ok { IfOk result (λ turn. TakesTurn turn
        (session_state N.size K.kept (K.stores keeper.old) share.old held.old.items left.old hub.now.options)
        lines.old.left (found_in turn ++ string_bytes out.new)
        (session_state N.size K.kept (K.stores keeper.new) share.new held.new.items left.new hub.now.options)
        lines.new.left) }
    ensures err { IfErr result (λ fault. BreaksTurn fault
        (session_state N.size K.kept (K.stores keeper.old) share.old held.old.items left.old hub.now.options)
        lines.old.left (string_bytes out.new)
        (session_state N.size K.kept (K.stores keeper.new) share.new held.new.items left.new hub.now.options)
        lines.new.left) }
    ensures same { K.stores keeper.new ≡ K.stores keeper.old }
{
    empty_reply(out);
    match next_request(hub.alloc, lines)? {
        Next::Request(request) => {
            let answer = answer(hub, keeper, share, held, left, request, out)?;
            answer.reply.push_line(out)?;
            Ok(Turn::More(answer.found))
        }
        Next::Refused(refusal) => {
            Reply::Refused(Reason::from(refusal)).push_line(out)?;
            Ok(Turn::More(Found::Nothing))
        }
        Next::TooLong => {
            Reply::Refused(Reason::LineTooLong).push_line(out)?;
            Ok(Turn::Last)
        }
        Next::Foreign => {
            Reply::Refused(Reason::BadCommand).push_line(out)?;
            Ok(Turn::Last)
        }
        Next::End => Ok(Turn::Last),
    }
}

/// Answers one request after another.
fn converse<
    N: Naming + HistoryNaming + Ledger + Send + Sync,
    R: Threads + Wait + Copy + Send + Sync,
    K: Keeper,
    I: Read,
    O: Write,
>(
    hub: &SessionHub<'_, '_, N, R>,
    keeper: &mut K,
    share: &mut Share<N>,
    held: &mut Vec<Held<N>>,
    left: &mut SessionLimits,
    lines: &mut LineReader<I>,
    out: &mut String,
    writer: &mut O,
) -> Result<(), SessionFault>
    ensures ends { Ends result
        (session_state N.size K.kept (K.stores keeper.old) share.old held.old.items left.old hub.now.options)
        lines.old.left (O.contents writer.old)
        (session_state N.size K.kept (K.stores keeper.new) share.new held.new.items left.new hub.now.options)
        (O.contents writer.new) }
    ensures same { K.stores keeper.new ≡ K.stores keeper.old }
{
    for _ in hub.rt.forever() {
        let turn = take_turn(hub, keeper, share, held, left, lines, out);
        write_reply(writer, &turn, out.as_str())?;
        match turn {
            Ok(Turn::More(_)) => {},
            Ok(Turn::Last) => return Ok(()),
            Err(TurnFault::Read(error)) => return Err(SessionFault::Read(error)),
            Err(TurnFault::Memory) => return write_no_memory(writer),
        }
    }
    unreachable!()
}

/// Makes the room for lines and replies, and answers one request after another.
fn begin<
    N: Naming + HistoryNaming + Ledger + Send + Sync,
    R: Threads + Wait + Copy + Send + Sync,
    K: Keeper,
    I: Read + Drop,
    O: Write,
>(
    hub: &SessionHub<'_, '_, N, R>,
    keeper: &mut K,
    share: &mut Share<N>,
    held: &mut Vec<Held<N>>,
    left: &mut SessionLimits,
    reader: I,
    writer: &mut O,
) -> Result<(), SessionFault>
    ensures ends { Ends result
        (session_state N.size K.kept (K.stores keeper.old) share.old held.old.items left.old hub.now.options)
        (I.remaining reader) (O.contents writer.old)
        (session_state N.size K.kept (K.stores keeper.new) share.new held.new.items left.new hub.now.options)
        (O.contents writer.new) }
    ensures same { K.stores keeper.new ≡ K.stores keeper.old }
{
    let Ok(mut lines) = LineReader::new(hub.alloc, reader) else {
        return write_no_memory(writer);
    };
    let Ok(mut out) = String::with_capacity(hub.alloc, REPLY_ROOM) else {
        return write_no_memory(writer);
    };
    converse(hub, keeper, share, held, left, &mut lines, &mut out, writer)
}

/// Closes all subscribers that a session held.
fn close_all<N: Naming + HistoryNaming + Ledger, R: Wait + Copy>(
    rt: &R,
    hub: &Hub<'_, N, R>,
    share: &mut Share<N>,
    held: Vec<Held<N>>,
)
    ensures { ClosesAll N.size share.old share.new held.items }
{
    for one in held {
        let _ = hub.close(rt, share, one.id);
    }
}

/// Runs one session on a hub, by its own share and within its options, over any reader and writer: each request is
/// answered whole, and then flushed, before the next is read. However it ends, its subscribers are closed.
pub fn session<
    'p,
    N: Naming + HistoryNaming + Ledger + Send + Sync,
    R: Threads + Wait + Copy + Send + Sync,
    K: Keeper,
    I: Read + Drop,
    O: Write,
>(
    rt: &R,
    alloc: Global,
    hub: &Hub<'p, N, R>,
    published: &Published<'p, N>,
    keeper: &mut K,
    share: &mut Share<N>,
    reader: I,
    writer: &mut O,
    workers: usize,
    options: SessionOptions,
) -> Result<(), SessionFault>
    requires workers { (1 ≤ workers) × (workers ≤ 16) }
    ensures session { IsSession result (begins N.size K.kept (K.stores keeper.old) share.old options)
        (I.remaining reader) (O.contents writer.old) share.new (O.contents writer.new) }
    ensures same { K.stores keeper.new ≡ K.stores keeper.old }
{
    let _counted = hub.begin_session();
    let session_hub = SessionHub {
        rt: *rt,
        alloc,
        hub,
        published,
        workers,
        options,
    };
    let mut held = Vec::new(alloc);
    let mut left = options.limits;
    let ended = begin(
        &session_hub,
        keeper,
        share,
        &mut held,
        &mut left,
        reader,
        writer,
    );
    close_all(rt, hub, share, held);
    ended
}
