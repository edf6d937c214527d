//! A browser's connection: its request, and the session or the file that it asks for.
use crate::deadline::{ANSWER_SECONDS, HEAD_SECONDS, Hurried};
use crate::door::DoorKind;
use crate::ending::{leave, read_rest, write_too_many};
use crate::fault::ConnectionFault;
use crate::file::answer_file;
use crate::house::House;
use crate::journal::Surroundings;
use crate::link::{Link, Patience, Traffic};
use crate::session_share::SessionShare;
use crate::stream::{Peer, Stream};
use crate::tally::{Tallied, Tally};
use call_history::knowledge::HistoryNaming;
use change_keeping::clerk::Clerk;
use change_keeping::keeping::Keeping;
use hub_requests::serving::WebDoor;
use hub_sessions::conversation::SessionFault;
use lending_pool::Lent;
use std::alloc::Global;
use std::cell::Cell;
use std::io;
use std::io::ErrorKind;
use std::rt::Clock;
use std::sync::Wait;
use std::sync::atomic::AtomicBool;
use std::sync::ledger::Ledger;
use std::thread::Threads;
use tungstenite::CloseCode;
use version_history::published::Naming;
use web_door::answer::{write_refusal, write_status};
use web_door::head::{Asked, Opening, read_opening, write_accept};
use web_door::messages::{Ending, MessageReader, MessageWriter};

/// What is said of a connection for whose handshake there is no place.
const TOO_MANY_HANDSHAKES: &str = "503 Service Unavailable";

/// Runs a session over messages.
fn session_over<
    N: Naming + HistoryNaming + Ledger + Keeping + Send + Sync,
    R: Threads + Wait + Clock + Copy + Send + Sync,
    J: Surroundings + Send + Sync,
>(
    house: &House<'_, '_, '_, '_, N, R, J>,
    share: &mut SessionShare<N>,
    link: Link<'_>,
    begun: Vec<u8>,
    tally: &Tally,
) -> Result<(), SessionFault> {
    let Ok(mut clerk) = Clerk::new(house.rt, house.alloc, house.desk) else {
        return Err(SessionFault::Read(io::Error::from(ErrorKind::OutOfMemory)));
    };
    let ending = Cell::new(Ending::Open);
    let reader = MessageReader::new(house.alloc, link, begun, &ending, house.most_waits());
    let mut writer = Tallied::new(MessageWriter::new(house.alloc, link), tally);
    let ended = share.session(
        &house.rt,
        house.alloc,
        house.hub,
        house.published,
        &mut clerk,
        reader,
        &mut writer,
        house.terms.workers.count(),
        house.terms.options,
    );
    let ending = match ended {
        // What can't be written to isn't closed by a message.
        Err(SessionFault::Write(_)) => Ending::Closed,
        _ if house.state.is_halted() => Ending::By(CloseCode::Away),
        _ => ending.get(),
    };
    let _ = writer.output.end(ending);
    ended
}

/// Runs a session by a share, which is given back once the connection has ended.
fn serve_session<
    'h,
    N: Naming + HistoryNaming + Ledger + Keeping + Send + Sync,
    R: Threads + Wait + Clock + Copy + Send + Sync,
    J: Surroundings + Send + Sync,
>(
    house: &House<'h, '_, '_, '_, N, R, J>,
    peer: Peer,
    lent: Lent<'h, SessionShare<N>, R>,
    stream: &Stream,
    begun: Vec<u8>,
) {
    let mut lent = lent;
    let visit = house.begin(DoorKind::Web, peer);
    let tally = Tally::new(house.terms.is_logged);
    let traffic = Traffic::new();
    let patience = house.patience(DoorKind::Web);
    let ended = match Link::new(stream, patience, &house.state.is_halted, &traffic) {
        Ok(link) => session_over(house, &mut lent.value, link, begun, &tally),
        Err(error) => Err(SessionFault::Read(error)),
    };
    if let Err(fault) = ended {
        house.note_fault(ConnectionFault::Session(fault));
    }
    read_rest(&house.rt, stream, &house.state.is_halted);
    house.end(&visit, &tally, &traffic);
    house.give_back(lent);
}

/// Tells over a WebSocket that no session is free, and closes it.
fn turn_away<
    N: Naming + HistoryNaming + Ledger + Keeping + Send + Sync,
    R: Threads + Wait + Clock + Copy + Send + Sync,
    J: Surroundings + Send + Sync,
>(house: &House<'_, '_, '_, '_, N, R, J>, stream: &Stream) {
    let hurried = Hurried::new(house.rt, stream, ANSWER_SECONDS);
    let mut writer = MessageWriter::new(house.alloc, hurried);
    if write_too_many(&mut writer).is_ok() && writer.end(Ending::By(CloseCode::Again)).is_ok() {
        read_rest(&house.rt, stream, &house.state.is_halted);
    }
}

/// Begins a session, where one is free; what stands behind the handshake is the session's.
fn begin_session<
    'h,
    N: Naming + HistoryNaming + Ledger + Keeping + Send + Sync,
    R: Threads + Wait + Clock + Copy + Send + Sync,
    J: Surroundings + Send + Sync,
>(
    house: &House<'h, '_, '_, '_, N, R, J>,
    place: Lent<'h, (), R>,
    peer: Peer,
    stream: &Stream,
    accept: &[u8; 28],
    begun: Vec<u8>,
) {
    let lent = house.take_share();
    let mut writer = Hurried::new(house.rt, stream, ANSWER_SECONDS);
    let accepted = write_accept(house.alloc, &mut writer, accept);
    drop(place);
    match (lent, accepted) {
        (Some(lent), Ok(())) => serve_session(house, peer, lent, stream, begun),
        (Some(lent), Err(error)) => {
            house.note_fault(ConnectionFault::Session(SessionFault::Write(error)));
            house.give_back(lent);
        }
        (None, Ok(())) => turn_away(house, stream),
        (None, Err(_)) => {}
    }
}

/// Reads a request's head; None where nothing is to be answered.
fn opening_of<
    N: Naming + HistoryNaming + Ledger + Keeping + Send + Sync,
    R: Threads + Wait + Clock + Copy + Send + Sync,
    J: Surroundings + Send + Sync,
>(house: &House<'_, '_, '_, '_, N, R, J>, stream: &Stream) -> Option<Opening> {
    let web = house.web?;
    let mut reader = Hurried::new(house.rt, stream, HEAD_SECONDS);
    read_opening(house.alloc, &mut reader, &web.origins).ok()?
}

/// Answers a request that asks for no session.
fn answer_file_or_refusal<J: Surroundings, R: Clock + Copy>(
    around: &J,
    alloc: Global,
    web: Option<&WebDoor>,
    asked: Asked,
    is_head: bool,
    writer: &mut Hurried<'_, R>,
) -> io::Result<()> {
    let folder = match web {
        Some(web) => web.files.as_ref(),
        None => None,
    };
    match asked {
        Asked::File(request) => answer_file(around, alloc, folder, &request, is_head, writer),
        Asked::Refused(refusal) => write_refusal(writer, refusal, is_head),
        Asked::Session(_) => Ok(()),
    }
}

/// Answers what a request asks for.
fn answer_request<
    'h,
    N: Naming + HistoryNaming + Ledger + Keeping + Send + Sync,
    R: Threads + Wait + Clock + Copy + Send + Sync,
    J: Surroundings + Send + Sync,
>(
    house: &House<'h, '_, '_, '_, N, R, J>,
    place: Lent<'h, (), R>,
    peer: Peer,
    stream: &Stream,
    opening: Opening,
) {
    let Opening {
        asked,
        is_head,
        rest,
    } = opening;
    if let Asked::Session(accept) = asked {
        return begin_session(house, place, peer, stream, &accept, rest);
    }
    let mut writer = Hurried::new(house.rt, stream, ANSWER_SECONDS);
    let answered = answer_file_or_refusal(
        house.journal,
        house.alloc,
        house.web,
        asked,
        is_head,
        &mut writer,
    );
    if answered.is_ok() {
        read_rest(&house.rt, stream, &house.state.is_halted);
    }
}

/// Serves a browser's connection.
pub(crate) fn serve_browser<
    'h,
    N: Naming + HistoryNaming + Ledger + Keeping + Send + Sync,
    R: Threads + Wait + Clock + Copy + Send + Sync,
    J: Surroundings + Send + Sync,
>(house: &House<'h, '_, '_, '_, N, R, J>, peer: Peer, place: Lent<'h, (), R>, stream: Stream) {
    stream.send_at_once();
    if let Some(opening) = opening_of(house, &stream) {
        answer_request(house, place, peer, &stream, opening);
    }
}

/// Tells a client that there is no place for its handshake, and waits for nothing.
pub(crate) fn refuse_handshake(stream: &Stream, is_halted: &AtomicBool) {
    if stream.wait_for_nothing().is_err() {
        return;
    }
    let mut writer = stream;
    if write_status(&mut writer, TOO_MANY_HANDSHAKES, false).is_ok() {
        leave(stream, is_halted);
    }
}
