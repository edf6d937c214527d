ghost use Rattle.std.specs.Prelude.{◌≡◌, ◌++◌, [], Some, OnOk};
ghost use Rattle.tungstenite.specs.Connection.{write_step};
ghost use Rattle.tungstenite.specs.Content.{text as text_content};
ghost use Rattle.tungstenite.specs.Socket.{Reads, Writes};
ghost use Rattle.web_door.specs.Said.{said};

use crate::line::Line;
use crate::output::Output;
use bytes::Bytes;
use http_server::Log;
use std::alloc::Global;
use std::cell::Cell;
use std::io::{ErrorKind, Read, Write};
use std::{io, str};
use tungstenite::{
    CloseCode, CloseFrame, Error, Message, NoMask, Role, Utf8Bytes, WebSocket, WebSocketConfig,
};
use websocket::error::ProtocolError;

/// The most bytes of a header of a change: `change3`, a node and a count.
const HEADER_BYTES: usize = 18;

/// The most lines of a change behind its header.
const CHANGE_LINES: usize = 256;

/// The most bytes of one of these lines: a mark whose link has 1,024 bytes, at the greatest ids.
const CHANGE_LINE_BYTES: usize = 1_100;

/// The most bytes of one message of a client, all fragments together: those of the longest request that can be
/// accepted, a change.
pub const MESSAGE_LIMIT: usize = HEADER_BYTES + CHANGE_LINES * CHANGE_LINE_BYTES;

/// The most pings in a row that nothing follows.
const SILENCES: u32 = 3;

/// What a client's messages are limited to.
fn read_limits() -> WebSocketConfig
    ensures { result.max_message_size ≡ Some MESSAGE_LIMIT }
{
    WebSocketConfig::default()
        .read_buffer_size(16_384)
        .max_message_size(Some(MESSAGE_LIMIT))
        .max_frame_size(Some(MESSAGE_LIMIT))
}

/// How a socket ends, which its reader tells its writer.
#[derive(Clone, Copy)]
pub enum Ending {
    /// Nothing says so yet.
    Open,
    /// The client closed it, and was answered, or is gone.
    Closed,
    /// It is to be closed with this code.
    By(CloseCode),
}

/// The text messages of a client one after another, each with a LF at its end. Pings and a close are answered. Where
/// reads of the stream have a time limit, a silent client is pinged, and after three pings that nothing followed a read
/// fails; and after so many of these times without a text message the messages end.
#[derive(Drop)]
pub struct MessageReader<'e, S> {
    socket: WebSocket<S, NoMask>,
    ending: &'e Cell<Ending>,
    line: Line,
    silences: u32,
    waits: u32,
    most_waits: Option<u32>,
}

impl<'e, S: Read + Write + Drop> MessageReader<'e, S> {
    /// Reads a stream whose handshake is done, behind bytes that were read of it already. It waits for a text message
    /// at most `most_waits` times as long as a read of the stream may.
    pub fn new(
        alloc: Global,
        stream: S,
        begun: Vec<u8>,
        ending: &'e Cell<Ending>,
        most_waits: Option<u32>,
    ) -> MessageReader<'e, S> {
        let limits = Some(read_limits());
        let socket = WebSocket::from_partially_read(
            alloc,
            stream,
            NoMask,
            begun,
            Role::Server,
            limits,
        );
        MessageReader {
            socket,
            ending,
            line: Line::empty(),
            silences: 0,
            waits: 0,
            most_waits,
        }
    }

    /// Notes how the socket ends.
    fn end(&self, ending: Ending) -> Option<Utf8Bytes> {
        self.ending.set(ending);
        None
    }

    /// Counts a time of a read in which no text message came. Whether there were so many that the messages end.
    fn waited(&mut self) -> bool {
        self.waits = self.waits.saturating_add(1);
        match self.most_waits {
            Some(most) => self.waits >= most,
            None => false,
        }
    }

    /// Asks a client that was silent for the time of a read whether it is there, a few times.
    fn ping(&mut self, error: io::Error) -> io::Result<()> {
        if self.silences == SILENCES {
            self.ending.set(Ending::By(CloseCode::Policy));
            return Err(error);
        }
        self.silences = self.silences.saturating_add(1);
        match self.socket.send(Message::Ping(Bytes::new())) {
            Err(Error::Io(error)) => Err(error),
            _ => Ok(()),
        }
    }

    /// Whether the messages end after a read that failed: where it only waited for nothing, the client is asked whether
    /// it is there, unless it was waited for often enough.
    fn is_over(&mut self, error: io::Error) -> io::Result<bool> {
        if error.kind() != ErrorKind::WouldBlock {
            return Err(error);
        }
        if self.waited() {
            return Ok(true);
        }
        self.ping(error)?;
        Ok(false)
    }

    /// The next message of any kind.
    fn next_message(&mut self) -> Result<Message, Error>
        ensures { Reads S.remaining self.old.socket self.new.socket result }
    {
        let message = self.socket.read();
        if message.is_ok() {
            self.silences = 0;
        }
        message
    }

    /// The next text message; None at the end, and from then on.
    fn next_text(&mut self) -> io::Result<Option<Utf8Bytes>> {
        if !matches!(self.ending.get(), Ending::Open) {
            return Ok(None);
        }
        for _ in 0..u64::MAX {
            match self.next_message() {
                Ok(Message::Text(text)) => return Ok(Some(text)),
                Ok(Message::Binary(_)) => return Ok(self.end(Ending::By(CloseCode::Unsupported))),
                Ok(_) => {}
                Err(Error::Io(error)) => {
                    if self.is_over(error)? {
                        return Ok(self.end(Ending::By(CloseCode::Normal)));
                    }
                }
                Err(Error::OutOfMemory) => return Err(io::Error::from(ErrorKind::OutOfMemory)),
                Err(Error::Capacity(_)) => return Ok(self.end(Ending::By(CloseCode::Size))),
                Err(Error::Utf8) => return Ok(self.end(Ending::By(CloseCode::Invalid))),
                Err(Error::Protocol(ProtocolError::ResetWithoutClosingHandshake))
                | Err(Error::ConnectionClosed)
                | Err(Error::AlreadyClosed) => return Ok(self.end(Ending::Closed)),
                Err(_) => return Ok(self.end(Ending::By(CloseCode::Protocol))),
            }
        }
        Ok(None)
    }
}

impl<'e, S: Read + Write + Drop> Read for MessageReader<'e, S> {
    fn read(&mut self, buf: &mut [u8]) -> io::Result<usize> {
        if self.line.is_empty() && !buf.is_empty() {
            match self.next_text()? {
                Some(text) => {
                    self.waits = 0;
                    self.line = Line::of(text);
                }
                None => return Ok(0),
            }
        }
        Ok(self.line.give(buf))
    }
}

/// Why a message was not sent.
fn unsent(error: Error) -> io::Error {
    match error {
        Error::Io(error) => error,
        Error::OutOfMemory => io::Error::from(ErrorKind::OutOfMemory),
        _ => io::Error::from(ErrorKind::Other),
    }
}

/// Sends a text message.
fn send_words<S: Read + Write + Drop>(
    alloc: Global,
    socket: &mut WebSocket<S, NoMask>,
    words: &str,
) -> io::Result<()>
    ensures wrote { OnOk result
        (Writes S.contents socket.old socket.new (write_step socket.old.conn (text_content words.now))) }
{
    let message = Message::text(alloc, words)?;
    match socket.send(message) {
        Ok(()) => Ok(()),
        Err(error) => Err(unsent(error)),
    }
}

/// What is written up to a flush goes to a client as one text message. Contracts see the texts of all messages, and
/// what waits behind them.
#[derive(Drop)]
pub struct MessageWriter<S> {
    alloc: Global,
    socket: WebSocket<S, NoMask>,
    waiting: Output,
    told: Log<Output, ()>,
}

impl<S: Read + Write + Drop> MessageWriter<S> {
    /// Writes to a stream whose handshake is done.
    pub fn new(alloc: Global, stream: S) -> MessageWriter<S>
        ensures { (said result.told.items ≡ []) × (result.waiting ≡ []) }
    {
        MessageWriter {
            alloc,
            socket: WebSocket::from_raw_socket(alloc, stream, NoMask, Role::Server, None),
            waiting: Output::new(alloc),
            told: Log::new(),
        }
    }

    /// Sends what waits as one text message.
    fn tell(&mut self) -> io::Result<()>
        ensures kept { said self.new.told.items ++ self.new.waiting ≡ said self.old.told.items ++ self.old.waiting }
        ensures sent { OnOk result (self.new.waiting ≡ []) }
        ensures wrote { OnOk result (Writes S.contents self.old.socket self.new.socket
            (write_step self.old.socket.conn (text_content self.old.waiting))) }
    {
        let Ok(words) = str::from_utf8(self.waiting.as_slice()) else {
            return Err(io::Error::from(ErrorKind::InvalidData));
        };
        let sent = send_words(self.alloc, &mut self.socket, words);
        self.told = self.told.and(&self.waiting, &());
        self.waiting.clear();
        sent
    }

    /// Says that no more messages come, unless the client said so first.
    pub fn end(&mut self, ending: Ending) -> io::Result<()> {
        let code = match ending {
            Ending::Open => CloseCode::Normal,
            Ending::Closed => return Ok(()),
            Ending::By(code) => code,
        };
        let frame = CloseFrame {
            code,
            reason: Utf8Bytes::from_static(""),
        };
        match self.socket.close(Some(frame)) {
            Err(Error::Io(error)) => Err(error),
            _ => Ok(()),
        }
    }
}

impl<S: Read + Write + Drop> Write for MessageWriter<S> {
    ghost use Rattle.std.specs.Prelude.{Some, ◌++◌};
    ghost use Rattle.web_door.specs.Said.{said};

    ghost contents = { λ w. Some (said w.told.items ++ w.waiting) };

    fn write(&mut self, buf: &[u8]) -> io::Result<usize> {
        self.waiting.push(buf)?;
        Ok(buf.len())
    }

    fn flush(&mut self) -> io::Result<()> {
        if self.waiting.as_slice().is_empty() {
            return Ok(());
        }
        self.tell()
    }
}
