//! The end of a connection, and the answer to one more than there may be at once.
ghost use Rattle.std.specs.Prelude.{OnOk};
ghost use Rattle.std.specs.Io.KnownBytes.{Appends};
ghost use Rattle.hub_doors.specs.TurnedAway.{too_many_sessions};

use crate::deadline::{moment_after, time_until};
use crate::stream::Stream;
use std::io;
use std::io::{Read, Write};
use std::rt::Clock;
use std::sync::atomic::{AtomicBool, Ordering};
use std::time::{Duration, Instant};

/// For how many seconds a client is read from that still sends though its session has ended, all reads together.
const DRAIN_SECONDS: u64 = 5;

/// For how many seconds one of these reads waits.
const SILENT_SECONDS: u64 = 1;

/// How many times to read from it, 4,096 bytes at most each time.
const DRAIN_READS: u32 = 4096;

/// How many times to read, without waiting, from a client that is turned away.
const LEAVE_READS: u32 = 16;

/// What a client is told that finds no session free.
const TOO_MANY_SESSIONS: &str = "no 69 TooManySessions\n";

/// Reads past what came from a client; whether more may come.
fn skip_once(stream: &Stream, is_halted: &AtomicBool) -> bool {
    let mut stream = stream;
    let mut bytes = [0u8; 4096];
    !is_halted.load(Ordering::SeqCst) && stream.read(&mut bytes).is_ok_and(|count| count > 0)
}

/// Reads past what a client still sends, until a moment.
fn skip_until<R: Clock>(rt: &R, stream: &Stream, moment: Instant, is_halted: &AtomicBool) {
    for _ in 0..DRAIN_READS {
        let Some(left) = time_until(rt, moment) else {
            return;
        };
        let pause = left.min(Duration::from_secs(SILENT_SECONDS));
        if stream.limit(Some(pause)).is_err() || !skip_once(stream, is_halted) {
            return;
        }
    }
}

/// Tells the client that no more replies come, and reads past what it still sends: a connection that is closed with
/// bytes unread is reset, and the client may then miss replies. What fails here takes nothing from the session, which
/// has ended.
pub(crate) fn read_rest<R: Clock>(rt: &R, stream: &Stream, is_halted: &AtomicBool) {
    if stream.end_writing().is_err() {
        return;
    }
    if let Some(moment) = moment_after(rt, DRAIN_SECONDS) {
        skip_until(rt, stream, moment, is_halted);
    }
}

/// Writes that no session is free.
pub(crate) fn write_too_many<W: Write>(writer: &mut W) -> io::Result<()>
    ensures ok { OnOk result (Appends (W.contents writer.old) (W.contents writer.new) too_many_sessions) }
{
    writer.write_all(TOO_MANY_SESSIONS.as_bytes())?;
    writer.flush()
}

/// Tells a client that no session is free, and waits for nothing: what it has sent already is read past, as after a
/// session.
pub(crate) fn turn_away(stream: &Stream, is_halted: &AtomicBool) {
    if stream.wait_for_nothing().is_err() {
        return;
    }
    let mut writer = stream;
    if write_too_many(&mut writer).is_ok() {
        leave(stream, is_halted);
    }
}

/// Ends a connection that waits for nothing.
pub(crate) fn leave(stream: &Stream, is_halted: &AtomicBool) {
    if stream.end_writing().is_err() {
        return;
    }
    for _ in 0..LEAVE_READS {
        if !skip_once(stream, is_halted) {
            return;
        }
    }
}
