//! A connection as a session reads and writes it.
use crate::stream::Stream;
use std::cell::Cell;
use std::io;
use std::io::{ErrorKind, Read, Write};
use std::sync::atomic::{AtomicBool, Ordering};
use std::time::Duration;

/// For how long a client is waited for.
#[derive(Clone, Copy)]
pub(crate) struct Patience {
    /// How long one read or write of the system waits; None for ever.
    pub tick: Option<Duration>,
    /// After how many of these in a row it is over; None never.
    pub ticks: Option<u32>,
}

/// How many bytes came and went.
#[derive(Drop)]
pub(crate) struct Traffic {
    received: Cell<u64>,
    sent: Cell<u64>,
}

impl Traffic {
    pub(crate) fn new() -> Traffic {
        Traffic {
            received: Cell::new(0),
            sent: Cell::new(0),
        }
    }

    pub(crate) fn received(&self) -> u64 {
        self.received.get()
    }

    pub(crate) fn sent(&self) -> u64 {
        self.sent.get()
    }
}

/// More by this many.
fn add(count: &Cell<u64>, more: usize) {
    count.set(count.get().saturating_add(more as u64));
}

/// A connection whose reads and writes give up once the server is to end, or once the client was waited for as long as
/// it may be.
#[derive(Clone, Copy)]
pub(crate) struct Link<'s> {
    stream: &'s Stream,
    ticks: Option<u32>,
    is_halted: &'s AtomicBool,
    traffic: &'s Traffic,
}

impl<'s> Link<'s> {
    /// Over this connection.
    pub(crate) fn new(
        stream: &'s Stream,
        patience: Patience,
        is_halted: &'s AtomicBool,
        traffic: &'s Traffic,
    ) -> io::Result<Link<'s>> {
        stream.limit(patience.tick)?;
        Ok(Link {
            stream,
            ticks: patience.ticks,
            is_halted,
            traffic,
        })
    }

    /// Whether the server is to end.
    fn is_halted(&self) -> bool {
        self.is_halted.load(Ordering::SeqCst)
    }

    /// Whether to wait once more after so many waits for nothing.
    fn goes_on(&self, waits: u32) -> bool {
        match self.ticks {
            Some(ticks) => waits < ticks,
            None => true,
        }
    }
}

impl Read for Link<'_> {
    fn read(&mut self, buf: &mut [u8]) -> io::Result<usize> {
        let mut waits: u32 = 0;
        for _ in 0..u64::MAX {
            if self.is_halted() {
                break;
            }
            let mut stream = self.stream;
            match stream.read(buf) {
                Ok(count) => {
                    add(&self.traffic.received, count);
                    return Ok(count);
                }
                Err(error) => {
                    waits = waits.saturating_add(1);
                    if error.kind() != ErrorKind::WouldBlock || !self.goes_on(waits) {
                        return Err(error);
                    }
                }
            }
        }
        Ok(0)
    }
}

impl Write for Link<'_> {
    fn write(&mut self, buf: &[u8]) -> io::Result<usize> {
        let mut waits: u32 = 0;
        for _ in 0..u64::MAX {
            let mut stream = self.stream;
            match stream.write(buf) {
                Ok(count) => {
                    add(&self.traffic.sent, count);
                    return Ok(count);
                }
                Err(error) => {
                    waits = waits.saturating_add(1);
                    let is_over = self.is_halted() || !self.goes_on(waits);
                    if error.kind() != ErrorKind::WouldBlock || is_over {
                        return Err(error);
                    }
                }
            }
        }
        Ok(0)
    }

    fn flush(&mut self) -> io::Result<()> {
        Ok(())
    }
}

/// What a client sends, to its end, or until it was waited for as long as it may be.
#[derive(Drop)]
pub(crate) struct Patient<'s> {
    link: Link<'s>,
    is_over: bool,
}

impl<'s> Patient<'s> {
    pub(crate) fn new(link: Link<'s>) -> Patient<'s> {
        Patient {
            link,
            is_over: false,
        }
    }
}

impl Read for Patient<'_> {
    fn read(&mut self, buf: &mut [u8]) -> io::Result<usize> {
        if self.is_over {
            return Ok(0);
        }
        match self.link.read(buf) {
            Err(error) if error.kind() == ErrorKind::WouldBlock => {
                self.is_over = true;
                Ok(0)
            }
            read => read,
        }
    }
}
