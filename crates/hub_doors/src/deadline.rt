//! A connection that is waited for until one moment, however its bytes come or go.
use crate::stream::Stream;
use std::io;
use std::io::{ErrorKind, Read, Write};
use std::rt::Clock;
use std::time::{Duration, Instant};

/// For how many seconds a request's head is waited for.
pub(crate) const HEAD_SECONDS: u64 = 10;

/// For how many seconds a client may take for an answer, or for a piece of a long one.
pub(crate) const ANSWER_SECONDS: u64 = 10;

/// The moment after so many seconds; None where the clock can't tell it.
pub(crate) fn moment_after<R: Clock>(rt: &R, seconds: u64) -> Option<Instant> {
    Instant::now(rt)
        .ok()?
        .checked_add(Duration::from_secs(seconds))
}

/// How much time is left until a moment; None where it is over, or the clock can't tell.
pub(crate) fn time_until<R: Clock>(rt: &R, moment: Instant) -> Option<Duration> {
    let left = moment.saturating_duration_since(Instant::now(rt).ok()?);
    if left.is_zero() { None } else { Some(left) }
}

/// A connection whose reads and writes wait, all together, until one moment.
#[derive(Drop)]
pub(crate) struct Hurried<'s, R: Clock + Copy> {
    stream: &'s Stream,
    rt: R,
    until: Option<Instant>,
}

impl<'s, R: Clock + Copy> Hurried<'s, R> {
    /// They wait for so many seconds.
    pub(crate) fn new(rt: R, stream: &'s Stream, seconds: u64) -> Hurried<'s, R> {
        Hurried {
            stream,
            rt,
            until: moment_after(&rt, seconds),
        }
    }

    /// From now on they wait for so many seconds.
    pub(crate) fn again(&mut self, seconds: u64) {
        self.until = moment_after(&self.rt, seconds);
    }

    /// Lets the next read or write wait for the time that is left.
    fn hurry(&self) -> io::Result<()> {
        match self.until {
            Some(until) => match time_until(&self.rt, until) {
                Some(left) => self.stream.limit(Some(left)),
                None => Err(io::Error::from(ErrorKind::TimedOut)),
            },
            None => Err(io::Error::from(ErrorKind::TimedOut)),
        }
    }
}

impl<R: Clock + Copy> Read for Hurried<'_, R> {
    fn read(&mut self, buf: &mut [u8]) -> io::Result<usize> {
        self.hurry()?;
        let mut stream = self.stream;
        stream.read(buf)
    }
}

impl<R: Clock + Copy> Write for Hurried<'_, R> {
    fn write(&mut self, buf: &[u8]) -> io::Result<usize> {
        self.hurry()?;
        let mut stream = self.stream;
        stream.write(buf)
    }

    fn flush(&mut self) -> io::Result<()> {
        Ok(())
    }
}
