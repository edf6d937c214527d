//! The lines that a server tells while it runs: they wait in a queue, which a thread of its own writes out, so that no
//! session waits for who reads them.
use jiff::Timestamp;
use std::alloc::{AllocError, Global};
use std::collections::VecDeque;
use std::io::Write;
use std::rt::Clock;
use std::sync::{Condvar, Mutex, Wait};
use std::time::{Duration, SystemTime, UNIX_EPOCH};

/// The most lines that wait.
const MOST_LINES: usize = 1024;

/// For how many seconds the end of a server waits until its last lines are written.
const LAST_SECONDS: u64 = 2;

/// The time, in whole seconds; None where the clock doesn't tell it.
fn now<R: Clock>(rt: &R) -> Option<Timestamp> {
    let since = SystemTime::now(rt).ok()?.duration_since(UNIX_EPOCH).ok()?;
    let seconds = i64::try_from(since.as_secs()).ok()?;
    Timestamp::from_second(seconds).ok()
}

/// A line as it is written, behind the time.
fn stamped<R: Clock>(rt: &R, alloc: Global, line: &str) -> Result<String, AllocError> {
    match now(rt) {
        Some(time) => format!(in alloc; "{time} hub: {line}\n"),
        None => format!(in alloc; "hub: {line}\n"),
    }
}

/// What stands where lines are missing.
fn gap<R: Clock>(rt: &R, alloc: Global, dropped: u64) -> Result<String, AllocError> {
    let line = format!(in alloc; "{dropped} lines are missing here, since nobody read them")?;
    stamped(rt, alloc, line.as_str())
}

/// What waits to be written.
#[derive(Drop)]
struct Waiting {
    lines: VecDeque<String>,
    /// How many lines found no place since one last did.
    dropped: u64,
    /// No line comes any more.
    is_closed: bool,
    /// Nothing is written any more.
    is_over: bool,
}

impl Waiting {
    /// Whether the thread that writes has nothing to do yet.
    fn is_idle(&self) -> bool {
        self.lines.is_empty() && !self.is_closed
    }

    /// Whether there is no place for a line.
    fn is_full(&self) -> bool {
        self.lines.len() >= MOST_LINES
    }

    /// Takes a line in, where there is a place for it.
    fn put(&mut self, line: String) -> bool {
        if self.is_full() {
            return false;
        }
        self.lines.push_back(line).is_ok()
    }

    /// Takes a line in, or counts it.
    fn take(&mut self, line: Result<String, AllocError>) {
        let is_taken = match line {
            Ok(line) => self.put(line),
            Err(_) => false,
        };
        if !is_taken {
            self.dropped = self.dropped.saturating_add(1);
        }
    }

    /// Puts a line where others are missing that says how many.
    fn tell_gap<R: Clock>(&mut self, rt: &R, alloc: Global) {
        if self.dropped == 0 || self.is_full() {
            return;
        }
        if let Ok(line) = gap(rt, alloc, self.dropped)
            && self.lines.push_back(line).is_ok()
        {
            self.dropped = 0;
        }
    }
}

/// A queue of lines.
#[derive(Drop)]
pub struct LogQueue {
    alloc: Global,
    waiting: Mutex<Waiting>,
    changed: Condvar,
}

impl LogQueue {
    pub fn new(alloc: Global) -> Result<LogQueue, AllocError> {
        Ok(LogQueue {
            alloc,
            waiting: Mutex::new(Waiting {
                lines: VecDeque::with_capacity(alloc, MOST_LINES)?,
                dropped: 0,
                is_closed: false,
                is_over: false,
            }),
            changed: Condvar::new(),
        })
    }

    /// Puts a line into the queue. Where as many wait as may, it is counted, and a line says so later.
    pub(crate) fn push<R: Wait + Clock>(&self, rt: &R, line: &str) {
        let line = stamped(rt, self.alloc, line);
        let mut waiting = self.waiting.lock(rt);
        waiting.tell_gap(rt, self.alloc);
        waiting.take(line);
        drop(waiting);
        self.changed.notify_all();
    }

    /// The next line, once there is one; None where none comes any more.
    fn next<R: Wait>(&self, rt: &R) -> Option<String> {
        let waiting = self.waiting.lock(rt);
        let mut waiting = self
            .changed
            .wait_while(rt, waiting, |waiting| waiting.is_idle());
        waiting.lines.pop_front()
    }

    /// Writes nothing any more.
    pub fn stop<R: Wait>(&self, rt: &R) {
        let mut waiting = self.waiting.lock(rt);
        waiting.is_over = true;
        drop(waiting);
        self.changed.notify_all();
    }

    /// Writes each line as it comes, to the last one.
    pub fn write_out<R: Wait, W: Write>(&self, rt: &R, writer: &mut W) {
        for _ in rt.forever() {
            let Some(line) = self.next(rt) else {
                break;
            };
            // Who reads them may be gone.
            let _ = writer.write_all(line.as_str().as_bytes());
        }
        self.stop(rt);
    }

    /// Lets no line in any more, and waits a little until those that wait are written. Whether they are.
    pub(crate) fn close<R: Wait + Clock>(&self, rt: &R) -> bool {
        let mut waiting = self.waiting.lock(rt);
        waiting.tell_gap(rt, self.alloc);
        waiting.is_closed = true;
        self.changed.notify_all();
        let pause = Duration::from_secs(LAST_SECONDS);
        let (_waiting, told) = self
            .changed
            .wait_timeout_while(rt, waiting, pause, |waiting| !waiting.is_over);
        !told.timed_out()
    }
}
