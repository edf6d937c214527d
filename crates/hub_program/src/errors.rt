//! Standard error, where lines of several threads stand, and files beside it.
use crate::log_queue::LogQueue;
use crate::system::Folders;
use hub_doors::journal::{FoundFile, Surroundings};
use std::alloc::Global;
use std::io;
use std::io::Write;
use std::rt::Clock;
use std::sync::{Arc, Mutex, Wait};
use std::time::{Duration, Instant};

/// A writer of lines, which one thread has at a time, and files.
#[derive(Drop)]
pub(crate) struct Errors<'f, 'e, F, E> {
    folders: &'f F,
    writer: Mutex<&'e mut E>,
}

impl<'f, 'e, F, E> Errors<'f, 'e, F, E> {
    pub(crate) fn new(folders: &'f F, writer: &'e mut E) -> Errors<'f, 'e, F, E> {
        Errors {
            folders,
            writer: Mutex::new(writer),
        }
    }
}

impl<F: Folders + Send + Sync, E: Write + Send> Surroundings for Errors<'_, '_, F, E> {
    fn note<R: Wait + Clock>(&self, rt: &R, line: &str) {
        let mut writer = self.writer.lock(rt);
        let _ = writeln!(writer, "hub: {line}");
    }

    fn open(&self, folder: &str, name: &str) -> io::Result<Option<FoundFile>> {
        self.folders.open(folder, name)
    }
}

/// The queue of a server's lines, and files beside it.
#[derive(Drop)]
pub(crate) struct ServerLog<'f, F> {
    pub folders: &'f F,
    pub queue: Arc<LogQueue, Global>,
}

impl<F: Folders + Send + Sync> Surroundings for ServerLog<'_, F> {
    fn note<R: Wait + Clock>(&self, rt: &R, line: &str) {
        self.queue.push(rt, line);
    }

    fn open(&self, folder: &str, name: &str) -> io::Result<Option<FoundFile>> {
        self.folders.open(folder, name)
    }
}

/// What is told while a store is read: a line a second at most.
#[derive(Drop)]
pub(crate) struct Progress<'a, H, J> {
    rt: &'a H,
    alloc: Global,
    journal: &'a J,
    begun: Option<Instant>,
    told: Option<Instant>,
}

/// For how many seconds nothing more is told.
const PAUSE_SECONDS: u64 = 1;

impl<'a, H: Clock + Wait, J: Surroundings> Progress<'a, H, J> {
    /// Nothing is told in the first second.
    pub(crate) fn new(rt: &'a H, alloc: Global, journal: &'a J) -> Progress<'a, H, J> {
        let now = Instant::now(rt).ok();
        Progress {
            rt,
            alloc,
            journal,
            begun: now,
            told: now,
        }
    }

    /// After how many seconds from the begin a line is due, if one is due now.
    fn due(&mut self) -> Option<u64> {
        let now = Instant::now(self.rt).ok()?;
        if now.saturating_duration_since(self.told?) < Duration::from_secs(PAUSE_SECONDS) {
            return None;
        }
        self.told = Some(now);
        Some(now.saturating_duration_since(self.begun?).as_secs())
    }

    /// Tells how many changes of how many were accepted again, and how many seconds are left, if a line is due.
    pub(crate) fn tell(&mut self, done: usize, all: usize) {
        let Some(seconds) = self.due() else {
            return;
        };
        let left = seconds_left(seconds, done as u64, all as u64);
        let line = format!(in self.alloc;
            "{done} of {all} changes of the store are read, {left} s left"
        );
        if let Ok(line) = line {
            self.journal.note(self.rt, line.as_str());
        }
    }
}

/// How many seconds are left where so many were taken for what is done of all.
fn seconds_left(seconds: u64, done: u64, all: u64) -> u64 {
    seconds.saturating_mul(all.saturating_sub(done)) / done.max(1)
}
