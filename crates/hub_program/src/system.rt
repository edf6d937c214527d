//! What the program has of its system beside its streams.
use crate::log_queue::LogQueue;
use change_log::log::ChangeLog;
use change_log::memory::MemoryLog;
use change_ops::size::Size;
use hub_doors::journal::FoundFile;
use hub_requests::identity::HubId;
use std::alloc::Global;
use std::fmt::{Display, Formatter};
use std::sync::{Arc, Wait};
use std::{fmt, io};

/// What is wrong with a file that isn't taken as a store.
#[derive(Clone, Copy)]
pub enum StoreDamage {
    /// Its pages have no sums.
    NoSums,
    /// A frame of its log is wrong, and so many commits behind it are lost.
    Log(usize),
    /// Its log is another file's.
    ForeignLog,
    /// The change of this number is missing, or isn't accepted.
    Change(u32),
    /// It holds something else.
    Other,
}

/// What was done with a file as it failed.
#[derive(Clone, Copy)]
pub enum StoreTask {
    Open,
    Write,
    Close,
}

/// What the system or the database says of it.
#[derive(Clone, Copy)]
pub enum StoreCause {
    System(io::Error),
    Said(&'static str),
}

/// Why a file failed.
#[derive(Clone, Copy)]
pub struct StoreFailure {
    pub task: StoreTask,
    pub cause: StoreCause,
}

impl Display for StoreFailure {
    fn fmt<W: fmt::Write>(&self, f: &mut Formatter<W>) -> fmt::Result {
        let done = match self.task {
            StoreTask::Open => "opened",
            StoreTask::Write => "written",
            StoreTask::Close => "closed",
        };
        match self.cause {
            StoreCause::System(error) => write!(f, "could not be {done}: {error}"),
            StoreCause::Said(words) => write!(f, "could not be {done}: {words}"),
        }
    }
}

/// Why a file doesn't keep changes.
#[derive(Clone, Copy)]
pub enum StoreFault {
    /// It is refused.
    Damaged(StoreDamage),
    /// Another process has it open.
    Busy,
    /// A read, a write or a sync failed.
    Failed(StoreFailure),
    /// No memory was found.
    OutOfMemory,
}

/// How a file is opened.
#[derive(Clone, Copy)]
pub enum Opening {
    /// To keep changes; it is made if it is missing. Its log may have lost commits, or may not.
    Kept { accepts_loss: bool },
    /// To be read alone, with sums on its pages or without.
    Adopted,
    /// It is made, and must be missing.
    Made,
}

/// A store that is open, and the hub that it is of.
#[derive(Drop)]
pub struct Opened<L: ChangeLog> {
    pub log: L,
    pub hub: HubId,
    /// How many commits its log has lost.
    pub lost: usize,
}

/// Files for browsers, which all threads of a server read.
pub trait Folders {
    /// Opens a folder's file of this name; None where it has none, or a link that leads out of it.
    fn open(&self, folder: &str, name: &str) -> io::Result<Option<FoundFile>>;
}

/// Files that keep changes, and ids for hubs.
pub trait System {
    ghost use Rattle.std.specs.Prelude.{ℕ, List, IfOk};

    type Log: ChangeLog;

    /// An id that no other hub has.
    fn hub_id(&self) -> io::Result<HubId>;

    /// Opens the file of this path for a hub of this size, or makes it for one of this id.
    fn open(
        &self,
        path: &str,
        size: Size,
        hub: HubId,
        opening: Opening,
    ) -> Result<Opened<Self::Log>, StoreFault>
        ensures { IfOk result (λ opened. (texts : List (List ℕ)) × Self.Log.ChangeLog.kept opened.log texts) };

    /// Why an open file failed, once it has; None also where that isn't known.
    fn failure(&self, log: &Self::Log) -> Option<StoreFailure>;

    /// Lets a file go that was opened, whole.
    fn close(&self, log: Self::Log) -> Result<(), StoreFault>;

    /// Lets a file go that was only read, as it is.
    fn release(&self, log: Self::Log);

    /// Removes a file that was made, and is closed.
    fn remove(&self, path: &str);

    /// Starts a thread that writes the lines of a queue to standard error as they come, and that nobody waits for.
    /// Whether there is one.
    fn write_out<R: Wait>(&self, rt: &R, queue: Arc<LogQueue, Global>) -> bool;
}

/// No system: whatever the path, changes are kept in memory alone, there is no file, and each hub has the same id.
#[derive(Clone, Copy)]
pub struct InMemory {
    pub alloc: Global,
}

impl System for InMemory {
    type Log = MemoryLog;

    fn hub_id(&self) -> io::Result<HubId> {
        Ok(HubId { bytes: [0; 16] })
    }

    fn open(
        &self,
        _path: &str,
        _size: Size,
        hub: HubId,
        _opening: Opening,
    ) -> Result<Opened<MemoryLog>, StoreFault> {
        Ok(Opened {
            log: MemoryLog::new(self.alloc),
            hub,
            lost: 0,
        })
    }

    fn failure(&self, _log: &MemoryLog) -> Option<StoreFailure> {
        None
    }

    fn close(&self, log: MemoryLog) -> Result<(), StoreFault> {
        drop(log);
        Ok(())
    }

    fn release(&self, log: MemoryLog) {
        drop(log);
    }

    fn remove(&self, _path: &str) {}

    fn write_out<R: Wait>(&self, rt: &R, queue: Arc<LogQueue, Global>) -> bool {
        queue.stop(rt);
        true
    }
}

impl Folders for InMemory {
    fn open(&self, _folder: &str, _name: &str) -> io::Result<Option<FoundFile>> {
        Ok(None)
    }
}
