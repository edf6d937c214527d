//! The system's files, as stores and for browsers, and its random bytes as ids.
ghost use Rattle.std.specs.Prelude.{ℕ, List, IfOk};
ghost use Rattle.sqlite.specs.Files.{file_state};
ghost use Rattle.change_store.specs.Store.{AreKept};

use crate::handover::Handover;
use change_ops::size::Size;
use change_store::error::{Damage, Failure, StoreError};
use change_store::look::Demands;
use change_store::store::{ChangeStore, Hub};
use hub_doors::journal::FoundFile;
use hub_program::log_queue::LogQueue;
use hub_program::system::{
    Folders, Opened, Opening, StoreCause, StoreDamage, StoreFailure, StoreFault, StoreTask, System,
};
use hub_requests::identity::HubId;
use sqlite::{ErrorCode, FileFrom, FileStore, Unknown};
use std::alloc::{AllocError, Global};
use std::fs::{File, Metadata, OpenOptions};
use std::os::unix::fs::{MetadataExt, OpenOptionsExt};
use std::random::RandomSource;
use std::rt::HostRuntime;
use std::sync::{Arc, Wait};
use std::{fs, io};

/// The format of stores.
const FORMAT: u32 = 1;

/// A store that is a file.
type Store = ChangeStore<FileStore<FileFrom<Unknown>>>;

/// The system that the program runs on.
#[derive(Drop)]
pub(crate) struct HostSystem<'r> {
    pub rt: &'r HostRuntime,
    /// Where a server leaves its lines; None where no thread writes them.
    pub handover: Option<Arc<Handover, Global>>,
}

/// What is said of damage.
fn damage_of(damage: Damage) -> StoreDamage {
    match damage {
        Damage::NoSums => StoreDamage::NoSums,
        Damage::Log(lost) => StoreDamage::Log(lost),
        Damage::ForeignLog => StoreDamage::ForeignLog,
        Damage::MissingNumber(number) => StoreDamage::Change(number),
        _ => StoreDamage::Other,
    }
}

/// What the database says, in SQLite's words.
fn words_of(code: ErrorCode) -> &'static str {
    match code {
        ErrorCode::DiskFull => "database or disk is full",
        ErrorCode::SystemIoFailure => "disk I/O error",
        ErrorCode::Closed => "it was closed by an earlier failure",
        ErrorCode::CannotOpen => "unable to open database file",
        ErrorCode::TooBig => "a text is too big",
        _ => "the database refused it",
    }
}

/// What is said of a failure at a task.
fn failure_of(task: StoreTask, failure: Failure) -> StoreFailure {
    let cause = match failure {
        Failure::System(error) => StoreCause::System(error),
        Failure::Journal => StoreCause::Said("a journal of sqlite3 stands beside it"),
        Failure::Database(code) => StoreCause::Said(words_of(code)),
        Failure::Moved => StoreCause::Said("it or its log was removed, moved or replaced"),
        Failure::Unexpected => StoreCause::Said("the database refused it"),
    };
    StoreFailure { task, cause }
}

/// What is said of a store on which a task isn't done.
fn fault_of(task: StoreTask, error: StoreError) -> StoreFault {
    match error {
        StoreError::StoreDamaged(damage) => StoreFault::Damaged(damage_of(damage)),
        StoreError::StoreBusy => StoreFault::Busy,
        StoreError::StoreFailed(failure) => StoreFault::Failed(failure_of(task, failure)),
        StoreError::OutOfMemory => StoreFault::OutOfMemory,
    }
}

/// How many bytes a log has that keeps nothing yet.
const EMPTY_LOG_BYTES: u64 = 41;

/// How many bytes a file has; none where it isn't there.
fn bytes_of(rt: &HostRuntime, path: &str) -> u64 {
    match fs::metadata(rt, path) {
        Ok(found) => found.len(),
        Err(_) => 0,
    }
}

/// Whether a file is gone, or empty, whose log has changes: opened, it would be taken for a new one, and its log would
/// be let go. While a file is made its log has that many bytes only once the file has a page.
fn is_lost(rt: &HostRuntime, path: &str) -> Result<bool, StoreFault> {
    let Ok(log) = format!(in rt.alloc(); "{path}-wal") else {
        return Err(StoreFault::OutOfMemory);
    };
    Ok(bytes_of(rt, path) == 0 && bytes_of(rt, log.as_str()) > EMPTY_LOG_BYTES)
}

/// Looks whether a file is there, or makes an empty one that wasn't.
fn prepare(rt: &HostRuntime, path: &str, opening: Opening) -> io::Result<()> {
    match opening {
        Opening::Kept { .. } => Ok(()),
        Opening::Adopted => match fs::metadata(rt, path) {
            Ok(_) => Ok(()),
            Err(error) => Err(error),
        },
        Opening::Made => match OpenOptions::new()
            .write(true)
            .create_new(true)
            .mode(0o600)
            .open(rt, path)
        {
            Ok(_) => Ok(()),
            Err(error) => Err(error),
        },
    }
}

/// What a file must be to be opened in this way.
fn demands_of(opening: Opening) -> Demands {
    match opening {
        Opening::Kept { accepts_loss } => Demands {
            sums: true,
            whole_log: !accepts_loss,
            tables: false,
        },
        Opening::Adopted => Demands {
            sums: false,
            whole_log: true,
            tables: true,
        },
        Opening::Made => Demands {
            sums: true,
            whole_log: true,
            tables: false,
        },
    }
}

/// The hub of this size and id. A large one takes stores that say small: all said so once, and what a small hub accepts
/// it accepts.
fn hub_of(size: Size, id: &str) -> Hub<'_> {
    let own_size = match size {
        Size::Small => "small",
        Size::Large => "large",
    };
    let other_size = match size {
        Size::Small => None,
        Size::Large => Some("small"),
    };
    Hub {
        format: FORMAT,
        size: own_size,
        other_size,
        id,
    }
}

/// A store that is open, and how many commits its log had lost.
#[derive(Drop)]
struct OpenStore {
    store: Store,
    lost: usize,
}

/// Opens a store, and answers how many commits its log has lost. One that is new, or whose log has lost some, is copied
/// into its file first, which so tells its hub's id without its log, and the log has nothing of before.
fn open_store(
    rt: &HostRuntime,
    path: &str,
    hub: &Hub<'_>,
    opening: Opening,
) -> Result<OpenStore, StoreError>
    ensures { IfOk result (λ opened. (texts : List (List ℕ))
        × AreKept (file_state opened.store.file) opened.store.count texts) }
{
    let is_new = bytes_of(rt, path) == 0;
    if is_new && matches!(opening, Opening::Adopted) {
        return Err(StoreError::StoreDamaged(Damage::Tables));
    }
    let demands = demands_of(opening);
    let store = ChangeStore::open(rt, path, hub, demands, Unknown)?;
    let lost = store.lost_commits();
    if !is_new && lost == 0 {
        return Ok(OpenStore { store, lost: 0 });
    }
    store.close()?;
    let store = ChangeStore::open(rt, path, hub, demands, Unknown)?;
    Ok(OpenStore { store, lost })
}

impl System for HostSystem<'_> {
    type Log = Store;

    fn hub_id(&self) -> io::Result<HubId> {
        let mut bytes = [0; 16];
        self.rt.fill_bytes(&mut bytes)?;
        Ok(HubId { bytes })
    }

    fn open(
        &self,
        path: &str,
        size: Size,
        hub: HubId,
        opening: Opening,
    ) -> Result<Opened<Store>, StoreFault> {
        let Ok(digits) = hub.digits(self.rt.alloc()) else {
            return Err(StoreFault::OutOfMemory);
        };
        if is_lost(self.rt, path)? {
            return Err(StoreFault::Damaged(StoreDamage::Other));
        }
        if let Err(error) = prepare(self.rt, path, opening) {
            return Err(fault_of(StoreTask::Open, StoreError::from(error)));
        }
        let hub = hub_of(size, digits.as_str());
        let OpenStore { store: log, lost } = match open_store(self.rt, path, &hub, opening) {
            Ok(opened) => opened,
            Err(error) => {
                if matches!(opening, Opening::Made) {
                    self.remove(path);
                }
                return Err(fault_of(StoreTask::Open, error));
            }
        };
        match HubId::from_digits(log.id()) {
            Some(hub) => Ok(Opened { log, hub, lost }),
            None => Err(StoreFault::Damaged(StoreDamage::Other)),
        }
    }

    fn failure(&self, log: &Store) -> Option<StoreFailure> {
        let failure = log.failure()?;
        Some(failure_of(StoreTask::Write, failure))
    }

    fn close(&self, log: Store) -> Result<(), StoreFault> {
        log.close()
            .map_err(|error| fault_of(StoreTask::Close, error))
    }

    fn release(&self, log: Store) {
        drop(log);
    }

    fn remove(&self, path: &str) {
        let _ = fs::remove_file(self.rt, path);
        if let Ok(log) = format!(in self.rt.alloc(); "{path}-wal") {
            let _ = fs::remove_file(self.rt, log.as_str());
        }
    }

    fn write_out<R: Wait>(&self, rt: &R, queue: Arc<LogQueue, Global>) -> bool {
        match &self.handover {
            Some(handover) => {
                handover.leave(rt, queue);
                true
            }
            None => false,
        }
    }
}

/// Says of an open file when it last changed: it is another one once its bytes, its name or its rights have.
fn tag_of(alloc: Global, found: &Metadata) -> Result<String, AllocError> {
    let node = found.ino();
    let length = found.len();
    let seconds = found.ctime();
    let nanoseconds = found.ctime_nsec();
    format!(in alloc; "\"{node:x}-{length:x}-{seconds:x}-{nanoseconds:x}\"")
}

impl Folders for HostSystem<'_> {
    fn open(&self, folder: &str, name: &str) -> io::Result<Option<FoundFile>> {
        let path = format!(in self.rt.alloc(); "{folder}/{name}")?;
        let Ok(real) = fs::canonicalize(self.rt, path.as_str()) else {
            return Ok(None);
        };
        let folder = fs::canonicalize(self.rt, folder)?;
        // Opening what is no file may wait, as for who writes into a pipe.
        if !real.starts_with(&folder) || !fs::metadata(self.rt, real.as_path())?.is_file() {
            return Ok(None);
        }
        let file = fs::open(self.rt, real.as_path())?;
        let found = file.metadata()?;
        let tag = tag_of(self.rt.alloc(), &found)?;
        Ok(Some(FoundFile {
            file,
            length: found.len(),
            tag,
        }))
    }
}
