use change_log::log::LogError;
use sqlite::{Error, ErrorCode};
use sqlite_std_file::OpenError;
use std::alloc::AllocError;
use std::io;

/// What is wrong with a file that is opened as a store.
#[derive(Clone, Copy)]
pub enum Damage {
    /// It is no database that SQLite would read whole: a page's sum or form is wrong.
    Pages,
    /// It has other tables, or not one row that says of which hub it is.
    Tables,
    /// It is a store of another format.
    Format,
    /// It is a store of a hub of another size.
    Size,
    /// The hub's id isn't 32 small hexadecimal digits.
    Id,
    /// No change has this number, and one has a greater.
    MissingNumber(u32),
    /// A number isn't within 32 bits, or a text isn't UTF-8.
    Value,
    /// Its pages have no sums: sqlite3 writes such files, and no hub.
    NoSums,
    /// A frame of its log is wrong, and so many commits behind it are right.
    Log(usize),
    /// Its log is another file's: the two have other ids, or other changes under the same numbers.
    ForeignLog,
}

/// Why a file was not opened, read, written or closed.
#[derive(Clone, Copy)]
pub enum Failure {
    /// The system refused it.
    System(io::Error),
    /// A journal stands beside it, which sqlite3 left.
    Journal,
    /// What SQLite says.
    Database(ErrorCode),
    /// The file or its log was removed, moved or replaced while it was open.
    Moved,
    /// There are more changes than numbers, or a statement was refused that never is.
    Unexpected,
}

/// Why a store was not opened, or not closed.
#[derive(Clone, Copy)]
pub enum StoreError {
    /// The file holds something else, and was left as it was. An empty log may be left beside it.
    StoreDamaged(Damage),
    /// Another process has the file open.
    StoreBusy,
    /// A read, a write or a sync failed, or the file isn't where it was.
    StoreFailed(Failure),
    /// No memory was found.
    OutOfMemory,
}

impl From<Error> for StoreError {
    fn from(error: Error) -> StoreError {
        match error {
            Error::SqliteFailure(ErrorCode::OutOfMemory) => StoreError::OutOfMemory,
            Error::SqliteFailure(ErrorCode::DatabaseBusy) => StoreError::StoreBusy,
            Error::SqliteFailure(ErrorCode::NotADatabase | ErrorCode::DatabaseCorrupt) => {
                StoreError::StoreDamaged(Damage::Pages)
            }
            Error::InvalidColumnType(..)
            | Error::IntegralValueOutOfRange(_)
            | Error::Utf8Error(_) => { StoreError::StoreDamaged(Damage::Value) }
            Error::SqliteFailure(code) => StoreError::StoreFailed(Failure::Database(code)),
            _ => StoreError::StoreFailed(Failure::Unexpected),
        }
    }
}

impl From<io::Error> for StoreError {
    fn from(error: io::Error) -> StoreError {
        if error.kind() == io::ErrorKind::OutOfMemory {
            StoreError::OutOfMemory
        } else {
            StoreError::StoreFailed(Failure::System(error))
        }
    }
}

impl From<OpenError> for StoreError {
    fn from(error: OpenError) -> StoreError {
        match error {
            OpenError::Io(error) => StoreError::from(error),
            OpenError::OutOfMemory => StoreError::OutOfMemory,
            OpenError::Busy => StoreError::StoreBusy,
            OpenError::HotJournal => StoreError::StoreFailed(Failure::Journal),
        }
    }
}

impl From<AllocError> for StoreError {
    fn from(_: AllocError) -> StoreError {
        StoreError::OutOfMemory
    }
}

/// Why a log that is a store fails. But for want of memory it isn't known what is kept then.
impl From<StoreError> for LogError {
    fn from(error: StoreError) -> LogError {
        match error {
            StoreError::OutOfMemory => LogError::OutOfMemory,
            _ => LogError::Failed,
        }
    }
}
