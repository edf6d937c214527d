//! A new store of the changes that a file keeps.
use crate::CommandError;
use crate::replayed::not_opened;
use crate::store_told::tell_of_store;
use crate::system::{Opened, Opening, System};
use change_log::log::{ChangeLog, LogError};
use change_log::text::ChangeText;
use change_ops::size::Size;
use hub_commands::failure::Failure;
use hub_requests::identity::HubId;
use std::alloc::Global;
use std::io::Write;
use stored_history::history::{self, NotOpened, StoredHistory};

/// What a file keeps.
#[derive(Drop)]
struct KeptChanges {
    texts: Vec<ChangeText>,
    hub: HubId,
}

/// Why a log failed.
fn log_error<Y: System>(system: &Y, log: &Y::Log, error: LogError) -> CommandError {
    match error {
        LogError::OutOfMemory => CommandError::Memory,
        LogError::Failed => CommandError::StoreFailed(system.failure(log)),
    }
}

/// Reads a file, whose changes are all accepted again. It is let go as it was.
fn read_kept<Y: System>(
    alloc: Global,
    system: &Y,
    size: Size,
    from: &str,
) -> Result<KeptChanges, CommandError> {
    // A file that is there has an id of its own.
    let none = HubId { bytes: [0; 16] };
    let Opened { log, hub, .. } = system.open(from, size, none, Opening::Adopted)?;
    let mut log = match StoredHistory::open(alloc, size, log) {
        Ok(history::Opened { stored, .. }) => stored.into_log(),
        Err(NotOpened { log, error }) => {
            let failure = system.failure(&log);
            system.release(log);
            return Err(not_opened(error, failure));
        }
    };
    let kept = match log.all(alloc) {
        Ok(texts) => Ok(KeptChanges { texts, hub }),
        Err(error) => Err(log_error(system, &log, error)),
    };
    system.release(log);
    kept
}

/// Keeps texts in a file that is made.
fn make_store<Y: System>(
    system: &Y,
    size: Size,
    to: &str,
    kept: &KeptChanges,
) -> Result<(), CommandError> {
    let Opened { mut log, .. } = system.open(to, size, kept.hub, Opening::Made)?;
    let written = match log.append(&kept.texts) {
        Ok(()) => Ok(()),
        Err(error) => Err(log_error(system, &log, error)),
    };
    let closed = system.close(log);
    if written.is_err() || closed.is_err() {
        system.remove(to);
    }
    written?;
    Ok(closed?)
}

/// Makes a store of the changes of a file.
pub(crate) fn adopted<Y: System, W: Write, E: Write>(
    alloc: Global,
    system: &Y,
    size: Size,
    from: &str,
    to: &str,
    writer: &mut W,
    errors: &mut E,
) -> Result<u8, CommandError> {
    let kept = match read_kept(alloc, system, size, from) {
        Ok(kept) => kept,
        Err(error) => {
            tell_of_store(errors, from, &error);
            return Err(error);
        }
    };
    if let Err(error) = make_store(system, size, to, &kept) {
        tell_of_store(errors, to, &error);
        return Err(error);
    }
    writeln!(writer, "adopted {}", kept.texts.len()).map_err(Failure::of_write)?;
    Ok(0)
}
