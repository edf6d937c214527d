//! A session that is the program's input.
ghost use Rattle.std.specs.Prelude.{ℕ, List};

use crate::CommandError;
use crate::errors::{Errors, Progress};
use crate::fault::Fault;
use crate::store_told::tell_of_loss;
use crate::system::{InMemory, Opened, Opening, StoreDamage, StoreFailure, System};
use change_log::log::ChangeLog;
use change_ops::size::Size;
use hub_doors::journal::Surroundings;
use hub_requests::Workers;
use hub_requests::limits::SessionOptions;
use hub_requests::serving::StoreFile;
use hub_restoring::restoring::NotRestored;
use hub_sessions::conversation::SessionFault;
use hub_sessions::replaying::{NotReplayed, ReplayError, Replayed, replay, replay_kept};
use std::alloc::Global;
use std::io::{Read, Write};
use std::rt::Clock;
use std::sync::Wait;
use std::thread::Threads;
use stored_history::error::OpenError;

impl From<SessionFault> for CommandError {
    fn from(fault: SessionFault) -> CommandError {
        match fault {
            SessionFault::Read(error) => CommandError::Fault(Fault::Input(error)),
            SessionFault::Write(error) => CommandError::Fault(Fault::Output(error)),
        }
    }
}

impl From<ReplayError> for CommandError {
    fn from(error: ReplayError) -> CommandError {
        match error {
            ReplayError::Session(fault) => CommandError::from(fault),
            ReplayError::OutOfMemory => CommandError::Memory,
        }
    }
}

/// Why a store isn't opened whose changes weren't all accepted again, or whose log failed in this way.
pub(crate) fn not_opened(error: OpenError, failure: Option<StoreFailure>) -> CommandError {
    match error {
        OpenError::LogFailed => CommandError::StoreFailed(failure),
        OpenError::Damaged(number) => CommandError::Damaged(match u32::try_from(number) {
            Ok(number) => StoreDamage::Change(number),
            Err(_) => StoreDamage::Other,
        }),
        OpenError::OutOfMemory => CommandError::Memory,
    }
}

/// Runs the session that the input is on a hub whose changes a log keeps.
fn replay_from<
    H: Threads + Wait + Clock + Copy + Send + Sync,
    L: ChangeLog,
    J: Surroundings,
    R: Read,
    W: Write,
>(
    rt: &H,
    alloc: Global,
    journal: &J,
    log: L,
    size: Size,
    workers: &Workers,
    options: SessionOptions,
    reader: &mut R,
    writer: &mut W,
) -> Result<Replayed<L>, NotReplayed<L>>
    requires log { (texts : List (List ℕ)) × L.kept log texts }
{
    let mut progress = Progress::new(rt, alloc, journal);
    replay_kept(
        rt,
        alloc,
        size,
        log,
        |done, all| progress.tell(done, all),
        &mut *reader,
        writer,
        workers.count(),
        options,
    )
}

/// Runs the session that the input is on a hub whose changes a file keeps.
fn replayed_kept<
    H: Threads + Wait + Clock + Copy + Send + Sync,
    Y: System,
    R: Read,
    W: Write,
    E: Write + Send,
>(
    rt: &H,
    alloc: Global,
    system: &Y,
    size: Size,
    workers: &Workers,
    mut options: SessionOptions,
    store: &StoreFile,
    reader: &mut R,
    writer: &mut W,
    errors: &mut E,
) -> Result<u8, CommandError> {
    let hub = system
        .hub_id()
        .map_err(|error| CommandError::Fault(Fault::Random(error)))?;
    let opening = Opening::Kept {
        accepts_loss: store.accepts_loss,
    };
    let Opened { log, hub, lost } = system.open(store.path.as_str(), size, hub, opening)?;
    tell_of_loss(errors, store.path.as_str(), lost);
    // A session that is the input asks for no file.
    let none = InMemory { alloc };
    let errors = Errors::new(&none, errors);
    options.hub = Some(hub);
    match replay_from(
        rt, alloc, &errors, log, size, workers, options, reader, writer,
    ) {
        Ok(
            Replayed {
                log,
                is_failed,
                ended,
            },
        ) => {
            let failure = system.failure(&log);
            let closed = system.close(log);
            if is_failed {
                return Err(CommandError::StoreFailed(failure));
            }
            ended?;
            closed?;
            Ok(0)
        }
        Err(NotReplayed::NotRestored(NotRestored { log, error })) => {
            let failure = system.failure(&log);
            let _ = system.close(log);
            Err(not_opened(error, failure))
        }
        Err(NotReplayed::OutOfMemory(log)) => {
            let _ = system.close(log);
            Err(CommandError::Memory)
        }
    }
}

/// Runs the session that the input is.
pub(crate) fn replayed<
    H: Threads + Wait + Clock + Copy + Send + Sync,
    Y: System,
    R: Read,
    W: Write,
    E: Write + Send,
>(
    rt: &H,
    alloc: Global,
    system: &Y,
    size: Size,
    workers: &Workers,
    options: SessionOptions,
    store: Option<&StoreFile>,
    reader: &mut R,
    writer: &mut W,
    errors: &mut E,
) -> Result<u8, CommandError> {
    match store {
        Some(store) => replayed_kept(
            rt, alloc, system, size, workers, options, store, reader, writer, errors,
        ),
        None => {
            replay(rt, alloc, size, reader, writer, workers.count(), options)?;
            Ok(0)
        }
    }
}
