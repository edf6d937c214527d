//! Sessions at doors.
ghost use Rattle.std.specs.Prelude.{ℕ, List};

use crate::CommandError;
use crate::errors::{Progress, ServerLog};
use crate::fault::Fault;
use crate::log_queue::LogQueue;
use crate::replayed::not_opened;
use crate::store_told::tell_of_loss;
use crate::system::{Folders, Opened, Opening, StoreFailure, System};
use change_log::log::ChangeLog;
use hub_doors::fault::ConnectionFault;
use hub_doors::journal::Surroundings;
use hub_doors::server::{NotServed, Plan, ServeError, Served, serve, serve_kept};
use hub_doors::socket_file::SocketFault;
use hub_requests::identity::HubId;
use hub_requests::serving::{Doors, StoreFile, Terms};
use hub_restoring::restoring::NotRestored;
use std::alloc::{AllocError, Global};
use std::fs::Files;
use std::io::Write;
use std::net::{Net, TcpListener, TcpStream};
use std::rt::Clock;
use std::sync::{Arc, Wait};
use std::thread::Threads;

impl From<ServeError> for CommandError {
    fn from(error: ServeError) -> CommandError {
        match error {
            ServeError::Port(kind, error) => CommandError::Fault(Fault::Port { kind, error }),
            ServeError::Socket(SocketFault::OutOfMemory) => CommandError::Memory,
            ServeError::Socket(fault) => CommandError::Fault(Fault::Socket(fault)),
            ServeError::Output(error) => CommandError::Fault(Fault::Output(error)),
            ServeError::Connection(fault) => CommandError::Fault(Fault::Connection(fault)),
            ServeError::Kept => CommandError::StoreFailed(None),
            ServeError::OutOfMemory | ServeError::Unreturned => CommandError::Memory,
        }
    }
}

/// Why sessions weren't served to their end, whose store may have failed in this way.
fn not_served(error: ServeError, failure: Option<StoreFailure>) -> CommandError {
    match error {
        ServeError::Kept => CommandError::StoreFailed(failure),
        error => CommandError::from(error),
    }
}

/// The terms of sessions of a hub that has this id.
fn terms_of(terms: &Terms, hub: HubId) -> Terms {
    let mut options = terms.options;
    options.hub = Some(hub);
    Terms {
        service: terms.service,
        workers: terms.workers,
        size: terms.size,
        options,
        idle: terms.idle,
        is_logged: terms.is_logged,
    }
}

/// Serves sessions on a hub whose changes a log keeps.
fn serve_from<
    H: Threads
        + Wait
        + Net<Listener = TcpListener, Stream = TcpStream>
        + Files
        + Clock
        + Copy
        + Send
        + Sync,
    L: ChangeLog,
    J: Surroundings + Send + Sync,
    W: Write,
>(
    rt: &H,
    alloc: Global,
    plan: &Plan<'_, J>,
    log: L,
    writer: &mut W,
) -> Result<Served<L>, NotServed<L>>
    requires log { (texts : List (List ℕ)) × L.kept log texts }
{
    let mut progress = Progress::new(rt, alloc, plan.journal);
    serve_kept(
        *rt,
        alloc,
        plan,
        log,
        |done, all| progress.tell(done, all),
        writer,
    )
}

/// Serves sessions on a hub whose changes a file keeps.
fn served_kept<
    H: Threads
        + Wait
        + Net<Listener = TcpListener, Stream = TcpStream>
        + Files
        + Clock
        + Copy
        + Send
        + Sync,
    Y: System,
    J: Surroundings + Send + Sync,
    W: Write,
    E: Write,
>(
    rt: &H,
    alloc: Global,
    system: &Y,
    journal: &J,
    hub: HubId,
    doors: &Doors,
    terms: &Terms,
    store: &StoreFile,
    writer: &mut W,
    errors: &mut E,
) -> Result<(), CommandError> {
    let opening = Opening::Kept {
        accepts_loss: store.accepts_loss,
    };
    let Opened { log, hub, lost } = system.open(store.path.as_str(), terms.size, hub, opening)?;
    tell_of_loss(errors, store.path.as_str(), lost);
    let plan = Plan {
        doors,
        terms: &terms_of(terms, hub),
        journal,
    };
    match serve_from(rt, alloc, &plan, log, writer) {
        Ok(Served { log, ended }) => {
            let failure = system.failure(&log);
            let closed = system.close(log);
            ended.map_err(|error| not_served(error, failure))?;
            closed?;
            Ok(())
        }
        Err(NotServed::NotRestored(NotRestored { log, error })) => {
            let failure = system.failure(&log);
            let _ = system.close(log);
            Err(not_opened(error, failure))
        }
        Err(NotServed::OutOfMemory(log)) => {
            let _ = system.close(log);
            Err(CommandError::Memory)
        }
    }
}

/// Serves sessions, whose lines go to a journal.
fn served_with<
    H: Threads
        + Wait
        + Net<Listener = TcpListener, Stream = TcpStream>
        + Files
        + Clock
        + Copy
        + Send
        + Sync,
    Y: System,
    J: Surroundings + Send + Sync,
    W: Write,
    E: Write,
>(
    rt: &H,
    alloc: Global,
    system: &Y,
    journal: &J,
    doors: &Doors,
    terms: &Terms,
    store: Option<&StoreFile>,
    writer: &mut W,
    errors: &mut E,
) -> Result<(), CommandError> {
    let hub = system
        .hub_id()
        .map_err(|error| CommandError::Fault(Fault::Random(error)))?;
    match store {
        Some(store) => served_kept(
            rt, alloc, system, journal, hub, doors, terms, store, writer, errors,
        ),
        None => {
            let plan = Plan {
                doors,
                terms: &terms_of(terms, hub),
                journal,
            };
            serve(*rt, alloc, &plan, writer)?;
            Ok(())
        }
    }
}

/// A queue of lines, for those who put them in and for the one who writes them.
fn log_queue(alloc: Global) -> Result<(Arc<LogQueue, Global>, Arc<LogQueue, Global>), AllocError> {
    let queue = Arc::new(alloc, LogQueue::new(alloc)?)?;
    let other = Arc::try_clone(&queue)?;
    Ok((queue, other))
}

/// Serves sessions.
pub(crate) fn served<
    H: Threads
        + Wait
        + Net<Listener = TcpListener, Stream = TcpStream>
        + Files
        + Clock
        + Copy
        + Send
        + Sync,
    Y: System,
    F: Folders + Send + Sync,
    W: Write,
    E: Write,
>(
    rt: &H,
    alloc: Global,
    system: &Y,
    folders: &F,
    doors: &Doors,
    terms: &Terms,
    store: Option<&StoreFile>,
    writer: &mut W,
    errors: &mut E,
) -> Result<u8, CommandError> {
    let Ok((queue, written)) = log_queue(alloc) else {
        return Err(CommandError::Memory);
    };
    if !system.write_out(rt, written) {
        return Err(CommandError::Fault(Fault::Connection(ConnectionFault::NoThread)));
    }
    let journal = ServerLog { folders, queue };
    let ended = served_with(
        rt, alloc, system, &journal, doors, terms, store, writer, errors,
    );
    let is_read = journal.queue.close(rt);
    match ended {
        Ok(()) => Ok(0),
        // To tell what failed would wait for good, where nobody reads; the status says it.
        Err(CommandError::Fault(_) | CommandError::StoreFailed(_)) if !is_read => Ok(3),
        Err(error) => Err(error),
    }
}
