//! The program's command, over any reader and any two writers.
#![tactic(auto)]

mod adopted;
mod errors;
pub mod fault;
pub mod log_queue;
mod replayed;
mod served;
mod store_told;
pub mod system;

use crate::adopted::adopted;
use crate::fault::Fault;
use crate::replayed::replayed;
use crate::served::served;
use crate::store_told::tell_of_store;
use crate::system::{Folders, StoreDamage, StoreFailure, StoreFault, System};
use command_line::reading::{Unread, request};
use hub_commands::failure::Failure;
use hub_commands::perform::perform;
use hub_requests::serving::StoreFile;
use hub_requests::{Command, Request};
use refusal_titles::{OUT_OF_MEMORY, STORE_BUSY, STORE_DAMAGED};
use std::alloc::Global;
use std::convert::AsStr;
use std::fs::Files;
use std::io;
use std::io::{Read, Write};
use std::net::{Net, TcpListener, TcpStream};
use std::rt::Clock;
use std::sync::Wait;
use std::thread::Threads;

/// Why a command has no exit status of its own.
#[derive(Clone, Copy)]
enum CommandError {
    /// Something failed that is told on standard error.
    Fault(Fault),
    /// The store is refused. Why is told on standard error, where there is more to say.
    Damaged(StoreDamage),
    /// The store failed, which is told on standard error.
    StoreFailed(Option<StoreFailure>),
    /// Another process has the store open.
    Busy,
    /// No memory was found.
    Memory,
}

impl From<StoreFault> for CommandError {
    fn from(fault: StoreFault) -> CommandError {
        match fault {
            StoreFault::Damaged(damage) => CommandError::Damaged(damage),
            StoreFault::Busy => CommandError::Busy,
            StoreFault::Failed(failure) => CommandError::StoreFailed(Some(failure)),
            StoreFault::OutOfMemory => CommandError::Memory,
        }
    }
}

impl From<Failure> for CommandError {
    fn from(failure: Failure) -> CommandError {
        match failure {
            Failure::Read(error) => CommandError::Fault(Fault::Input(error)),
            Failure::Write(error) => CommandError::Fault(Fault::Output(error)),
            Failure::Memory => CommandError::Memory,
        }
    }
}

/// Prints why a command is refused; None where that is told on standard error.
fn write_refusal<W: Write>(writer: &mut W, error: &CommandError) -> Option<io::Result<()>> {
    Some(match error {
        CommandError::Fault(_) | CommandError::StoreFailed(_) => return None,
        CommandError::Damaged(StoreDamage::Change(number)) => {
            writeln!(writer, "refused {STORE_DAMAGED} change {number}")
        }
        CommandError::Damaged(_) => writeln!(writer, "refused {STORE_DAMAGED}"),
        CommandError::Busy => writeln!(writer, "refused {STORE_BUSY}"),
        CommandError::Memory => writeln!(writer, "refused {OUT_OF_MEMORY}"),
    })
}

/// Runs the command that the words name (the program's own name is the first), and answers the exit
/// status: 0 done, 1 refused or faulted, 2 usage, 3 where a read, a write, a bind or an accept failed. What stands
/// beside the answer goes to `errors`: usage, hints, and what failed. Only `replay` and `serve` start threads or wait
/// for them, and only `serve` opens sockets; only these two and `adopt` open a store, by `system`, and `serve` alone
/// files, by `folders`.
pub fn command<
    H: Threads
        + Wait
        + Net<Listener = TcpListener, Stream = TcpStream>
        + Files
        + Clock
        + Copy
        + Send
        + Sync,
    Y: System,
    F: Folders + Send + Sync,
    S: AsStr,
    R: Read,
    W: Write,
    E: Write + Send,
>(
    rt: &H,
    alloc: Global,
    system: &Y,
    folders: &F,
    words: &[S],
    reader: &mut R,
    writer: &mut W,
    errors: &mut E,
) -> u8 {
    let error = match answered(rt, alloc, system, folders, words, reader, writer, errors) {
        Ok(status) => return status,
        Err(error) => error,
    };
    let fault = match (write_refusal(writer, &error), error) {
        (Some(Ok(())), _) => return 1,
        (Some(Err(error)), _) => Fault::Output(error),
        (None, CommandError::Fault(fault)) => fault,
        (None, CommandError::StoreFailed(_)) => return 3,
        (None, _) => return 1,
    };
    complain(errors, &fault);
    3
}

/// Says on standard error what went wrong; where that fails too, the exit status still tells it.
pub fn complain<E: Write>(errors: &mut E, fault: &Fault) {
    let _ = writeln!(errors, "hub: {fault}");
}

/// Prints help.
fn shown<W: Write>(writer: &mut W, text: &str) -> Result<u8, CommandError> {
    writer
        .write_all(text.as_bytes())
        .map_err(Failure::of_write)?;
    Ok(0)
}

fn answered<
    H: Threads
        + Wait
        + Net<Listener = TcpListener, Stream = TcpStream>
        + Files
        + Clock
        + Copy
        + Send
        + Sync,
    Y: System,
    F: Folders + Send + Sync,
    S: AsStr,
    R: Read,
    W: Write,
    E: Write + Send,
>(
    rt: &H,
    alloc: Global,
    system: &Y,
    folders: &F,
    words: &[S],
    reader: &mut R,
    writer: &mut W,
    errors: &mut E,
) -> Result<u8, CommandError> {
    match request(alloc, words) {
        Ok(request) => {
            let done = asked(
                rt,
                alloc,
                system,
                folders,
                &request,
                reader,
                writer,
                &mut *errors,
            );
            if let (Err(error), Some(store)) = (&done, store_of(&request)) {
                tell_of_store(errors, store.path.as_str(), error);
            }
            done
        }
        Err(Unread::Shown(text)) => shown(writer, text.as_str()),
        Err(Unread::Usage(text)) => {
            let _ = errors.write_all(text.as_bytes());
            Ok(2)
        }
        Err(Unread::Memory) => Err(CommandError::Memory),
    }
}

/// The file that is to keep changes, if there is to be one.
fn store_of(request: &Request) -> Option<&StoreFile> {
    match request {
        Request::Replay { store, .. } | Request::Serve { store, .. } => store.as_ref(),
        Request::Perform(_) | Request::Adopt { .. } => None,
    }
}

/// Does what is asked.
fn asked<
    H: Threads
        + Wait
        + Net<Listener = TcpListener, Stream = TcpStream>
        + Files
        + Clock
        + Copy
        + Send
        + Sync,
    Y: System,
    F: Folders + Send + Sync,
    R: Read,
    W: Write,
    E: Write + Send,
>(
    rt: &H,
    alloc: Global,
    system: &Y,
    folders: &F,
    request: &Request,
    reader: &mut R,
    writer: &mut W,
    errors: &mut E,
) -> Result<u8, CommandError> {
    match request {
        Request::Perform(command) => performed(alloc, command, reader, writer, errors),
        Request::Adopt { size, from, to } => adopted(
            alloc,
            system,
            *size,
            from.as_str(),
            to.as_str(),
            writer,
            errors,
        ),
        Request::Replay {
            size,
            workers,
            options,
            store,
        } => replayed(
            rt,
            alloc,
            system,
            *size,
            workers,
            *options,
            store.as_ref(),
            reader,
            writer,
            errors,
        ),
        Request::Serve {
            doors,
            terms,
            store,
        } => served(
            rt,
            alloc,
            system,
            folders,
            doors,
            terms,
            store.as_ref(),
            writer,
            errors,
        ),
    }
}

/// Performs the command on the input, and says beside a refusal what is wrong with the input's form.
fn performed<R: Read, W: Write, E: Write>(
    alloc: Global,
    command: &Command,
    reader: &mut R,
    writer: &mut W,
    errors: &mut E,
) -> Result<u8, CommandError> {
    let ended = perform(alloc, command, reader, writer)?;
    if ended.status != 0 {
        if let Some(hint) = ended.hint {
            let _ = writeln!(errors, "hint: {hint}");
        } else if let Some(word) = &ended.word {
            let _ = writeln!(errors, "hint: {word}");
        }
    }
    Ok(ended.status)
}
