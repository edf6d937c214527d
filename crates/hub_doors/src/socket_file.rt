//! Socket files.
use std::alloc::{AllocError, Global};
use std::fs::{DirBuilder, Files, Permissions};
use std::io::ErrorKind;
use std::net::Net;
use std::os::unix::fs::{DirBuilderExt, FileTypeExt, PermissionsExt};
use std::os::unix::net::{UnixListener, UnixStream};
use std::{fs, io};

/// Why a socket file can't be had.
#[derive(Clone, Copy)]
pub enum SocketFault {
    /// Another process listens there.
    InUse,
    /// Another kind of file stands there.
    NoSocket,
    /// It can't be made or looked at.
    Failed(io::Error),
    OutOfMemory,
}

impl From<io::Error> for SocketFault {
    fn from(error: io::Error) -> SocketFault {
        SocketFault::Failed(error)
    }
}

impl From<AllocError> for SocketFault {
    fn from(_error: AllocError) -> SocketFault {
        SocketFault::OutOfMemory
    }
}

/// Takes a socket file away at which nobody listens.
fn clear<R: Files + Net>(rt: &R, path: &str) -> Result<(), SocketFault> {
    let found = match fs::symlink_metadata(rt, path) {
        Ok(found) => found,
        Err(error) if error.kind() == ErrorKind::NotFound => return Ok(()),
        Err(error) => return Err(SocketFault::Failed(error)),
    };
    if !found.file_type().is_socket() {
        return Err(SocketFault::NoSocket);
    }
    match UnixStream::connect(rt, path) {
        Ok(_) => Err(SocketFault::InUse),
        Err(error) if error.kind() == ErrorKind::ConnectionRefused => {
            fs::remove_file(rt, path)?;
            Ok(())
        }
        Err(error) => Err(SocketFault::Failed(error)),
    }
}

/// Makes a socket file that only its owner may open, and moves it to its path.
fn make<R: Files + Net>(rt: &R, made: &str, path: &str) -> io::Result<UnixListener> {
    let listener = UnixListener::bind(rt, made)?;
    fs::set_permissions(rt, made, Permissions::from_mode(0o600))?;
    fs::rename(rt, made, path)?;
    Ok(listener)
}

/// Listens at a socket file that only its owner may open. It is made in a folder of mode 0700 and moved from there, so
/// that at no moment may another open it.
pub(crate) fn listen<R: Files + Net>(
    rt: &R,
    alloc: Global,
    path: &str,
) -> Result<UnixListener, SocketFault> {
    clear(rt, path)?;
    let folder = format!(in alloc; "{path}.new")?;
    let made = format!(in alloc; "{path}.new/s")?;
    // What a server left there that was killed at this point.
    let _ = fs::remove_file(rt, made.as_str());
    let _ = fs::remove_dir(rt, folder.as_str());
    DirBuilder::new().mode(0o700).create(rt, folder.as_str())?;
    let listener = make(rt, made.as_str(), path);
    let _ = fs::remove_file(rt, made.as_str());
    let _ = fs::remove_dir(rt, folder.as_str());
    Ok(listener?)
}

/// Takes a socket file away. Where that fails, the next server finds that nobody listens there.
pub(crate) fn remove<R: Files>(rt: &R, path: &str) {
    let _ = fs::remove_file(rt, path);
}
