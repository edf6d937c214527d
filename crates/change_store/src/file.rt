use std::fs::{Files, OpenOptions};
use std::io::{self, ErrorKind};
use std::os::unix::fs::OpenOptionsExt;

/// Makes an empty file that only its owner may read and write, unless the path has one. SQLite takes an empty file for
/// a new one, and gives the log beside it the same mode.
pub(crate) fn make_private<R: Files>(rt: &R, path: &str) -> io::Result<()> {
    match OpenOptions::new()
        .write(true)
        .create_new(true)
        .mode(0o600)
        .open(rt, path)
    {
        Ok(_) => Ok(()),
        Err(error) if error.kind() == ErrorKind::AlreadyExists => Ok(()),
        Err(error) => Err(error),
    }
}
