//! Whether an open file is still where it was opened.
use std::os::unix::fs::MetadataExt;
use std::path::PathBuf;
use std::rt::HostRuntime;
use std::{fs, io};

/// What tells a file of a system from all others.
#[derive(Clone, Copy, PartialEq, Eq)]
struct FileId {
    device: u64,
    number: u64,
}

/// Where a file and its log stand, and which they were as they were opened.
#[derive(Drop)]
pub(crate) struct Place {
    rt: HostRuntime,
    file: PathBuf,
    log: String,
    file_id: FileId,
    log_id: FileId,
}

fn id_of(rt: &HostRuntime, path: &str) -> io::Result<FileId> {
    let found = fs::symlink_metadata(rt, path)?;
    Ok(FileId {
        device: found.dev(),
        number: found.ino(),
    })
}

impl Place {
    /// The place of an open file: where a link leads, since the log stands there.
    pub(crate) fn of(rt: &HostRuntime, path: &str) -> io::Result<Place> {
        let file = fs::canonicalize(rt, path)?;
        let log = format!(in rt.alloc(); "{}-wal", file.as_str())?;
        let file_id = id_of(rt, file.as_str())?;
        let log_id = id_of(rt, log.as_str())?;
        Ok(Place {
            rt: *rt,
            file,
            log,
            file_id,
            log_id,
        })
    }

    /// Whether the same two files are there.
    pub(crate) fn holds(&self) -> bool {
        let file = id_of(&self.rt, self.file.as_str());
        let log = id_of(&self.rt, self.log.as_str());
        match (file, log) {
            (Ok(file), Ok(log)) => file == self.file_id && log == self.log_id,
            _ => false,
        }
    }
}
