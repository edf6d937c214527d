//! What is looked at in a file and its log before anything is written to them.
ghost use Rattle.std.specs.Prelude.{◌≡◌, false, IsTrue, IfOk, OnOk};
ghost use Rattle.sqlite_disk.specs.Memory.{memory_is_usable};

use crate::error::{Damage, StoreError};
use crate::store::Hub;
use crate::{rows, schema, tables};
use change_log::text::ChangeText;
use log_frames::loss::lost_commits;
use sqlite::{Connection, FileStore, Files, Options};
use sqlite_disk::{Disk, Memory};
use sqlite_wal::{Error, PageSize, probe_first_page, probe_page_size};
use std::alloc::Global;

/// How many bytes a log has that keeps nothing yet: its header, and its first frame's up to the mark.
const EMPTY_LOG_BYTES: usize = 41;

/// Bytes 20 to 23 of a database whose pages end in sums.
const WITH_SUMS: u32 = 0x0840_2020;

/// What a file must be to be opened.
#[derive(Clone, Copy)]
pub struct Demands {
    /// Whether each page must end in its sum, as in all files that a hub makes.
    pub sums: bool,
    /// Whether no commit may be lost that the log had.
    pub whole_log: bool,
    /// Whether it must have the tables of a store already.
    pub tables: bool,
}

/// What a file keeps without its log.
#[derive(Drop)]
pub(crate) struct Alone {
    id: String,
    texts: Vec<ChangeText>,
}

/// What a file and its log were found to be.
#[derive(Drop)]
pub(crate) struct Findings {
    /// How many commits the log has lost.
    pub(crate) lost: usize,
    /// None where the log has nothing, or the file is no whole store without it: then it was being copied into it.
    alone: Option<Alone>,
    /// Whether the file must have tables already.
    has_tables: bool,
}

/// All bytes of a file.
fn bytes_of<D: Disk>(alloc: Global, file: &mut D) -> Result<Vec<u8>, StoreError>
    requires { IsTrue (D.Disk.is_usable file.old) }
    ensures { IsTrue (D.Disk.is_usable file.new) }
{
    let len = file.len()?;
    let mut bytes = vec![in alloc; 0; len]?;
    file.read_at(0, &mut bytes)?;
    Ok(bytes)
}

/// A file in memory that has these bytes.
fn memory_of(alloc: Global, bytes: &[u8]) -> Result<Memory, StoreError>
    ensures { IfOk result (λ memory. IsTrue (memory_is_usable memory)) }
{
    let mut memory = Memory::new(alloc);
    memory.write_at(0, bytes)?;
    Ok(memory)
}

/// Opens a file of these bytes that has no log.
fn connect_alone(alloc: Global, bytes: &[u8]) -> Result<Connection<FileStore<Memory>>, StoreError>
    ensures { IfOk result (λ file. file.in_transaction ≡ false) }
{
    let files = Files {
        log: memory_of(alloc, &[])?,
        db: memory_of(alloc, bytes)?,
    };
    match Connection::open_files_with(alloc, files, Options::new(0), true) {
        Ok(file) => Ok(file),
        Err((error, _)) => Err(StoreError::from(error)),
    }
}

/// What a store of these bytes keeps.
fn read_alone(alloc: Global, bytes: &[u8], hub: &Hub<'_>) -> Result<Alone, StoreError> {
    let mut file = connect_alone(alloc, bytes)?;
    if !schema::is_store(alloc, file.schema())? {
        return Err(StoreError::StoreDamaged(Damage::Tables));
    }
    Ok(Alone {
        id: tables::check_hub(&mut file, hub.format, hub.size, hub.other_size)?,
        texts: rows::read(&mut file, alloc)?,
    })
}

/// What a file keeps without its log, where that is a whole store.
fn whole_alone(alloc: Global, bytes: &[u8], hub: &Hub<'_>) -> Result<Option<Alone>, StoreError> {
    match read_alone(alloc, bytes, hub) {
        Ok(alone) => Ok(Some(alone)),
        Err(StoreError::OutOfMemory) => Err(StoreError::OutOfMemory),
        Err(_) => Ok(None),
    }
}

/// Whether the first page of files is one of a database without sums.
fn lacks_sums<D: Disk>(
    alloc: Global,
    files: &mut Files<D>,
    size: PageSize,
) -> Result<bool, StoreError>
    requires log { IsTrue (D.Disk.is_usable files.old.log) }
    requires db { IsTrue (D.Disk.is_usable files.old.db) }
    ensures log { IsTrue (D.Disk.is_usable files.new.log) }
    ensures db { IsTrue (D.Disk.is_usable files.new.db) }
{
    match probe_first_page(alloc, files, size) {
        Ok((first, reserved)) => Ok(first == b'S' && reserved != WITH_SUMS),
        Err(Error::OutOfMemory) => Err(StoreError::OutOfMemory),
        Err(Error::Io(error)) => Err(StoreError::from(error)),
        // The files are no database, as their open says.
        Err(_) => Ok(false),
    }
}

/// Looks at files before they are opened, and refuses those that don't meet the demands.
pub(crate) fn look_at<D: Disk>(
    alloc: Global,
    files: &mut Files<D>,
    hub: &Hub<'_>,
    demands: Demands,
) -> Result<Findings, StoreError>
    requires log { IsTrue (D.Disk.is_usable files.old.log) }
    requires db { IsTrue (D.Disk.is_usable files.old.db) }
    ensures log { IsTrue (D.Disk.is_usable files.new.log) }
    ensures db { IsTrue (D.Disk.is_usable files.new.db) }
{
    let Some(size) = probe_page_size(files)? else {
        return Ok(Findings {
            lost: 0,
            alone: None,
            has_tables: demands.tables,
        });
    };
    if demands.sums && lacks_sums(alloc, files, size)? {
        return Err(StoreError::StoreDamaged(Damage::NoSums));
    }
    let log = bytes_of(alloc, &mut files.log)?;
    let lost = lost_commits(&log, size.bytes() as u32);
    if demands.whole_log && lost > 0 {
        return Err(StoreError::StoreDamaged(Damage::Log(lost)));
    }
    let mut found = Findings {
        lost,
        alone: None,
        has_tables: demands.tables,
    };
    if log.len() > EMPTY_LOG_BYTES {
        let bytes = bytes_of(alloc, &mut files.db)?;
        found.alone = whole_alone(alloc, &bytes, hub)?;
    }
    Ok(found)
}

/// Whether a text of the file alone is this one, or isn't whole: a page of it that isn't copied yet is zeros.
fn is_beginning(own: &ChangeText, text: &ChangeText) -> bool {
    own.as_str() == text.as_str() || own.as_str().bytes().any(|byte| byte == 0)
}

impl Findings {
    /// What is wrong with a file that has no tables, if they may not be made.
    pub(crate) fn damage_without_tables(&self) -> Option<Damage> {
        if self.alone.is_some() {
            Some(Damage::ForeignLog)
        } else if self.has_tables {
            Some(Damage::Tables)
        } else {
            None
        }
    }

    /// Whether what the file keeps without its log is the beginning of this, of a hub of this id.
    pub(crate) fn fits(&self, id: &str, texts: &[ChangeText]) -> bool {
        let Some(alone) = &self.alone else {
            return true;
        };
        alone.id.as_str() == id
            && alone.texts.len() <= texts.len()
            && alone
                .texts
                .iter()
                .zip(texts)
                .all(|(own, text)| is_beginning(own, text))
    }
}
