ghost use Rattle.std.specs.Prelude.{◌≡◌, ℕ, false, List, IfOk, IsTrue};
ghost use Rattle.sqlite.specs.State.{HasCleanDisk};
ghost use Rattle.sqlite.specs.Held.{state};
ghost use Rattle.sqlite.specs.Files.{file_state};
ghost use Rattle.sqlite_std_file.specs.File.{file_is_usable};
ghost use Rattle.change_store.specs.Store.{AreKept};

use crate::error::{Damage, Failure, StoreError};
use crate::file::make_private;
use crate::look::{Demands, Findings, look_at};
use crate::place::Place;
use crate::{rows, schema, tables};
use change_log::log::{ChangeLog, LogError};
use change_log::text::ChangeText;
use sqlite::{Alter, Connection, FileFrom, FileStore, Files, Options, Start};
use std::alloc::Global;
use std::hash::{BuildHasher, RandomState};
use std::rt::HostRuntime;

/// Of which hub a store is.
#[derive(Clone, Copy)]
pub struct Hub<'h> {
    /// The format of its stores.
    pub format: u32,
    /// Its size.
    pub size: &'h str,
    /// Another size whose stores it takes as well.
    pub other_size: Option<&'h str>,
    /// The id of a new store.
    pub id: &'h str,
}

/// The texts of the accepted changes of one hub, in a database: in a file, as `open` gives it.
#[derive(Drop)]
pub struct ChangeStore<S: Alter> {
    file: Connection<S>,
    count: u32,
    id: String,
    /// How many commits of its log were lost before it was opened.
    lost: usize,
    place: Place,
    /// Why it failed, once it has.
    failure: Option<Failure>,
    ghost settled: { file.in_transaction ≡ false },
}

/// Opens the files of a path, and makes those that are missing.
fn open_files<F: Start>(
    rt: &HostRuntime,
    path: &str,
    start: F,
) -> Result<Files<FileFrom<F>>, StoreError>
    ensures log { IfOk result (λ files. IsTrue (file_is_usable F.Start files.log)) }
    ensures db { IfOk result (λ files. IsTrue (file_is_usable F.Start files.db)) }
{
    make_private(rt, path)?;
    Ok(sqlite_std_file::open(rt, path, start)?)
}

/// Opens the database of files, with a sum on each page of a new one.
fn connect<F: Start>(
    rt: &HostRuntime,
    files: Files<FileFrom<F>>,
) -> Result<Connection<FileStore<FileFrom<F>>>, StoreError>
    requires log { IsTrue (file_is_usable F.Start files.log) }
    requires db { IsTrue (file_is_usable F.Start files.db) }
    ensures settled { IfOk result (λ file. file.in_transaction ≡ false) }
    ensures same { IfOk result (λ file. HasCleanDisk (file_state file)
        → (file_state file).committed ≡ (file_state file).now) }
{
    let seed = RandomState::new(rt)?.hash_one(&0u8);
    match Connection::open_files_with(rt.alloc(), files, Options::new(seed), true) {
        Ok(file) => Ok(file),
        Err((error, _)) => Err(StoreError::from(error)),
    }
}

/// Makes the tables of a new file, of a hub of this id, or looks whether an old one is a store of this format and size,
/// and of what was looked at before: then the id is its own. It returns how many changes are kept.
#[tactic(auto, unfolding(crate::specs::Store::AreKept))]
fn settle<S: Alter>(
    conn: &mut Connection<S>,
    alloc: Global,
    hub: &Hub<'_>,
    findings: &Findings,
    id: &mut String,
) -> Result<u32, StoreError>
    requires { conn.old.in_transaction ≡ false }
    ensures settled { conn.new.in_transaction ≡ false }
    ensures found { (HasCleanDisk (state S.Store conn.old)
        → (state S.Store conn.old).committed ≡ (state S.Store conn.old).now)
        → IfOk result (λ count. (texts : List (List ℕ)) × AreKept (state S.Store conn.new) count texts) }
{
    if schema::is_empty(conn.schema()) {
        if let Some(damage) = findings.damage_without_tables() {
            return Err(StoreError::StoreDamaged(damage));
        }
        tables::make(conn, hub.format, hub.size, id.as_str())?;
        return Ok(0);
    }
    if !schema::is_store(alloc, conn.schema())? {
        return Err(StoreError::StoreDamaged(Damage::Tables));
    }
    *id = tables::check_hub(conn, hub.format, hub.size, hub.other_size)?;
    let texts = rows::read(conn, alloc)?;
    if !findings.fits(id.as_str(), &texts) {
        return Err(StoreError::StoreDamaged(Damage::ForeignLog));
    }
    match u32::try_from(texts.len()) {
        Ok(count) => Ok(count),
        Err(_) => Err(StoreError::StoreFailed(Failure::Unexpected)),
    }
}

impl<F: Start> ChangeStore<FileStore<FileFrom<F>>> {
    /// Opens the store of a hub, or makes one where no file is, or an empty one. `F` stands for what the file held
    /// before: `Unknown` or `Wary` of `sqlite`.
    pub fn open(
        rt: &HostRuntime,
        path: &str,
        hub: &Hub<'_>,
        demands: Demands,
        start: F,
    ) -> Result<ChangeStore<FileStore<FileFrom<F>>>, StoreError>
        ensures { IfOk result (λ store. (texts : List (List ℕ)) × AreKept (file_state store.file) store.count texts) }
    {
        let mut files = open_files(rt, path, start)?;
        let findings = look_at(rt.alloc(), &mut files, hub, demands)?;
        let mut file = connect(rt, files)?;
        let mut id = String::from_str(rt.alloc(), hub.id)?;
        let count = settle(&mut file, rt.alloc(), hub, &findings, &mut id)?;
        let place = Place::of(rt, path)?;
        Ok(ChangeStore {
            file,
            count,
            id,
            lost: findings.lost,
            place,
            failure: None,
        })
    }

    /// The id of the hub whose changes it keeps: the one that it was made with.
    pub fn id(&self) -> &str {
        self.id.as_str()
    }

    /// How many changes it keeps.
    pub fn count(&self) -> u32
        ensures { result ≡ self.now.count }
    {
        self.count
    }

    /// How many commits of its log were lost before it was opened.
    pub fn lost_commits(&self) -> usize
        ensures { result ≡ self.now.lost }
    {
        self.lost
    }

    /// Why it failed, once it has.
    pub fn failure(&self) -> Option<Failure>
        ensures { result ≡ self.now.failure }
    {
        self.failure
    }

    /// Copies the log into the file, which then stands alone. A store that is let go keeps its texts in both.
    pub fn close(self) -> Result<(), StoreError> {
        Ok(self.file.close()?)
    }
}

/// Why it isn't known any more what is kept; None where no memory was found.
fn failure_of(error: StoreError) -> Option<Failure> {
    match error {
        StoreError::OutOfMemory => None,
        StoreError::StoreFailed(failure) => Some(failure),
        StoreError::StoreDamaged(_) | StoreError::StoreBusy => Some(Failure::Unexpected),
    }
}

impl<S: Alter> ChangeLog for ChangeStore<S> {
    ghost use Rattle.sqlite.specs.Held.{state};
    ghost use Rattle.change_store.specs.Store.{AreKept};

    ghost kept = { λ store texts. AreKept (state S.Store store.file) store.count texts };

    fn append(&mut self, texts: &[ChangeText]) -> Result<(), LogError> {
        match rows::append(&mut self.file, self.count, texts) {
            Ok(count) => {
                self.count = count;
                if self.place.holds() {
                    Ok(())
                } else {
                    self.failure = Some(Failure::Moved);
                    Err(LogError::Failed)
                }
            }
            Err(error) => {
                let error = StoreError::from(error);
                self.failure = failure_of(error);
                Err(LogError::from(error))
            }
        }
    }

    fn all(&mut self, alloc: Global) -> Result<Vec<ChangeText>, LogError> {
        match rows::read(&mut self.file, alloc) {
            Ok(texts) => Ok(texts),
            Err(error) => {
                self.failure = failure_of(error);
                Err(LogError::from(error))
            }
        }
    }
}
