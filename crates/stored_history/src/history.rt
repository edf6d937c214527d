ghost use Rattle.std.specs.Prelude.{◌≡◌, ℕ, List, Err, true, false, [], ◌++◌, length, map, IfOk, IfErr, OnOk};
ghost use Rattle.change_ops.specs.Spelling.{change_text};
ghost use Rattle.change_history.specs.Accepted.{AreAccepted};
ghost use Rattle.stored_history.specs.Answers.{AreAnswered};
ghost use Rattle.stored_history.specs.Stored.{IsLeft};
ghost use Rattle.stored_history.specs.Texts.{AreTextsOf, IsNotOpened, StillKeeps};

use crate::answer::Answer;
use crate::error::{AcceptError, OpenError};
use crate::group::accept_all;
use crate::reading::read_again;
use change_history::history::History;
use change_log::log::{ChangeLog, LogError};
use change_log::text::ChangeText;
use change_ops::change::Change;
use change_ops::size::Size;
use std::alloc::Global;
use std::marker::Model;

/// A history, and a log that keeps the texts of its changes. Whatever is answered of a change is kept first, unless the
/// log has failed; then nothing is answered any more.
#[derive(Drop)]
pub struct StoredHistory<L: ChangeLog> {
    history: History,
    log: L,
    is_failed: bool,
    alloc: Global,
}

impl<L: ChangeLog> Model for StoredHistory<L> {
    ghost use Rattle.std.specs.Prelude.{◌≡◌, false, map};
    ghost use Rattle.change_ops.specs.Spelling.{change_text};
    ghost use Rattle.stored_history.specs.Stored.{Stored};

    ghost Value = { Stored L };

    ghost view = { λ s. record {
      size = s.history.size;
      changes = s.history.changes;
      log = s.log;
      is_failed = s.is_failed;
    } };

    ghost invariant = { λ s. s.is_failed ≡ false → L.kept s.log (map change_text s.history.changes) };
}

/// A history whose log was opened, and the texts of its changes, for whoever is to be told of them.
#[derive(Drop)]
pub struct Opened<L: ChangeLog> {
    pub stored: StoredHistory<L>,
    pub texts: Vec<ChangeText>,
}

/// A log that was not opened, and why.
#[derive(Drop)]
pub struct NotOpened<L: ChangeLog> {
    pub log: L,
    pub error: OpenError,
}

/// Keeps texts behind the others, if there are any: all of them at once.
fn append_some<L: ChangeLog>(log: &mut L, texts: &[ChangeText]) -> Result<(), LogError>
    ensures kept { (before : List (List ℕ)) → L.kept log.old before
        → OnOk result (L.kept log.new (before ++ texts.now)) }
    ensures none { texts.now ≡ [] → log.new ≡ log.old }
    ensures memory { (before : List (List ℕ)) → L.kept log.old before
        → result ≡ Err LogError.OutOfMemory → L.kept log.new before }
{
    if texts.is_empty() {
        return Ok(());
    }
    log.append(texts)
}

/// Reads the history again whose so many changes a log keeps. The one that has more is let go first, so that its
/// memory is there.
fn take_back<L: ChangeLog>(
    alloc: Global,
    count: usize,
    history: &mut History,
    log: &mut L,
) -> Result<(), OpenError>
    requires { (texts : List (List ℕ)) × L.kept log.old texts }
    ensures size { history.new.size ≡ history.old.size }
    ensures count { OnOk result (length history.new.changes ≡ count) }
    ensures kept { OnOk result (L.kept log.new (map change_text history.new.changes)) }
    ensures same { (before : List (List ℕ)) → L.kept log.old before → OnOk result (L.kept log.new before) }
{
    let size = history.size();
    *history = History::new(alloc, size);
    let reading = read_again(alloc, size, log)?;
    if reading.history.len() != count {
        return Err(OpenError::LogFailed);
    }
    *history = reading.history;
    Ok(())
}

/// Keeps the texts of what a history accepted behind so many changes. Where there is no memory for it, the history has
/// those changes again, unless there is none for that either.
fn keep<L: ChangeLog>(
    alloc: Global,
    count: usize,
    history: &mut History,
    log: &mut L,
    texts: &[ChangeText],
) -> Result<(), AcceptError>
    requires { (before : List (List ℕ)) × L.kept log.old before }
    ensures size { history.new.size ≡ history.old.size }
    ensures kept { (before : List (List ℕ)) → L.kept log.old before
        → OnOk result (L.kept log.new (before ++ texts.now)) }
    ensures ok { OnOk result (history.new ≡ history.old) }
    ensures none { texts.now ≡ [] → OnOk result (log.new ≡ log.old) }
    ensures memory { (before : List (List ℕ)) → L.kept log.old before
        → result ≡ Err AcceptError.OutOfMemory
        → L.kept log.new before × L.kept log.new (map change_text history.new.changes)
        × (length history.new.changes ≡ count) }
{
    match append_some(log, texts) {
        Ok(()) => Ok(()),
        Err(LogError::Failed) => Err(AcceptError::LogFailed),
        Err(LogError::OutOfMemory) => match take_back(alloc, count, history, log) {
            Ok(()) => Err(AcceptError::OutOfMemory),
            Err(_) => Err(AcceptError::LogFailed),
        },
    }
}

impl<L: ChangeLog> StoredHistory<L> {
    /// Accepts the changes whose texts a log keeps, in order, at a size.
    pub fn open(alloc: Global, size: Size, log: L) -> Result<Opened<L>, NotOpened<L>>
        requires { (texts : List (List ℕ)) × L.kept log texts }
        ensures kept { IfOk result (λ opened. L.kept opened.stored.log opened.texts.items) }
        ensures accepted { IfOk result (λ opened. AreTextsOf size opened.texts.items opened.stored.changes
            × (opened.stored.is_failed ≡ false)) }
        ensures size { IfOk result (λ opened. opened.stored.size ≡ size) }
        ensures same { (texts : List (List ℕ)) → L.kept log texts
            → IfOk result (λ opened. L.kept opened.stored.log texts) }
        ensures same_err { (texts : List (List ℕ)) → L.kept log texts
            → IfErr result (λ refused. StillKeeps L.kept refused.log texts refused.error) }
        ensures err { IfErr result (λ refused. IsNotOpened size L.kept refused.log refused.error) }
    {
        let mut log = log;
        match read_again(alloc, size, &mut log) {
            Ok(reading) => {
                let stored = StoredHistory {
                    history: reading.history,
                    log,
                    is_failed: false,
                    alloc,
                };
                Ok(Opened {
                    stored,
                    texts: reading.texts,
                })
            }
            Err(error) => Err(NotOpened { log, error }),
        }
    }

    /// Accepts or refuses each change after those before it, and keeps the accepted ones before it answers: all of them
    /// by one call of the log, and none if there are none. Where the log finds no memory for them, they are taken back:
    /// its changes are read again. Where it fails, or that does, it isn't known what it keeps: nothing is answered, now
    /// or later.
    pub fn accept(&mut self, changes: Vec<Change>) -> Result<Vec<Answer>, AcceptError>
        ensures answered { IfOk result (λ answers.
            AreAnswered self.old.size self.old.changes changes.items answers.items self.new.changes) }
        ensures size { self.new.size ≡ self.old.size }
        ensures kept { OnOk result (L.kept self.new.log (map change_text self.new.changes)) }
        ensures works { OnOk result (self.new.is_failed ≡ false) }
        ensures untouched { OnOk result (self.new.changes ≡ self.old.changes → self.new.log ≡ self.old.log) }
        ensures err { IfErr result (λ error. IsLeft L.kept self.old error self.new) }
        ensures failed { self.old.is_failed ≡ true
            → (result ≡ Err AcceptError.LogFailed) × (self.new ≡ self.old) }
    {
        if self.is_failed {
            return Err(AcceptError::LogFailed);
        }
        let count = self.history.len();
        let Ok(group) = accept_all(self.alloc, &mut self.history, changes) else {
            return Err(AcceptError::OutOfMemory);
        };
        match keep(
            self.alloc,
            count,
            &mut self.history,
            &mut self.log,
            &group.texts,
        ) {
            Ok(()) => Ok(group.answers),
            Err(AcceptError::OutOfMemory) => Err(AcceptError::OutOfMemory),
            Err(AcceptError::LogFailed) => {
                self.is_failed = true;
                Err(AcceptError::LogFailed)
            }
        }
    }

    /// How much it may hold, which stays as it was when the log was opened.
    pub fn size(&self) -> Size
        ensures { result ≡ self.now.size }
    {
        self.history.size()
    }

    /// How many changes were accepted: as many as are kept, unless the log has failed.
    pub fn count(&self) -> usize
        ensures value { result ≡ length self.now.changes }
        ensures accepted { AreAccepted self.now.size self.now.changes }
        ensures kept { self.now.is_failed ≡ false → L.kept self.now.log (map change_text self.now.changes) }
    {
        self.history.len()
    }

    /// Whether the log has failed.
    pub fn is_failed(&self) -> bool
        ensures { result ≡ self.now.is_failed }
    {
        self.is_failed
    }

    /// The log, which keeps what it kept.
    pub fn into_log(self) -> L
        ensures value { result ≡ self.log }
        ensures kept { self.is_failed ≡ false → L.kept result (map change_text self.changes) }
    {
        self.log
    }
}
