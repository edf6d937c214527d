//! Texts that a log keeps, accepted again.
ghost use Rattle.std.specs.Prelude.{◌≡◌, ℕ, List, map, IfOk, IfErr, MatchResult};
ghost use Rattle.change_ops.specs.Spelling.{change_text};
ghost use Rattle.stored_history.specs.Texts.{AreTextsOf, FollowsBy, IsFaultOf, IsNotRead, IsNotOpened, StillKeeps};

use crate::error::{OpenError, refused_text};
use crate::text::change_of;
use change_history::history::History;
use change_log::log::{ChangeLog, LogError};
use change_log::text::ChangeText;
use change_ops::size::Size;
use std::alloc::Global;

/// A history, and the texts of its changes.
#[derive(Drop)]
pub(crate) struct Reading {
    pub(crate) history: History,
    pub(crate) texts: Vec<ChangeText>,
}

/// Accepts the change that a text is of. The text's number is for the error.
fn accept_text(
    alloc: Global,
    history: &mut History,
    number: usize,
    text: &ChangeText,
) -> Result<(), OpenError>
    ensures accepted { MatchResult result
        (λ _. FollowsBy history.old.size text.now history.old.changes history.new.changes)
        (IsFaultOf history.old.size history.old.changes text.now number) }
    ensures size { history.new.size ≡ history.old.size }
{
    let change = change_of(alloc, number, text.as_str())?;
    let Ok(kept) = text.again() else {
        return Err(OpenError::OutOfMemory);
    };
    match history.accept_spelled(change, kept) {
        Ok(()) => Ok(()),
        Err(error) => Err(refused_text(number, error)),
    }
}

/// Accepts the changes that texts are of, in order.
fn accept_texts(alloc: Global, size: Size, texts: &[ChangeText]) -> Result<History, OpenError>
    ensures { MatchResult result
        (λ history. (history.size ≡ size) × AreTextsOf size texts.now history.changes)
        (IsNotRead size texts.now) }
{
    let mut history = History::new(alloc, size);
    for index in 0..texts.len() {
        accept_text(alloc, &mut history, index + 1, &texts[index])?;
    }
    Ok(history)
}

/// Accepts the changes whose texts a log keeps, in order.
pub(crate) fn read_again<L: ChangeLog>(
    alloc: Global,
    size: Size,
    log: &mut L,
) -> Result<Reading, OpenError>
    requires { (texts : List (List ℕ)) × L.kept log.old texts }
    ensures history { IfOk result (λ reading. L.kept log.new (map change_text reading.history.changes)) }
    ensures texts { IfOk result (λ reading. L.kept log.new reading.texts.items) }
    ensures accepted { IfOk result (λ reading. (reading.history.size ≡ size)
        × AreTextsOf size reading.texts.items reading.history.changes) }
    ensures same { (before : List (List ℕ)) → L.kept log.old before
        → MatchResult result (λ _. L.kept log.new before) (StillKeeps L.kept log.new before) }
    ensures err { IfErr result (IsNotOpened size L.kept log.new) }
{
    match log.all(alloc) {
        Ok(texts) => {
            let history = accept_texts(alloc, size, &texts)?;
            Ok(Reading { history, texts })
        }
        Err(LogError::Failed) => Err(OpenError::LogFailed),
        Err(LogError::OutOfMemory) => Err(OpenError::OutOfMemory),
    }
}
