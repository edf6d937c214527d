//! A store that one session has of its own.
ghost use Rattle.std.specs.Prelude.{◌≡◌, [], ◌∷◌, IfOk, IfErr};
ghost use Rattle.change_ops.specs.Spelling.{change_text};
ghost use Rattle.stored_history.specs.Texts.{IsTextOf};
ghost use Rattle.change_keeping.specs.Kept.{IsStored, IsErrorOf, some_log};
ghost use Rattle.change_keeping.specs.Groups.{outcome_of};

use crate::clerk::text_of;
use crate::keeper::{KeepError, Keeper};
use crate::keeping::Keeping;
use change_history::refusal::SubmitError;
use change_log::log::ChangeLog;
use change_ops::change::{Change, read_change};
use std::alloc::{AllocError, Global};
use std::marker::PhantomData;
use stored_history::answer::Answer;
use stored_history::error::AcceptError;
use stored_history::history::StoredHistory;

/// Keeps the changes of one session of the hub `N` in a store of its own, at the size at which `N` keeps them.
#[derive(Drop)]
pub struct OwnStore<L: ChangeLog, N: Keeping> {
    alloc: Global,
    stored: StoredHistory<L>,
    is_failed: bool,
    of: PhantomData<N>,
    ghost sized: { stored.size ≡ N.kept.size },
}

/// A copy of a change, alone in a list.
fn alone(alloc: Global, change: &Change) -> Result<Vec<Change>, AllocError>
    ensures copy { IfOk result (λ changes. changes.items ≡ change.now ∷ []) }
    ensures spelled { IfOk result (λ _. IsTextOf (change_text change.now) change.now) }
{
    let text = text_of(alloc, change)?;
    let Ok((copy, _)) = read_change(alloc, text.as_str()) else {
        return Err(AllocError);
    };
    let mut changes = Vec::with_capacity(alloc, 1)?;
    changes.push_reserved(copy);
    Ok(changes)
}

/// What a session is told of a history's answer.
fn outcome(answer: Answer) -> Result<u64, KeepError>
    ensures { result ≡ outcome_of answer }
{
    match answer {
        Ok(accepted) => Ok(accepted.number),
        Err(error) => Err(KeepError::Refused(error)),
    }
}

/// Has a change kept, and answers its number.
fn keep_one<L: ChangeLog>(
    alloc: Global,
    stored: &mut StoredHistory<L>,
    change: &Change,
) -> Result<u64, KeepError>
    ensures ok { IfOk result (λ number. IsStored (some_log stored.old.size L.kept) number (change_text change.now)) }
    ensures err { IfErr result (IsErrorOf (some_log stored.old.size L.kept) (change_text change.now)) }
    ensures size { stored.new.size ≡ stored.old.size }
{
    let Ok(changes) = alone(alloc, change) else {
        return Err(KeepError::Refused(SubmitError::OutOfMemory));
    };
    let mut answers = match stored.accept(changes) {
        Ok(answers) => answers,
        Err(AcceptError::OutOfMemory) => return Err(KeepError::Refused(SubmitError::OutOfMemory)),
        Err(AcceptError::LogFailed) => return Err(KeepError::Failed),
    };
    // For its contract: what is kept was accepted.
    let _count = stored.count();
    let Some(answer) = answers.pop() else {
        return Err(KeepError::Failed);
    };
    outcome(answer)
}

impl<L: ChangeLog, N: Keeping> OwnStore<L, N> {
    pub fn new(alloc: Global, stored: StoredHistory<L>) -> OwnStore<L, N>
        requires { stored.size ≡ N.kept.size }
    {
        OwnStore {
            alloc,
            stored,
            is_failed: false,
            of: PhantomData,
        }
    }

    /// Whether the store failed, or the hub doesn't show what it keeps: nothing is kept any more.
    pub fn is_failed(&self) -> bool {
        self.is_failed || self.stored.is_failed()
    }

    /// What keeps the texts.
    pub fn into_log(self) -> L {
        self.stored.into_log()
    }
}

impl<L: ChangeLog, N: Keeping> Keeper for OwnStore<L, N> {
    ghost use Rattle.std.specs.Prelude.{true};
    ghost use Rattle.change_keeping.specs.Kept.{some_log};

    ghost kept = { some_log N.kept.size L.kept };

    ghost stores = { λ _. true };

    fn keep(&mut self, change: &Change) -> Result<Option<u64>, KeepError> {
        if self.is_failed {
            return Err(KeepError::Failed);
        }
        let number = keep_one(self.alloc, &mut self.stored, change)?;
        Ok(Some(number))
    }

    fn settle(&mut self, is_shown: bool) {
        self.is_failed = self.is_failed || !is_shown;
    }
}
