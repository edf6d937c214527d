//! Changes that are accepted together.
ghost use Rattle.std.specs.Prelude.{◌≡◌, ℕ, List, ◌++◌, IfOk, OnErr, map};
ghost use Rattle.change_ops.specs.Spelling.{change_text};
ghost use Rattle.stored_history.specs.Answers.{IsAnswered, AreAnswered};

use crate::answer::{Accepted, Answer};
use crate::text::write_next;
use change_history::history::History;
use change_history::refusal::SubmitError;
use change_log::text::ChangeText;
use change_ops::change::Change;
use std::alloc::{AllocError, Global};

/// The answers to changes, and the texts of those that were accepted.
#[derive(Drop)]
pub(crate) struct Group {
    pub(crate) answers: Vec<Answer>,
    pub(crate) texts: Vec<ChangeText>,
}

/// Accepts a change after those of the history, or refuses it. The text of an accepted one goes behind the others. All
/// that takes memory comes before the history changes.
fn accept_one(
    alloc: Global,
    history: &mut History,
    texts: &mut Vec<ChangeText>,
    change: Change,
) -> Answer
    ensures answered { IsAnswered history.old.size history.old.changes change result history.new.changes }
    ensures size { history.new.size ≡ history.old.size }
    ensures texts { (before : List (List ℕ)) → before ++ texts.old.items ≡ map change_text history.old.changes
        → before ++ texts.new.items ≡ map change_text history.new.changes }
{
    if history.len() >= history.size().changes() {
        return Err(SubmitError::HistoryFull);
    }
    let Ok(written) = write_next(alloc, texts, &change) else {
        return Err(SubmitError::OutOfMemory);
    };
    let Ok(kept) = written.text.again() else {
        return Err(SubmitError::OutOfMemory);
    };
    history.accept_spelled(change, kept)?;
    texts.push_reserved(written.text);
    let number = history.len() as u64;
    Ok(Accepted {
        number,
        change: written.change,
    })
}

/// Accepts or refuses each change after those before it. After an error the history is as it was.
pub(crate) fn accept_all(
    alloc: Global,
    history: &mut History,
    changes: Vec<Change>,
) -> Result<Group, AllocError>
    ensures answered { IfOk result (λ group.
        AreAnswered history.old.size history.old.changes changes.items group.answers.items history.new.changes) }
    ensures size { history.new.size ≡ history.old.size }
    ensures texts { IfOk result (λ group.
        map change_text history.old.changes ++ group.texts.items ≡ map change_text history.new.changes) }
    ensures err { OnErr result (history.new ≡ history.old) }
{
    let mut answers = Vec::with_capacity(alloc, changes.len())?;
    let mut texts = Vec::new(alloc);
    for change in changes {
        answers.push_reserved(accept_one(alloc, history, &mut texts, change));
    }
    Ok(Group { answers, texts })
}
