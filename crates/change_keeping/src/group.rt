//! The texts that are kept together.
ghost use Rattle.std.specs.Prelude.{◌≡◌, ℕ, List, [], ◌≤◌, IfOk, IfSome, Err, vec_len, vec_capacity};
ghost use Rattle.stored_history.specs.Texts.{IsTextOf};
ghost use Rattle.change_keeping.specs.Kept.{IsToldOf, AreStored};
ghost use Rattle.change_keeping.specs.Groups.{AreSpelled, AreTold, told_of};

use crate::desk::{Desk, Reply, Request};
use crate::keeping::Keeping;
use crate::told::Told;
use change_history::refusal::SubmitError;
use change_log::log::ChangeLog;
use change_ops::change::{Change, read_change};
use crossbeam_channel::Sender;
use std::alloc::{AllocError, Global};
use std::sync::Wait;
use stored_history::answer::Answer;
use stored_history::error::AcceptError;
use stored_history::history::StoredHistory;

/// What keeps changes failed, or the hub doesn't show what is kept.
#[derive(Clone, Copy)]
pub(crate) struct Failed;

/// Changes, and the requests that they are of, in the same order.
#[derive(Drop)]
struct Reading<N: Keeping> {
    requests: Vec<Request<N>>,
    changes: Vec<Change>,
}

/// Tells a session what it is told. Where it can't be told it is gone, and shows nothing.
fn tell<N: Keeping, R: Wait>(rt: &R, reply: &Sender<Reply<N>>, told: Told<N>) -> bool {
    reply.send(rt, Reply::Told(told)).is_ok()
}

/// Tells a session that no memory was found for its text.
pub(crate) fn tell_no_memory<N: Keeping, R: Wait>(rt: &R, request: Request<N>) {
    let (text, reply) = request.into_parts();
    let told = Told::new(text, Err(SubmitError::OutOfMemory));
    let _ = tell(rt, &reply, told);
}

/// Tells a session that nothing is kept any more.
fn tell_failed<N: Keeping, R: Wait>(rt: &R, request: Request<N>) {
    let (_text, reply) = request.into_parts();
    let _ = reply.send(rt, Reply::Failed);
}

/// Tells all sessions that no memory was found for their texts.
fn tell_all_no_memory<N: Keeping, R: Wait>(rt: &R, group: Vec<Request<N>>) {
    for request in group {
        tell_no_memory(rt, request);
    }
}

/// Tells all sessions that nothing is kept any more.
pub(crate) fn tell_all_failed<N: Keeping, R: Wait>(rt: &R, group: Vec<Request<N>>) {
    for request in group {
        tell_failed(rt, request);
    }
}

/// No requests and no changes yet, with room for so many.
fn room_for<N: Keeping>(alloc: Global, count: usize) -> Result<Reading<N>, AllocError>
    ensures none { IfOk result (λ room. (room.requests.items ≡ []) × (room.changes.items ≡ [])) }
    ensures room { IfOk result (λ room. (count ≤ vec_capacity room.requests) × (count ≤ vec_capacity room.changes)) }
    ensures len { IfOk result (λ room. (vec_len room.requests ≡ 0) × (vec_len room.changes ≡ 0)) }
{
    let requests = Vec::with_capacity(alloc, count)?;
    let changes = Vec::with_capacity(alloc, count)?;
    Ok(Reading { requests, changes })
}

/// The change that a text is of, where there is memory for it: what a session leaves is a change's text.
fn change_of(alloc: Global, text: &str) -> Option<Change>
    ensures { IfSome result (IsTextOf text.now) }
{
    match read_change(alloc, text) {
        Ok((change, rest)) if rest.is_empty() => Some(change),
        _ => None,
    }
}

/// The changes that texts are of. Where there is no memory for one its session is told so.
fn read_all<N: Keeping, R: Wait>(
    rt: &R,
    alloc: Global,
    group: Vec<Request<N>>,
) -> Option<Reading<N>>
    ensures { IfSome result (λ reading. AreSpelled reading.requests.items reading.changes.items) }
{
    let Ok(Reading { requests, changes }) = room_for(alloc, group.len()) else {
        tell_all_no_memory(rt, group);
        return None;
    };
    let mut requests = requests;
    let mut changes = changes;
    for request in group {
        match change_of(alloc, request.text()) {
            Some(change) => {
                changes.push_reserved(change);
                requests.push_reserved(request);
            }
            None => tell_no_memory(rt, request),
        }
    }
    Some(Reading { requests, changes })
}

/// Tells a session the answer to its change, and waits until an accepted one is shown.
fn tell_one<N: Keeping, R: Wait>(
    rt: &R,
    desk: &Desk<N>,
    request: Request<N>,
    answer: Answer,
) -> Result<(), Failed>
    requires { IsToldOf N.kept request (told_of answer) }
{
    let (text, reply) = request.into_parts();
    match answer {
        Ok(accepted) => {
            let told = Told::new(text, Ok(accepted.number));
            if tell(rt, &reply, told) && desk.wait_shown(rt) {
                Ok(())
            } else {
                desk.fail();
                Err(Failed)
            }
        }
        Err(error) => {
            let _ = tell(rt, &reply, Told::new(text, Err(error)));
            Ok(())
        }
    }
}

/// Tells each session the answer to its change, in the order of the numbers: the next once this one is shown.
fn tell_all<N: Keeping, R: Wait>(
    rt: &R,
    desk: &Desk<N>,
    requests: Vec<Request<N>>,
    answers: Vec<Answer>,
) -> Result<(), Failed>
    requires { AreTold N.kept requests.items answers.items }
{
    let mut answers = answers.into_iter();
    let mut outcome = Ok(());
    for request in requests {
        match answers.next() {
            Some(answer) if outcome.is_ok() => outcome = tell_one(rt, desk, request, answer),
            _ => tell_failed(rt, request),
        }
    }
    outcome
}

/// What a history answers to changes that a log keeps. Their texts may then be told.
fn accept<N: Keeping, L: ChangeLog>(
    stored: &mut StoredHistory<L>,
    requests: &[Request<N>],
    changes: Vec<Change>,
) -> Result<Vec<Answer>, AcceptError>
    requires size { stored.old.size ≡ N.kept.size }
    requires kept { (texts : List (List ℕ)) (log : L) → L.kept log texts → N.kept.texts texts }
    requires spelled { AreSpelled requests.now changes.items }
    ensures told { IfOk result (λ answers. AreTold N.kept requests.now answers.items) }
    ensures size { stored.new.size ≡ stored.old.size }
{
    let _ = requests;
    let answers = stored.accept(changes)?;
    // For its contract: what is kept was accepted.
    let _count = stored.count();
    Ok(answers)
}

/// Keeps the texts of a group together, and tells each session.
pub(crate) fn keep_group<N: Keeping, L: ChangeLog, R: Wait>(
    rt: &R,
    alloc: Global,
    desk: &Desk<N>,
    stored: &mut StoredHistory<L>,
    group: Vec<Request<N>>,
) -> Result<(), Failed>
    requires size { stored.old.size ≡ N.kept.size }
    requires kept { (texts : List (List ℕ)) (log : L) → L.kept log texts → N.kept.texts texts }
    ensures { stored.new.size ≡ stored.old.size }
{
    let Some(Reading { requests, changes }) = read_all(rt, alloc, group) else {
        return Ok(());
    };
    match accept(stored, &requests, changes) {
        Ok(answers) => tell_all(rt, desk, requests, answers),
        Err(AcceptError::OutOfMemory) => {
            tell_all_no_memory(rt, requests);
            Ok(())
        }
        Err(AcceptError::LogFailed) => {
            desk.fail();
            tell_all_failed(rt, requests);
            Err(Failed)
        }
    }
}
