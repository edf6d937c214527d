//! The thread that has the store.
ghost use Rattle.std.specs.Prelude.{◌≡◌, ℕ, List};

use crate::desk::{Arrival, Desk, Request, TEXT_LIMIT};
use crate::group::{keep_group, tell_all_failed, tell_no_memory};
use crate::keeping::Keeping;
use change_log::log::ChangeLog;
use std::alloc::Global;
use std::sync::Wait;
use stored_history::history::StoredHistory;

/// What keeps changes failed: not all that were accepted are kept for good, and none of those was acknowledged.
#[derive(Clone, Copy)]
pub struct KeepingFailed;

/// Takes all that has come besides a text. It answers whether no more comes.
fn gather<N: Keeping, R: Wait>(rt: &R, desk: &Desk<N>, group: &mut Vec<Request<N>>) -> bool {
    while group.len() < group.capacity() {
        match desk.next(rt) {
            Some(Arrival::Text(request)) => group.push_reserved(request),
            Some(Arrival::Close) => return true,
            None => return false,
        }
    }
    false
}

/// Keeps a text, and all that has come besides. It answers whether no more comes.
fn keep_next<N: Keeping, L: ChangeLog, R: Wait, F: Fn()>(
    rt: &R,
    alloc: Global,
    desk: &Desk<N>,
    stored: &mut StoredHistory<L>,
    first: Request<N>,
    on_failure: &F,
) -> bool
    requires size { stored.old.size ≡ N.kept.size }
    requires kept { (texts : List (List ℕ)) (log : L) → L.kept log texts → N.kept.texts texts }
    requires failure { F.IsAlwaysCallable on_failure.now }
    ensures size { stored.new.size ≡ stored.old.size }
{
    let Ok(mut group) = Vec::with_capacity(alloc, TEXT_LIMIT) else {
        tell_no_memory(rt, first);
        return false;
    };
    group.push_reserved(first);
    let is_closed = gather(rt, desk, &mut group);
    if desk.is_failed() {
        tell_all_failed(rt, group);
    } else if keep_group(rt, alloc, desk, stored, group).is_err() {
        on_failure();
    }
    is_closed
}

/// Keeps what sessions leave at the desk, all that waits by one call of the store, until the desk is closed. Where the
/// store fails it calls `on_failure` once, and tells all that come from then on that nothing is kept any more.
pub fn keep_all<N: Keeping, L: ChangeLog, R: Wait, F: Fn()>(
    rt: &R,
    alloc: Global,
    desk: &Desk<N>,
    stored: &mut StoredHistory<L>,
    on_failure: F,
) -> Result<(), KeepingFailed>
    requires size { stored.old.size ≡ N.kept.size }
    requires kept { (texts : List (List ℕ)) (log : L) → L.kept log texts → N.kept.texts texts }
    requires failure { F.IsAlwaysCallable on_failure }
{
    for _ in rt.forever() {
        let Arrival::Text(first) = desk.wait(rt) else {
            break;
        };
        if keep_next(rt, alloc, desk, stored, first, &on_failure) {
            break;
        }
    }
    if desk.is_failed() {
        Err(KeepingFailed)
    } else {
        Ok(())
    }
}
