//! The changes that a log keeps, accepted again when a hub starts.
ghost use Rattle.std.specs.Prelude.{◌≡◌, ℕ, List, Ok, map, IfOk, IfErr, OnOk};
ghost use Rattle.change_ops.specs.Changes.{Change};
ghost use Rattle.change_ops.specs.Spelling.{change_text};
ghost use Rattle.change_history.specs.Accepted.{AreAccepted};
ghost use Rattle.stored_history.specs.Texts.{IsTextOf, IsNotOpened};
ghost use Rattle.core_history.specs.Shares.{accepted_count};
ghost use Rattle.ingest_workers.specs.Holdings.{Ingests};
ghost use Rattle.hub_restoring.specs.Restoring.{AreIngested, AreRestored};

use call_history::knowledge::HistoryNaming;
use change_log::log::ChangeLog;
use change_log::text::ChangeText;
use core_history::share::Share;
use ingest_workers::hub::Hub;
use ingest_workers::ingest::ingest;
use std::alloc::{AllocError, Global};
use std::sync::Wait;
use std::sync::ledger::Ledger;
use stored_history::error::OpenError;
use stored_history::history::{NotOpened, Opened, StoredHistory};
use version_history::published::Naming;

/// A log whose changes weren't accepted again, and why: as it keeps them, or by the hub for want of memory.
#[derive(Drop)]
pub struct NotRestored<L: ChangeLog> {
    pub log: L,
    pub error: OpenError,
}

/// Accepts the change that a text is of in a hub of which this share had all changes accepted. A hub that has those
/// before it accepts it, unless there is no memory for it.
fn restore_one<N: Naming + HistoryNaming + Ledger, R: Wait + Copy>(
    rt: &R,
    alloc: Global,
    hub: &Hub<'_, N, R>,
    share: &mut Share<N>,
    text: &str,
) -> Result<(), AllocError>
    ensures { (change : Change) → IsTextOf text.now change
        → OnOk result (Ingests N.size share.old change (Ok (accepted_count share.new)) share.new) }
{
    match ingest(rt, alloc, hub, share, text) {
        Ok(number) if number == share.count() => Ok(()),
        _ => Err(AllocError),
    }
}

/// Accepts the changes that texts are of in a hub, in order, behind those of this share. Each is read when it is due,
/// since a list of all of them would take much memory.
fn restore_all<N: Naming + HistoryNaming + Ledger, R: Wait + Copy, P: FnMut(usize, usize)>(
    rt: &R,
    alloc: Global,
    hub: &Hub<'_, N, R>,
    share: &mut Share<N>,
    texts: Vec<ChangeText>,
    progress: P,
) -> Result<(), AllocError>
    requires progress { P.IsAlwaysCallable progress }
    ensures { OnOk result (AreRestored N.size share.old texts.items share.new) }
{
    let mut progress = progress;
    let all = texts.len();
    let mut done: usize = 0;
    for text in texts {
        restore_one(rt, alloc, hub, share, text.as_str())?;
        done = done.saturating_add(1);
        progress(done, all);
    }
    Ok(())
}

/// Accepts the changes whose texts a log keeps, in order, at the hub's size, and then in a new hub, before any session.
/// `progress` is told how many of how many.
pub fn restore<
    N: Naming + HistoryNaming + Ledger,
    R: Wait + Copy,
    L: ChangeLog,
    P: FnMut(usize, usize),
>(
    rt: &R,
    alloc: Global,
    hub: &Hub<'_, N, R>,
    share: &mut Share<N>,
    log: L,
    progress: P,
) -> Result<StoredHistory<L>, NotRestored<L>>
    requires log { (texts : List (List ℕ)) × L.kept log texts }
    requires progress { P.IsAlwaysCallable progress }
    ensures restored { IfOk result (λ stored. AreIngested N.size share.old stored.changes share.new
        × AreAccepted N.size stored.changes × L.kept stored.log (map change_text stored.changes)) }
    ensures size { IfOk result (λ stored. stored.size ≡ N.size) }
    ensures same { (texts : List (List ℕ)) → L.kept log texts → IfOk result (λ stored. L.kept stored.log texts) }
    ensures err { IfErr result (λ left. IsNotOpened N.size L.kept left.log left.error) }
{
    let Opened { stored, texts } = match StoredHistory::open(alloc, hub.size(), log) {
        Ok(opened) => opened,
        Err(NotOpened { log, error }) => return Err(NotRestored { log, error }),
    };
    match restore_all(rt, alloc, hub, share, texts, progress) {
        Ok(()) => Ok(stored),
        Err(AllocError) => Err(NotRestored {
            log: stored.into_log(),
            error: OpenError::OutOfMemory,
        }),
    }
}
