ghost use Rattle.std.specs.Prelude.{◌≡◌, ◌≤◌, ℕ, List, IfOk, OnErr};
ghost use Rattle.std.specs.Io.KnownBytes.{Keeps};
ghost use Rattle.hub_sessions.specs.Sessions.{Replays, ReplaysKept};
ghost use Rattle.hub_sessions.specs.declared.replaying.ReplayError.TheVariants as replay_error;

use crate::conversation::{SessionFault, session};
use call_history::knowledge::HistoryNaming;
use change_keeping::keeper::NoStore;
use change_keeping::keeping::Keeping;
use change_keeping::own::OwnStore;
use change_log::log::ChangeLog;
use change_ops::size::Size;
use core_history::start::Start;
use filters::filter::Filter;
use hub_requests::limits::SessionOptions;
use hub_restoring::restoring::{NotRestored, restore};
use ingest_workers::hub::Hub;
use ingest_workers::ingest::settle;
use std::alloc::{AllocError, Global};
use std::io::{Read, Write};
use std::marker::Brand;
use std::sync::Wait;
use std::sync::ledger::Ledger;
use std::thread::Threads;
use version_history::published::{Naming, Published};
use version_pieces::version::PieceVersion;

/// Why a session on a hub of its own did not come to its end.
#[derive(Clone, Copy)]
pub enum ReplayError {
    /// A read or a write failed.
    Session(SessionFault),
    /// No memory was found for the hub.
    OutOfMemory,
}

impl From<AllocError> for ReplayError {
    ghost from_gives = { λ _ error. error ≡ replay_error.OutOfMemory };

    fn from(_error: AllocError) -> ReplayError {
        ReplayError::OutOfMemory
    }
}

/// Runs a session on the hub `N`.
fn replay_on<
    N: Naming + HistoryNaming + Ledger + Send + Sync,
    R: Threads + Wait + Copy + Send + Sync,
    I: Read + Drop,
    O: Write,
>(
    rt: &R,
    alloc: Global,
    size: Size,
    start: Start,
    versions: &boxcar::Vec<PieceVersion>,
    programs: &boxcar::Vec<Filter>,
    reader: I,
    writer: &mut O,
    workers: usize,
    options: SessionOptions,
) -> Result<(), ReplayError>
    requires named { (size ≡ N.size) × (versions.now ≡ N.versions) × (programs.now ≡ N.programs) }
    requires start { (start.name ≡ N.name) × (start.table ≡ N.table) × (start.parts ≡ N.parts) × (N.parts ≡ 2) }
    requires workers { (1 ≤ workers) × (workers ≤ 16) }
    ensures { Replays size options result (I.remaining reader) (O.contents writer.old) (O.contents writer.new) }
{
    let published = Published::<N>::new(size, versions, programs);
    let (hub, mut shares) = Hub::new(rt, alloc, start, &published, 1)?;
    let share = &mut shares[0];
    let ended = session(
        rt,
        alloc,
        &hub,
        &published,
        &mut NoStore,
        share,
        reader,
        writer,
        workers,
        options,
    );
    let _count = settle(hub, shares);
    match ended {
        Ok(()) => Ok(()),
        Err(fault) => Err(ReplayError::Session(fault)),
    }
}

/// Runs one session on a new hub of its own, which is of this size.
pub fn replay<R: Threads + Wait + Copy + Send + Sync, I: Read + Drop, O: Write>(
    rt: &R,
    alloc: Global,
    size: Size,
    reader: I,
    writer: &mut O,
    workers: usize,
    options: SessionOptions,
) -> Result<(), ReplayError>
    requires workers { (1 ≤ workers) × (workers ≤ 16) }
    ensures { Replays size options result (I.remaining reader) (O.contents writer.old) (O.contents writer.new) }
{
    let versions = boxcar::Vec::new(alloc)?;
    let programs = boxcar::Vec::new(alloc)?;
    // One part is the session's share, the other the hub's own.
    let start = Start::new(alloc, 2)?;
    replay_on::<Brand, _, _, _>(
        rt, alloc, size, start, &versions, &programs, reader, writer, workers, options,
    )
}

/// How a session went on a hub that a log keeps, and the log.
#[derive(Drop)]
pub struct Replayed<L: ChangeLog> {
    pub log: L,
    /// Whether the log failed, or the hub didn't show what it keeps.
    pub is_failed: bool,
    pub ended: Result<(), SessionFault>,
}

/// Why a session on a hub that a log keeps was not begun.
#[derive(Drop)]
pub enum NotReplayed<L: ChangeLog> {
    /// What the log keeps wasn't accepted again.
    NotRestored(NotRestored<L>),
    /// No memory was found for the hub.
    OutOfMemory(L),
}

/// Runs a session on the hub `N`, whose changes a log keeps.
fn replay_kept_on<
    N: Naming + HistoryNaming + Ledger + Keeping + Send + Sync,
    R: Threads + Wait + Copy + Send + Sync,
    L: ChangeLog,
    I: Read + Drop,
    O: Write,
    P: FnMut(usize, usize),
>(
    rt: &R,
    alloc: Global,
    size: Size,
    start: Start,
    versions: &boxcar::Vec<PieceVersion>,
    programs: &boxcar::Vec<Filter>,
    log: L,
    progress: P,
    reader: I,
    writer: &mut O,
    workers: usize,
    options: SessionOptions,
) -> Result<Replayed<L>, NotReplayed<L>>
    requires named { (size ≡ N.size) × (versions.now ≡ N.versions) × (programs.now ≡ N.programs) }
    requires start { (start.name ≡ N.name) × (start.table ≡ N.table) × (start.parts ≡ N.parts) × (N.parts ≡ 2) }
    requires kept { N.kept.size ≡ size }
    requires workers { (1 ≤ workers) × (workers ≤ 16) }
    requires log { (texts : List (List ℕ)) × L.kept log texts }
    requires progress { P.IsAlwaysCallable progress }
    ensures ok { IfOk result (λ replayed. ReplaysKept size L.kept options replayed.ended (I.remaining reader)
        (O.contents writer.old) (O.contents writer.new)) }
    ensures err { OnErr result (Keeps (O.contents writer.old) (O.contents writer.new)) }
{
    let published = Published::<N>::new(size, versions, programs);
    let Ok((hub, mut shares)) = Hub::new(rt, alloc, start, &published, 1) else {
        return Err(NotReplayed::OutOfMemory(log));
    };
    let share = &mut shares[0];
    let stored = match restore(rt, alloc, &hub, share, log, progress) {
        Ok(stored) => stored,
        Err(not) => return Err(NotReplayed::NotRestored(not)),
    };
    let mut keeper = OwnStore::<L, N>::new(alloc, stored);
    let ended = session(
        rt,
        alloc,
        &hub,
        &published,
        &mut keeper,
        share,
        reader,
        writer,
        workers,
        options,
    );
    let _count = settle(hub, shares);
    Ok(Replayed {
        is_failed: keeper.is_failed(),
        log: keeper.into_log(),
        ended,
    })
}

/// Runs one session on a hub of its own, which is of this size and whose changes a log keeps: first those that the log
/// keeps are accepted again, and `progress` is told how many of how many.
pub fn replay_kept<
    R: Threads + Wait + Copy + Send + Sync,
    L: ChangeLog,
    I: Read + Drop,
    O: Write,
    P: FnMut(usize, usize),
>(
    rt: &R,
    alloc: Global,
    size: Size,
    log: L,
    progress: P,
    reader: I,
    writer: &mut O,
    workers: usize,
    options: SessionOptions,
) -> Result<Replayed<L>, NotReplayed<L>>
    requires workers { (1 ≤ workers) × (workers ≤ 16) }
    requires log { (texts : List (List ℕ)) × L.kept log texts }
    requires progress { P.IsAlwaysCallable progress }
    ensures ok { IfOk result (λ replayed. ReplaysKept size L.kept options replayed.ended (I.remaining reader)
        (O.contents writer.old) (O.contents writer.new)) }
    ensures err { OnErr result (Keeps (O.contents writer.old) (O.contents writer.new)) }
{
    let Ok(versions) = boxcar::Vec::new(alloc) else {
        return Err(NotReplayed::OutOfMemory(log));
    };
    let Ok(programs) = boxcar::Vec::new(alloc) else {
        return Err(NotReplayed::OutOfMemory(log));
    };
    let Ok(start) = Start::new(alloc, 2) else {
        return Err(NotReplayed::OutOfMemory(log));
    };
    replay_kept_on::<Brand, _, _, _, _, _>(
        rt, alloc, size, start, &versions, &programs, log, progress, reader, writer, workers,
        options,
    )
}
