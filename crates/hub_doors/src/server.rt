//! Sessions at doors, all of them on one hub.
ghost use Rattle.std.specs.Prelude.{◌≡◌, ◌≤◌, ◌+◌, ℕ, List, All, IfOk, vec_len};
ghost use Rattle.change_keeping.specs.Kept.{none_kept, some_log};
ghost use Rattle.hub_doors.specs.Serving.{IsBegun, Serves};
ghost use Rattle.hub_doors.specs.declared.server.ServeError.TheVariants as serve_error;

use crate::accepting::accept_all;
use crate::common::Common;
use crate::door::{Door, DoorKind, open};
use crate::fault::ConnectionFault;
use crate::house::House;
use crate::journal::Surroundings;
use crate::socket_file::SocketFault;
use call_history::knowledge::HistoryNaming;
use change_keeping::desk::Desk;
use change_keeping::keeping::Keeping;
use change_keeping::serving::keep_all;
use change_log::log::ChangeLog;
use core_history::share::Share;
use core_history::start::Start;
use filters::filter::Filter;
use hub_requests::serving::{Doors, Terms};
use hub_restoring::restoring::{NotRestored, restore};
use ingest_workers::hub::Hub;
use std::alloc::{AllocError, Global};
use std::fs::Files;
use std::io::Write;
use std::marker::Brand;
use std::net::{Net, TcpListener, TcpStream};
use std::rt::Clock;
use std::sync::Wait;
use std::sync::ledger::Ledger;
use std::thread::Threads;
use std::{io, thread};
use stored_history::history::StoredHistory;
use version_history::published::{Naming, Published};
use version_pieces::version::PieceVersion;

/// Why sessions were not served, or not all of them to their ends.
#[derive(Drop)]
pub enum ServeError {
    /// The port of a door can't be bound, or its number can't be asked for.
    Port(DoorKind, io::Error),
    /// The socket file can't be had.
    Socket(SocketFault),
    /// The lines of the doors can't be written.
    Output(io::Error),
    /// An accept failed, or a session's read or write: the first that was noted.
    Connection(ConnectionFault),
    /// The log failed, or the hub didn't show what it keeps.
    Kept,
    /// The share of a session didn't come back, which cannot be: all threads have ended then.
    Unreturned,
    /// No memory was found for the hub.
    OutOfMemory,
}

impl From<AllocError> for ServeError {
    ghost from_gives = { λ _ error. error ≡ serve_error.OutOfMemory };

    fn from(_error: AllocError) -> ServeError {
        ServeError::OutOfMemory
    }
}

/// Where sessions come in, on what terms they are served, and what is told of them.
#[derive(Drop)]
pub struct Plan<'a, J> {
    pub doors: &'a Doors,
    pub terms: &'a Terms,
    pub journal: &'a J,
}

/// How serving ended on a hub that a log keeps, and the log.
#[derive(Drop)]
pub struct Served<L: ChangeLog> {
    pub log: L,
    pub ended: Result<(), ServeError>,
}

/// Why nothing was served on a hub that a log keeps.
#[derive(Drop)]
pub enum NotServed<L: ChangeLog> {
    /// What the log keeps wasn't accepted again.
    NotRestored(NotRestored<L>),
    /// No memory was found for the hub.
    OutOfMemory(L),
}

/// Serves what comes in at each door, the first one's in this thread, until no session begins any more and all have
/// ended.
fn serve_doors<
    N: Naming + HistoryNaming + Ledger + Keeping + Send + Sync,
    R: Threads + Wait + Clock + Copy + Send + Sync,
    J: Surroundings + Send + Sync,
>(house: &House<'_, '_, '_, '_, N, R, J>) {
    thread::scope(thread::scope_env(), &house.rt, move |scope| {
        let Some((first, others)) = house.doors.split_first() else {
            return;
        };
        for door in others {
            if scope.spawn(move || accept_all(house, door)).is_err() {
                let _ = house.state.fault.try_set(ConnectionFault::NoThread);
                house.halt();
            }
        }
        accept_all(house, first);
    })
}

/// Serves at the doors in a thread of its own, and keeps in this one what the sessions leave at the desk.
fn serve_and_keep<
    N: Naming + HistoryNaming + Ledger + Keeping + Send + Sync,
    R: Threads + Wait + Clock + Copy + Send + Sync,
    J: Surroundings + Send + Sync,
    L: ChangeLog,
>(house: &House<'_, '_, '_, '_, N, R, J>, desk: &Desk<N>, stored: &mut StoredHistory<L>)
    requires kept { (texts : List (List ℕ)) (log : L) → L.kept log texts → N.kept.texts texts }
    requires size { stored.old.size ≡ N.kept.size }
{
    thread::scope(
        thread::scope_env(),
        &house.rt,
        move |scope|
            requires kept { (texts : List (List ℕ)) (log : L) → L.kept log texts → N.kept.texts texts }
            requires size { stored.now.size ≡ N.kept.size }
        {
            let serving = move || {
                serve_doors(house);
                desk.close(&house.rt);
            };
            if scope.spawn(serving).is_err() {
                let _ = house.state.fault.try_set(ConnectionFault::NoThread);
                return;
            }
            let _ = keep_all(&house.rt, house.alloc, desk, stored, || house.halt());
        },
    )
}

/// Takes the socket file away.
fn leave<R: Files>(rt: &R, doors: &[Door]) {
    for door in doors {
        door.leave(rt);
    }
}

/// Serves sessions on the hub `N`, which is made before the doors are opened.
fn serve_on<
    'p,
    N: Naming + HistoryNaming + Ledger + Keeping + Send + Sync,
    R: Threads
        + Wait
        + Net<Listener = TcpListener, Stream = TcpStream>
        + Files
        + Clock
        + Copy
        + Send
        + Sync,
    J: Surroundings + Send + Sync,
    W: Write,
>(
    rt: R,
    alloc: Global,
    start: Start,
    versions: &'p boxcar::Vec<PieceVersion>,
    programs: &'p boxcar::Vec<Filter>,
    sessions: usize,
    plan: &Plan<'_, J>,
    writer: &mut W,
) -> Result<(), ServeError>
    requires named { (plan.now.terms.now.size ≡ N.size) × (versions.now ≡ N.versions) × (programs.now ≡ N.programs) }
    requires start { (start.name ≡ N.name) × (start.table ≡ N.table) × (start.parts ≡ N.parts)
        × (N.parts ≡ sessions + 1) }
    requires sessions { (1 ≤ sessions) × (sessions ≤ 256) }
    ensures { Serves N.size N.kept result }
{
    let published = Published::<N>::new(plan.terms.size, versions, programs);
    let (hub, shares) = Hub::new(&rt, alloc, start, &published, sessions)?;
    let common = Common::new(alloc, shares)?;
    let doors = open(&rt, alloc, plan.doors, writer)?;
    serve_doors(&House {
        rt,
        alloc,
        hub: &hub,
        published: &published,
        versions,
        desk: None,
        shares: &common.shares,
        handshakes: &common.handshakes,
        doors: &doors,
        web: plan.doors.web.as_ref(),
        terms: plan.terms,
        journal: plan.journal,
        state: &common.state,
    });
    leave(&rt, &doors);
    common.end(hub, sessions, false)
}

/// Serves sessions at the doors that a plan names, all of them on one hub and each in a thread of its own, and returns
/// when all have ended; or, where they are served without an end, at most so many at a time until the program is
/// killed. First it writes a line for each door.
pub fn serve<
    R: Threads
        + Wait
        + Net<Listener = TcpListener, Stream = TcpStream>
        + Files
        + Clock
        + Copy
        + Send
        + Sync,
    J: Surroundings + Send + Sync,
    W: Write,
>(rt: R, alloc: Global, plan: &Plan<'_, J>, writer: &mut W) -> Result<(), ServeError>
    ensures { Serves plan.now.terms.now.size (none_kept plan.now.terms.now.size) result }
{
    let versions = boxcar::Vec::new(alloc)?;
    let programs = boxcar::Vec::new(alloc)?;
    let sessions = plan.terms.service.sessions();
    let start = Start::new(alloc, sessions.count() as u64 + 1)?;
    serve_on::<Brand, _, _, _>(
        rt,
        alloc,
        start,
        &versions,
        &programs,
        sessions.count(),
        plan,
        writer,
    )
}

/// Opens the doors and serves sessions on a hub, whose changes are kept.
fn serve_stored<
    'g,
    'p,
    N: Naming + HistoryNaming + Ledger + Keeping + Send + Sync,
    R: Threads
        + Wait
        + Net<Listener = TcpListener, Stream = TcpStream>
        + Files
        + Clock
        + Copy
        + Send
        + Sync,
    L: ChangeLog,
    J: Surroundings + Send + Sync,
    W: Write,
>(
    rt: R,
    alloc: Global,
    hub: Hub<'p, N, R>,
    published: &'g Published<'p, N>,
    versions: &'p boxcar::Vec<PieceVersion>,
    shares: Vec<Share<N>>,
    stored: &mut StoredHistory<L>,
    plan: &Plan<'_, J>,
    writer: &mut W,
) -> Result<(), ServeError>
    requires kept { (texts : List (List ℕ)) (log : L) → L.kept log texts → N.kept.texts texts }
    requires size { stored.old.size ≡ N.kept.size }
    requires begun { All (IsBegun N.size) shares.items }
    requires parts { N.parts ≡ vec_len shares + 1 }
    ensures { Serves N.size N.kept result }
{
    let sessions = shares.len();
    let common = Common::new(alloc, shares)?;
    let desk = Desk::new(alloc)?;
    let doors = open(&rt, alloc, plan.doors, writer)?;
    let house = House {
        rt,
        alloc,
        hub: &hub,
        published,
        versions,
        desk: Some(&desk),
        shares: &common.shares,
        handshakes: &common.handshakes,
        doors: &doors,
        web: plan.doors.web.as_ref(),
        terms: plan.terms,
        journal: plan.journal,
        state: &common.state,
    };
    serve_and_keep(&house, &desk, stored);
    leave(&rt, &doors);
    common.end(hub, sessions, desk.is_failed())
}

/// Serves sessions on the hub `N`, whose changes a log keeps.
fn serve_kept_on<
    'p,
    N: Naming + HistoryNaming + Ledger + Keeping + Send + Sync,
    R: Threads
        + Wait
        + Net<Listener = TcpListener, Stream = TcpStream>
        + Files
        + Clock
        + Copy
        + Send
        + Sync,
    L: ChangeLog,
    P: FnMut(usize, usize),
    J: Surroundings + Send + Sync,
    W: Write,
>(
    rt: R,
    alloc: Global,
    start: Start,
    versions: &'p boxcar::Vec<PieceVersion>,
    programs: &'p boxcar::Vec<Filter>,
    sessions: usize,
    plan: &Plan<'_, J>,
    log: L,
    progress: P,
    writer: &mut W,
) -> Result<Served<L>, NotServed<L>>
    requires named { (plan.now.terms.now.size ≡ N.size) × (versions.now ≡ N.versions) × (programs.now ≡ N.programs) }
    requires start { (start.name ≡ N.name) × (start.table ≡ N.table) × (start.parts ≡ N.parts)
        × (N.parts ≡ sessions + 1) }
    requires sessions { (1 ≤ sessions) × (sessions ≤ 256) }
    requires log { (texts : List (List ℕ)) × L.kept log texts }
    requires progress { P.IsAlwaysCallable progress }
    requires kept { (texts : List (List ℕ)) (log : L) → L.kept log texts → N.kept.texts texts }
    requires size { N.kept.size ≡ N.size }
    ensures { IfOk result (λ served. Serves N.size N.kept served.ended) }
{
    let published = Published::<N>::new(plan.terms.size, versions, programs);
    let Ok((hub, mut shares)) = Hub::new(&rt, alloc, start, &published, sessions) else {
        return Err(NotServed::OutOfMemory(log));
    };
    let share = &mut shares[0];
    let mut stored = match restore(&rt, alloc, &hub, share, log, progress) {
        Ok(stored) => stored,
        Err(not) => return Err(NotServed::NotRestored(not)),
    };
    let ended = serve_stored(
        rt,
        alloc,
        hub,
        &published,
        versions,
        shares,
        &mut stored,
        plan,
        writer,
    );
    Ok(Served {
        log: stored.into_log(),
        ended,
    })
}

/// As `serve`, on a hub whose changes a log keeps: first those that it keeps are accepted again, and `progress` is told
/// how many of how many. Once the log fails all sessions end.
pub fn serve_kept<
    R: Threads
        + Wait
        + Net<Listener = TcpListener, Stream = TcpStream>
        + Files
        + Clock
        + Copy
        + Send
        + Sync,
    L: ChangeLog,
    P: FnMut(usize, usize),
    J: Surroundings + Send + Sync,
    W: Write,
>(
    rt: R,
    alloc: Global,
    plan: &Plan<'_, J>,
    log: L,
    progress: P,
    writer: &mut W,
) -> Result<Served<L>, NotServed<L>>
    requires log { (texts : List (List ℕ)) × L.kept log texts }
    requires progress { P.IsAlwaysCallable progress }
    ensures { IfOk result (λ served. Serves plan.now.terms.now.size (some_log plan.now.terms.now.size L.kept)
        served.ended) }
{
    let Ok(versions) = boxcar::Vec::new(alloc) else {
        return Err(NotServed::OutOfMemory(log));
    };
    let Ok(programs) = boxcar::Vec::new(alloc) else {
        return Err(NotServed::OutOfMemory(log));
    };
    let sessions = plan.terms.service.sessions();
    let Ok(start) = Start::new(alloc, sessions.count() as u64 + 1) else {
        return Err(NotServed::OutOfMemory(log));
    };
    serve_kept_on::<Brand, _, _, _, _, _>(
        rt,
        alloc,
        start,
        &versions,
        &programs,
        sessions.count(),
        plan,
        log,
        progress,
        writer,
    )
}
