//! What the threads of a server share.
ghost use Rattle.std.specs.Prelude.{◌≤◌, IfSome};

use crate::door::{Door, DoorKind};
use crate::fault::ConnectionFault;
use crate::journal::{Surroundings, Visit};
use crate::link::{Patience, Traffic};
use crate::session_share::SessionShare;
use crate::stream::Peer;
use crate::tally::Tally;
use call_history::knowledge::HistoryNaming;
use change_keeping::desk::Desk;
use change_keeping::keeping::Keeping;
use hub_requests::serving::{Service, Terms, WebDoor};
use ingest_workers::hub::Hub;
use lending_pool::{Lent, Pool};
use std::alloc::Global;
use std::rt::Clock;
use std::sync::atomic::{AtomicBool, AtomicU64, Ordering};
use std::sync::ledger::Ledger;
use std::sync::{OnceLock, Wait};
use std::thread::{Parker, Threads};
use std::time::Duration;
use version_history::published::{Naming, Published};
use version_pieces::version::PieceVersion;

/// For how many milliseconds no connection is accepted after an accept that failed: where the process has no descriptor
/// left for it, the next one fails as well until a session has ended.
const PAUSE_MILLIS: u64 = 50;

/// For how many milliseconds a door isn't looked at where nobody waited there. So the thread there sees the end of a
/// server that comes to one.
const LOOK_MILLIS: u64 = 20;

/// How many seconds a client of a WebSocket may be silent before it is pinged, and a write may wait.
const PING_SECONDS: u64 = 20;

/// What is known of a server's end.
#[derive(Drop)]
pub(crate) struct State {
    /// Whether it is to end at once.
    pub is_halted: AtomicBool,
    /// Why not all sessions were served to their ends.
    pub fault: OnceLock<ConnectionFault>,
    /// How many sessions began.
    begun: AtomicU64,
}

impl State {
    pub(crate) fn new() -> State {
        State {
            is_halted: AtomicBool::new(false),
            fault: OnceLock::new(),
            begun: AtomicU64::new(0),
        }
    }

    pub(crate) fn is_halted(&self) -> bool {
        self.is_halted.load(Ordering::SeqCst)
    }

    /// The first failure that was noted.
    pub(crate) fn into_fault(self) -> Option<ConnectionFault> {
        let State {
            is_halted: _,
            fault,
            begun: _,
        } = self;
        fault.into_inner()
    }
}

/// What the threads of a server share: its hub with the shares of sessions, its doors, and its terms.
#[derive(Drop)]
pub(crate) struct House<
    'h,
    'g,
    'a,
    'p,
    N: Naming + HistoryNaming + Ledger + Keeping + Send + Sync,
    R: Wait + Copy,
    J,
> {
    pub rt: R,
    pub alloc: Global,
    pub hub: &'g Hub<'p, N, R>,
    pub published: &'g Published<'p, N>,
    pub versions: &'p boxcar::Vec<PieceVersion>,
    pub desk: Option<&'h Desk<N>>,
    /// The sessions that there may still be, or may be at once.
    pub shares: &'h Pool<SessionShare<N>>,
    /// As many handshakes may be unfinished at once.
    pub handshakes: &'h Pool<()>,
    pub doors: &'h [Door],
    pub web: Option<&'a WebDoor>,
    pub terms: &'a Terms,
    pub journal: &'a J,
    pub state: &'h State,
}

impl<
    'h,
    'g,
    'a,
    'p,
    N: Naming + HistoryNaming + Ledger + Keeping + Send + Sync,
    R: Threads + Wait + Clock + Copy + Send + Sync,
    J: Surroundings + Send + Sync,
> House<'h, 'g, 'a, 'p, N, R, J> {
    /// Whether a share is used up by its session.
    pub(crate) fn uses_up(&self) -> bool {
        match self.terms.service {
            Service::Sessions(_) => true,
            Service::AtOnce(_) => false,
        }
    }

    /// Whether no session begins any more.
    pub(crate) fn is_closed(&self) -> bool {
        self.state.is_halted() || (self.uses_up() && self.shares.is_empty(&self.rt))
    }

    /// A share for a session.
    pub(crate) fn take_share(&self) -> Option<Lent<'h, SessionShare<N>, R>> {
        self.shares.lend(&self.rt)
    }

    /// Gives a share back, unless it is used up.
    pub(crate) fn give_back(&self, lent: Lent<'h, SessionShare<N>, R>) {
        if self.uses_up() {
            lent.use_up();
        } else {
            drop(lent);
        }
    }

    /// Notes why a session wasn't served to its end, where sessions are counted. Else a client that is gone is none of
    /// the server's failures.
    pub(crate) fn note_fault(&self, fault: ConnectionFault) {
        if self.uses_up() {
            let _ = self.state.fault.try_set(fault);
        }
    }

    /// What an accept that failed costs: a session where they are counted, else a little time.
    pub(crate) fn miss(&self, fault: ConnectionFault) {
        self.note_fault(fault);
        if self.uses_up() {
            if let Some(lent) = self.take_share() {
                self.give_back(lent);
            }
        } else {
            self.pause(PAUSE_MILLIS);
        }
    }

    /// Waits a little for what comes next to a door.
    pub(crate) fn look_later(&self) {
        self.pause(LOOK_MILLIS);
    }

    fn pause(&self, millis: u64) {
        Parker::new().park_timeout(&self.rt, Duration::from_millis(millis));
    }

    /// Whether no session may begin any more, while doors still wait for connections.
    pub(crate) fn may_close(&self) -> bool {
        self.uses_up() || self.desk.is_some()
    }

    /// Ends the server: its sessions, and the threads that wait at its doors.
    pub(crate) fn halt(&self) {
        self.state.is_halted.store(true, Ordering::SeqCst);
    }

    /// For how long a client is waited for. With a store each wait is short, so that sessions end soon once it fails.
    pub(crate) fn patience(&self, kind: DoorKind) -> Patience {
        let most = match kind {
            DoorKind::Web => Some(self.web_seconds()),
            DoorKind::Port | DoorKind::Unix => self.idle_seconds(),
        };
        match (self.desk, most) {
            (None, None) => Patience {
                tick: None,
                ticks: None,
            },
            (None, Some(seconds)) => Patience {
                tick: Some(Duration::from_secs(seconds)),
                ticks: Some(1),
            },
            (Some(_), None) => Patience {
                tick: Some(Duration::from_secs(1)),
                ticks: None,
            },
            (Some(_), Some(seconds)) => Patience {
                tick: Some(Duration::from_secs(1)),
                ticks: Some(u32::try_from(seconds).unwrap_or(u32::MAX)),
            },
        }
    }

    /// After how many seconds without a word a session ends.
    fn idle_seconds(&self) -> Option<u64>
        ensures { IfSome result (λ seconds. 1 ≤ seconds) }
    {
        let idle = self.terms.idle?;
        Some(idle.as_secs().max(1))
    }

    /// After how many seconds a silent client of a WebSocket is pinged.
    fn web_seconds(&self) -> u64
        ensures { 1 ≤ result }
    {
        match self.idle_seconds() {
            Some(seconds) => seconds.min(PING_SECONDS),
            None => PING_SECONDS,
        }
    }

    /// After how many of these times a session over a WebSocket ends that said nothing.
    pub(crate) fn most_waits(&self) -> Option<u32> {
        let seconds = self.idle_seconds()?;
        let times = seconds.div_ceil(self.web_seconds());
        Some(u32::try_from(times).unwrap_or(u32::MAX))
    }

    /// The number of the latest version, each of which has its place in the list.
    fn latest(&self) -> u64 {
        (self.versions.count() as u64).saturating_sub(1)
    }

    /// Notes that a session begins.
    pub(crate) fn begin(&self, kind: DoorKind, peer: Peer) -> Visit {
        let before = self.state.begun.fetch_add(1, Ordering::SeqCst);
        let visit = Visit {
            number: before.wrapping_add(1),
            kind,
            peer,
        };
        if self.terms.is_logged
            && let Ok(line) = visit.begin_line(self.alloc, self.latest())
        {
            self.journal.note(&self.rt, line.as_str());
        }
        visit
    }

    /// Notes that a session has ended.
    pub(crate) fn end(&self, visit: &Visit, tally: &Tally, traffic: &Traffic) {
        if self.terms.is_logged
            && let Ok(line) = visit.end_line(self.alloc, self.latest(), tally, traffic)
        {
            self.journal.note(&self.rt, line.as_str());
        }
    }
}
