//! A share of the hub's history, and the sessions that made its calls.
ghost use Rattle.std.specs.Prelude.{◌≡◌, ◌≤◌};
ghost use Rattle.hub_sessions.specs.Sessions.{begins, IsSession};
ghost use Rattle.hub_doors.specs.Serving.{IsBegun, IsOfSessions};

use call_history::knowledge::HistoryNaming;
use change_keeping::clerk::Clerk;
use change_keeping::keeper::Keeper;
use change_keeping::keeping::Keeping;
use core_history::share::Share;
use hub_requests::limits::SessionOptions;
use hub_sessions::conversation::{SessionFault, session};
use ingest_workers::hub::Hub;
use std::alloc::Global;
use std::io::{Read, Write};
use std::marker::Model;
use std::sync::Wait;
use std::sync::ledger::Ledger;
use std::thread::Threads;
use version_history::published::{Naming, Published};

/// A share all calls of which, but those that restored what a store kept, are those of sessions, one after another.
/// Contracts see the share.
pub(crate) struct SessionShare<N: Naming + HistoryNaming + Ledger + Keeping> {
    share: Share<N>,
}

impl<N: Naming + HistoryNaming + Ledger + Keeping> Drop for SessionShare<N> {
    fn drop(self) {
        let SessionShare { share: _ } = self;
    }
}

impl<N: Naming + HistoryNaming + Ledger + Keeping> Model for SessionShare<N> {
    ghost use Rattle.core_history.specs.Hubs.{Seen};
    ghost use Rattle.hub_doors.specs.Serving.{IsOfSessions};

    ghost Value = { Seen };

    ghost view = { λ s. s.share };

    ghost invariant = { λ s. IsOfSessions N.size N.kept s.share };
}

impl<N: Naming + HistoryNaming + Ledger + Keeping + Send + Sync> SessionShare<N> {
    /// The share of no session yet.
    pub(crate) fn new(share: Share<N>) -> SessionShare<N>
        requires { IsBegun N.size share }
        ensures { result ≡ share }
    {
        SessionShare { share }
    }

    /// Runs a session by this share.
    pub(crate) fn session<'p, R: Threads + Wait + Copy + Send + Sync, I: Read + Drop, O: Write>(
        &mut self,
        rt: &R,
        alloc: Global,
        hub: &Hub<'p, N, R>,
        published: &Published<'p, N>,
        clerk: &mut Clerk<'_, N, R>,
        reader: I,
        writer: &mut O,
        workers: usize,
        options: SessionOptions,
    ) -> Result<(), SessionFault>
        requires workers { (1 ≤ workers) × (workers ≤ 16) }
        ensures session { let keeps = ⟦<Clerk<'static, N, R> as Keeper>⟧.stores clerk.old in
            IsSession result (begins N.size N.kept keeps self.old options)
            (I.remaining reader) (O.contents writer.old) self.new (O.contents writer.new) }
        ensures same { ⟦<Clerk<'static, N, R> as Keeper>⟧.stores clerk.new
            ≡ ⟦<Clerk<'static, N, R> as Keeper>⟧.stores clerk.old }
    {
        session(
            rt,
            alloc,
            hub,
            published,
            clerk,
            &mut self.share,
            reader,
            writer,
            workers,
            options,
        )
    }

    /// The share, whose calls were made by sessions.
    pub(crate) fn into_share(self) -> Share<N>
        ensures share { result ≡ self }
        ensures sessions { IsOfSessions N.size N.kept result }
    {
        let SessionShare { share } = self;
        share
    }
}
