//! What the threads of a server share, and how its hub ends after them.
ghost use Rattle.std.specs.Prelude.{◌≡◌, ◌≤◌, ◌+◌, [], All, IfOk, vec_len, vec_capacity};

use crate::house::State;
use crate::server::ServeError;
use crate::session_share::SessionShare;
use call_history::knowledge::HistoryNaming;
use change_keeping::keeping::Keeping;
use core_history::share::Share;
use ingest_workers::hub::Hub;
use ingest_workers::ingest::settle;
use lending_pool::Pool;
use std::alloc::{AllocError, Global};
use std::sync::Wait;
use std::sync::ledger::Ledger;
use version_history::published::Naming;

/// As many places as this.
fn places(alloc: Global, count: usize) -> Result<Pool<()>, AllocError> {
    let mut places = Vec::with_capacity(alloc, count)?;
    for _ in 0..count {
        places.push(())?;
    }
    Pool::new(alloc, places)
}

/// What the threads of a server share, but for its doors and its hub, and room for the shares once they come back.
pub(crate) struct Common<N: Naming + HistoryNaming + Ledger + Keeping> {
    pub shares: Pool<SessionShare<N>>,
    pub handshakes: Pool<()>,
    pub state: State,
    back: Vec<Share<N>>,
    ghost room: { (back.items ≡ []) × (shares ≤ vec_capacity back) },
}

impl<N: Naming + HistoryNaming + Ledger + Keeping> Drop for Common<N> {
    fn drop(self) {
        let Common {
            shares: _,
            handshakes: _,
            state: _,
            back: _,
        } = self;
    }
}

impl<N: Naming + HistoryNaming + Ledger + Keeping + Send + Sync> Common<N> {
    ghost use Rattle.hub_doors.specs.Serving.{IsBegun, Serves};

    /// The shares of sessions.
    fn session_shares(
        alloc: Global,
        shares: Vec<Share<N>>,
    ) -> Result<Vec<SessionShare<N>>, AllocError>
        requires { All (IsBegun N.size) shares.items }
        ensures { IfOk result (λ made. vec_len made ≡ vec_len shares) }
    {
        let mut made = Vec::with_capacity(alloc, shares.len())?;
        for share in shares {
            made.push_reserved(SessionShare::new(share));
        }
        Ok(made)
    }

    pub(crate) fn new(alloc: Global, shares: Vec<Share<N>>) -> Result<Common<N>, AllocError>
        requires { All (IsBegun N.size) shares.items }
    {
        let count = shares.len();
        let handshakes = places(alloc, count)?;
        let back = Vec::with_capacity(alloc, count)?;
        let shares = Self::session_shares(alloc, shares)?;
        Ok(Common {
            shares: Pool::new(alloc, shares)?,
            handshakes,
            state: State::new(),
            back,
        })
    }

    /// Ends a hub once all threads have, and answers how serving ended: the log may have failed.
    pub(crate) fn end<R: Wait + Copy>(
        self,
        hub: Hub<'_, N, R>,
        sessions: usize,
        is_failed: bool,
    ) -> Result<(), ServeError>
        requires { N.parts ≡ sessions + 1 }
        ensures { Serves N.size N.kept result }
    {
        let Common {
            mut shares,
            handshakes: _,
            state,
            mut back,
        } = self;
        while let Some(place) = shares.pop() {
            if let Some(share) = place {
                back.push_reserved(share.into_share());
            }
        }
        if back.len() != sessions {
            return Err(ServeError::Unreturned);
        }
        let _count = settle(hub, back);
        if is_failed {
            return Err(ServeError::Kept);
        }
        match state.into_fault() {
            Some(fault) => Err(ServeError::Connection(fault)),
            None => Ok(()),
        }
    }
}
