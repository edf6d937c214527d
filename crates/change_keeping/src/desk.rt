//! Where sessions leave the texts of their changes for the thread that has the store.
ghost use Rattle.std.specs.Prelude.{◌≡◌};

use crate::keeping::Keeping;
use crate::told::Told;
use change_log::text::ChangeText;
use crossbeam_channel::{Receiver, Sender};
use std::alloc::{AllocError, Global};
use std::marker::Model;
use std::sync::Wait;
use std::sync::atomic::{AtomicBool, Ordering};

/// How many texts may wait, as many as there may be sessions: each has one at most. So many are kept at once.
pub(crate) const TEXT_LIMIT: usize = 256;

/// A text that is to be kept, and where its session waits. Contracts see the text.
#[derive(Drop)]
pub(crate) struct Request<N: Keeping> {
    text: ChangeText,
    reply: Sender<Reply<N>>,
}

impl<N: Keeping> Model for Request<N> {
    ghost use Rattle.std.specs.Prelude.{ℕ, List};

    ghost Value = { List ℕ };

    ghost view = { λ r. r.text };
}

impl<N: Keeping> Request<N> {
    pub(crate) fn new(text: ChangeText, reply: Sender<Reply<N>>) -> Request<N>
        ensures { result ≡ text }
    {
        Request { text, reply }
    }

    pub(crate) fn text(&self) -> &str
        ensures { result.now ≡ self.now }
    {
        self.text.as_str()
    }

    /// The text, and where its session waits.
    pub(crate) fn into_parts(self) -> (ChangeText, Sender<Reply<N>>)
        ensures { result.0 ≡ self }
    {
        let Request { text, reply } = self;
        (text, reply)
    }
}

/// What a session is told.
#[derive(Drop)]
pub(crate) enum Reply<N: Keeping> {
    Told(Told<N>),
    Failed,
}

/// What comes to the desk.
#[derive(Drop)]
pub(crate) enum Arrival<N: Keeping> {
    Text(Request<N>),
    Close,
}

/// What the sessions of the hub `N` share with the thread that has its store.
#[derive(Drop)]
pub struct Desk<N: Keeping> {
    arrivals: Sender<Arrival<N>>,
    arrived: Receiver<Arrival<N>>,
    shown: Sender<bool>,
    seen: Receiver<bool>,
    is_failed: AtomicBool,
}

impl<N: Keeping> Desk<N> {
    pub fn new(alloc: Global) -> Result<Desk<N>, AllocError> {
        let (arrivals, arrived) = crossbeam_channel::bounded(alloc, TEXT_LIMIT)?;
        let (shown, seen) = crossbeam_channel::bounded(alloc, 1)?;
        Ok(Desk {
            arrivals,
            arrived,
            shown,
            seen,
            is_failed: AtomicBool::new(false),
        })
    }

    /// Tells the thread that has the store that no text comes any more: all sessions have ended.
    pub fn close<R: Wait>(&self, rt: &R) {
        let _ = self.arrivals.send(rt, Arrival::Close);
    }

    /// Whether what keeps the changes failed. Then it stays so, and no change is kept any more.
    pub fn is_failed(&self) -> bool {
        self.is_failed.load(Ordering::SeqCst)
    }

    pub(crate) fn fail(&self) {
        self.is_failed.store(true, Ordering::SeqCst);
    }

    /// Leaves a text. False where it can't be left.
    pub(crate) fn leave<R: Wait>(&self, rt: &R, request: Request<N>) -> bool {
        self.arrivals.send(rt, Arrival::Text(request)).is_ok()
    }

    /// Says whether the change that was kept last is shown.
    pub(crate) fn settle<R: Wait>(&self, rt: &R, is_shown: bool) {
        let _ = self.shown.send(rt, is_shown);
    }

    /// Waits until the change that was kept last is shown, or isn't.
    pub(crate) fn wait_shown<R: Wait>(&self, rt: &R) -> bool {
        self.seen.recv(rt).unwrap_or(false)
    }

    /// Waits for what comes next.
    pub(crate) fn wait<R: Wait>(&self, rt: &R) -> Arrival<N> {
        self.arrived.recv(rt).unwrap_or(Arrival::Close)
    }

    /// What has come besides.
    pub(crate) fn next<R: Wait>(&self, rt: &R) -> Option<Arrival<N>> {
        self.arrived.try_recv(rt).ok()
    }
}
