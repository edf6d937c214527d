ghost use Rattle.std.specs.Prelude.{◌≡◌, ◌≤◌, ◌==◌};
ghost use Rattle.session_subscribers.specs.Holding.{index_in};

use call_history::knowledge::HistoryNaming;
use hub_requests::limits::SessionOptions;
use ingest_workers::hub::Hub;
use std::alloc::Global;
use std::marker::Model;
use std::sync::Wait;
use std::sync::ledger::Ledger;
use stream_readers::reader::StreamReader;
use version_history::published::{Naming, Published};

/// The hub as a session uses it.
#[derive(Drop)]
pub struct SessionHub<'s, 'p, N: Naming + HistoryNaming + Ledger, R: Wait + Copy> {
    pub rt: R,
    pub alloc: Global,
    pub hub: &'s Hub<'p, N, R>,
    pub published: &'s Published<'p, N>,
    pub workers: usize,
    pub options: SessionOptions,
    ghost range: { (1 ≤ workers) × (workers ≤ 16) },
}

/// A subscriber that the session made and hasn't closed, and how far its program's stream was read.
#[derive(Drop)]
pub struct Held<N: Naming> {
    pub id: usize,
    pub reader: StreamReader<N>,
}

impl<N: Naming> Model for Held<N> {
    ghost use Rattle.session_subscribers.specs.Holding.{Held as HeldValue};

    ghost Value = { HeldValue };

    ghost view = { λ h. record { id = h.id; reader = h.reader } };
}

/// Whether it has this id.
fn has_id<N: Naming>(one: &Held<N>, id: usize) -> bool
    ensures { result ≡ (one.now.id == id) }
{
    one.id == id
}

/// The index of the subscriber of an id among these.
pub fn index_of<N: Naming>(held: &[Held<N>], id: usize) -> Option<usize>
    ensures { result ≡ index_in held.now id }
{
    held.iter().position(|one| has_id(one, id))
}
