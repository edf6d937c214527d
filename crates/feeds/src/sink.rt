ghost use Rattle.std.specs.Prelude.{◌≡◌, [], IfOk};

use crate::item::Item;
use std::alloc::{AllocError, Global};
use std::marker::Model;
use version_history::published::Naming;

/// What a clause sees of an item, whatever hub it is of.
pub trait AsItem {
    ghost use Rattle.feeds.specs.Batches.{Item};

    ghost as_item: { Self → Item };
}

impl<N: Naming> AsItem for Item<N> {
    ghost as_item = { λ i. i };
}

/// Where a subscriber's items go.
pub trait Sink<I: AsItem>: Drop {
    ghost use Rattle.std.specs.Prelude.{◌≡◌, ◌++◌, ◌∷◌, [], List, Option, IfErr, OnOk};
    ghost use Rattle.feeds.specs.Batches.{Item};
    ghost use Rattle.feeds.specs.Orderly.{IsOrderly};
    ghost use Rattle.feeds.specs.Promise.{Promise, IsPromised};

    /// What was sent so far.
    ghost sent: { Self → List Item };

    /// It may refuse an item.
    ghost full: { Self → Type 0 };

    /// What is promised of all that it is sent, if anything is. It stays the same.
    ghost promise: { Self → Option Promise };

    /// What it is once it is closed.
    ghost closed: { Self → Self };

    /// What it is but for what it was sent. A push keeps it.
    ghost bare: { Self → Self };

    /// The subscriber's end, where its items come from.
    type End: Drop;

    /// The end is of this sink.
    ghost fits: { Self.End → Self → Type 0 };

    /// What is known of the sink and of its end before and after they met.
    ghost meets: { Self → Self.End → Self.End → Type 0 };

    /// Sends an item. Where the sink is full it comes back.
    fn push(&mut self, item: I) -> Result<(), I>
        requires orderly { IsOrderly (sent self.old ++ I.as_item item ∷ []) }
        requires promised { IsPromised (promise self.old) (sent self.old ++ I.as_item item ∷ []) }
        ensures ok { OnOk result (sent self.new ≡ sent self.old ++ I.as_item item ∷ []) }
        ensures err { IfErr result (λ back. (back ≡ item) × (sent self.new ≡ sent self.old) × full self.new) }
        ensures kept { promise self.new ≡ promise self.old }
        ensures bare { bare self.new ≡ bare self.old };

    /// Lets go of the memory that waiting items need: nothing is sent from now on. What was sent stays known.
    fn close(&mut self)
        ensures value { self.new ≡ closed self.old }
        ensures sent { sent self.new ≡ sent self.old }
        ensures kept { promise self.new ≡ promise self.old };

    /// The subscriber's end meets the sink.
    fn meet(&mut self, end: &mut Self::End)
        requires fits { fits end.old self.old }
        ensures same { self.new ≡ self.old }
        ensures meets { meets self.old end.old end.new };
}

/// A sink that keeps a fixed number of items. Nothing is promised of them.
#[derive(Drop)]
pub struct ListSink<N: Naming> {
    items: Vec<Item<N>>,
    capacity: usize,
}

impl<N: Naming> Model for ListSink<N> {
    ghost use Rattle.std.specs.Prelude.{◌≤◌, vec_len, vec_capacity};
    ghost use Rattle.feeds.specs.Orderly.{ListSink as ListSinkValue};

    ghost Value = { ListSinkValue };

    ghost view = { λ s. record { sent = s.items.items; capacity = s.capacity } };

    ghost invariant = { λ s. (vec_len s.items ≤ s.capacity) × (s.capacity ≤ vec_capacity s.items) };
}

impl<N: Naming> ListSink<N> {
    pub fn new(alloc: Global, capacity: usize) -> Result<ListSink<N>, AllocError>
        ensures { IfOk result (λ s. s ≡ record { sent = []; capacity = capacity }) }
    {
        let items = Vec::with_capacity(alloc, capacity)?;
        Ok(ListSink { items, capacity })
    }

    /// What was sent.
    pub fn sent(&self) -> &[Item<N>]
        ensures { result.now ≡ self.now.sent }
    {
        self.items.as_slice()
    }
}

impl<N: Naming> Sink<Item<N>> for ListSink<N> {
    ghost use Rattle.std.specs.Prelude.{◌≡◌, ◌++◌, ◌∷◌, [], length, None, IfErr, OnOk, ⊤};

    /// Its items are kept where they can be read.
    type End = ();

    ghost sent = { λ s. s.sent };

    ghost full = { λ s. length s.sent ≡ s.capacity };

    ghost promise = { λ s. None };

    ghost closed = { λ s. s };

    ghost bare = { λ s. record s { sent = [] } };

    ghost fits = { λ end s. ⊤ };

    ghost meets = { λ s end met. ⊤ };

    fn push(&mut self, item: Item<N>) -> Result<(), Item<N>>
        ensures ok { OnOk result (self.new.sent ≡ self.old.sent ++ item ∷ []) }
        ensures err { IfErr result (λ back. (back ≡ item) × (self.new.sent ≡ self.old.sent)
            × (length self.new.sent ≡ self.new.capacity)) }
        ensures capacity { self.new.capacity ≡ self.old.capacity }
    {
        if self.items.len() == self.capacity {
            return Err(item);
        }
        self.items.push_reserved(item);
        Ok(())
    }

    /// Its items stay, for whoever reads them.
    fn close(&mut self)
        ensures value { self.new ≡ self.old }
    {
        let _ = self.items.len();
    }

    fn meet(&mut self, _end: &mut ())
        ensures { self.new ≡ self.old }
    {
        let _ = self.items.len();
    }
}
