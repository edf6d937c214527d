use change_ops::size::Size;
use crossbeam_queue::RuledArrayQueue;
use crossbeam_queue::protocol::{Join, Lesson, Outcome, Protocol, Split};
use feeds::item::Item;
use filters::filter::Filter;
use std::collections::LinkedList;
use std::marker::{Brand, Model, PhantomData};
use version_history::published::Naming;

/// What is promised of all that a queue is sent: the stream of a program over changes that are accepted at a size, from
/// this version on. No value of it is made.
pub struct Promise {
    size: Size,
    program: Filter,
    first: Option<u64>,
}

impl Model for Promise {
    ghost use Rattle.feeds.specs.Promise.{Promise as PromiseValue};

    ghost Value = { PromiseValue };

    ghost view = { λ p. record { size = p.size; program = p.program; first = p.first } };
}

/// What an end of a queue knows. No value of it is made.
pub struct Knows<N: Naming> {
    sends: bool,
    takes: bool,
    capacity: usize,
    gives: Option<Promise>,
    gets: Option<Promise>,
    sent: LinkedList<Item<N>>,
    taken: LinkedList<Item<N>>,
    shown: LinkedList<Item<N>>,
}

impl<N: Naming> Model for Knows<N> {
    ghost use Rattle.subscriber_queues.specs.Rule.{Knows as KnowsValue};

    ghost Value = { KnowsValue };

    ghost view = { λ k. record {
      sends = k.sends;
      takes = k.takes;
      capacity = k.capacity;
      gives = k.gives;
      gets = k.gets;
      sent = k.sent;
      taken = k.taken;
      shown = k.shown;
    } };
}

/// The rule of a queue: what was sent is what was taken and then what waits.
pub struct InOrder;

impl<N: Naming> Protocol<Item<N>, Knows<N>> for InOrder {
    ghost use Rattle.std.specs.Prelude.{true, None, []};
    ghost use Rattle.subscriber_queues.specs.Rule.{knows, IsKept};

    ghost holds = { IsKept };

    ghost first = { knows true true 0 None None [] [] [] };
}

/// How many items may wait, and what is promised of all that is sent. Both are picked for each queue.
pub trait Room {
    ghost use Rattle.std.specs.Prelude.{ℕ, Option};
    ghost use Rattle.feeds.specs.Promise.{Promise};

    ghost room: { ℕ };

    ghost promise: { Option Promise };
}

impl Room for Brand {
    ghost use Rattle.std.specs.Prelude.{None};

    ghost room = { 0 };

    ghost promise = { None };
}

/// Of the two ends one sends and the other takes.
pub struct Ends<C: Room> {
    of: PhantomData<C>,
}

impl<N: Naming, C: Room> Split<Knows<N>> for Ends<C> {
    ghost use Rattle.std.specs.Prelude.{true, false, None, []};
    ghost use Rattle.subscriber_queues.specs.Rule.{knows};

    ghost left = { λ v. knows true false C.room C.promise None v.sent [] [] };

    ghost right = { λ v. knows false true C.room None C.promise [] v.taken [] };
}

/// The two ends as one, and apart again.
pub struct Whole;

impl<N: Naming> Join<Knows<N>> for Whole {
    ghost use Rattle.std.specs.Prelude.{true, false, None, []};
    ghost use Rattle.subscriber_queues.specs.Rule.{knows};

    ghost both = { λ v w. knows true true v.capacity v.gives w.gets v.sent w.taken w.shown };

    ghost spent = { knows false false 0 None None [] [] [] };
}

impl<N: Naming> Split<Knows<N>> for Whole {
    ghost use Rattle.std.specs.Prelude.{true, false, None, []};
    ghost use Rattle.subscriber_queues.specs.Rule.{knows};

    ghost left = { λ v. knows true false v.capacity v.gives None v.sent [] [] };

    ghost right = { λ v. knows false true v.capacity None v.gets [] v.taken v.shown };
}

impl<N: Naming> Lesson<Item<N>, Knows<N>> for Whole {
    ghost use Rattle.std.specs.Prelude.{◌≡◌, ◌≤◌, ◌++◌, length};

    ghost fact = { λ v items. (v.sent ≡ v.taken ++ items) × (length items ≤ v.capacity) };
}

/// A third end, which shows what was sent so far.
pub struct Shows;

impl<N: Naming> Split<Knows<N>> for Shows {
    ghost use Rattle.std.specs.Prelude.{false, None, []};
    ghost use Rattle.subscriber_queues.specs.Rule.{knows};

    ghost left = { λ v. v };

    ghost right = { λ v. knows false false 0 None None [] [] v.sent };
}

impl<N: Naming> Join<Knows<N>> for Shows {
    ghost use Rattle.std.specs.Prelude.{false, None, []};
    ghost use Rattle.subscriber_queues.specs.Rule.{knows};

    ghost both = { λ v w. knows v.sends v.takes v.capacity v.gives v.gets v.sent v.taken w.shown };

    ghost spent = { knows false false 0 None None [] [] [] };
}

/// A push: what was sent grows by the item. Where it is refused, no more can wait than were sent.
pub struct Sends;

impl<N: Naming> Outcome<Item<N>, Knows<N>> for Sends {
    ghost use Rattle.std.specs.Prelude.{◌≡◌, ◌++◌, ◌∷◌, []};
    ghost use Rattle.subscriber_queues.specs.Rule.{knows};

    ghost then = { λ v x w. w ≡ knows v.sends v.takes v.capacity v.gives v.gets (v.sent ++ x ∷ []) v.taken v.shown };
}

impl<N: Naming> Lesson<Item<N>, Knows<N>> for Sends {
    ghost use Rattle.std.specs.Prelude.{◌≤◌, length};

    ghost fact = { λ v items. length items ≤ length v.sent };
}

/// A pop: what was taken grows by the item, is orderly, is as promised, and was sent, as what was shown was. Where none
/// waits, all that was shown was taken.
pub struct Takes;

impl<N: Naming> Outcome<Item<N>, Knows<N>> for Takes {
    ghost use Rattle.std.specs.Prelude.{◌≡◌, ◌++◌, ◌∷◌, []};
    ghost use Rattle.feeds.specs.Orderly.{IsOrderly};
    ghost use Rattle.feeds.specs.Promise.{IsPromised};
    ghost use Rattle.subscriber_queues.specs.Queue.{AreBeginnings};
    ghost use Rattle.subscriber_queues.specs.Rule.{knows};

    ghost then = { λ v x w. (w ≡ knows v.sends v.takes v.capacity v.gives v.gets v.sent (v.taken ++ x ∷ []) v.shown)
        × IsOrderly (v.taken ++ x ∷ []) × IsPromised v.gets (v.taken ++ x ∷ [])
        × AreBeginnings (v.taken ++ x ∷ []) v.shown };
}

impl<N: Naming> Lesson<Item<N>, Knows<N>> for Takes {
    ghost use Rattle.std.specs.Prelude.{◌++◌};
    ghost use Rattle.feeds.specs.Orderly.{IsOrderly};
    ghost use Rattle.subscriber_queues.specs.Queue.{Begins};

    ghost fact = { λ v items. IsOrderly (v.taken ++ items) × Begins v.shown (v.taken ++ items) };
}

pub type Line<N> = RuledArrayQueue<Item<N>, Knows<N>, InOrder>;
