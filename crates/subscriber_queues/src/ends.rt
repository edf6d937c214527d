//! The two ends of a subscriber's queue.
ghost use Rattle.std.specs.Prelude.{◌≡◌, ◌<◌, ◌↔◌, Some, None, true, false, [], ◌∷◌, ◌++◌, IfOk, IfErr, OnOk};
ghost use Rattle.std.specs.Prelude.{IfSome, IfNone, MatchOption};
ghost use Rattle.crossbeam_queue.specs.Passes.{view as view_of};
ghost use Rattle.feeds.specs.Orderly.{IsOrderly};
ghost use Rattle.feeds.specs.Promise.{IsPromised};
ghost use Rattle.subscriber_queues.specs.Queue.{IsCapacity, Begins, AreBeginnings, AreEnds, Meets};

use crate::rule::{Ends, Knows, Line, Room, Sends, Shows, Takes, Whole};
use crossbeam_queue::Pass;
use feeds::item::Item;
use feeds::sink::Sink;
use filters::filter::Filter;
use refusal_titles::{BAD_CAPACITY, OUT_OF_MEMORY};
use std::alloc::{AllocError, Global};
use std::marker::{Brand, Model};
use std::mem;
use std::sync::{Arc, Wait};
use thiserror::Error;
use version_history::published::Naming;

/// The most items that may wait in a queue.
pub const CAPACITY_LIMIT: usize = 1024;

/// The hub's end of a subscriber's queue. Contracts see which queue it is of, what was sent, the capacity, what is
/// promised of all that is sent, and whether it is open. A closed one doesn't keep the queue, whose memory goes with
/// the subscriber's end; what it knows of the queue takes none.
pub struct QueueSink<N: Naming, R: Wait + Copy> {
    rt: R,
    line: Option<Arc<Line<N>, Global>>,
    pass: Pass<Item<N>, Knows<N>>,
}

impl<N: Naming, R: Wait + Copy> Drop for QueueSink<N, R> {
    fn drop(self) {
        let QueueSink {
            rt: _,
            line: _,
            pass: _,
        } = self;
    }
}

impl<N: Naming, R: Wait + Copy> Model for QueueSink<N, R> {
    ghost use Rattle.std.specs.Prelude.{◌≡◌, true, [], is_some, IfSome};
    ghost use Rattle.std.specs.Arc.{arc_value};
    ghost use Rattle.crossbeam_queue.specs.Passes.{view as view_of, IsPassOf, ruled_capacity};
    ghost use Rattle.subscriber_queues.specs.Queue.{QueueSink as QueueSinkValue};

    ghost Value = { QueueSinkValue };

    ghost view = { λ s. record {
      line = s.pass.table_id;
      sent = (view_of s.pass).sent;
      capacity = (view_of s.pass).capacity;
      promise = (view_of s.pass).gives;
      sends = is_some s.line;
    } };

    ghost invariant = { λ s. (s.pass.me.1 ≡ []) × ((view_of s.pass).sends ≡ true)
        × IfSome s.line (λ line. IsPassOf (arc_value line) s.pass
        × ((view_of s.pass).capacity ≡ ruled_capacity (arc_value line))) };
}

/// The subscriber's end of its queue. Contracts see which queue it is of, what it was promised, what was taken, and
/// what was shown to have been sent.
pub struct Subscription<N: Naming, R: Wait + Copy> {
    rt: R,
    line: Arc<Line<N>, Global>,
    pass: Pass<Item<N>, Knows<N>>,
}

impl<N: Naming, R: Wait + Copy> Drop for Subscription<N, R> {
    fn drop(self) {
        let Subscription {
            rt: _,
            line: _,
            pass: _,
        } = self;
    }
}

impl<N: Naming, R: Wait + Copy> Model for Subscription<N, R> {
    ghost use Rattle.std.specs.Prelude.{◌≡◌, true};
    ghost use Rattle.std.specs.Arc.{arc_value};
    ghost use Rattle.crossbeam_queue.specs.Passes.{view as view_of, IsPassOf};
    ghost use Rattle.feeds.specs.Orderly.{IsOrderly};
    ghost use Rattle.feeds.specs.Promise.{IsPromised};
    ghost use Rattle.subscriber_queues.specs.Queue.{Subscription as SubscriptionValue};

    ghost Value = { SubscriptionValue };

    ghost view = { λ s. record {
      line = s.pass.table_id;
      promise = (view_of s.pass).gets;
      taken = (view_of s.pass).taken;
      shown = (view_of s.pass).shown;
    } };

    ghost invariant = { λ s. IsPassOf (arc_value s.line) s.pass × ((view_of s.pass).takes ≡ true)
        × IsOrderly (view_of s.pass).taken × IsPromised (view_of s.pass).gets (view_of s.pass).taken };
}

/// What was sent to a queue up to a moment. It is known for good, and takes no memory.
pub struct Shown<N: Naming> {
    pass: Pass<Item<N>, Knows<N>>,
}

impl<N: Naming> Drop for Shown<N> {
    fn drop(self) {
        let Shown { pass: _ } = self;
    }
}

impl<N: Naming> Model for Shown<N> {
    ghost use Rattle.std.specs.Prelude.{◌≡◌, []};
    ghost use Rattle.crossbeam_queue.specs.Passes.{view as view_of};
    ghost use Rattle.subscriber_queues.specs.Queue.{Shown as ShownValue};

    ghost Value = { ShownValue };

    ghost view = { λ s. record { line = s.pass.table_id; shown = (view_of s.pass).shown } };

    ghost invariant = { λ s. s.pass.me.1 ≡ [] };
}

impl<N: Naming> Shown<N> {
    fn into_pass(self) -> Pass<Item<N>, Knows<N>>
        ensures line { result.table_id ≡ self.line }
        ensures shown { (view_of result).shown ≡ self.shown }
        ensures idle { result.me.1 ≡ [] }
    {
        let Shown { pass } = self;
        pass
    }
}

impl<N: Naming, R: Wait + Copy> Sink<Item<N>> for QueueSink<N, R> {
    ghost use Rattle.std.specs.Prelude.{◌≡◌, ◌++◌, ◌∷◌, [], IfErr, OnOk, true};
    ghost use Rattle.subscriber_queues.specs.Queue.{IsFull, closed_end, unsent, Meets};

    type End = Subscription<N, R>;

    ghost sent = { λ s. s.sent };

    ghost full = { IsFull };

    ghost promise = { λ s. s.promise };

    ghost closed = { closed_end };

    ghost bare = { unsent };

    ghost fits = { λ end s. end.line ≡ s.line };

    ghost meets = { Meets };

    fn push(&mut self, item: Item<N>) -> Result<(), Item<N>>
        requires orderly { IsOrderly (self.old.sent ++ item ∷ []) }
        requires promised { IsPromised self.old.promise (self.old.sent ++ item ∷ []) }
        ensures ok { OnOk result (self.new.sent ≡ self.old.sent ++ item ∷ []) }
        ensures err { IfErr result (λ back. (back ≡ item) × (self.new.sent ≡ self.old.sent) × IsFull self.new) }
        ensures kept { self.new.promise ≡ self.old.promise }
        ensures capacity { self.new.capacity ≡ self.old.capacity }
        ensures line { self.new.line ≡ self.old.line }
        ensures stays { self.new.sends ≡ self.old.sends }
        ensures sends { OnOk result (self.old.sends ≡ true) }
    {
        let Some(line) = &self.line else {
            return Err(item);
        };
        line.push_as::<Sends, R>(&self.rt, &mut self.pass, item)
    }

    /// The queue's memory goes with the subscriber's end.
    fn close(&mut self)
        ensures value { self.new ≡ closed_end self.old }
    {
        self.line = None;
    }

    /// [`Subscription::compare`], and the subscriber's end learns what was sent so far, if this one isn't closed.
    fn meet(&mut self, end: &mut Subscription<N, R>)
        requires fits { end.old.line ≡ self.old.line }
        ensures same { self.new ≡ self.old }
        ensures meets { Meets self.old end.old end.new }
    {
        end.compare(self);
        if let Some(shown) = self.shown() {
            end.learn(shown);
        }
    }
}

impl<N: Naming, R: Wait + Copy> QueueSink<N, R> {
    /// Shows what was sent so far; None where it is closed.
    pub fn shown(&mut self) -> Option<Shown<N>>
        ensures same { self.new ≡ self.old }
        ensures shown { MatchOption result (self.old.sends ≡ false) (λ shown. (self.old.sends ≡ true)
            × (shown ≡ record { line = self.old.line; shown = self.old.sent })) }
    {
        let Some(line) = &self.line else {
            return None;
        };
        Some(Shown {
            pass: line.another::<Shows>(&mut self.pass),
        })
    }
}

impl<N: Naming, R: Wait + Copy> Subscription<N, R> {
    /// Takes the item that waits longest; None where none waits, and then all that was shown has been taken. What was
    /// taken so far are the batches of one program on versions in their order, the last perhaps unfinished, and as was
    /// promised; and of it and what was shown one begins the other.
    pub fn take(&mut self) -> Option<Item<N>>
        ensures some { IfSome result (λ item. self.new ≡ record self.old { taken = self.old.taken ++ item ∷ [] }) }
        ensures none { IfNone result ((self.new ≡ self.old) × Begins self.old.shown self.old.taken) }
        ensures orderly { IsOrderly self.new.taken }
        ensures promised { IsPromised self.new.promise self.new.taken }
        ensures begins { AreBeginnings self.new.taken self.new.shown }
    {
        self.line.pop_as::<Takes, R>(&self.rt, &mut self.pass)
    }

    /// The law of what was taken so far: the batches of one program on versions in their order, the last perhaps
    /// unfinished, and as was promised.
    pub fn stays_orderly(&self)
        ensures orderly { IsOrderly self.now.taken }
        ensures promised { IsPromised self.now.promise self.now.taken }
    {
        let _line = &self.line;
    }

    /// Learns what was shown, instead of what it knew before.
    pub fn learn(&mut self, shown: Shown<N>)
        requires { shown.line ≡ self.old.line }
        ensures { self.new ≡ record self.old { shown = shown.shown } }
    {
        self.line.absorb::<Shows>(&mut self.pass, shown.into_pass());
    }

    /// The law of the two ends of one queue, the hub's closed or not: what was taken of it is a beginning of what was
    /// sent, and no more waits than may.
    pub fn compare(&mut self, sink: &mut QueueSink<N, R>)
        requires { self.old.line ≡ sink.old.line }
        ensures sink { sink.new ≡ sink.old }
        ensures end { self.new ≡ self.old }
        ensures ends { AreEnds sink.old self.old }
    {
        // The two passes become one, which knows both ends, and are parted again. For so long the end has a spare one.
        let spare = self.line.another::<Shows>(&mut sink.pass);
        let pass = mem::replace(&mut self.pass, spare);
        self.line.absorb::<Whole>(&mut sink.pass, pass);
        self.line.learn_as::<Whole>(&mut sink.pass);
        self.pass = self.line.another::<Whole>(&mut sink.pass);
    }
}

/// Why a queue was not made.
#[derive(Clone, Copy, Debug, PartialEq, Eq, Error)]
pub enum QueueError {
    /// The capacity is not 1 to 1,024.
    #[error("{BAD_CAPACITY}")]
    BadCapacity,
    /// No memory was found.
    #[error("{OUT_OF_MEMORY}")]
    OutOfMemory,
}

/// The two ends of a new queue, in which at most `capacity` items wait, 1 to 1,024. It has its room from the start, and
/// nothing is promised of what is sent.
pub fn queue<N: Naming, R: Wait + Copy>(
    rt: R,
    alloc: Global,
    capacity: usize,
) -> Result<(QueueSink<N, R>, Subscription<N, R>), QueueError>
    ensures sink { IfOk result (λ q. (q.0.sent ≡ []) × (q.0.capacity ≡ capacity) × (q.0.promise ≡ None)
        × (q.0.sends ≡ true)) }
    ensures end { IfOk result (λ q. q.1 ≡ record { line = q.0.line; promise = None; taken = []; shown = [] }) }
    ensures range { OnOk result (IsCapacity capacity) }
    ensures bad { IfErr result (λ e. (e ≡ QueueError.BadCapacity) ↔ ¬ IsCapacity capacity) }
{
    sized::<N, R, Brand>(rt, alloc, capacity)
}

/// The two ends of a new queue, as of [`queue`], with a promise: all that is sent begins the stream of this program
/// over changes that are accepted at the hub's size, from this version on or, where none is named, from some version
/// on.
pub fn queue_for<N: Naming, R: Wait + Copy>(
    rt: R,
    alloc: Global,
    capacity: usize,
    program: &Filter,
    first: Option<u64>,
) -> Result<(QueueSink<N, R>, Subscription<N, R>), QueueError>
    ensures sink { IfOk result (λ q. (q.0.sent ≡ []) × (q.0.capacity ≡ capacity)
        × (q.0.promise ≡ Some (record { size = N.size; program = program.now; first = first }))
        × (q.0.sends ≡ true)) }
    ensures end { IfOk result (λ q. q.1
        ≡ record {
          line = q.0.line;
          promise = Some (record { size = N.size; program = program.now; first = first });
          taken = [];
          shown = [];
        }) }
    ensures range { OnOk result (IsCapacity capacity) }
    ensures bad { IfErr result (λ e. (e ≡ QueueError.BadCapacity) ↔ ¬ IsCapacity capacity) }
{
    promised::<N, R, Brand>(rt, alloc, capacity, program, first)
}

/// A queue of this capacity, if it is one, and with the promise of this program's stream; `C` names both.
fn promised<N: Naming, R: Wait + Copy, C: Room>(
    rt: R,
    alloc: Global,
    capacity: usize,
    program: &Filter,
    first: Option<u64>,
) -> Result<(QueueSink<N, R>, Subscription<N, R>), QueueError>
    requires room { capacity ≡ C.room }
    requires promise { C.promise ≡ Some (record { size = N.size; program = program.now; first = first }) }
    ensures sink { IfOk result (λ q. (q.0.sent ≡ []) × (q.0.capacity ≡ capacity) × (q.0.promise ≡ C.promise)
        × (q.0.sends ≡ true)) }
    ensures end { IfOk result (λ q. q.1 ≡ record { line = q.0.line; promise = C.promise; taken = []; shown = [] }) }
    ensures range { OnOk result (IsCapacity capacity) }
    ensures bad { IfErr result (λ e. (e ≡ QueueError.BadCapacity) ↔ ¬ IsCapacity capacity) }
{
    let _ = program;
    let _ = first;
    sized::<N, R, C>(rt, alloc, capacity)
}

/// A queue of this capacity, if it is one, and with this promise; `C` names both.
fn sized<N: Naming, R: Wait + Copy, C: Room>(
    rt: R,
    alloc: Global,
    capacity: usize,
) -> Result<(QueueSink<N, R>, Subscription<N, R>), QueueError>
    requires { capacity ≡ C.room }
    ensures sink { IfOk result (λ q. (q.0.sent ≡ []) × (q.0.capacity ≡ capacity) × (q.0.promise ≡ C.promise)
        × (q.0.sends ≡ true)) }
    ensures end { IfOk result (λ q. q.1 ≡ record { line = q.0.line; promise = C.promise; taken = []; shown = [] }) }
    ensures range { OnOk result (IsCapacity capacity) }
    ensures bad { IfErr result (λ e. (e ≡ QueueError.BadCapacity) ↔ ¬ IsCapacity capacity) }
{
    if capacity < 1 || CAPACITY_LIMIT < capacity {
        return Err(QueueError::BadCapacity);
    }
    match made::<N, R, C>(rt, alloc, capacity) {
        Ok(ends) => Ok(ends),
        Err(_) => Err(QueueError::OutOfMemory),
    }
}

/// A queue of this capacity and with this promise, which `C` names.
#[tactic(auto, using(crate::proofs::Empty::orderly_none, crate::proofs::Empty::promised_none))]
fn made<N: Naming, R: Wait + Copy, C: Room>(
    rt: R,
    alloc: Global,
    capacity: usize,
) -> Result<(QueueSink<N, R>, Subscription<N, R>), AllocError>
    requires some { 0 < capacity }
    requires room { capacity ≡ C.room }
    ensures sink { IfOk result (λ q. (q.0.sent ≡ []) × (q.0.capacity ≡ capacity) × (q.0.promise ≡ C.promise)
        × (q.0.sends ≡ true)) }
    ensures end { IfOk result (λ q. q.1 ≡ record { line = q.0.line; promise = C.promise; taken = []; shown = [] }) }
{
    let (line, mut sender) = Line::<N>::ruled(alloc, capacity)?;
    let taker = line.another::<Ends<C>>(&mut sender);
    let line = Arc::new(alloc, line)?;
    let theirs = Arc::try_clone(&line)?;
    Ok((
        QueueSink {
            rt,
            line: Some(line),
            pass: sender,
        },
        Subscription {
            rt,
            line: theirs,
            pass: taker,
        },
    ))
}
