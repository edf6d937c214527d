//! A core, and the history that has led to it.
ghost use Rattle.std.specs.Prelude.{◌≡◌, ◌<◌, ◌++◌, ◌∷◌, [], ℕ, Some, Err, length, MatchOption};
ghost use mathlib.Core.List.{IsPrefix};
ghost use Rattle.change_ops.specs.Changes.{Change as ChangeValue};
ghost use Rattle.change_ops.specs.Spelling.{change_text};
ghost use Rattle.change_history.specs.Accepted.{IsRefused};
ghost use Rattle.feeds.specs.Feed.{Subscriber as SubscriberValue};
ghost use Rattle.feeds.specs.Promise.{Suits};
ghost use Rattle.hub_core.specs.Machine.{IsStart, HasNone, IsOpen};
ghost use Rattle.hub_core.specs.declared.run.Reply.TheVariants as reply;
ghost use Rattle.call_history.specs.Calls.{Extends, IsWhole, TakesIn, looked};
ghost use Rattle.subscriber_queues.specs.Queue.{QueueSink as QueueSinkValue, was_sent, IsFull, closed_end, unsent};
ghost use Rattle.subscriber_queues.specs.Queue.{Meets};
ghost use Rattle.core_history.specs.Runs.{CoreEntry as Entered, IsLegal, IsRunOf, LedTo, Starts, Records};
ghost use Rattle.core_history.specs.declared.entry.Call.TheVariants as call;

use crate::asked::Asked;
use crate::entry::{CoreBoard, CoreEntry, CoreToken};
use crate::start::Start;
use call_history::history::History;
use call_history::knowledge::{HistoryNaming, NextEntry};
use change_history::refusal::SubmitError;
use change_log::text::ChangeText;
use change_ops::change::Change;
use feeds::batch::Batch;
use feeds::item::Job;
use hub_core::error::{CommitError, NoSubscriber, SubscribeError};
use hub_core::hub::Core;
use std::marker::{Brand, Model};
use std::sync::Wait;
use std::sync::ledger::Ledger;
use subscriber_queues::ends::{QueueSink, Subscription};
use version_history::published::{Naming, ProgramToken, VersionToken};

/// A hub's core, whose state is the end of the history `N`. Each call of it adds an entry to the history, a refused one
/// too, which is the caller's own. Contracts see both.
pub struct RecordedCore<'p, N: Naming + HistoryNaming + Ledger, R: Wait + Copy> {
    core: Core<'p, N, QueueSink<N, R>>,
    history: History<N, CoreEntry>,
}

impl<'p, N: Naming + HistoryNaming + Ledger, R: Wait + Copy> Drop for RecordedCore<'p, N, R> {
    fn drop(self) {
        let RecordedCore {
            core: _,
            history: _,
        } = self;
    }
}

impl<'p, N: Naming + HistoryNaming + Ledger, R: Wait + Copy> Model for RecordedCore<'p, N, R> {
    ghost use Rattle.subscriber_queues.specs.Queue.{QueueSink, was_sent, IsFull, closed_end, unsent};
    ghost use Rattle.core_history.specs.Runs.{Recorded, IsRunOf};

    ghost Value = { Recorded QueueSink };

    ghost view = { λ r. record { core = r.core; history = r.history } };

    ghost invariant = { λ r. IsRunOf N.size was_sent IsFull closed_end unsent r.history r.core };
}

/// Records the call by which a core has come to its state. `C` names the entry, by what it is about.
fn record<N: Naming + HistoryNaming + Ledger, R: Wait + Copy, C: NextEntry<CoreEntry>, X>(
    core: &Core<'_, N, QueueSink<N, R>>,
    history: &mut History<N, CoreEntry>,
    board: &CoreBoard,
    me: &mut CoreToken<N>,
    about: &X,
)
    requires here { board.now.table.shared.table_id ≡ N.table }
    requires led { LedTo N.size was_sent IsFull closed_end unsent history.old C.entry core.now }
    ensures run { IsRunOf N.size was_sent IsFull closed_end unsent history.new core.now }
    ensures history { (e : Entered QueueSinkValue) → C.entry ≡ Some e → history.new ≡ history.old ++ e ∷ [] }
    ensures extends { (e : Entered QueueSinkValue) → C.entry ≡ Some e
        → Extends (IsLegal N.size was_sent IsFull closed_end unsent) me.old e me.new }
    ensures seen { me.new.seen ≡ history.new }
{
    core.stays_consistent();
    history.append::<C, X>(board, me, about);
}

/// Why a change is refused where memory is wanting: a history that is full needs none.
fn refusal_without_memory<N: Naming, R: Wait + Copy>(
    core: &Core<'_, N, QueueSink<N, R>>,
) -> SubmitError
    ensures { (change : ChangeValue) → IsRefused core.now.size core.now.changes change result }
{
    if core.count() >= core.size().changes() {
        SubmitError::HistoryFull
    } else {
        SubmitError::OutOfMemory
    }
}

impl<'p, N: Naming + HistoryNaming + Ledger, R: Wait + Copy> RecordedCore<'p, N, R> {
    /// Records a core at its start, and gives the history's board and the token of all parts, whose own call is the
    /// start.
    pub fn new(
        core: Core<'p, N, QueueSink<N, R>>,
        start: Start,
    ) -> (RecordedCore<'p, N, R>, CoreBoard, CoreToken<N>)
        requires begins { IsStart N.size core }
        requires name { start.name ≡ N.name }
        requires parts { (start.parts ≡ N.parts) × (0 < N.parts) }
        requires table { start.table ≡ N.table }
        ensures starts { Starts N.size core.entry N.parts result.0 result.2 }
        ensures here { result.1.table.shared.table_id ≡ N.table }
    {
        let (blank, board, recorder) = start.into_parts();
        let (mut history, mut all) = History::new(&board, recorder, blank);
        history.append::<Brand, _>(&board, &mut all, &core);
        (RecordedCore { core, history }, board, all)
    }

    /// The core, for what reads it.
    pub fn core(&self) -> &Core<'p, N, QueueSink<N, R>>
        ensures core { result.now ≡ self.now.core }
        ensures run { IsRunOf N.size was_sent IsFull closed_end unsent self.now.history self.now.core }
    {
        &self.core
    }

    /// Accepts a change after those before it and publishes its version, whole; where it is refused the core stays as
    /// it was. The text is the change's, which is kept.
    pub(crate) fn submit(
        &mut self,
        rt: &R,
        board: &CoreBoard,
        me: &mut CoreToken<N>,
        change: Change,
        text: ChangeText,
    ) -> Result<VersionToken<N>, SubmitError>
        requires here { board.now.table.shared.table_id ≡ N.table }
        requires spelled { text ≡ change_text change }
        ensures { Records N.size was_sent IsFull closed_end unsent self.old me.old (call.Submit change)
            (reply.Submitted result) self.new me.new }
    {
        self.submit_as::<Brand>(rt, board, me, change, text)
    }

    /// Submits the change of the call that `A` names.
    fn submit_as<A: Asked>(
        &mut self,
        rt: &R,
        board: &CoreBoard,
        me: &mut CoreToken<N>,
        change: Change,
        text: ChangeText,
    ) -> Result<VersionToken<N>, SubmitError>
        requires here { board.now.table.shared.table_id ≡ N.table }
        requires spelled { text ≡ change_text change }
        requires call { A.call ≡ call.Submit change }
        ensures { Records N.size was_sent IsFull closed_end unsent self.old me.old A.call
            (reply.Submitted result) self.new me.new }
    {
        let submitted = self.core.submit_spelled(rt, change, text);
        record::<N, R, Brand, _>(&self.core, &mut self.history, board, me, &submitted);
        submitted
    }

    /// Refuses a change where memory is wanting for what its caller keeps beside the core, of which the core is told
    /// nothing.
    pub(crate) fn refuse_submit(
        &mut self,
        board: &CoreBoard,
        me: &mut CoreToken<N>,
        change: &Change,
    ) -> SubmitError
        requires { board.now.table.shared.table_id ≡ N.table }
        ensures { Records N.size was_sent IsFull closed_end unsent self.old me.old (call.Submit change.now)
            (reply.Submitted (Err result)) self.new me.new }
    {
        let refusal = refusal_without_memory(&self.core);
        record::<N, R, Brand, _>(&self.core, &mut self.history, board, me, &(change, refusal));
        refusal
    }

    /// Closes a subscriber for good, with its sink, and drops the batches that it holds.
    pub(crate) fn close(
        &mut self,
        board: &CoreBoard,
        me: &mut CoreToken<N>,
        id: usize,
    ) -> Result<(), NoSubscriber>
        requires { board.now.table.shared.table_id ≡ N.table }
        ensures { Records N.size was_sent IsFull closed_end unsent self.old me.old (call.Close id)
            (reply.Closed result) self.new me.new }
    {
        let closed = self.core.close(id);
        record::<N, R, Brand, _>(&self.core, &mut self.history, board, me, &(id, closed));
        closed
    }

    /// Adds a subscriber, from the latest version on, to a sink that was sent nothing, and of which nothing is promised
    /// but this program's stream. Ids rise from 0.
    pub(crate) fn subscribe(
        &mut self,
        board: &CoreBoard,
        me: &mut CoreToken<N>,
        program: ProgramToken<N>,
        sink: QueueSink<N, R>,
    ) -> Result<usize, SubscribeError>
        requires here { board.now.table.shared.table_id ≡ N.table }
        requires none { sink.sent ≡ [] }
        requires suits { Suits sink.promise N.size program.value (length self.old.core.changes) }
        ensures { Records N.size was_sent IsFull closed_end unsent self.old me.old (call.Subscribe program sink)
            (reply.Subscribed result) self.new me.new }
    {
        self.subscribe_as::<Brand>(board, me, program, sink)
    }

    /// Adds the subscriber of the call that `A` names.
    fn subscribe_as<A: Asked>(
        &mut self,
        board: &CoreBoard,
        me: &mut CoreToken<N>,
        program: ProgramToken<N>,
        sink: QueueSink<N, R>,
    ) -> Result<usize, SubscribeError>
        requires here { board.now.table.shared.table_id ≡ N.table }
        requires call { A.call ≡ call.Subscribe program sink }
        requires none { sink.sent ≡ [] }
        requires suits { Suits sink.promise N.size program.value (length self.old.core.changes) }
        ensures { Records N.size was_sent IsFull closed_end unsent self.old me.old A.call
            (reply.Subscribed result) self.new me.new }
    {
        let subscribed = self.core.subscribe(program, sink);
        record::<N, R, Brand, _>(&self.core, &mut self.history, board, me, &subscribed);
        subscribed
    }

    /// Adds a subscriber, from the latest version or an earlier one on, to a sink that was sent nothing, and of which
    /// nothing is promised but this program's stream from there on. Ids rise from 0.
    pub(crate) fn subscribe_from(
        &mut self,
        board: &CoreBoard,
        me: &mut CoreToken<N>,
        program: ProgramToken<N>,
        sink: QueueSink<N, R>,
        first: u64,
    ) -> Result<usize, SubscribeError>
        requires here { board.now.table.shared.table_id ≡ N.table }
        requires none { sink.sent ≡ [] }
        requires suits { Suits sink.promise N.size program.value first }
        ensures { Records N.size was_sent IsFull closed_end unsent self.old me.old
            (call.SubscribeFrom program sink first) (reply.Subscribed result) self.new me.new }
    {
        self.subscribe_from_as::<Brand>(board, me, program, sink, first)
    }

    /// Adds the subscriber of the call that `A` names.
    fn subscribe_from_as<A: Asked>(
        &mut self,
        board: &CoreBoard,
        me: &mut CoreToken<N>,
        program: ProgramToken<N>,
        sink: QueueSink<N, R>,
        first: u64,
    ) -> Result<usize, SubscribeError>
        requires here { board.now.table.shared.table_id ≡ N.table }
        requires call { A.call ≡ call.SubscribeFrom program sink first }
        requires none { sink.sent ≡ [] }
        requires suits { Suits sink.promise N.size program.value first }
        ensures { Records N.size was_sent IsFull closed_end unsent self.old me.old A.call
            (reply.Subscribed result) self.new me.new }
    {
        let subscribed = self.core.subscribe_from(program, sink, first);
        record::<N, R, Brand, _>(&self.core, &mut self.history, board, me, &subscribed);
        subscribed
    }

    /// Hands out a version that a subscriber's program is to be run on; None only where there is none.
    pub(crate) fn take_job(&mut self, board: &CoreBoard, me: &mut CoreToken<N>) -> Option<Job<N>>
        requires { board.now.table.shared.table_id ≡ N.table }
        ensures { Records N.size was_sent IsFull closed_end unsent self.old me.old call.TakeJob
            (reply.Handed result) self.new me.new }
    {
        let job = self.core.take_job();
        record::<N, R, Brand, _>(&self.core, &mut self.history, board, me, &job);
        job
    }

    /// Holds a batch, if its subscriber waits for it.
    pub(crate) fn commit(
        &mut self,
        board: &CoreBoard,
        me: &mut CoreToken<N>,
        batch: Batch<N>,
    ) -> Result<(), CommitError>
        requires { board.now.table.shared.table_id ≡ N.table }
        ensures records { Records N.size was_sent IsFull closed_end unsent self.old me.old (call.Commit batch)
            (reply.Committed result) self.new me.new }
        ensures takes_no_memory { ¬ (result ≡ Err CommitError.OutOfMemory) }
    {
        self.commit_as::<Brand>(board, me, batch)
    }

    /// Commits the batch of the call that `A` names.
    fn commit_as<A: Asked>(
        &mut self,
        board: &CoreBoard,
        me: &mut CoreToken<N>,
        batch: Batch<N>,
    ) -> Result<(), CommitError>
        requires here { board.now.table.shared.table_id ≡ N.table }
        requires call { A.call ≡ call.Commit batch }
        ensures records { Records N.size was_sent IsFull closed_end unsent self.old me.old A.call
            (reply.Committed result) self.new me.new }
        ensures takes_no_memory { ¬ (result ≡ Err CommitError.OutOfMemory) }
    {
        let committed = self.core.commit(batch);
        record::<N, R, Brand, _>(&self.core, &mut self.history, board, me, &committed);
        committed
    }

    /// Sends what can be sent to a subscriber. It answers how many items.
    pub(crate) fn pump(
        &mut self,
        board: &CoreBoard,
        me: &mut CoreToken<N>,
        id: usize,
    ) -> Result<usize, NoSubscriber>
        requires { board.now.table.shared.table_id ≡ N.table }
        ensures { Records N.size was_sent IsFull closed_end unsent self.old me.old (call.Pump id)
            (reply.Pumped result) self.new me.new }
    {
        let pumped = self.core.pump(id);
        record::<N, R, Brand, _>(&self.core, &mut self.history, board, me, &(id, pumped));
        pumped
    }

    /// What a subscriber doesn't hold may be handed out again.
    pub(crate) fn reissue(
        &mut self,
        board: &CoreBoard,
        me: &mut CoreToken<N>,
        id: usize,
    ) -> Result<(), NoSubscriber>
        requires { board.now.table.shared.table_id ≡ N.table }
        ensures { Records N.size was_sent IsFull closed_end unsent self.old me.old (call.Reissue id)
            (reply.Reissued result) self.new me.new }
    {
        let reissued = self.core.reissue(id);
        record::<N, R, Brand, _>(&self.core, &mut self.history, board, me, &(id, reissued));
        reissued
    }

    /// Has an open subscriber's end meet the hub's. It answers how far the subscriber was sent: the first version that
    /// isn't sent whole; None where no open one has this id, and then nothing is done.
    pub fn meet(&mut self, id: usize, end: &mut Subscription<N, R>) -> Option<u64>
        requires fits { (a : SubscriberValue QueueSinkValue) → IsOpen self.old.core id a → end.old.line ≡ a.sink.line }
        ensures same { self.new ≡ self.old }
        ensures run { IsRunOf N.size was_sent IsFull closed_end unsent self.old.history self.old.core }
        ensures met { MatchOption result (HasNone self.old.core id × (end.new ≡ end.old))
            (λ cursor. (a : SubscriberValue QueueSinkValue) × IsOpen self.old.core id a × (cursor ≡ a.cursor)
            × Meets a.sink end.old end.new) }
    {
        self.core.meet(id, end)
    }

    /// Shows a caller the history so far, which has led to the core's state.
    pub(crate) fn look(&mut self, board: &CoreBoard, me: &mut CoreToken<N>)
        requires { board.now.table.shared.table_id ≡ N.table }
        ensures same { self.new ≡ self.old }
        ensures begins { IsPrefix me.old.seen self.old.history }
        ensures run { IsRunOf N.size was_sent IsFull closed_end unsent self.old.history self.old.core }
        ensures me { me.new ≡ looked me.old self.old.history }
    {
        self.history.look(board, me);
    }

    /// A caller's token takes in another, with its calls, and sees the history so far.
    pub(crate) fn take_in(&mut self, board: &CoreBoard, me: &mut CoreToken<N>, other: CoreToken<N>)
        requires { board.now.table.shared.table_id ≡ N.table }
        ensures same { self.new ≡ self.old }
        ensures me { TakesIn (IsLegal N.size was_sent IsFull closed_end unsent) me.old other me.new }
        ensures seen { me.new.seen ≡ self.old.history }
    {
        self.history.take_in(board, me, other);
    }

    /// The law of the token that has all parts: the whole history is a run that has led to the core's state, and each
    /// of its entries is the token's own, once.
    pub(crate) fn settle(&mut self, board: &CoreBoard, all: CoreToken<N>)
        requires here { board.now.table.shared.table_id ≡ N.table }
        requires all { all.parts ≡ N.parts }
        ensures same { self.new ≡ self.old }
        ensures run { IsRunOf N.size was_sent IsFull closed_end unsent self.old.history self.old.core }
        ensures whole { IsWhole (IsLegal N.size was_sent IsFull closed_end unsent) self.old.history all }
    {
        self.history.settle(board, all);
    }
}
