//! What each of several callers holds of a core's history.
ghost use Rattle.std.specs.Prelude.{◌≡◌, ◌+◌, ◌-◌, ◌<◌, ◌≤◌, [], Err, OnOk, OnErr, cond, length};
ghost use mathlib.Core.List.{IsPrefix};
ghost use Rattle.change_ops.specs.Spelling.{change_text};
ghost use Rattle.feeds.specs.Promise.{Suits};
ghost use Rattle.hub_core.specs.declared.run.Reply.TheVariants as reply;
ghost use Rattle.call_history.specs.Calls.{AreOwn, IsWhole, TakesIn, looked, own_count};
ghost use Rattle.subscriber_queues.specs.Queue.{was_sent, IsFull, closed_end, unsent};
ghost use Rattle.core_history.specs.Runs.{IsLegal, IsRunOf, Records};
ghost use Rattle.core_history.specs.Shares.{is_accepted, accepted_count};
ghost use Rattle.core_history.specs.declared.entry.Call.TheVariants as call;

use crate::entry::{CoreBoard, CoreToken};
use crate::recorded_core::RecordedCore;
use call_history::knowledge::HistoryNaming;
use change_history::refusal::SubmitError;
use change_log::text::ChangeText;
use change_ops::change::Change;
use feeds::batch::Batch;
use feeds::item::Job;
use hub_core::error::{CommitError, NoSubscriber, SubscribeError};
use std::marker::Model;
use std::sync::Wait;
use std::sync::ledger::Ledger;
use subscriber_queues::ends::QueueSink;
use version_history::published::{Naming, ProgramToken, VersionToken};

/// What a caller holds of a core's history: a token, and how many of its own calls are changes that were accepted.
/// Contracts see the token.
pub struct Share<N: Naming + HistoryNaming + Ledger> {
    token: CoreToken<N>,
    count: u64,
}

impl<N: Naming + HistoryNaming + Ledger> Drop for Share<N> {
    fn drop(self) {
        let Share { token: _, count: _ } = self;
    }
}

impl<N: Naming + HistoryNaming + Ledger> Model for Share<N> {
    ghost use Rattle.call_history.specs.Calls.{Holds};
    ghost use Rattle.subscriber_queues.specs.Queue.{QueueSink};
    ghost use Rattle.core_history.specs.Runs.{CoreEntry};
    ghost use Rattle.core_history.specs.Shares.{Counts};

    ghost Value = { Holds (CoreEntry QueueSink) };

    ghost view = { λ s. s.token };

    ghost invariant = { λ s. Counts s.count s.token };
}

/// How many accepted changes a submission is.
fn counted(is_accepted: bool) -> u64
    ensures { result ≡ cond is_accepted 1 0 }
{
    if is_accepted { 1 } else { 0 }
}

impl<N: Naming + HistoryNaming + Ledger> Share<N> {
    /// The share of a token none of whose own calls is a change that was accepted, as one that began the history.
    pub fn new(token: CoreToken<N>) -> Share<N>
        requires own { AreOwn token }
        requires none { own_count is_accepted token ≡ 0 }
        ensures { result ≡ token }
    {
        Share { token, count: 0 }
    }

    /// Cuts off a part, in a share that has seen as much and made no call.
    pub fn cut(&mut self, board: &CoreBoard) -> Share<N>
        requires here { board.now.table.shared.table_id ≡ N.table }
        requires some { 1 < self.old.parts }
        ensures left { self.new ≡ record { seen = self.old.seen; own = self.old.own; parts = self.old.parts - 1 } }
        ensures given { result ≡ record { seen = self.old.seen; own = []; parts = 1 } }
    {
        Share {
            token: self.token.cut(board),
            count: 0,
        }
    }

    /// How many of its own calls are changes that were accepted.
    pub fn count(&self) -> u64
        ensures { result ≡ accepted_count self.now }
    {
        self.count
    }

    /// [`RecordedCore::submit`], as a call of this share.
    pub fn submit<R: Wait + Copy>(
        &mut self,
        core: &mut RecordedCore<'_, N, R>,
        rt: &R,
        board: &CoreBoard,
        change: Change,
        text: ChangeText,
    ) -> Result<VersionToken<N>, SubmitError>
        requires here { board.now.table.shared.table_id ≡ N.table }
        requires spelled { text ≡ change_text change }
        ensures records { Records N.size was_sent IsFull closed_end unsent core.old self.old (call.Submit change)
            (reply.Submitted result) core.new self.new }
        ensures ok { OnOk result (accepted_count self.new ≡ accepted_count self.old + 1) }
        ensures err { OnErr result (accepted_count self.new ≡ accepted_count self.old) }
        ensures within { accepted_count self.new ≤ length core.new.core.changes }
    {
        let submitted = core.submit(rt, board, &mut self.token, change, text);
        // Tells the proof that the history has led to the core's state.
        let _ = core.core();
        self.count += counted(submitted.is_ok());
        submitted
    }

    /// [`RecordedCore::refuse_submit`], as a call of this share.
    pub fn refuse_submit<R: Wait + Copy>(
        &mut self,
        core: &mut RecordedCore<'_, N, R>,
        board: &CoreBoard,
        change: &Change,
    ) -> SubmitError
        requires { board.now.table.shared.table_id ≡ N.table }
        ensures records { Records N.size was_sent IsFull closed_end unsent core.old self.old (call.Submit change.now)
            (reply.Submitted (Err result)) core.new self.new }
        ensures count { accepted_count self.new ≡ accepted_count self.old }
    {
        core.refuse_submit(board, &mut self.token, change)
    }

    /// [`RecordedCore::close`], as a call of this share.
    pub fn close<R: Wait + Copy>(
        &mut self,
        core: &mut RecordedCore<'_, N, R>,
        board: &CoreBoard,
        id: usize,
    ) -> Result<(), NoSubscriber>
        requires { board.now.table.shared.table_id ≡ N.table }
        ensures { Records N.size was_sent IsFull closed_end unsent core.old self.old (call.Close id)
            (reply.Closed result) core.new self.new }
    {
        core.close(board, &mut self.token, id)
    }

    /// [`RecordedCore::subscribe`], as a call of this share.
    pub fn subscribe<R: Wait + Copy>(
        &mut self,
        core: &mut RecordedCore<'_, N, R>,
        board: &CoreBoard,
        program: ProgramToken<N>,
        sink: QueueSink<N, R>,
    ) -> Result<usize, SubscribeError>
        requires here { board.now.table.shared.table_id ≡ N.table }
        requires none { sink.sent ≡ [] }
        requires suits { Suits sink.promise N.size program.value (length core.old.core.changes) }
        ensures { Records N.size was_sent IsFull closed_end unsent core.old self.old (call.Subscribe program sink)
            (reply.Subscribed result) core.new self.new }
    {
        core.subscribe(board, &mut self.token, program, sink)
    }

    /// [`RecordedCore::subscribe_from`], as a call of this share.
    pub fn subscribe_from<R: Wait + Copy>(
        &mut self,
        core: &mut RecordedCore<'_, N, R>,
        board: &CoreBoard,
        program: ProgramToken<N>,
        sink: QueueSink<N, R>,
        first: u64,
    ) -> Result<usize, SubscribeError>
        requires here { board.now.table.shared.table_id ≡ N.table }
        requires none { sink.sent ≡ [] }
        requires suits { Suits sink.promise N.size program.value first }
        ensures { Records N.size was_sent IsFull closed_end unsent core.old self.old
            (call.SubscribeFrom program sink first) (reply.Subscribed result) core.new self.new }
    {
        core.subscribe_from(board, &mut self.token, program, sink, first)
    }

    /// [`RecordedCore::take_job`], as a call of this share.
    pub fn take_job<R: Wait + Copy>(
        &mut self,
        core: &mut RecordedCore<'_, N, R>,
        board: &CoreBoard,
    ) -> Option<Job<N>>
        requires { board.now.table.shared.table_id ≡ N.table }
        ensures { Records N.size was_sent IsFull closed_end unsent core.old self.old call.TakeJob
            (reply.Handed result) core.new self.new }
    {
        core.take_job(board, &mut self.token)
    }

    /// [`RecordedCore::commit`], as a call of this share.
    pub fn commit<R: Wait + Copy>(
        &mut self,
        core: &mut RecordedCore<'_, N, R>,
        board: &CoreBoard,
        batch: Batch<N>,
    ) -> Result<(), CommitError>
        requires { board.now.table.shared.table_id ≡ N.table }
        ensures records { Records N.size was_sent IsFull closed_end unsent core.old self.old (call.Commit batch)
            (reply.Committed result) core.new self.new }
        ensures takes_no_memory { ¬ (result ≡ Err CommitError.OutOfMemory) }
    {
        core.commit(board, &mut self.token, batch)
    }

    /// [`RecordedCore::pump`], as a call of this share.
    pub fn pump<R: Wait + Copy>(
        &mut self,
        core: &mut RecordedCore<'_, N, R>,
        board: &CoreBoard,
        id: usize,
    ) -> Result<usize, NoSubscriber>
        requires { board.now.table.shared.table_id ≡ N.table }
        ensures { Records N.size was_sent IsFull closed_end unsent core.old self.old (call.Pump id)
            (reply.Pumped result) core.new self.new }
    {
        core.pump(board, &mut self.token, id)
    }

    /// [`RecordedCore::reissue`], as a call of this share.
    pub fn reissue<R: Wait + Copy>(
        &mut self,
        core: &mut RecordedCore<'_, N, R>,
        board: &CoreBoard,
        id: usize,
    ) -> Result<(), NoSubscriber>
        requires { board.now.table.shared.table_id ≡ N.table }
        ensures { Records N.size was_sent IsFull closed_end unsent core.old self.old (call.Reissue id)
            (reply.Reissued result) core.new self.new }
    {
        core.reissue(board, &mut self.token, id)
    }

    /// Sees the history so far, which has led to the core's state.
    pub fn look<R: Wait + Copy>(&mut self, core: &mut RecordedCore<'_, N, R>, board: &CoreBoard)
        requires { board.now.table.shared.table_id ≡ N.table }
        ensures same { core.new ≡ core.old }
        ensures begins { IsPrefix self.old.seen core.old.history }
        ensures run { IsRunOf N.size was_sent IsFull closed_end unsent core.old.history core.old.core }
        ensures me { self.new ≡ looked self.old core.old.history }
    {
        core.look(board, &mut self.token);
    }

    /// Takes in another share, with its calls, and sees the history so far.
    pub fn take_in<R: Wait + Copy>(
        &mut self,
        core: &mut RecordedCore<'_, N, R>,
        board: &CoreBoard,
        other: Share<N>,
    )
        requires { board.now.table.shared.table_id ≡ N.table }
        ensures same { core.new ≡ core.old }
        ensures me { TakesIn (IsLegal N.size was_sent IsFull closed_end unsent) self.old other self.new }
        ensures seen { self.new.seen ≡ core.old.history }
        ensures count { accepted_count self.new ≡ accepted_count self.old + accepted_count other }
    {
        let Share { token, count } = other;
        core.take_in(board, &mut self.token, token);
        self.token.has_distinct_places(board);
        self.count += count;
    }

    /// The law of the share that has all parts: the whole history is a run that has led to the core's state, each of
    /// its entries is the share's own call, once, and the share's count, which is answered, is that of all changes.
    pub fn settle<R: Wait + Copy>(self, core: &mut RecordedCore<'_, N, R>, board: &CoreBoard) -> u64
        requires here { board.now.table.shared.table_id ≡ N.table }
        requires all { self.parts ≡ N.parts }
        ensures same { core.new ≡ core.old }
        ensures run { IsRunOf N.size was_sent IsFull closed_end unsent core.old.history core.old.core }
        ensures whole { IsWhole (IsLegal N.size was_sent IsFull closed_end unsent) core.old.history self }
        ensures own { result ≡ own_count is_accepted self }
        ensures count { result ≡ length core.old.core.changes }
    {
        let Share { token, count } = self;
        core.settle(board, token);
        count
    }
}
