ghost use Rattle.std.specs.Prelude.{◌≡◌, ◌+◌, ◌<◌, ◌≤◌, ◌↔◌, [], ◌∷◌, Some, Err, length, map, take, drop, slice_get};
ghost use Rattle.std.specs.Prelude.{IsTrue, IfOk, OnOk, OnErr, MatchOption, sum};
ghost use Rattle.change_ops.specs.Sizes.{most_changes};
ghost use Rattle.change_ops.specs.Spelling.{change_text};
ghost use Rattle.char_sequence.specs.Newest.{IsLastCounter};
ghost use Rattle.change_counters.specs.Counters.{greatest_counter};
ghost use Rattle.filters.specs.Filters.{IsFilter};
ghost use Rattle.feeds.specs.Feed.{Subscriber};
ghost use Rattle.feeds.specs.Promise.{Suits};
ghost use Rattle.feeds.specs.Stream.{BeginsStream};
ghost use Rattle.change_history.specs.Accepted.{AreAccepted, operations_of};
ghost use Rattle.hub_core.specs.Machine.{HasNoPlace, Submits, Subscribes, TakesJob, Misses, Commits, Pumps, Reissues};
ghost use Rattle.hub_core.specs.Machine.{Closes};
ghost use Rattle.hub_core.specs.Counting.{AreCounts, AreWithinLimits};
ghost use Rattle.subscriber_queues.specs.Queue.{QueueSink as QueueSinkValue, was_sent, IsFull, closed_end, unsent};
ghost use Rattle.hub_core.specs.declared.run.Reply.TheVariants as reply;
ghost use Rattle.core_history.specs.Shares.{accepted_count, Counts as CountsChanges};
ghost use Rattle.core_history.specs.declared.entry.Call.TheVariants as call;
ghost use Rattle.ingest_workers.specs.Calls.{IsStateOf, IsCall, IsSight};
ghost use Rattle.ingest_workers.specs.Holdings.{Settles};
ghost use Rattle.ingest_workers.specs.Sending.{IsOwnSubscriber, Sends};

use crate::text::{next_text, some_texts};
use crate::versions::some_versions;
use call_history::knowledge::HistoryNaming;
use change_counters::greatest_with;
use change_history::refusal::SubmitError;
use change_log::text::ChangeText;
use change_ops::change::Change;
use core_history::entry::CoreBoard;
use core_history::recorded_core::RecordedCore;
use core_history::share::Share;
use feeds::batch::Batch;
use feeds::item::Job;
use hub_core::counts::Counts;
use hub_core::error::{CommitError, NoSubscriber, SubscribeError};
use std::alloc::{AllocError, Global};
use std::marker::Model;
use std::sync::Wait;
use std::sync::ledger::Ledger;
use subscriber_queues::ends::{QueueSink, Subscription};
use version_history::published::{Naming, ProgramToken, VersionToken};

/// What lies under a hub's lock: its core with the history that led to it, the share whose one call is the start of the
/// history, the texts of the accepted changes, for whoever reads them, and the greatest of their counters.
/// Each call is one event of the core, from a consistent state to another; contracts see the core and the history.
#[derive(Drop)]
pub struct Books<'p, N: Naming + HistoryNaming + Ledger, R: Wait + Copy> {
    recorded: RecordedCore<'p, N, R>,
    board: CoreBoard,
    house: Share<N>,
    alloc: Global,
    texts: Vec<ChangeText>,
    greatest: u64,
}

impl<'p, N: Naming + HistoryNaming + Ledger, R: Wait + Copy> Model for Books<'p, N, R> {
    ghost use Rattle.std.specs.Prelude.{◌≡◌, [], ◌∷◌, map};
    ghost use Rattle.change_ops.specs.Spelling.{change_text};
    ghost use Rattle.change_counters.specs.Counters.{greatest_counter};
    ghost use Rattle.change_history.specs.Accepted.{operations_of};
    ghost use Rattle.hub_core.specs.Consistent.{IsConsistent};
    ghost use Rattle.subscriber_queues.specs.Queue.{QueueSink as QueueSinkValue, was_sent, IsFull};
    ghost use Rattle.core_history.specs.Runs.{Recorded};
    ghost use Rattle.core_history.specs.Shares.{Counts as CountsChanges};

    ghost Value = { Recorded QueueSinkValue };

    ghost view = { λ b. b.recorded };

    ghost invariant = { λ b. (b.board.table.shared.table_id ≡ N.table)
        × (b.house.parts ≡ 1) × (b.house.own ≡ 0 ∷ []) × CountsChanges 0 b.house
        × IsConsistent was_sent IsFull b.recorded.core
        × (b.texts.items ≡ map change_text b.recorded.core.changes)
        × (b.greatest ≡ greatest_counter (operations_of b.recorded.core.changes)) × (b.recorded.core.size ≡ N.size) };
}

impl<'p, N: Naming + HistoryNaming + Ledger, R: Wait + Copy> Books<'p, N, R> {
    #[tactic(auto, using(crate::proofs::Counters::greatest_of_none))]
    pub(crate) fn new(
        alloc: Global,
        recorded: RecordedCore<'p, N, R>,
        board: CoreBoard,
        house: Share<N>,
    ) -> Books<'p, N, R>
        requires none { recorded.core.changes ≡ [] }
        requires here { board.table.shared.table_id ≡ N.table }
        requires house { (house.parts ≡ 1) × (house.own ≡ 0 ∷ []) × CountsChanges 0 house }
        ensures { result ≡ recorded.entry }
    {
        recorded.core().stays_consistent();
        Books {
            recorded,
            board,
            house,
            alloc,
            texts: Vec::new(alloc),
            greatest: 0,
        }
    }

    /// Accepts a change and publishes its version, as a call of this share; where it is refused all but the history
    /// stays as it was.
    pub fn submit(
        &mut self,
        rt: &R,
        share: &mut Share<N>,
        change: Change,
    ) -> Result<VersionToken<N>, SubmitError>
        ensures call { IsCall N.size share.old (call.Submit change) (reply.Submitted result) share.new }
        ensures event { Submits self.old.core change result self.new.core }
        ensures ok { OnOk result (accepted_count share.new ≡ accepted_count share.old + 1) }
        ensures err { OnErr result (accepted_count share.new ≡ accepted_count share.old) }
        ensures within { OnOk result (accepted_count share.new ≤ length self.new.core.changes) }
    {
        let core = self.recorded.core();
        let is_full = core.count() >= core.size().changes();
        if is_full {
            return Err(share.refuse_submit(&mut self.recorded, &self.board, &change));
        }
        let Ok((text, kept)) = next_text(self.alloc, &mut self.texts, &change) else {
            return Err(share.refuse_submit(&mut self.recorded, &self.board, &change));
        };
        let greatest = greatest_with(self.greatest, &change);
        let token = share.submit(&mut self.recorded, rt, &self.board, change, kept);
        self.recorded.core().stays_consistent();
        let token = token?;
        self.texts.push_reserved(text);
        self.greatest = greatest;
        Ok(token)
    }

    /// Shows a share the history so far, which has led to the core's state.
    pub fn look(&mut self, share: &mut Share<N>)
        ensures same { self.new ≡ self.old }
        ensures sight { IsSight N.size share.old self.old.core share.new }
    {
        share.look(&mut self.recorded, &self.board);
    }

    /// How many bytes the changes and the versions have taken.
    pub fn taken_bytes(&self) -> u64 {
        self.recorded.core().taken_bytes()
    }

    /// Whether as many subscribers were added, closed ones counted, or are open, as the size allows.
    pub fn is_full(&self) -> bool
        ensures full { IsTrue result ↔ HasNoPlace self.now.core }
        ensures consistent { IsStateOf N.size self.now.core }
    {
        self.recorded.core().is_full()
    }

    /// Whether no version has this number yet.
    pub fn lacks_version(&self, number: u64) -> bool
        ensures lacks { IsTrue result ↔ (length self.now.core.changes < number) }
        ensures consistent { IsStateOf N.size self.now.core }
    {
        self.recorded.core().lacks_version(number)
    }

    /// Adds a subscriber, from the latest version or an earlier one on.
    pub fn subscribe_from(
        &mut self,
        share: &mut Share<N>,
        program: ProgramToken<N>,
        sink: QueueSink<N, R>,
        first: u64,
    ) -> Result<usize, SubscribeError>
        requires none { sink.sent ≡ [] }
        requires suits { Suits sink.promise N.size program.value first }
        ensures call { IsCall N.size share.old (call.SubscribeFrom program sink first) (reply.Subscribed result)
            share.new }
        ensures event { Subscribes self.old.core first program sink result self.new.core }
    {
        // Tells the proof that the history has led to the core's state.
        let _ = self.recorded.core();
        let id = share.subscribe_from(&mut self.recorded, &self.board, program, sink, first);
        self.recorded.core().stays_consistent();
        id
    }

    /// Adds a subscriber, from the latest version on.
    pub fn subscribe(
        &mut self,
        share: &mut Share<N>,
        program: ProgramToken<N>,
        sink: QueueSink<N, R>,
    ) -> Result<usize, SubscribeError>
        requires none { sink.sent ≡ [] }
        requires suits { Suits sink.promise N.size program.value (length self.old.core.changes) }
        ensures call { IsCall N.size share.old (call.Subscribe program sink) (reply.Subscribed result) share.new }
        ensures event { Subscribes self.old.core (length self.old.core.changes) program sink result self.new.core }
    {
        // Tells the proof that the history has led to the core's state.
        let _ = self.recorded.core();
        let id = share.subscribe(&mut self.recorded, &self.board, program, sink);
        self.recorded.core().stays_consistent();
        id
    }

    /// Hands out a version that a subscriber's program is to be run on; None only where there is none.
    pub fn take_job(&mut self, share: &mut Share<N>) -> Option<Job<N>>
        ensures call { IsCall N.size share.old call.TakeJob (reply.Handed result) share.new }
        ensures event { TakesJob self.old.core result self.new.core }
    {
        // Tells the proof that the history has led to the core's state.
        let _ = self.recorded.core();
        let job = share.take_job(&mut self.recorded, &self.board);
        self.recorded.core().stays_consistent();
        job
    }

    /// The job of the first version that an open subscriber waits for, whoever it was handed out to; None only where it
    /// waits for none. Nothing is handed out.
    pub fn missing_job(&self, id: usize) -> Option<Job<N>>
        ensures event { Misses self.now.core id result }
        ensures consistent { IsStateOf N.size self.now.core }
    {
        self.recorded.core().missing_job(id)
    }

    /// Holds a batch, if its subscriber waits for it.
    pub fn commit(&mut self, share: &mut Share<N>, batch: Batch<N>) -> Result<(), CommitError>
        ensures call { IsCall N.size share.old (call.Commit batch) (reply.Committed result) share.new }
        ensures commits { Commits self.old.core batch result self.new.core }
        ensures takes_no_memory { ¬ (result ≡ Err CommitError.OutOfMemory) }
    {
        // Tells the proof that the history has led to the core's state.
        let _ = self.recorded.core();
        let held = share.commit(&mut self.recorded, &self.board, batch);
        self.recorded.core().stays_consistent();
        held
    }

    /// Sends what can be sent to a subscriber. It answers how many items.
    pub fn pump(&mut self, share: &mut Share<N>, id: usize) -> Result<usize, NoSubscriber>
        ensures call { IsCall N.size share.old (call.Pump id) (reply.Pumped result) share.new }
        ensures event { Pumps was_sent IsFull unsent self.old.core id result self.new.core }
    {
        // Tells the proof that the history has led to the core's state.
        let _ = self.recorded.core();
        let sent = share.pump(&mut self.recorded, &self.board, id);
        self.recorded.core().stays_consistent();
        sent
    }

    /// Sends what can be sent to a subscriber that the share added, and has its end meet the hub's. It answers the
    /// first version that wasn't sent whole; None where the subscriber is closed.
    pub fn send(
        &mut self,
        share: &mut Share<N>,
        id: usize,
        end: &mut Subscription<N, R>,
    ) -> Option<u64>
        requires { IsOwnSubscriber share.old id end.old }
        ensures { Sends N.size share.old id end.old result end.new share.new }
    {
        // Tells the proof that the history has led to the core's state.
        let _ = self.recorded.core();
        let _ = share.pump(&mut self.recorded, &self.board, id);
        self.recorded.core().stays_consistent();
        self.recorded.meet(id, end)
    }

    /// What a subscriber doesn't hold may be handed out again.
    pub fn reissue(&mut self, share: &mut Share<N>, id: usize) -> Result<(), NoSubscriber>
        ensures call { IsCall N.size share.old (call.Reissue id) (reply.Reissued result) share.new }
        ensures event { Reissues self.old.core id result self.new.core }
    {
        // Tells the proof that the history has led to the core's state.
        let _ = self.recorded.core();
        let found = share.reissue(&mut self.recorded, &self.board, id);
        self.recorded.core().stays_consistent();
        found
    }

    /// Closes a subscriber for good, with its queue's end, and drops the batches that it holds.
    pub fn close(&mut self, share: &mut Share<N>, id: usize) -> Result<(), NoSubscriber>
        ensures call { IsCall N.size share.old (call.Close id) (reply.Closed result) share.new }
        ensures event { Closes closed_end self.old.core id result self.new.core }
    {
        // Tells the proof that the history has led to the core's state.
        let _ = self.recorded.core();
        let found = share.close(&mut self.recorded, &self.board, id);
        self.recorded.core().stays_consistent();
        found
    }

    /// How many changes were accepted.
    pub fn count(&self) -> usize
        ensures count { result ≡ length self.now.core.changes }
        ensures most { result ≤ most_changes N.size }
        ensures accepted { AreAccepted N.size self.now.core.changes }
    {
        self.recorded.core().count()
    }

    /// The number of the latest version.
    pub fn latest(&self) -> u64
        ensures number { result ≡ length self.now.core.changes }
        ensures consistent { IsStateOf N.size self.now.core }
    {
        self.recorded.core().count() as u64
    }

    /// The token of the version with this number; None where no version has it yet.
    pub fn version(&self, number: u64) -> Option<VersionToken<N>>
        ensures token { result ≡ slice_get self.now.core.versions number }
        ensures consistent { IsStateOf N.size self.now.core }
    {
        self.recorded.core().version(number)
    }

    /// The number of the latest version, and the tokens of `most` versions from one on, or of as many as there are.
    pub fn versions_from(
        &self,
        from: u64,
        most: usize,
    ) -> Result<(u64, Vec<VersionToken<N>>), AllocError>
        ensures versions { IfOk result (λ found. (found.0 ≡ length self.now.core.changes)
            × (found.1.items ≡ take most (drop from self.now.core.versions))) }
        ensures consistent { IsStateOf N.size self.now.core }
    {
        let core = self.recorded.core();
        let latest = core.count() as u64;
        if core.lacks_version(from) {
            return Ok((latest, Vec::new(self.alloc)));
        }
        let versions = some_versions(self.alloc, core, from, most)?;
        Ok((latest, versions))
    }

    /// The token of the latest version, and how much there is of the hub.
    pub fn counts(&self) -> (VersionToken<N>, Counts)
        ensures latest { slice_get self.now.core.versions (length self.now.core.changes) ≡ Some result.0 }
        ensures counts { AreCounts self.now.core result.1 }
        ensures few { AreWithinLimits N.size result.1 }
        ensures consistent { IsStateOf N.size self.now.core }
    {
        (
            self.recorded.core().latest_version(),
            self.recorded.core().counts(),
        )
    }

    /// The texts of `most` accepted changes behind a version, or of as many as there are; None where no version has
    /// that number yet.
    pub fn texts_behind(
        &self,
        from: u64,
        most: usize,
    ) -> Result<Option<Vec<ChangeText>>, AllocError>
        ensures texts { IfOk result (λ found. MatchOption found (length self.now.core.changes < from)
            (λ texts. (from ≤ length self.now.core.changes)
            × (texts.items ≡ map change_text (take most (drop from self.now.core.changes))))) }
        ensures consistent { IsStateOf N.size self.now.core }
    {
        if self.recorded.core().lacks_version(from) {
            return Ok(None);
        }
        let texts = some_texts(self.alloc, self.texts.as_slice(), from as usize, most)?;
        Ok(Some(texts))
    }

    /// The greatest counter of a peer's accepted operations, 0 where it has none.
    pub fn last_counter(&self, node: u16) -> u64
        ensures counter { IsLastCounter (operations_of self.now.core.changes) node result }
        ensures consistent { IsStateOf N.size self.now.core }
    {
        self.recorded.core().last_counter(node)
    }

    /// The greatest counter of all accepted operations, 0 where there are none.
    pub fn greatest_counter(&self) -> u64
        ensures counter { result ≡ greatest_counter (operations_of self.now.core.changes) }
        ensures consistent { IsStateOf N.size self.now.core }
    {
        self.greatest
    }

    /// A subscriber's queue, also of a closed one; None for an unknown id. What it was sent is a beginning of the
    /// stream of its program, of which every run ends with a number, over the accepted changes, from the subscriber's
    /// first version to the last.
    pub fn sink(&self, id: usize) -> Option<&QueueSink<N, R>>
        ensures value { MatchOption result (length self.now.core.subscribers ≤ id)
            (λ sink. (a : Subscriber QueueSinkValue) × (slice_get self.now.core.subscribers id ≡ Some a)
            × (sink.now ≡ a.sink)) }
        ensures stream { (a : Subscriber QueueSinkValue) → slice_get self.now.core.subscribers id ≡ Some a
            → BeginsStream a.program.value self.now.core.changes a.first (length self.now.core.changes)
            (map (λ item. item.what) a.sink.sent) }
        ensures safe { (a : Subscriber QueueSinkValue) → slice_get self.now.core.subscribers id ≡ Some a
            → IsFilter a.program.value }
    {
        self.recorded.core().sink(id)
    }

    /// The number of accepted changes, for whoever has all parts of the history but the house's.
    pub(crate) fn settle(self, shares: Vec<Share<N>>) -> u64
        requires { sum (map (λ share. share.parts) shares.items) + 1 ≡ N.parts }
        ensures { Settles N.size self.entry shares.items result }
    {
        let Books {
            mut recorded,
            board,
            mut house,
            alloc: _,
            texts: _,
            greatest: _,
        } = self;
        let mut shares = shares;
        while let Some(share) = shares.pop() {
            house.take_in(&mut recorded, &board, share);
        }
        house.settle(&mut recorded, &board)
    }
}
