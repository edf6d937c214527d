ghost use Rattle.std.specs.Prelude.{◌≡◌, ℕ, ◌<◌, ◌≤◌, ◌↔◌, [], Some, Err, length, map, take, drop, slice_get, All};
ghost use Rattle.std.specs.Prelude.{IsTrue, IfOk, MatchOption, ◌+◌, vec_len, vec_capacity};
ghost use Rattle.change_ops.specs.Spelling.{change_text};
ghost use Rattle.char_sequence.specs.Newest.{IsLastCounter};
ghost use Rattle.change_counters.specs.Counters.{greatest_counter};
ghost use Rattle.feeds.specs.Promise.{Suits};
ghost use Rattle.change_history.specs.Accepted.{operations_of};
ghost use Rattle.hub_core.specs.Machine.{HasNoPlace, Misses};
ghost use Rattle.hub_core.specs.Counting.{AreCounts, AreWithinLimits};
ghost use Rattle.hub_core.specs.declared.run.Reply.TheVariants as reply;
ghost use Rattle.core_history.specs.declared.entry.Call.TheVariants as call;
ghost use Rattle.core_history.specs.Hubs.{IsHubLegal};
ghost use Rattle.ingest_workers.specs.Calls.{IsCall, IsSight, IsLook};
ghost use Rattle.ingest_workers.specs.Holdings.{IsIdle};
ghost use Rattle.ingest_workers.specs.Sending.{IsOwnSubscriber, Sends};

use crate::books::Books;
use crate::kept::Kept;
use crate::progress::Progress;
use crate::turns::{Turn, Turns};
use crate::under_way::{Counted, UnderWay};
use call_history::knowledge::HistoryNaming;
use change_log::text::ChangeText;
use change_ops::change::Change;
use change_ops::size::Size;
use core_history::entry::CoreBoard;
use core_history::recorded_core::RecordedCore;
use core_history::share::Share;
use core_history::start::Start;
use feeds::batch::Batch;
use feeds::item::Job;
use hub_core::counts::Counts;
use hub_core::error::{CommitError, NoSubscriber, SubscribeError};
use hub_core::hub::Core;
use hub_core::memory::most_bytes;
use std::alloc::{AllocError, Global};
use std::sync::ledger::Ledger;
use std::sync::{Mutex, MutexGuard, Wait};
use subscriber_queues::ends::{QueueSink, Subscription};
use version_history::published::{Naming, ProgramToken, Published, VersionToken};

/// A hub that threads share. Each call is one of the caller's share: it holds the lock once, for one call of the books,
/// and calls have it in the order in which they came.
#[derive(Drop)]
pub struct Hub<'p, N: Naming + HistoryNaming + Ledger, R: Wait + Copy> {
    pub(crate) published: Published<'p, N>,
    turns: Turns,
    books: Mutex<Books<'p, N, R>>,
    kept: Kept<N>,
    progress: Progress,
    sessions: UnderWay,
    changes: UnderWay,
}

/// What lies under a hub's lock, for as long as a turn is held.
pub(crate) struct Holding<'h, 'p, N: Naming + HistoryNaming + Ledger, R: Wait + Copy> {
    pub(crate) books: MutexGuard<'h, Books<'p, N, R>>,
    turn: Turn<'h>,
}

impl<N: Naming + HistoryNaming + Ledger, R: Wait + Copy> Drop for Holding<'_, '_, N, R> {
    /// The lock is given back before the turn ends, so that no other thread waits for it than the one whose turn it is.
    fn drop(self) {
        let Holding { books, turn } = self;
        drop(books);
        drop(turn);
    }
}

impl<'p, N: Naming + HistoryNaming + Ledger, R: Wait + Copy> Holding<'_, 'p, N, R> {
    /// Shows a share the history so far, and gives the books that it has led to.
    fn look(&mut self, share: &mut Share<N>) -> &Books<'p, N, R>
        ensures { IsSight N.size share.old result.now.core share.new }
    {
        self.books.look(share);
        &*self.books
    }
}

/// Cuts so many parts off a share, for which there is room among these.
fn cut_all<N: Naming + HistoryNaming + Ledger>(
    share: &mut Share<N>,
    board: &CoreBoard,
    given: &mut Vec<Share<N>>,
    count: usize,
)
    requires here { board.now.table.shared.table_id ≡ N.table }
    requires parts { share.old.parts ≡ count + 1 }
    requires legal { IsHubLegal N.size share.old.seen }
    requires room { vec_len given.old + count ≤ vec_capacity given.old }
    ensures left { share.new ≡ record { seen = share.old.seen; own = share.old.own; parts = 1 } }
    ensures count { vec_len given.new ≡ vec_len given.old + count }
    ensures idle { All (IsIdle N.size) given.old.items → All (IsIdle N.size) given.new.items }
{
    for _i in 0..count {
        given.push_reserved(share.cut(board));
    }
}

impl<'p, N: Naming + HistoryNaming + Ledger, R: Wait + Copy> Hub<'p, N, R> {
    /// A hub with no change and no subscriber, which publishes version 0, and `shares` shares of its history, none of
    /// which has made a call.
    pub fn new(
        rt: &R,
        alloc: Global,
        start: Start,
        published: &Published<'p, N>,
        shares: usize,
    ) -> Result<(Hub<'p, N, R>, Vec<Share<N>>), AllocError>
        requires name { (start.name ≡ N.name) × (start.table ≡ N.table) }
        requires parts { (start.parts ≡ N.parts) × (N.parts ≡ shares + 1) }
        requires range { (1 ≤ shares) × (shares ≤ 256) }
        ensures { IfOk result (λ made. (vec_len made.1 ≡ shares) × All (IsIdle N.size) made.1.items) }
    {
        // All other memory is found before version 0 is published, which stays published.
        let kept = Kept::new(alloc, published.size())?;
        let progress = Progress::new(alloc, published.size())?;
        let mut given = Vec::with_capacity(alloc, shares)?;
        let core = Core::new(rt, alloc, published)?;
        let (recorded, board, all) = RecordedCore::new(core, start);
        let mut house = Share::new(all);
        cut_all(&mut house, &board, &mut given, shares);
        let books = Books::new(alloc, recorded, board, house);
        let hub = Hub {
            published: published.again(),
            turns: Turns::new(),
            books: Mutex::new(books),
            kept,
            progress,
            sessions: UnderWay::new(),
            changes: UnderWay::new(),
        };
        Ok((hub, given))
    }

    /// How much its document may hold.
    pub fn size(&self) -> Size
        ensures { result ≡ N.size }
    {
        self.published.size()
    }

    /// Takes the lock, behind all calls that came before.
    pub(crate) fn hold(&self, rt: &R) -> Holding<'_, 'p, N, R> {
        let turn = self.turns.wait(rt);
        Holding {
            books: self.books.lock(rt),
            turn,
        }
    }

    /// Whether as many subscribers were added, closed ones counted, or were open, as the size allows. One that asks
    /// first need not publish a program that no subscriber would have.
    pub fn is_full(&self, rt: &R, share: &mut Share<N>) -> bool
        ensures { IsLook N.size share.old (λ s. IsTrue result ↔ HasNoPlace s) share.new }
    {
        self.hold(rt).look(share).is_full()
    }

    /// Whether no version had this number yet. A version stays, so one that asks first need not publish a program for a
    /// version that isn't there.
    pub fn lacks_version(&self, rt: &R, share: &mut Share<N>, number: u64) -> bool
        ensures { IsLook N.size share.old (λ s. IsTrue result ↔ (length s.changes < number)) share.new }
    {
        self.hold(rt).look(share).lacks_version(number)
    }

    /// The number of the latest version.
    pub fn latest(&self, rt: &R, share: &mut Share<N>) -> u64
        ensures { IsLook N.size share.old (λ s. result ≡ length s.changes) share.new }
    {
        self.hold(rt).look(share).latest()
    }

    /// The token of the version with this number; None where no version had it yet.
    pub fn version(&self, rt: &R, share: &mut Share<N>, number: u64) -> Option<VersionToken<N>>
        ensures { IsLook N.size share.old (λ s. result ≡ slice_get s.versions number) share.new }
    {
        self.hold(rt).look(share).version(number)
    }

    /// The number of the latest version, and the tokens of `most` versions from one on, or of as many as there were. A
    /// version stays, so what is to be known of these needs no lock.
    pub fn versions_from(
        &self,
        rt: &R,
        share: &mut Share<N>,
        from: u64,
        most: usize,
    ) -> Result<(u64, Vec<VersionToken<N>>), AllocError>
        ensures { IsLook N.size share.old (λ s. IfOk result (λ found. (found.0 ≡ length s.changes)
            × (found.1.items ≡ take most (drop from s.versions)))) share.new }
    {
        self.hold(rt).look(share).versions_from(from, most)
    }

    /// Notes the first version that the subscriber of a session wasn't given whole.
    pub fn note_progress(&self, subscriber: usize, version: u64) {
        self.progress.note(subscriber, version);
    }

    /// How many versions the slowest open subscriber of a session wasn't given whole, where this is the number of the
    /// latest.
    pub fn lag(&self, latest: u64) -> u64 {
        self.progress.lag(latest)
    }

    /// The token of the latest version, and how much there was of the hub.
    pub fn counts(&self, rt: &R, share: &mut Share<N>) -> (VersionToken<N>, Counts)
        ensures counts { IsLook N.size share.old (λ s. (slice_get s.versions (length s.changes) ≡ Some result.0)
            × AreCounts s result.1) share.new }
        ensures few { AreWithinLimits N.size result.1 }
    {
        self.hold(rt).look(share).counts()
    }

    /// How many bytes the changes and the versions have taken, by what was paid for them.
    pub fn taken_bytes(&self, rt: &R) -> u64 {
        self.hold(rt).books.taken_bytes()
    }

    /// Counts the most that a change may take that a session wants to submit, for as long as what is answered is kept.
    pub fn begin_change(&self, change: &Change) -> Counted<'_> {
        self.changes.begin(most_bytes(self.size(), change))
    }

    /// Whether the document, which may take so many bytes in all, may take those of all changes that are under way,
    /// whatever they touch. So one that is counted first, and then asks, has its memory, whichever comes before it.
    pub fn has_memory(&self, rt: &R, limit: u64) -> bool {
        // One that is shown between the two looks is counted twice, and not left out.
        let more = self.changes.count();
        self.taken_bytes(rt).saturating_add(more) <= limit
    }

    /// How many sessions began and didn't end.
    pub fn session_count(&self) -> u64 {
        self.sessions.count()
    }

    /// Counts a session for as long as what is answered is kept.
    pub fn begin_session(&self) -> Counted<'_> {
        self.sessions.begin(1)
    }

    /// The texts of `most` accepted changes behind a version, or of as many as there were; None where no version had
    /// that number yet. They are shared, so that the lock is held for no longer than it takes to find them.
    pub fn texts_behind(
        &self,
        rt: &R,
        share: &mut Share<N>,
        from: u64,
        most: usize,
    ) -> Result<Option<Vec<ChangeText>>, AllocError>
        ensures { IsLook N.size share.old (λ s. IfOk result (λ found. MatchOption found (length s.changes < from)
            (λ texts. (from ≤ length s.changes) × (texts.items ≡ map change_text (take most (drop from s.changes))))))
            share.new }
    {
        self.hold(rt).look(share).texts_behind(from, most)
    }

    /// The greatest counter of a peer's accepted operations, 0 where it has none.
    pub fn last_counter(&self, rt: &R, share: &mut Share<N>, node: u16) -> u64
        ensures { IsLook N.size share.old (λ s. IsLastCounter (operations_of s.changes) node result) share.new }
    {
        self.hold(rt).look(share).last_counter(node)
    }

    /// The greatest counter of all accepted operations, 0 where there were none. Later it may be greater, never less.
    pub fn greatest_counter(&self, rt: &R, share: &mut Share<N>) -> u64
        ensures { IsLook N.size share.old (λ s. result ≡ greatest_counter (operations_of s.changes)) share.new }
    {
        self.hold(rt).look(share).greatest_counter()
    }

    /// Adds a subscriber, from the latest version or an earlier one on.
    pub fn subscribe_from(
        &self,
        rt: &R,
        share: &mut Share<N>,
        program: ProgramToken<N>,
        sink: QueueSink<N, R>,
        first: u64,
    ) -> Result<usize, SubscribeError>
        requires none { sink.sent ≡ [] }
        requires suits { Suits sink.promise N.size program.value first }
        ensures { IsCall N.size share.old (call.SubscribeFrom program sink first) (reply.Subscribed result) share.new }
    {
        self.hold(rt)
            .books
            .subscribe_from(share, program, sink, first)
    }

    /// Adds a subscriber, from the latest version on.
    pub fn subscribe(
        &self,
        rt: &R,
        share: &mut Share<N>,
        program: ProgramToken<N>,
        sink: QueueSink<N, R>,
    ) -> Result<usize, SubscribeError>
        requires none { sink.sent ≡ [] }
        requires suits { (first : ℕ) → Suits sink.promise N.size program.value first }
        ensures { IsCall N.size share.old (call.Subscribe program sink) (reply.Subscribed result) share.new }
    {
        self.hold(rt).books.subscribe(share, program, sink)
    }

    /// Hands out a version that a subscriber's program is to be run on; None only where there was none.
    pub fn take_job(&self, rt: &R, share: &mut Share<N>) -> Option<Job<N>>
        ensures { IsCall N.size share.old call.TakeJob (reply.Handed result) share.new }
    {
        self.hold(rt).books.take_job(share)
    }

    /// The job of the first version that an open subscriber waits for, whoever it was handed out to; None only where it
    /// waited for none. Nothing is handed out.
    pub fn missing_job(&self, rt: &R, share: &mut Share<N>, id: usize) -> Option<Job<N>>
        ensures { IsLook N.size share.old (λ s. Misses s id result) share.new }
    {
        self.hold(rt).look(share).missing_job(id)
    }

    /// Holds a batch, if its subscriber waits for it.
    pub fn commit(&self, rt: &R, share: &mut Share<N>, batch: Batch<N>) -> Result<(), CommitError>
        ensures commits { IsCall N.size share.old (call.Commit batch) (reply.Committed result) share.new }
        ensures takes_no_memory { ¬ (result ≡ Err CommitError.OutOfMemory) }
    {
        self.hold(rt).books.commit(share, batch)
    }

    /// Sends what can be sent to a subscriber. It answers how many items.
    pub fn pump(&self, rt: &R, share: &mut Share<N>, id: usize) -> Result<usize, NoSubscriber>
        ensures { IsCall N.size share.old (call.Pump id) (reply.Pumped result) share.new }
    {
        self.hold(rt).books.pump(share, id)
    }

    /// Sends what can be sent to a subscriber that the share added, and has its end meet the hub's, in one holding. It
    /// answers the first version that wasn't sent whole; None where the subscriber is closed.
    pub fn send(
        &self,
        rt: &R,
        share: &mut Share<N>,
        id: usize,
        end: &mut Subscription<N, R>,
    ) -> Option<u64>
        requires { IsOwnSubscriber share.old id end.old }
        ensures { Sends N.size share.old id end.old result end.new share.new }
    {
        self.hold(rt).books.send(share, id, end)
    }

    /// What a subscriber doesn't hold may be handed out again.
    pub fn reissue(&self, rt: &R, share: &mut Share<N>, id: usize) -> Result<(), NoSubscriber>
        ensures { IsCall N.size share.old (call.Reissue id) (reply.Reissued result) share.new }
    {
        self.hold(rt).books.reissue(share, id)
    }

    /// Closes a subscriber for good, with its queue's end, and drops the batches that it holds and what is kept of its
    /// verdicts.
    pub fn close(&self, rt: &R, share: &mut Share<N>, id: usize) -> Result<(), NoSubscriber>
        ensures { IsCall N.size share.old (call.Close id) (reply.Closed result) share.new }
    {
        let closed = self.hold(rt).books.close(share, id);
        self.kept.close(rt, id);
        self.progress.close(id);
        closed
    }

    /// What lies under the lock, for good.
    pub(crate) fn into_books(self) -> Books<'p, N, R> {
        let Hub {
            published: _,
            turns: _,
            books,
            kept: _,
            progress: _,
            sessions: _,
            changes: _,
        } = self;
        books.into_inner()
    }

    /// What is kept of the subscribers' verdicts, under a lock of its own.
    pub fn kept(&self) -> &Kept<N> {
        &self.kept
    }
}
