ghost use Rattle.std.specs.Prelude.{◌≡◌, ◌+◌, ◌<◌, ◌≤◌, ◌↔◌, ◌++◌, ◌∷◌, [], Some, length, map, slice_get, IsTrue, IfOk};
ghost use Rattle.std.specs.Prelude.{OnOk, MatchOption, ℕ, remove, vec_len, vec_capacity};
ghost use Rattle.change_ops.specs.Changes.{Change};
ghost use Rattle.change_ops.specs.Sizes.{most_changes};
ghost use Rattle.change_ops.specs.Spelling.{change_text};
ghost use Rattle.char_sequence.specs.Newest.{IsLastCounter};
ghost use Rattle.filters.specs.Filters.{IsFilter};
ghost use Rattle.span_flatten.specs.Version.{IsVersion};
ghost use Rattle.feeds.specs.Feed.{Subscriber as SubscriberValue};
ghost use Rattle.change_history.specs.Accepted.{AreAccepted, operations_of};
ghost use Rattle.change_history.specs.Kept.{IsDraft};
ghost use Rattle.change_history.specs.VersionAt.{IsVersionAt};
ghost use Rattle.feeds.specs.Stream.{BeginsStream};
ghost use Rattle.feeds.specs.Promise.{Suits};
ghost use Rattle.hub_core.specs.Consistent.{IsConsistent};
ghost use Rattle.hub_core.specs.Counting.{AreCounts, AreWithinLimits};
ghost use Rattle.hub_core.specs.Runs.{CommitsJob};
ghost use Rattle.hub_core.specs.Accepting.{Accepts, HasLatest};
ghost use Rattle.hub_core.specs.Machine.{IsStart, Submits, Subscribes, Commits, Pumps, Reissues, Closes, TakesJob};
ghost use Rattle.hub_core.specs.Machine.{HasNoPlace, HasNone, IsOpen, Misses, FindsAt, FindsJob};

use crate::counts::{Counts, greatest_lag};
use crate::error::{CommitError, NoSubscriber, SubscribeError};
use crate::memory::Cost;
use change_history::history::{Draft, History};
use change_history::refusal::SubmitError;
use change_log::text::ChangeText;
use change_ops::change::Change;
use change_ops::size::Size;
use feeds::batch::Batch;
use feeds::item::{Item, Job};
use feeds::sink::Sink;
use feeds::subscriber::Subscriber;
use memory_budget::Budget;
use std::alloc::{AllocError, Global};
use std::marker::Model;
use std::sync::Wait;
use version_history::published::{Naming, ProgramToken, Published, VersionToken};

/// The core of a hub: the accepted changes, the tokens of their versions, the subscribers, and the ids of those that
/// are open, so that no call takes time for closed ones.
pub struct Core<'p, N: Naming, S: Sink<Item<N>>> {
    alloc: Global,
    published: Published<'p, N>,
    history: History,
    versions: Vec<VersionToken<N>>,
    subscribers: Vec<Subscriber<N, S>>,
    open: Vec<usize>,
    // What the changes and the versions have not taken.
    budget: Budget,
}

// By hand, so that a proof of a function that lets a core go sees one call there.
impl<'p, N: Naming, S: Sink<Item<N>>> Drop for Core<'p, N, S> {
    fn drop(self) {
        let Core {
            alloc: _,
            published: _,
            history: _,
            versions: _,
            subscribers: _,
            open: _,
            budget: _,
        } = self;
    }
}

impl<'p, N: Naming, S: Sink<Item<N>>> Model for Core<'p, N, S> {
    ghost use Rattle.std.specs.Prelude.{◌≡◌};
    ghost use Rattle.std.specs.Coded.{codes};
    ghost use Rattle.hub_core.specs.Machine.{Core as CoreValue, IsSound};
    ghost use Rattle.hub_core.specs.Opened.{open_ids};

    ghost Value = { CoreValue S };

    ghost coded = { Prim.hlevel (codes, S.code) };

    ghost view = { λ c. record {
      size = c.history.size;
      changes = c.history.changes;
      versions = c.versions.items;
      subscribers = c.subscribers.items;
    } };

    ghost invariant = { λ c. (c.history.size ≡ N.size) × IsSound S.sent S.full
        (record {
          size = c.history.size;
          changes = c.history.changes;
          versions = c.versions.items;
          subscribers = c.subscribers.items;
        }) × (c.open.items ≡ open_ids 0 c.subscribers.items) };
}

/// Publishes the version that the changes make with the one of a draft, made from the latest one, once there is room
/// for one token more.
fn publish_draft<N: Naming, R: Wait>(
    rt: &R,
    alloc: Global,
    published: &Published<'_, N>,
    history: &History,
    draft: &Draft,
    versions: &mut Vec<VersionToken<N>>,
    budget: &mut Budget,
) -> Result<VersionToken<N>, AllocError>
    requires drafted { (change : Change) × IsDraft history.now.size history.now.changes change draft.now }
    requires published { HasLatest history.now.changes versions.old.items }
    ensures token { IfOk result (λ token. (change : Change)
        → IsDraft history.now.size history.now.changes change draft.now
        → IsVersion (operations_of (history.now.changes ++ change ∷ [])) (length history.now.changes + 1)
        token.value) }
    ensures room { OnOk result (vec_len versions.new < vec_capacity versions.new) }
    ensures same { versions.new.items ≡ versions.old.items }
{
    let previous = published.look(&versions[history.len()]);
    let next = history.next_version(alloc, previous, draft, budget)?;
    versions.reserve(1)?;
    match published.publish_next(rt, &versions[history.len()], next) {
        Ok(token) => Ok(token),
        Err(_) => Err(AllocError),
    }
}

/// Appends the draft of a change, with its version's token. All that can fail comes before the version is published but
/// that itself, so no version is published without its change; where it fails both lists stay as they were.
fn append_draft<N: Naming, R: Wait>(
    rt: &R,
    alloc: Global,
    published: &Published<'_, N>,
    history: &mut History,
    versions: &mut Vec<VersionToken<N>>,
    draft: Draft,
    budget: &mut Budget,
) -> Result<VersionToken<N>, SubmitError>
    requires drafted { (change : Change) × IsDraft history.old.size history.old.changes change draft }
    requires published { HasLatest history.old.changes versions.old.items }
    ensures accepts { (change : Change) → IsDraft history.old.size history.old.changes change draft
        → Accepts history.old.size history.old.changes versions.old.items change result history.new.changes
        versions.new.items }
    ensures size { history.new.size ≡ history.old.size }
{
    let Ok(token) = publish_draft(rt, alloc, published, history, &draft, versions, budget) else {
        return Err(SubmitError::OutOfMemory);
    };
    history.put(draft);
    versions.push_reserved(token.again());
    Ok(token)
}

/// How many characters the latest version shows.
fn shown<N: Naming>(published: &Published<'_, N>, versions: &[VersionToken<N>]) -> usize {
    match versions.last() {
        Some(latest) => published.look(latest).character_count(),
        None => 0,
    }
}

/// Publishes version 0.
fn publish_start<N: Naming, R: Wait>(
    rt: &R,
    alloc: Global,
    published: &Published<'_, N>,
) -> Result<VersionToken<N>, AllocError>
    ensures { IfOk result (λ token. IsVersionAt [] 0 token.value) }
{
    let version = History::new(alloc, published.size()).version(alloc)?;
    match published.publish(rt, version) {
        Ok(token) => Ok(token),
        Err(_) => Err(AllocError),
    }
}

/// The number of the latest version of a history.
fn latest(history: &History) -> u64
    ensures value { result ≡ length history.now.changes }
    ensures few { result ≤ 65536 }
{
    history.len() as u64
}

/// Takes an id out of those that it is one of.
fn take_out(ids: &mut Vec<usize>, id: usize)
    requires { (index : ℕ) × (slice_get ids.old.items index ≡ Some id) }
    ensures { (index : ℕ) × (slice_get ids.old.items index ≡ Some id) × (ids.new.items ≡ remove ids.old.items index) }
{
    for index in 0..ids.len() {
        if ids[index] == id {
            ids.remove(index);
            return;
        }
    }
}

impl<'p, N: Naming, S: Sink<Item<N>>> Core<'p, N, S> {
    /// A core with no change and no subscriber, which publishes version 0; all else that can fail comes before.
    pub fn new<R: Wait>(
        rt: &R,
        alloc: Global,
        published: &Published<'p, N>,
    ) -> Result<Core<'p, N, S>, AllocError>
        ensures { IfOk result (IsStart N.size) }
    {
        let mut versions = Vec::new(alloc);
        versions.reserve(1)?;
        let token = publish_start(rt, alloc, published)?;
        versions.push_reserved(token);
        Ok(Core {
            alloc,
            published: published.again(),
            history: History::new(alloc, published.size()),
            versions,
            subscribers: Vec::new(alloc),
            open: Vec::new(alloc),
            budget: Budget::unlimited(),
        })
    }

    /// Accepts a change after those before it and publishes its version, whole; where it is refused the core stays as
    /// it was.
    pub fn submit<R: Wait>(
        &mut self,
        rt: &R,
        change: Change,
    ) -> Result<VersionToken<N>, SubmitError>
        ensures { Submits self.old change result self.new }
    {
        let cost = Cost::of(&change);
        let draft = self.history.draft(change)?;
        self.append(rt, draft, cost)
    }

    /// The same for a caller that has the change's text, which is kept and not written again.
    pub fn submit_spelled<R: Wait>(
        &mut self,
        rt: &R,
        change: Change,
        text: ChangeText,
    ) -> Result<VersionToken<N>, SubmitError>
        requires spelled { text ≡ change_text change }
        ensures { Submits self.old change result self.new }
    {
        let cost = Cost::of(&change);
        let draft = self.history.draft_spelled(change, text)?;
        self.append(rt, draft, cost)
    }

    /// Appends the draft of a change and publishes its version. Where that fails it is paid for nothing.
    fn append<R: Wait>(
        &mut self,
        rt: &R,
        draft: Draft,
        cost: Cost,
    ) -> Result<VersionToken<N>, SubmitError>
        requires { (change : Change) × IsDraft self.old.size self.old.changes change draft }
        ensures { (change : Change) → IsDraft self.old.size self.old.changes change draft
            → Submits self.old change result self.new }
    {
        let before = shown(&self.published, self.versions.as_slice());
        let mut after = Budget::new(self.budget.left());
        after.pay(cost.bytes());
        let token = append_draft(
            rt,
            self.alloc,
            &self.published,
            &mut self.history,
            &mut self.versions,
            draft,
            &mut after,
        );
        let hidden = before.saturating_sub(shown(&self.published, self.versions.as_slice()));
        after.pay(cost.count_bytes(hidden));
        if token.is_ok() {
            self.budget = after;
        }
        token
    }

    /// How much the document may hold, which never changes.
    pub fn size(&self) -> Size
        ensures value { result ≡ self.now.size }
        ensures named { result ≡ N.size }
    {
        self.history.size()
    }

    /// How many changes were accepted.
    pub fn count(&self) -> usize
        ensures count { result ≡ length self.now.changes }
        ensures most { result ≤ most_changes N.size }
        ensures accepted { AreAccepted N.size self.now.changes }
    {
        self.history.len()
    }

    /// The token of the version with this number; None where no version has it yet.
    pub fn version(&self, number: u64) -> Option<VersionToken<N>>
        ensures { result ≡ slice_get self.now.versions number }
    {
        let token = self.versions.get(number as usize)?;
        Some(token.again())
    }

    /// The token of the latest version.
    pub fn latest_version(&self) -> VersionToken<N>
        ensures { slice_get self.now.versions (length self.now.changes) ≡ Some result }
    {
        self.versions[self.history.len()].again()
    }

    /// How many bytes the changes and the versions have taken, by what was paid for them. What a refused change was
    /// paid for is given back.
    pub fn taken_bytes(&self) -> u64 {
        u64::MAX - self.budget.left()
    }

    /// How much there is of it.
    pub fn counts(&self) -> Counts
        ensures counts { AreCounts self.now result }
        ensures few { AreWithinLimits N.size result }
    {
        let changes = latest(&self.history);
        let subscribers = self.subscribers.as_slice();
        Counts {
            changes,
            inserted: self.history.inserted() as u64,
            marks: self.history.mark_count() as u64,
            subscribers: self.open.len() as u64,
            subscribed: subscribers.len() as u64,
            lag: greatest_lag(changes, subscribers, self.open.as_slice()),
        }
    }

    /// The greatest counter of a peer's accepted operations, 0 where it has none.
    pub fn last_counter(&self, node: u16) -> u64
        ensures { IsLastCounter (operations_of self.now.changes) node result }
    {
        self.history.last_counter(node)
    }

    /// The law of what is so of a core between any two calls: what each sink was sent, with which tokens, what is
    /// held, and that its size is the hub's.
    pub fn stays_consistent(&self)
        ensures consistent { IsConsistent S.sent S.full self.now }
        ensures size { self.now.size ≡ N.size }
    {
        let _ = self.history.len();
    }

    /// Whether as many subscribers were added as the size allows, closed ones counted, or as many are open.
    pub fn is_full(&self) -> bool
        ensures { IsTrue result ↔ HasNoPlace self.now }
    {
        let size = self.history.size();
        self.subscribers.len() >= size.subscribers() || self.open.len() >= size.open_subscribers()
    }

    /// Adds a subscriber, from the latest version on, to a sink that was sent nothing, and of which nothing is promised
    /// but this program's stream. Ids rise from 0.
    pub fn subscribe(&mut self, program: ProgramToken<N>, sink: S) -> Result<usize, SubscribeError>
        requires none { S.sent sink ≡ [] }
        requires suits { Suits (S.promise sink) N.size program.value (length self.old.changes) }
        ensures { Subscribes self.old (length self.old.changes) program sink result self.new }
    {
        let first = latest(&self.history);
        self.subscribe_from(program, sink, first)
    }

    /// Whether no version has this number yet.
    pub fn lacks_version(&self, number: u64) -> bool
        ensures { IsTrue result ↔ (length self.now.changes < number) }
    {
        latest(&self.history) < number
    }

    /// Adds a subscriber, from the latest version or an earlier one on, to a sink that was sent nothing, and of which
    /// nothing is promised but this program's stream from there on. Ids rise from 0.
    pub fn subscribe_from(
        &mut self,
        program: ProgramToken<N>,
        sink: S,
        first: u64,
    ) -> Result<usize, SubscribeError>
        requires none { S.sent sink ≡ [] }
        requires suits { Suits (S.promise sink) N.size program.value first }
        ensures { Subscribes self.old first program sink result self.new }
    {
        if self.is_full() {
            return Err(SubscribeError::SubscribersFull);
        }
        let newest = latest(&self.history);
        if newest < first {
            return Err(SubscribeError::NoVersion);
        }
        if self.subscribers.reserve(1).is_err() {
            return Err(SubscribeError::OutOfMemory);
        }
        if self.open.reserve(1).is_err() {
            return Err(SubscribeError::OutOfMemory);
        }
        let Ok(subscriber) = Subscriber::new(self.alloc, program, first, sink) else {
            return Err(SubscribeError::OutOfMemory);
        };
        let id = self.subscribers.len();
        self.subscribers.push_reserved(subscriber);
        self.open.push_reserved(id);
        Ok(id)
    }

    /// The next version of an open subscriber, if it has one.
    fn next_version(&self, id: usize) -> Option<u64>
        requires { (a : SubscriberValue S) × IsOpen self.now id a }
        ensures { FindsAt self.now id result }
    {
        self.subscribers[id].next_version(latest(&self.history))
    }

    /// An open subscriber that a version is due to, the one with the least id, and its next version.
    fn next_job(&self) -> Option<(usize, u64)>
        ensures { FindsJob self.now result }
    {
        for &id in self.open.as_slice() {
            if let Some(number) = self.next_version(id) {
                return Some((id, number));
            }
        }
        None
    }

    /// Hands out a version that a subscriber's program is to be run on; None only where there is none.
    pub fn take_job(&mut self) -> Option<Job<N>>
        ensures { TakesJob self.old result self.new }
    {
        let Some((id, number)) = self.next_job() else {
            return None;
        };
        let sub = &mut self.subscribers[id];
        Some(sub.hand_out(id, number, self.versions.as_slice()))
    }

    /// The job of the first version that an open subscriber waits for, whoever it was handed out to; None only where it
    /// waits for none. Nothing is handed out.
    pub fn missing_job(&self, id: usize) -> Option<Job<N>>
        ensures { Misses self.now id result }
    {
        if id >= self.subscribers.len() || self.subscribers[id].is_closed() {
            return None;
        }
        let sub = &self.subscribers[id];
        let Some(number) = sub.missing_version(latest(&self.history)) else {
            return None;
        };
        Some(sub.job_of(id, number, self.versions.as_slice()))
    }

    /// Holds a batch, if its subscriber waits for it.
    pub fn commit(&mut self, batch: Batch<N>) -> Result<(), CommitError>
        ensures commits { Commits self.old batch result self.new }
        ensures takes_no_memory { ¬ (result ≡ Err CommitError.OutOfMemory) }
    {
        let id = batch.job().subscriber;
        if id >= self.subscribers.len() || self.subscribers[id].is_closed() {
            return Err(CommitError::NoSubscriber);
        }
        let sub = &mut self.subscribers[id];
        let kept = sub.commit(&self.published, self.versions.as_slice(), batch);
        if kept {
            return Ok(());
        }
        Err(CommitError::Stale)
    }

    /// Computes the batch of the job at an index of these, and commits it.
    pub(crate) fn commit_job(&mut self, jobs: &[Job<N>], index: usize) -> Result<(), CommitError>
        ensures { CommitsJob self.old (slice_get jobs.now index) result self.new }
    {
        if index >= jobs.len() {
            return Err(CommitError::Stale);
        }
        let Ok(batch) = Batch::compute(self.alloc, &self.published, &jobs[index]) else {
            return Err(CommitError::OutOfMemory);
        };
        self.commit(batch)
    }

    /// Sends what can be sent to a subscriber. It answers how many items.
    pub fn pump(&mut self, id: usize) -> Result<usize, NoSubscriber>
        ensures { Pumps S.sent S.full S.bare self.old id result self.new }
    {
        if id >= self.subscribers.len() || self.subscribers[id].is_closed() {
            return Err(NoSubscriber);
        }
        // Tells the proof that the changes were accepted.
        let _ = self.history.len();
        let sub = &mut self.subscribers[id];
        Ok(sub.pump(self.versions.as_slice()))
    }

    /// Has an open subscriber's end meet its sink. It answers how far the subscriber was sent: the first version that
    /// isn't sent whole; None where no open one has this id, and then nothing is done.
    pub fn meet(&mut self, id: usize, end: &mut S::End) -> Option<u64>
        requires fits { (a : SubscriberValue S) → IsOpen self.old id a → S.fits end.old a.sink }
        ensures same { self.new ≡ self.old }
        ensures met { MatchOption result (HasNone self.old id × (end.new ≡ end.old)) (λ cursor. (a : SubscriberValue S)
            × IsOpen self.old id a × (cursor ≡ a.cursor) × S.meets a.sink end.old end.new) }
    {
        if id >= self.subscribers.len() || self.subscribers[id].is_closed() {
            return None;
        }
        Some(self.subscribers[id].meet(end))
    }

    /// What a subscriber doesn't hold may be handed out again.
    pub fn reissue(&mut self, id: usize) -> Result<(), NoSubscriber>
        ensures { Reissues self.old id result self.new }
    {
        if id >= self.subscribers.len() || self.subscribers[id].is_closed() {
            return Err(NoSubscriber);
        }
        self.subscribers[id].reissue();
        Ok(())
    }

    /// Closes a subscriber for good, with its sink, and drops the batches that it holds.
    pub fn close(&mut self, id: usize) -> Result<(), NoSubscriber>
        ensures { Closes S.closed self.old id result self.new }
    {
        if id >= self.subscribers.len() || self.subscribers[id].is_closed() {
            return Err(NoSubscriber);
        }
        take_out(&mut self.open, id);
        self.subscribers[id].close();
        Ok(())
    }

    /// A subscriber's sink, also of a closed one; None for an unknown id. What it was sent is a beginning of the stream
    /// of its program, of which every run ends with a number, over the accepted changes, from the subscriber's first
    /// version to the last. [`Core::stays_consistent`] says how far it goes, with which tokens, and what is held.
    pub fn sink(&self, id: usize) -> Option<&S>
        ensures value { MatchOption result (length self.now.subscribers ≤ id) (λ sink. (a : SubscriberValue S)
            × (slice_get self.now.subscribers id ≡ Some a) × (sink.now ≡ a.sink)) }
        ensures stream { (a : SubscriberValue S) → slice_get self.now.subscribers id ≡ Some a
            → BeginsStream a.program.value self.now.changes a.first (length self.now.changes)
            (map (λ item. item.what) (S.sent a.sink)) }
        ensures safe { (a : SubscriberValue S) → slice_get self.now.subscribers id ≡ Some a → IsFilter a.program.value }
    {
        if id >= self.subscribers.len() {
            return None;
        }
        Some(self.subscribers[id].sink())
    }
}
