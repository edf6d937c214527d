ghost use Rattle.std.specs.Prelude.{◌≡◌, ◌≤◌, ◌<◌, ◌-◌, ◌+◌, ◌++◌, ◌⊎◌, true, false, None, Some, [], length, take};
ghost use Rattle.std.specs.Prelude.{drop, replicate, slice_get, MatchBool, MatchOption, IsTrue, ◌↔◌, IfOk};
ghost use Rattle.filters.specs.Filters.{IsFilter};
ghost use Rattle.feeds.specs.Batches.{items_of};
ghost use Rattle.feeds.specs.Orderly.{IsOrderly};
ghost use Rattle.feeds.specs.Promise.{IsPromised, Suits, AreOfChanges};
ghost use Rattle.feeds.specs.Feed.{IsHeldAt, IsFed, IsWanted, Keeps, Moved, Stops, Finds, fresh, rewound};
ghost use Rattle.feeds.specs.Feed.{nothing_held};

use crate::batch::Batch;
use crate::item::{Item, Job};
use crate::sink::Sink;
use std::alloc::{AllocError, Global};
use std::marker::Model;
use version_history::published::{Naming, ProgramToken, Published, VersionToken};

/// A subscriber: its program, how far it got, and the batches that wait to be sent.
#[derive(Drop)]
pub struct Subscriber<N: Naming, S: Sink<Item<N>>> {
    program: ProgramToken<N>,
    first: u64,
    cursor: u64,
    handed: u64,
    held: Vec<Option<Batch<N>>>,
    count: usize,
    closed: bool,
    sink: S,
}

impl<N: Naming, S: Sink<Item<N>>> Model for Subscriber<N, S> {
    ghost use Rattle.std.specs.Coded.{codes};
    ghost use Rattle.feeds.specs.Feed.{Subscriber as SubscriberValue};
    ghost use Rattle.feeds.specs.Promise.{Suits};

    ghost Value = { SubscriberValue S };

    ghost coded = { Prim.hlevel (codes, S.code) };

    ghost view = { λ s. record {
      program = s.program;
      first = s.first;
      cursor = s.cursor;
      handed = s.handed;
      held = s.held.items;
      count = s.count;
      closed = s.closed;
      sink = s.sink;
    } };

    ghost invariant = { λ s. Suits (S.promise s.sink) N.size s.program.value s.first };
}

/// Sends the items of a batch from one on, until the sink is full. It answers how many items of the batch are sent
/// then.
fn send_batch<N: Naming, S: Sink<Item<N>>>(sink: &mut S, batch: &Batch<N>, from: usize) -> usize
    requires from { from ≤ length (items_of batch.now.program batch.now.version) }
    requires orderly { IsOrderly (S.sent sink.old ++ drop from (items_of batch.now.program batch.now.version)) }
    requires promised { IsPromised (S.promise sink.old)
        (S.sent sink.old ++ drop from (items_of batch.now.program batch.now.version)) }
    ensures reached { (from ≤ result) × (result ≤ length (items_of batch.now.program batch.now.version)) }
    ensures sent { S.sent sink.new ≡ S.sent sink.old
        ++ take (result - from) (drop from (items_of batch.now.program batch.now.version)) }
    ensures stop { (result ≡ length (items_of batch.now.program batch.now.version)) ⊎ S.full sink.new }
    ensures kept { S.promise sink.new ≡ S.promise sink.old }
    ensures bare { S.bare sink.new ≡ S.bare sink.old }
{
    let items = batch.items();
    let mut at = from;
    'sending: while at < items.len() {
        match sink.push(items[at].again()) {
            Ok(()) => at += 1,
            Err(_) => return at,
        }
    }
    at
}

/// The batch at the first position, if one is held there.
fn front<N: Naming>(held: &[Option<Batch<N>>]) -> Option<&Batch<N>>
    requires { length held.now ≡ 8 }
    ensures { MatchOption result (¬ IsHeldAt held.now 0) (λ batch. slice_get held.now 0 ≡ Some (Some batch.now)) }
{
    held[0].as_ref()
}

/// Whether a batch is held at a position.
fn is_held_at<N: Naming>(held: &[Option<Batch<N>>], index: usize) -> bool
    requires { index < length held.now }
    ensures { IsTrue result ↔ IsHeldAt held.now index }
{
    held[index].is_some()
}

/// Whether a batch is of the version with its number.
fn is_of_version<N: Naming>(
    published: &Published<'_, N>,
    versions: &[VersionToken<N>],
    batch: &Batch<N>,
) -> bool
    ensures { IsTrue result ↔ (slice_get versions.now batch.now.number ≡ Some batch.now.version) }
{
    let job = batch.job();
    match versions.get(job.number as usize) {
        Some(version) => published.is_same(version, &job.version),
        None => false,
    }
}

/// Eight positions, all empty.
fn no_batches<N: Naming>(alloc: Global) -> Result<Vec<Option<Batch<N>>>, AllocError>
    ensures { IfOk result (λ held. held.items ≡ nothing_held) }
{
    let mut held = Vec::with_capacity(alloc, 8)?;
    for _i in 0..8usize {
        held.push(None)?;
    }
    Ok(held)
}

/// Empties all positions.
fn let_go<N: Naming>(held: &mut [Option<Batch<N>>])
    ensures { held.new ≡ replicate (length held.old) None }
{
    for entry in held.iter_mut() {
        *entry = None;
    }
}

impl<N: Naming, S: Sink<Item<N>>> Subscriber<N, S> {
    /// Sends what it can of the batch at the cursor. It answers how many items, and whether the batch is all sent.
    fn send_next(&mut self, versions: &[VersionToken<N>]) -> (usize, bool)
        requires published { AreOfChanges N.size versions.now }
        requires fed { IsFed S.sent S.full versions.now self.old }
        ensures fed { IsFed S.sent S.full versions.now self.new }
        ensures moved { Moved S.sent S.full S.bare self.old result.0 self.new }
        ensures few { result.0 ≤ 131073 }
        ensures on { result.1 ≡ true → self.new.cursor ≡ self.old.cursor + 1 }
        ensures stop { result.1 ≡ false → Stops S.sent S.full self.new }
    {
        let _ = versions;
        let Some(batch) = front(self.held.as_slice()) else {
            return (0, false);
        };
        let reached = send_batch(&mut self.sink, batch, self.count);
        let sent = reached - self.count;
        if reached < batch.items().len() {
            self.count = reached;
            return (sent, false);
        }
        self.held[0] = None;
        self.held.rotate_left(1);
        self.cursor += 1;
        self.count = 0;
        (sent, true)
    }

    /// Sends what it can. It answers how many items.
    pub fn pump(&mut self, versions: &[VersionToken<N>]) -> usize
        requires published { AreOfChanges N.size versions.now }
        requires fed { IsFed S.sent S.full versions.now self.old }
        ensures fed { IsFed S.sent S.full versions.now self.new }
        ensures moved { Moved S.sent S.full S.bare self.old result self.new }
        ensures stop { Stops S.sent S.full self.new }
    {
        let mut pushed = 0;
        'pumping: loop {
            let (sent, on) = self.send_next(versions);
            pushed += sent;
            if !on {
                return pushed;
            }
        }
    }

    /// Whether a batch is of none of the versions below the cursor, and at most seven above it.
    fn is_near(&self, batch: &Batch<N>) -> bool
        ensures { IsTrue result ↔ ((self.now.cursor ≤ batch.now.number) × (batch.now.number ≤ self.now.cursor + 7)) }
    {
        let number = batch.job().number;
        number >= self.cursor && number - self.cursor <= 7
    }

    /// Whether the batch of that version is held.
    fn holds(&self, batch: &Batch<N>) -> bool
        requires wide { length self.now.held ≡ 8 }
        requires low { self.now.cursor ≤ batch.now.number }
        requires high { batch.now.number ≤ self.now.cursor + 7 }
        ensures { IsTrue result ↔ IsHeldAt self.now.held (batch.now.number - self.now.cursor) }
    {
        let index = batch.job().number - self.cursor;
        is_held_at(self.held.as_slice(), index as usize)
    }

    /// Whether a batch is of its program.
    fn has_program(&self, published: &Published<'_, N>, batch: &Batch<N>) -> bool
        ensures { IsTrue result ↔ (batch.now.program ≡ self.now.program) }
    {
        published.is_same_program(&batch.job().program, &self.program)
    }

    /// Whether it waits for this batch.
    #[tactic(auto, using(crate::proofs::Feeding::wanted_near))]
    pub fn wants(
        &self,
        published: &Published<'_, N>,
        versions: &[VersionToken<N>],
        batch: &Batch<N>,
    ) -> bool
        requires { length self.now.held ≡ 8 }
        ensures low { result ≡ true → self.now.cursor ≤ batch.now.number }
        ensures high { result ≡ true → batch.now.number ≤ self.now.cursor + 7 }
        ensures wanted { MatchBool result (IsWanted versions.now self.now batch.now)
            (¬ IsWanted versions.now self.now batch.now) }
    {
        if !self.is_near(batch) || self.holds(batch) {
            return false;
        }
        self.has_program(published, batch) && is_of_version(published, versions, batch)
    }

    /// Keeps a batch, if it waits for it.
    pub fn commit(
        &mut self,
        published: &Published<'_, N>,
        versions: &[VersionToken<N>],
        batch: Batch<N>,
    ) -> bool
        requires { IsFed S.sent S.full versions.now self.old }
        ensures fed { IsFed S.sent S.full versions.now self.new }
        ensures keeps { Keeps versions.now self.old batch result self.new }
    {
        if !self.wants(published, versions, &batch) {
            return false;
        }
        let index = (batch.job().number - self.cursor) as usize;
        self.held[index] = Some(batch);
        true
    }
    /// A subscriber that is sent the versions from this one on, as was promised of its sink, and was sent nothing yet.
    pub fn new(
        alloc: Global,
        program: ProgramToken<N>,
        first: u64,
        sink: S,
    ) -> Result<Subscriber<N, S>, AllocError>
        requires { Suits (S.promise sink) N.size program.value first }
        ensures { IfOk result (λ subscriber. subscriber ≡ fresh program first sink) }
    {
        let held = no_batches(alloc)?;
        Ok(Subscriber {
            program,
            first,
            cursor: first,
            handed: first,
            held,
            count: 0,
            closed: false,
            sink,
        })
    }

    pub fn is_closed(&self) -> bool
        ensures { result ≡ self.now.closed }
    {
        self.closed
    }

    /// The first version that wasn't sent whole.
    pub fn cursor(&self) -> u64
        ensures { result ≡ self.now.cursor }
    {
        self.cursor
    }

    /// Where its items go.
    pub fn sink(&self) -> &S
        ensures value { result.now ≡ self.now.sink }
        ensures safe { IsFilter self.now.program.value }
    {
        self.program.every_run_ends();
        &self.sink
    }

    /// Has its end meet its sink. It answers the first version that wasn't sent whole.
    pub fn meet(&mut self, end: &mut S::End) -> u64
        requires fits { S.fits end.old self.old.sink }
        ensures same { self.new ≡ self.old }
        ensures cursor { result ≡ self.old.cursor }
        ensures meets { S.meets self.old.sink end.old end.new }
    {
        self.sink.meet(end);
        self.cursor
    }

    /// The first version of which no batch is held, where jobs were handed out below this one and this is the latest.
    fn missing_from(&self, handed: u64, latest: u64) -> Option<u64>
        requires wide { length self.now.held ≡ 8 }
        requires behind { self.now.cursor ≤ latest + 1 }
        requires few { latest ≤ 65536 }
        ensures { Finds latest (record self.now { handed = handed }) result }
    {
        let from = handed.max(self.cursor);
        let last = latest.min(self.cursor + 7);
        for number in from..last + 1 {
            if self.held[(number - self.cursor) as usize].is_none() {
                return Some(number);
            }
        }
        None
    }

    /// The next version for a job, where this is the latest.
    pub fn next_version(&self, latest: u64) -> Option<u64>
        requires wide { length self.now.held ≡ 8 }
        requires behind { self.now.cursor ≤ latest + 1 }
        requires few { latest ≤ 65536 }
        ensures { Finds latest self.now result }
    {
        self.missing_from(self.handed, latest)
    }

    /// The first version of which no batch is sent or held, handed out or not, where this is the latest.
    pub fn missing_version(&self, latest: u64) -> Option<u64>
        requires wide { length self.now.held ≡ 8 }
        requires behind { self.now.cursor ≤ latest + 1 }
        requires few { latest ≤ 65536 }
        ensures { Finds latest (rewound self.now) result }
    {
        self.missing_from(self.cursor, latest)
    }

    /// The job of a version.
    pub fn job_of(&self, id: usize, number: u64, versions: &[VersionToken<N>]) -> Job<N>
        requires there { number < length versions.now }
        requires few { length versions.now ≤ 65537 }
        ensures of { (result.subscriber ≡ id) × (result.number ≡ number) × (result.program ≡ self.now.program) }
        ensures version { slice_get versions.now number ≡ Some result.version }
    {
        Job {
            subscriber: id,
            number,
            program: self.program.again(),
            version: versions[number as usize].again(),
        }
    }

    /// The job of a version. The next one is handed out for a version after it.
    pub fn hand_out(&mut self, id: usize, number: u64, versions: &[VersionToken<N>]) -> Job<N>
        requires there { number < length versions.now }
        requires few { length versions.now ≤ 65537 }
        ensures of { (result.subscriber ≡ id) × (result.number ≡ number) × (result.program ≡ self.old.program) }
        ensures version { slice_get versions.now number ≡ Some result.version }
        ensures handed { self.new ≡ record self.old { handed = number + 1 } }
    {
        self.handed = number + 1;
        self.job_of(id, number, versions)
    }

    /// Versions that are not held may be handed out again.
    pub fn reissue(&mut self)
        ensures { self.new ≡ rewound self.old }
    {
        self.handed = self.cursor;
    }

    /// Closes it for good, with its sink, and drops the held batches. What was sent stays known.
    pub fn close(&mut self)
        requires { length self.old.held ≡ 8 }
        ensures value { self.new
            ≡ record self.old { held = nothing_held; closed = true; sink = S.closed self.old.sink } }
        ensures sent { S.sent self.new.sink ≡ S.sent self.old.sink }
    {
        let_go(self.held.as_mut_slice());
        self.closed = true;
        self.sink.close();
    }
}
