ghost use Rattle.std.specs.Prelude.{◌≡◌, ◌≤◌, length, map};
ghost use Rattle.test_scripts.specs.Parts.{all_parts};

use crate::answer::{Answer, Fault};
use crate::findings::findings_of;
use crate::programs::{published_program, push};
use crate::script::{change_text, number, parted};
use crate::spare::Spare;
use crate::tricks::{Trick, Tricks};
use call_history::knowledge::HistoryNaming;
use core_history::share::Share;
use feeds::batch::Batch;
use feeds::item::{Finding, Job};
use filter_workers::filter::filter;
use filter_workers::work::{Worker, catch_up, work};
use ingest_workers::hub::Hub;
use ingest_workers::ingest::{HubError, ingest};
use std::alloc::{AllocError, Global};
use std::sync::atomic::{AtomicU64, Ordering};
use std::sync::ledger::Ledger;
use std::sync::{Mutex, Wait};
use std::thread::Threads;
use subscriber_queues::ends::{Subscription, queue};
use version_history::published::{Naming, ProgramToken, Published};

/// A hub, and what its callers hold.
#[derive(Drop)]
pub struct Machine<'a, 'b, 'p, 'q, N: Naming + HistoryNaming + Ledger, R: Wait + Copy> {
    pub rt: R,
    pub alloc: Global,
    pub hub: &'a Hub<'p, N, R>,
    pub published: &'b Published<'q, N>,
    /// By which tricks call the hub while all workers do.
    pub spare: &'b Mutex<Spare<N>>,
    /// Text for a coming event.
    pub kept: String,
    pub programs: Vec<ProgramToken<N>>,
    pub jobs: Vec<Job<N>>,
    /// Batches that wait for their commit, the latest last.
    pub batches: Vec<Batch<N>>,
    pub subscriptions: Vec<Subscription<N, R>>,
    /// What the last event found.
    pub found: Vec<Finding>,
}

/// Subscribes a program with a new queue.
#[tactic(auto, using(crate::proofs::Parts::call_keeps))]
fn subscribed<N: Naming + HistoryNaming + Ledger, R: Wait + Copy>(
    rt: &R,
    alloc: Global,
    hub: &Hub<'_, N, R>,
    share: &mut Share<N>,
    program: ProgramToken<N>,
    capacity: usize,
) -> Result<(usize, Subscription<N, R>), Fault>
    ensures { share.new.parts ≡ share.old.parts }
{
    let (sink, subscription) = queue(*rt, alloc, capacity)?;
    let id = hub.subscribe(rt, share, program, sink)?;
    Ok((id, subscription))
}

/// Ingests a change by a share, which keeps its parts.
pub fn ingested<N: Naming + HistoryNaming + Ledger, R: Wait + Copy>(
    rt: &R,
    alloc: Global,
    hub: &Hub<'_, N, R>,
    share: &mut Share<N>,
    text: &str,
) -> Result<u64, HubError>
    ensures { share.new.parts ≡ share.old.parts }
{
    ingest(rt, alloc, hub, share, text)
}

/// The first items that wait, `most` at most.
pub fn taken<N: Naming, R: Wait + Copy>(
    alloc: Global,
    subscription: &mut Subscription<N, R>,
    most: usize,
) -> Result<Vec<Finding>, AllocError> {
    let mut found = Vec::new(alloc);
    for _ in 0..most {
        let Some(item) = subscription.take() else {
            break;
        };
        push(&mut found, item.what)?;
    }
    Ok(found)
}

/// The job that the words name: a subscriber, a version's number, and the indexes of two jobs, of which one has the
/// program and the other the version.
fn made_up_job<N: Naming>(jobs: &[Job<N>], rest: &str) -> Option<Job<N>> {
    let (subscriber, rest) = parted(rest);
    let (version, rest) = parted(rest);
    let (one, other) = parted(rest);
    let program = jobs.get(number(one))?.program.again();
    let of = jobs.get(number(other))?;
    Some(Job {
        subscriber: number(subscriber),
        number: version.parse().unwrap_or(0),
        program,
        version: of.version.again(),
    })
}

impl<'a, 'b, 'p, 'q, N: Naming + HistoryNaming + Ledger, R: Wait + Copy> Machine<
    'a,
    'b,
    'p,
    'q,
    N,
    R,
> {
    /// The subscribers' ends of their queues.
    pub fn into_subscriptions(self) -> Vec<Subscription<N, R>> {
        let Machine {
            rt: _,
            alloc: _,
            hub: _,
            published: _,
            spare: _,
            kept: _,
            programs: _,
            jobs: _,
            batches: _,
            subscriptions,
            found: _,
        } = self;
        subscriptions
    }

    pub fn publish(&mut self, rest: &str) -> Result<Answer, Fault> {
        self.kept.push_str(rest)?;
        let program = published_program(&self.rt, self.alloc, self.published, self.kept.as_str());
        self.kept.clear();
        let index = self.programs.len();
        push(&mut self.programs, program.ok_or(Fault::Nothing)?)?;
        Ok(Answer::Number(index as u64))
    }

    pub fn ingest(&mut self, share: &mut Share<N>, rest: &str) -> Result<Answer, Fault>
        ensures { share.new.parts ≡ share.old.parts }
    {
        let text = change_text(self.alloc, self.kept.as_str(), rest)?;
        self.kept.clear();
        let number = ingested(&self.rt, self.alloc, self.hub, share, text.as_str())?;
        Ok(Answer::Number(number))
    }

    pub fn subscribe(&mut self, share: &mut Share<N>, rest: &str) -> Result<Answer, Fault>
        ensures { share.new.parts ≡ share.old.parts }
    {
        let (capacity, index) = parted(rest);
        let program = self
            .programs
            .get(number(index))
            .ok_or(Fault::Nothing)?
            .again();
        let (id, subscription) = subscribed(
            &self.rt,
            self.alloc,
            self.hub,
            share,
            program,
            number(capacity),
        )?;
        push(&mut self.subscriptions, subscription)?;
        Ok(Answer::Number(id as u64))
    }

    #[tactic(auto, using(crate::proofs::Parts::call_keeps))]
    pub fn take_job(&mut self, share: &mut Share<N>) -> Result<Answer, Fault>
        ensures { share.new.parts ≡ share.old.parts }
    {
        let job = self.hub.take_job(&self.rt, share).ok_or(Fault::Nothing)?;
        let answer = Answer::Job(job.subscriber, job.number);
        push(&mut self.jobs, job)?;
        Ok(answer)
    }

    /// Keeps a batch for its commit.
    fn keep_batch(&mut self, batch: Batch<N>) -> Result<Answer, Fault> {
        self.found = findings_of(self.alloc, batch.items())?;
        push(&mut self.batches, batch)?;
        Ok(Answer::Found)
    }

    /// Computes the batch of a job that was taken.
    pub fn compute(&mut self, index: usize) -> Result<Answer, Fault> {
        let job = self.jobs.get(index).ok_or(Fault::Nothing)?;
        let batch = Batch::compute(self.alloc, self.published, job)?;
        self.keep_batch(batch)
    }

    /// Computes the batch of a job that nobody was handed.
    pub fn offer(&mut self, rest: &str) -> Result<Answer, Fault> {
        let job = made_up_job(self.jobs.as_slice(), rest).ok_or(Fault::Nothing)?;
        let batch = Batch::compute(self.alloc, self.published, &job)?;
        self.keep_batch(batch)
    }

    /// Commits the batch that was computed last.
    #[tactic(auto, using(crate::proofs::Parts::call_keeps))]
    fn commit_kept(&mut self, share: &mut Share<N>) -> Result<Answer, Fault>
        ensures { share.new.parts ≡ share.old.parts }
    {
        let batch = self.batches.pop().ok_or(Fault::Nothing)?;
        self.hub.commit(&self.rt, share, batch)?;
        Ok(Answer::Done)
    }

    /// Commits the batch that was computed last, or that of the job at an index.
    #[tactic(auto, using(crate::proofs::Parts::call_keeps))]
    pub fn commit(&mut self, share: &mut Share<N>, rest: &str) -> Result<Answer, Fault>
        ensures { share.new.parts ≡ share.old.parts }
    {
        if rest.is_empty() {
            return self.commit_kept(share);
        }
        let job = self.jobs.get(number(rest)).ok_or(Fault::Nothing)?;
        let batch = Batch::compute(self.alloc, self.published, job)?;
        self.hub.commit(&self.rt, share, batch)?;
        Ok(Answer::Done)
    }

    #[tactic(auto, using(crate::proofs::Parts::call_keeps))]
    pub fn pump(&self, share: &mut Share<N>, id: usize) -> Result<Answer, Fault>
        ensures { share.new.parts ≡ share.old.parts }
    {
        let count = self.hub.pump(&self.rt, share, id)?;
        Ok(Answer::Number(count as u64))
    }

    #[tactic(auto, using(crate::proofs::Parts::call_keeps))]
    pub fn reissue(&self, share: &mut Share<N>, id: usize) -> Result<Answer, Fault>
        ensures { share.new.parts ≡ share.old.parts }
    {
        self.hub.reissue(&self.rt, share, id)?;
        Ok(Answer::Done)
    }

    #[tactic(auto, using(crate::proofs::Parts::call_keeps))]
    pub fn close(&self, share: &mut Share<N>, id: usize) -> Result<Answer, Fault>
        ensures { share.new.parts ≡ share.old.parts }
    {
        self.hub.close(&self.rt, share, id)?;
        Ok(Answer::Done)
    }

    pub fn take(&mut self, index: usize, most: usize) -> Result<Answer, Fault> {
        let subscription = self.subscriptions.get_mut(index).ok_or(Fault::Nothing)?;
        self.found = taken(self.alloc, subscription, most)?;
        Ok(Answer::Found)
    }
}

impl<'a, 'b, 'p, 'q, N: Naming + HistoryNaming + Ledger, R: Threads + Wait + Copy + Sync> Machine<
    'a,
    'b,
    'p,
    'q,
    N,
    R,
> {
    /// Computes the batch of a job that was taken by several threads.
    pub fn filter(&mut self, index: usize) -> Result<Answer, Fault> {
        let job = self.jobs.get(index).ok_or(Fault::Nothing)?;
        let batch = filter(&self.rt, self.alloc, self.published, job, None)?;
        self.keep_batch(batch)
    }

    /// Catches a subscriber up to the version of a number, or to the latest one where none is named.
    #[tactic(auto, using(crate::proofs::Parts::catch_up_keeps, crate::proofs::Parts::look_keeps))]
    pub fn catch_up(&self, share: &mut Share<N>, rest: &str) -> Result<Answer, Fault>
        ensures { share.new.parts ≡ share.old.parts }
    {
        let (id, last) = parted(rest);
        let id = number(id);
        let last = if last.is_empty() {
            self.hub.latest(&self.rt, share)
        } else {
            number(last) as u64
        };
        let waited = catch_up(
            &self.rt,
            self.alloc,
            self.hub,
            self.published,
            share,
            id,
            last,
            1,
        )?;
        Ok(Answer::Number(u64::from(waited)))
    }
}

impl<
    'a,
    'b,
    'p,
    'q,
    N: Naming + HistoryNaming + Ledger + Send + Sync,
    R: Threads + Wait + Copy + Send + Sync,
> Machine<'a, 'b, 'p, 'q, N, R> {
    /// Has these workers take turns, with a trick on the jobs of one version.
    #[tactic(auto, using(crate::proofs::Parts::work_keeps))]
    pub fn work(
        &self,
        workers: &mut [Worker<N>],
        turns: u32,
        trick: Trick,
        at: u64,
    ) -> Result<Answer, Fault>
        requires { (1 ≤ length workers.old) × (length workers.old ≤ 16) }
        ensures { all_parts (map (λ w. w.share) workers.new) ≡ all_parts (map (λ w. w.share) workers.old) }
    {
        let gate = Tricks {
            rt: self.rt,
            alloc: self.alloc,
            hub: self.hub,
            published: self.published,
            spare: self.spare,
            trick,
            at,
            second_is_done: AtomicU64::new(0),
            is_late: AtomicU64::new(0),
        };
        let committed = work(
            &self.rt,
            self.alloc,
            self.hub,
            self.published,
            &gate,
            workers,
            turns,
        )?;
        if gate.is_late.load(Ordering::SeqCst) == 1 {
            return Err(Fault::Late);
        }
        Ok(Answer::Number(committed))
    }
}
