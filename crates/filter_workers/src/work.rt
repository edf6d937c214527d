ghost use Rattle.std.specs.Prelude.{◌≡◌, ◌≤◌, ◌<◌, Ok, Result, List, IfOk, IfSome, OnErr, All, length, map};
ghost use Rattle.std.specs.Thread.{IsSync};
ghost use Rattle.feeds.specs.Kept.{IsKnownOf};
ghost use Rattle.hub_core.specs.declared.error.CommitError.{CommitError};
ghost use Rattle.hub_core.specs.declared.run.Reply.TheVariants as reply;
ghost use Rattle.core_history.specs.declared.entry.Call.TheVariants as call;
ghost use Rattle.core_history.specs.Hubs.{HubEntry};
ghost use Rattle.ingest_workers.specs.Calls.{IsCall, Makes};
ghost use Rattle.filter_workers.specs.Turns.{IsEnd, Serves, Turns, Works, Worked, Totals, Helps, CatchesUp, batches_of};

use crate::filter::is_short;
use crate::gate::Gate;
use call_history::knowledge::HistoryNaming;
use core_history::share::Share;
use feeds::batch::Batch;
use feeds::item::Job;
use feeds::kept::{KeptVerdicts, Known, is_blind_to_position};
use hub_core::error::CommitError;
use ingest_workers::hub::Hub;
use std::alloc::{AllocError, Global};
use std::sync::Wait;
use std::sync::ledger::Ledger;
use std::thread::{Threads, for_each_mut};
use stream_readers::verdicts::verdicts;
use version_history::published::{Naming, Published};

/// What became of a job's batch.
#[derive(Drop)]
enum TurnEnd {
    Committed,
    Refused,
}

impl TurnEnd {
    /// How many batches were committed.
    fn batches(&self) -> u64
        ensures count { result ≡ batches_of self.now }
        ensures most { result ≤ 1 }
    {
        match self {
            TurnEnd::Committed => 1,
            TurnEnd::Refused => 0,
        }
    }
}

/// What is known of a job's verdicts by what the hub keeps of its subscriber's: nothing, where the program lists the
/// index, the count or the number.
fn known<N: Naming + HistoryNaming + Ledger, R: Wait + Copy>(
    rt: &R,
    hub: &Hub<'_, N, R>,
    published: &Published<'_, N>,
    job: &Job<N>,
) -> Option<Known<N>>
    ensures { IfSome result (λ k. IsKnownOf k job.now) }
{
    let kept = hub.kept().take(rt, job.subscriber)?;
    let stretch = hub
        .kept()
        .stretch(rt, published, kept.version(), &job.version);
    Known::new(published, job, kept, stretch)
}

/// Computes the batch of a job outside the hub's lock. The verdicts are kept where they may serve for a later version.
fn batch_of<N: Naming + HistoryNaming + Ledger, R: Threads + Wait + Copy + Sync>(
    rt: &R,
    alloc: Global,
    hub: &Hub<'_, N, R>,
    published: &Published<'_, N>,
    job: &Job<N>,
    workers: usize,
) -> Result<Batch<N>, AllocError>
    ensures { IfOk result (λ batch. batch ≡ job.now) }
{
    let may_keep = is_blind_to_position(published.program(&job.program));
    let known = if may_keep {
        known(rt, hub, published, job)
    } else {
        None
    };
    let verdicts = verdicts(rt, alloc, published, job, known, workers)?;
    let batch = Batch::from_verdicts(alloc, published, job, &verdicts)?;
    if may_keep {
        let kept = KeptVerdicts::of(job, verdicts);
        hub.kept().put(rt, job.subscriber, kept);
    }
    Ok(batch)
}

/// Computes the batch of a job outside the lock, and commits it. Where no memory is found no call was made.
fn answer<N: Naming + HistoryNaming + Ledger, R: Threads + Wait + Copy + Sync>(
    rt: &R,
    alloc: Global,
    hub: &Hub<'_, N, R>,
    published: &Published<'_, N>,
    share: &mut Share<N>,
    job: &Job<N>,
    workers: usize,
) -> Result<TurnEnd, AllocError>
    ensures ok { IfOk result (λ end. (r : Result (Unit {0}) CommitError) × IsEnd r end
        × IsCall N.size share.old (call.Commit job.now) (reply.Committed r) share.new) }
    ensures err { OnErr result (share.new ≡ share.old) }
{
    let batch = batch_of(rt, alloc, hub, published, job, workers)?;
    match hub.commit(rt, share, batch) {
        Ok(()) => Ok(TurnEnd::Committed),
        Err(CommitError::NoSubscriber | CommitError::Stale) => Ok(TurnEnd::Refused),
        Err(CommitError::OutOfMemory) => unreachable!(),
    }
}

/// Computes the batch of a job, commits it, and has its subscriber sent what can be sent. What the subscriber is owed
/// is handed out again where no memory was found.
fn serve<N: Naming + HistoryNaming + Ledger, R: Threads + Wait + Copy + Sync>(
    rt: &R,
    alloc: Global,
    hub: &Hub<'_, N, R>,
    published: &Published<'_, N>,
    share: &mut Share<N>,
    job: &Job<N>,
    workers: usize,
) -> Result<TurnEnd, AllocError>
    ensures { (calls : List HubEntry) × Makes N.size share.old calls share.new × Serves job.now result calls }
{
    match answer(rt, alloc, hub, published, share, job, workers) {
        Ok(end) => {
            let _ = hub.pump(rt, share, job.subscriber);
            Ok(end)
        }
        Err(error) => {
            let _ = hub.reissue(rt, share, job.subscriber);
            Err(error)
        }
    }
}

/// A turn of a worker; None where there was no job.
fn turn<N: Naming + HistoryNaming + Ledger, R: Threads + Wait + Copy + Sync, G: Gate<N>>(
    rt: &R,
    alloc: Global,
    hub: &Hub<'_, N, R>,
    published: &Published<'_, N>,
    gate: &G,
    share: &mut Share<N>,
    workers: usize,
) -> Result<Option<TurnEnd>, AllocError>
    ensures { (calls : List HubEntry) × Makes N.size share.old calls share.new × Turns result calls }
{
    let Some(job) = hub.take_job(rt, share) else {
        return Ok(None);
    };
    gate.before(&job);
    let served = serve(rt, alloc, hub, published, share, &job, workers);
    gate.after(&job);
    Ok(Some(served?))
}

/// A worker's turns, until there is no job or no memory was found. It answers how many batches it committed.
fn work_alone<N: Naming + HistoryNaming + Ledger, R: Threads + Wait + Copy + Sync, G: Gate<N>>(
    rt: &R,
    alloc: Global,
    hub: &Hub<'_, N, R>,
    published: &Published<'_, N>,
    gate: &G,
    share: &mut Share<N>,
    workers: usize,
    turns: u32,
) -> Result<u64, AllocError>
    ensures { (calls : List HubEntry) × Makes N.size share.old calls share.new × Works turns result calls }
{
    let mut committed = 0;
    for _turn in 0..turns {
        let Some(end) = turn(rt, alloc, hub, published, gate, share, workers)? else {
            break;
        };
        committed += end.batches();
    }
    Ok(committed)
}

/// A worker: the share by which it calls the hub, and how its turns ended.
#[derive(Drop)]
pub struct Worker<N: Naming + HistoryNaming + Ledger> {
    pub share: Share<N>,
    /// How many batches it committed, or that no memory was found.
    pub ended: Result<u64, AllocError>,
}

impl<N: Naming + HistoryNaming + Ledger> Worker<N> {
    /// A worker that has had no turn.
    pub fn new(share: Share<N>) -> Self
        ensures { (result.share ≡ share) × (result.ended ≡ Ok 0) }
    {
        Self {
            share,
            ended: Ok(0),
        }
    }
}

/// How many batches the workers committed, or that one of them found no memory.
fn total<N: Naming + HistoryNaming + Ledger>(workers: &[Worker<N>]) -> Result<u64, AllocError>
    requires { (length workers.now ≤ 16) × All (λ w. IfOk w.ended (λ count. count < 4294967296)) workers.now }
    ensures { Totals (map (λ w. w.ended) workers.now) result }
{
    let mut sum = 0;
    for worker in workers {
        sum += worker.ended?;
    }
    Ok(sum)
}

/// Has workers, of which one runs in this thread, take jobs, compute their batches and commit them, each until its
/// turns are over or there is no job. The more they are, the fewer threads each may start to compute one. It answers
/// how many batches were committed; where a worker found no memory it ends, what its subscriber is owed is handed out
/// again, and the others go on to their end.
pub fn work<
    N: Naming + HistoryNaming + Ledger + Send + Sync,
    R: Threads + Wait + Copy + Send + Sync,
    G: Gate<N>,
>(
    rt: &R,
    alloc: Global,
    hub: &Hub<'_, N, R>,
    published: &Published<'_, N>,
    gate: &G,
    workers: &mut [Worker<N>],
    turns: u32,
) -> Result<u64, AllocError>
    requires { (1 ≤ length workers.old) × (length workers.old ≤ 16) }
    ensures none { turns ≡ 0 → result ≡ Ok 0 }
    ensures worked { Worked N.size turns (map (λ w. w.share) workers.old) result (map (λ w. w.share) workers.new) }
{
    if turns == 0 {
        return Ok(0);
    }
    let count = workers.len();
    for_each_mut(
        rt,
        workers,
        count,
        &|_place, worker: &mut Worker<N>|
            requires { IsSync R.row }
            ensures { (calls : List HubEntry) × Makes N.size worker.old.share calls worker.new.share
                × Works turns worker.new.ended calls }
        {
            let share = &mut worker.share;
            worker.ended = work_alone(rt, alloc, hub, published, gate, share, count, turns);
        },
    );
    total(workers)
}

/// Takes a job, whichever subscriber it is of. If it takes at most `most` steps its batch is computed and committed; a
/// longer one is left to whoever catches its subscriber up. It answers whether one was computed; where no memory was
/// found, what the subscriber is owed is handed out again.
pub fn help<N: Naming + HistoryNaming + Ledger, R: Threads + Wait + Copy + Sync>(
    rt: &R,
    alloc: Global,
    hub: &Hub<'_, N, R>,
    published: &Published<'_, N>,
    share: &mut Share<N>,
    most: usize,
) -> Result<bool, AllocError>
    ensures { (calls : List HubEntry) × Makes N.size share.old calls share.new × Helps most calls result }
{
    let Some(job) = hub.take_job(rt, share) else {
        return Ok(false);
    };
    if !is_short(published, &job, most) {
        return Ok(false);
    }
    let _end = serve(rt, alloc, hub, published, share, &job, 1)?;
    Ok(true)
}

/// Computes the batch of the first version that a subscriber waits for, whoever its job was handed out to, and commits
/// it, if the version's number is at most this one; where another committed it meanwhile that is as good. It answers
/// whether the subscriber waited for such a version.
pub fn catch_up<N: Naming + HistoryNaming + Ledger, R: Threads + Wait + Copy + Sync>(
    rt: &R,
    alloc: Global,
    hub: &Hub<'_, N, R>,
    published: &Published<'_, N>,
    share: &mut Share<N>,
    subscriber: usize,
    last: u64,
    workers: usize,
) -> Result<bool, AllocError>
    requires { (1 ≤ workers) × (workers ≤ 16) }
    ensures { CatchesUp N.size subscriber last share.old result share.new }
{
    let Some(job) = hub.missing_job(rt, share, subscriber) else {
        return Ok(false);
    };
    if job.number > last {
        return Ok(false);
    }
    let _end = answer(rt, alloc, hub, published, share, &job, workers)?;
    Ok(true)
}
