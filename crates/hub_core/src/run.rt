ghost use Rattle.std.specs.Prelude.{◌≡◌, ◌<◌, ◌≤◌, ◌+◌, ◌++◌, List, All, OnOk, OnErr, vec_len, vec_capacity};
ghost use Rattle.feeds.specs.Batches.{Job as JobValue};
ghost use Rattle.hub_core.specs.declared.run.Event.TheVariants.{TakeJob};
ghost use Rattle.hub_core.specs.Runs.{Happens, AppendsRun, handed_by, IsFreshEvent};

use crate::error::{CommitError, NoSubscriber, SubscribeError};
use crate::hub::Core;
use change_history::refusal::SubmitError;
use change_ops::change::Change;
use feeds::item::{Item, Job};
use feeds::sink::Sink;
use std::alloc::{AllocError, Global};
use std::sync::Wait;
use version_history::published::{Naming, ProgramToken, VersionToken};

/// What a core is asked to do. `P` is a program's token, `S` a sink.
#[derive(Drop)]
pub enum Event<P, S> {
    Submit(Change),
    Subscribe(P, S),
    /// From a version on.
    SubscribeFrom(P, S, u64),
    TakeJob,
    /// Computes the batch of the job that was handed out with this index among those of the run, from 0, and commits
    /// it.
    Commit(usize),
    Pump(usize),
    Reissue(usize),
    Close(usize),
}

/// What a core answers. `V` is a version's token, `J` a job.
#[derive(Drop)]
pub enum Reply<V, J> {
    Submitted(Result<V, SubmitError>),
    Subscribed(Result<usize, SubscribeError>),
    Handed(Option<J>),
    Committed(Result<(), CommitError>),
    Pumped(Result<usize, NoSubscriber>),
    Reissued(Result<(), NoSubscriber>),
    Closed(Result<(), NoSubscriber>),
}

/// Takes a job, and keeps a copy of it.
fn take_job<N: Naming, S: Sink<Item<N>>>(
    core: &mut Core<'_, N, S>,
    jobs: &mut Vec<Job<N>>,
) -> Reply<VersionToken<N>, Job<N>>
    requires { vec_len jobs.old < vec_capacity jobs.old }
    ensures happens { (taken : List JobValue)
        → Happens S.sent S.full S.closed S.bare core.old taken TakeJob result core.new }
    ensures jobs { jobs.new.items ≡ jobs.old.items ++ handed_by result }
    ensures room { (vec_len jobs.new ≤ vec_len jobs.old + 1) × (vec_capacity jobs.new ≡ vec_capacity jobs.old) }
{
    let Some(job) = core.take_job() else {
        return Reply::Handed(None);
    };
    jobs.push_reserved(job.again());
    Reply::Handed(Some(job))
}

/// Does what an event asks for, where these jobs were handed out before it.
fn run_event<N: Naming, S: Sink<Item<N>>, R: Wait>(
    rt: &R,
    core: &mut Core<'_, N, S>,
    jobs: &mut Vec<Job<N>>,
    event: Event<ProgramToken<N>, S>,
) -> Reply<VersionToken<N>, Job<N>>
    requires fresh { IsFreshEvent S.sent S.promise N.size event }
    requires room { vec_len jobs.old < vec_capacity jobs.old }
    ensures happens { Happens S.sent S.full S.closed S.bare core.old jobs.old.items event result core.new }
    ensures jobs { jobs.new.items ≡ jobs.old.items ++ handed_by result }
    ensures room { (vec_len jobs.new ≤ vec_len jobs.old + 1) × (vec_capacity jobs.new ≡ vec_capacity jobs.old) }
{
    match event {
        Event::Submit(change) => Reply::Submitted(core.submit(rt, change)),
        Event::Subscribe(program, sink) => Reply::Subscribed(core.subscribe(program, sink)),
        Event::SubscribeFrom(program, sink, first) => {
            Reply::Subscribed(core.subscribe_from(program, sink, first))
        }
        Event::TakeJob => take_job(core, jobs),
        Event::Commit(index) => Reply::Committed(core.commit_job(jobs.as_slice(), index)),
        Event::Pump(id) => Reply::Pumped(core.pump(id)),
        Event::Reissue(id) => Reply::Reissued(core.reissue(id)),
        Event::Close(id) => Reply::Closed(core.close(id)),
    }
}

/// Does what the events ask for, in order, and appends a reply for each. Room for all replies and jobs is made first;
/// without it nothing is done.
pub fn run_events<N: Naming, S: Sink<Item<N>>, R: Wait>(
    rt: &R,
    alloc: Global,
    core: &mut Core<'_, N, S>,
    events: Vec<Event<ProgramToken<N>, S>>,
    replies: &mut Vec<Reply<VersionToken<N>, Job<N>>>,
) -> Result<(), AllocError>
    requires { All (IsFreshEvent S.sent S.promise N.size) events.items }
    ensures ok { OnOk result (AppendsRun S.sent S.full S.closed S.bare replies.old.items core.old events.items
        replies.new.items core.new) }
    ensures err { OnErr result ((replies.new.items ≡ replies.old.items) × (core.new ≡ core.old)) }
{
    let mut jobs = Vec::with_capacity(alloc, events.len())?;
    if replies.reserve(events.len()).is_err() {
        return Err(AllocError);
    }
    for event in events {
        let reply = run_event(rt, core, &mut jobs, event);
        replies.push_reserved(reply);
    }
    Ok(())
}
