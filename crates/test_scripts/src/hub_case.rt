ghost use Rattle.std.specs.Prelude.{◌≡◌, ◌+◌, ◌≤◌, All, IfOk, OnSome, length, map, vec_len};
ghost use Rattle.change_ops.specs.declared.size.Size.TheVariants.{Small};
ghost use Rattle.ingest_workers.specs.Holdings.{IsIdle};
ghost use Rattle.test_scripts.specs.Parts.{all_parts};

use crate::answer::{Answer, Fault, tell, without_memory};
use crate::findings::push_end;
use crate::machine::{Machine, taken};
use crate::script::{keep, number, parted, unmarked};
use crate::spare::Spare;
use crate::tricks::Trick;
use call_history::knowledge::HistoryNaming;
use change_ops::size::Size;
use core_history::share::Share;
use core_history::start::Start;
use filter_workers::work::Worker;
use filters::filter::Filter;
use ingest_workers::hub::Hub;
use ingest_workers::ingest::settle;
use std::alloc::{AllocError, Global};
use std::marker::Brand;
use std::sync::ledger::Ledger;
use std::sync::{Mutex, Wait};
use std::thread::Threads;
use subscriber_queues::ends::Subscription;
use version_history::published::{Naming, Published};
use version_pieces::version::PieceVersion;

/// The most workers that work at once, each with a share that no event names.
const WORKERS: usize = 16;

/// Plays a case on a new hub with `shares` shares, and further ones for workers and for tricks.
pub fn play_hub<R: Threads + Wait + Copy + Send + Sync>(
    rt: R,
    alloc: Global,
    shares: usize,
    lines: &str,
    told: &mut String,
) -> Result<(), AllocError> {
    let versions = boxcar::Vec::new(alloc)?;
    let programs = boxcar::Vec::new(alloc)?;
    let shares = shares.clamp(1, 239) + WORKERS + 1;
    let lines = String::from_str(alloc, lines)?;
    let start = Start::new(alloc, shares as u64 + 1)?;
    on_lists::<Brand, _>(rt, alloc, start, &versions, &programs, shares, lines, told)
}

/// Takes a share off these, none of which has made a call.
fn spare_of<N: Naming + HistoryNaming + Ledger>(shares: &mut Vec<Share<N>>) -> Option<Spare<N>>
    requires { All (IsIdle N.size) shares.old.items }
    ensures len { OnSome result (vec_len shares.new + 1 ≡ vec_len shares.old) }
    ensures idle { OnSome result (All (IsIdle N.size) shares.new.items) }
{
    let share = shares.pop()?;
    Some(Spare::new(share))
}

/// Workers, whose shares are taken off these.
#[tactic(auto, using(crate::proofs::Parts::all_push))]
fn workers_of<N: Naming + HistoryNaming + Ledger>(
    alloc: Global,
    shares: &mut Vec<Share<N>>,
) -> Result<Vec<Worker<N>>, AllocError>
    requires { 16 ≤ vec_len shares.old }
    ensures count { IfOk result (λ workers. vec_len workers ≡ 16) }
    ensures left { IfOk result (λ workers. vec_len shares.new + 16 ≡ vec_len shares.old) }
    ensures parts { IfOk result (λ workers. all_parts shares.new.items + all_parts (map (λ w. w.share) workers.items)
        ≡ all_parts shares.old.items) }
{
    let mut workers = Vec::with_capacity(alloc, WORKERS)?;
    for _worker in 0..WORKERS {
        let Some(share) = shares.pop() else {
            unreachable!();
        };
        workers.push_reserved(Worker::new(share));
    }
    Ok(workers)
}

/// Settles a hub, of which these, the workers' and the spare one are all shares.
#[tactic(auto, using(crate::proofs::Parts::all_push))]
fn settle_all<N: Naming + HistoryNaming + Ledger, R: Wait + Copy>(
    hub: Hub<'_, N, R>,
    shares: Vec<Share<N>>,
    workers: Vec<Worker<N>>,
    spare: Spare<N>,
) -> Result<u64, AllocError>
    requires { all_parts shares.items + all_parts (map (λ w. w.share) workers.items) + 2 ≡ N.parts }
{
    let mut shares = shares;
    for worker in workers {
        let Worker { share, ended: _ } = worker;
        shares.push(share)?;
    }
    shares.push(spare.into_share())?;
    Ok(settle(hub, shares))
}

fn on_lists<
    N: Naming + HistoryNaming + Ledger + Send + Sync,
    R: Threads + Wait + Copy + Send + Sync,
>(
    rt: R,
    alloc: Global,
    start: Start,
    versions: &boxcar::Vec<PieceVersion>,
    programs: &boxcar::Vec<Filter>,
    shares: usize,
    lines: String,
    told: &mut String,
) -> Result<(), AllocError>
    requires named { (Small ≡ N.size) × (versions.now ≡ N.versions) × (programs.now ≡ N.programs) }
    requires start { (start.name ≡ N.name) × (start.table ≡ N.table) × (start.parts ≡ N.parts)
        × (N.parts ≡ shares + 1) }
    requires range { (18 ≤ shares) × (shares ≤ 256) }
{
    let published = Published::<N>::new(Size::Small, versions, programs);
    let (hub, mut shares) = Hub::new(&rt, alloc, start, &published, shares)?;
    let Some(spare) = spare_of(&mut shares) else {
        return Err(AllocError);
    };
    let mut workers = workers_of(alloc, &mut shares)?;
    let spare = Mutex::new(spare);
    let subscriptions = play_machine(
        rt,
        alloc,
        &hub,
        &published,
        &spare,
        shares.as_mut_slice(),
        workers.as_mut_slice(),
        lines.as_str(),
        told,
    )?;
    let settled = settle_all(hub, shares, workers, spare.into_inner())?;
    tell_end(alloc, told, settled, subscriptions)
}

/// Plays the events on a machine over the hub, and answers the subscribers' ends of their queues.
fn play_machine<
    'a,
    'b,
    'p,
    'q,
    N: Naming + HistoryNaming + Ledger + Send + Sync,
    R: Threads + Wait + Copy + Send + Sync,
>(
    rt: R,
    alloc: Global,
    hub: &'a Hub<'p, N, R>,
    published: &'b Published<'q, N>,
    spare: &'b Mutex<Spare<N>>,
    shares: &mut [Share<N>],
    workers: &mut [Worker<N>],
    lines: &str,
    told: &mut String,
) -> Result<Vec<Subscription<N, R>>, AllocError>
    requires { (1 ≤ length shares.old) × (length workers.old ≤ 16) }
    ensures named { all_parts shares.new ≡ all_parts shares.old }
    ensures workers { all_parts (map (λ w. w.share) workers.new) ≡ all_parts (map (λ w. w.share) workers.old) }
{
    let mut machine = Machine {
        rt,
        alloc,
        hub,
        published,
        spare,
        kept: String::new(alloc),
        programs: Vec::new(alloc),
        jobs: Vec::new(alloc),
        batches: Vec::new(alloc),
        subscriptions: Vec::new(alloc),
        found: Vec::new(alloc),
    };
    play_lines(&mut machine, shares, workers, lines, told)?;
    Ok(machine.into_subscriptions())
}

/// Tells how many changes were settled, and what still waits in each queue, if anything does, now that the hub is gone.
fn tell_end<N: Naming, R: Wait + Copy>(
    alloc: Global,
    told: &mut String,
    settled: u64,
    subscriptions: Vec<Subscription<N, R>>,
) -> Result<(), AllocError> {
    let text = format!(in alloc; "settled: {settled}\n")?;
    told.push_str(text.as_str())?;
    let mut subscriptions = subscriptions;
    for (index, subscription) in subscriptions.iter_mut().enumerate() {
        let found = taken(alloc, subscription, 1024)?;
        push_end(alloc, told, "queue", index, found.as_slice())?;
    }
    Ok(())
}

fn play_lines<
    N: Naming + HistoryNaming + Ledger + Send + Sync,
    R: Threads + Wait + Copy + Send + Sync,
>(
    machine: &mut Machine<'_, '_, '_, '_, N, R>,
    shares: &mut [Share<N>],
    workers: &mut [Worker<N>],
    lines: &str,
    told: &mut String,
) -> Result<(), AllocError>
    requires { (1 ≤ length shares.old) × (length workers.old ≤ 16) }
    ensures named { all_parts shares.new ≡ all_parts shares.old }
    ensures workers { all_parts (map (λ w. w.share) workers.new) ≡ all_parts (map (λ w. w.share) workers.old) }
{
    for line in lines.lines() {
        let (line, is_untold) = unmarked(line);
        let (key, rest) = parted(line);
        if keep(&mut machine.kept, key, rest)? {
            continue;
        }
        let answer = answer(machine, shares, workers, key, rest);
        tell(
            machine.alloc,
            told,
            (key, is_untold),
            answer,
            machine.found.as_slice(),
        )?;
    }
    Ok(())
}

fn answer<N: Naming + HistoryNaming + Ledger + Send + Sync, R: Threads + Wait + Copy + Send + Sync>(
    machine: &mut Machine<'_, '_, '_, '_, N, R>,
    shares: &mut [Share<N>],
    workers: &mut [Worker<N>],
    key: &str,
    rest: &str,
) -> Result<Answer, Fault>
    requires { (1 ≤ length shares.old) × (length workers.old ≤ 16) }
    ensures named { all_parts shares.new ≡ all_parts shares.old }
    ensures workers { all_parts (map (λ w. w.share) workers.new) ≡ all_parts (map (λ w. w.share) workers.old) }
{
    let (first, second) = parted(rest);
    match key {
        "program" => machine.publish(rest),
        "batch" => machine.compute(number(rest)),
        "filter" => machine.filter(number(rest)),
        "offer" => machine.offer(rest),
        "take" => machine.take(number(rest), 1),
        "take-all" => machine.take(number(rest), 1024),
        "without-memory" => Err(without_memory(rest)),
        "ingest-by" => by_share(machine, shares, number(first), second),
        "work" => worked(machine, workers, Trick::Nothing, 0, first, second),
        "work-second-first" => worked(machine, workers, Trick::SecondFirst, 1, first, second),
        "work-close-at-3" => worked(machine, workers, Trick::Close, 3, first, second),
        "work-commit-first" => worked(machine, workers, Trick::Commit, 1, first, second),
        _ => called(machine, &mut shares[0], key, rest),
    }
}

/// The event is a call of this share.
fn called<N: Naming + HistoryNaming + Ledger, R: Threads + Wait + Copy + Sync>(
    machine: &mut Machine<'_, '_, '_, '_, N, R>,
    share: &mut Share<N>,
    key: &str,
    rest: &str,
) -> Result<Answer, Fault>
    ensures { share.new.parts ≡ share.old.parts }
{
    match key {
        "ingest" => machine.ingest(share, rest),
        "sub" => machine.subscribe(share, rest),
        "job" => machine.take_job(share),
        "commit" => machine.commit(share, rest),
        "pump" => machine.pump(share, number(rest)),
        "reissue" => machine.reissue(share, number(rest)),
        "close" => machine.close(share, number(rest)),
        "catch-up" => machine.catch_up(share, rest),
        _ => Err(Fault::NoEvent),
    }
}

fn by_share<N: Naming + HistoryNaming + Ledger, R: Wait + Copy>(
    machine: &mut Machine<'_, '_, '_, '_, N, R>,
    shares: &mut [Share<N>],
    index: usize,
    rest: &str,
) -> Result<Answer, Fault>
    ensures { all_parts shares.new ≡ all_parts shares.old }
{
    if index >= shares.len() {
        return Err(Fault::Nothing);
    }
    machine.ingest(&mut shares[index], rest)
}

fn worked<N: Naming + HistoryNaming + Ledger + Send + Sync, R: Threads + Wait + Copy + Send + Sync>(
    machine: &mut Machine<'_, '_, '_, '_, N, R>,
    workers: &mut [Worker<N>],
    trick: Trick,
    at: u64,
    count: &str,
    turns: &str,
) -> Result<Answer, Fault>
    requires { length workers.old ≤ 16 }
    ensures { all_parts (map (λ w. w.share) workers.new) ≡ all_parts (map (λ w. w.share) workers.old) }
{
    let count = number(count);
    if count < 1 || workers.len() < count {
        return Err(Fault::NoEvent);
    }
    let (some, _others) = workers.split_at_mut(count);
    machine.work(some, turns.parse().unwrap_or(0), trick, at)
}
