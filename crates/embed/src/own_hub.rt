//! A hub with a subscriber, whose batches are computed on several threads.
ghost use Rattle.change_ops.specs.declared.size.Size.TheVariants.{Small};
ghost use Rattle.std.specs.Prelude.{◌≡◌, ◌≤◌, length};

use anyhow::{Context, Result};
use call_history::knowledge::HistoryNaming;
use change_ops::size::Size;
use core_history::start::Start;
use feeds::item::Finding;
use filter_workers::gate::Open;
use filter_workers::work::{Worker, work};
use filters::filter::Filter;
use ingest_workers::hub::Hub;
use ingest_workers::ingest::ingest;
use std::alloc::Global;
use std::marker::Brand;
use std::sync::Wait;
use std::sync::ledger::Ledger;
use std::thread::Threads;
use subscriber_queues::ends::queue;
use version_history::published::{Naming, Published};
use version_pieces::version::PieceVersion;

/// What a new subscriber of a hub is sent, of the version that is there and of those that the changes make.
fn findings<
    N: Naming + HistoryNaming + Ledger + Send + Sync,
    R: Threads + Wait + Copy + Send + Sync,
>(
    rt: &R,
    alloc: Global,
    hub: &Hub<'_, N, R>,
    published: &Published<'_, N>,
    workers: &mut [Worker<N>],
    program: Filter,
    changes: &[&str],
) -> Result<Vec<Finding>>
    requires { (1 ≤ length workers.old) × (length workers.old ≤ 16) }
{
    let share = &mut workers[0].share; // each call of a hub is a share's
    let token = published
        .publish_program(rt, program)
        .ok()
        .context("no memory")?;
    let (sink, mut subscription) = queue(*rt, alloc, 16)?; // 16 items may wait; 54: not 1 to 1,024
    let _id = hub.subscribe(rt, share, token, sink)?; // from the latest version on; 51: 64 were added
    for text in changes {
        let _number = ingest(rt, alloc, hub, share, text)?; // of the version that it makes; or 40 to 50
    }
    work(rt, alloc, hub, published, &Open, workers, 16)?; // each computes 16 batches, or until none is due
    let mut findings = Vec::new(alloc);
    for _item in 0..16 {
        let Some(item) = subscription.take() else {
            break;
        };
        findings.push(item.what)?; // each once, version by version: hits in order, then the end
    }
    Ok(findings)
}

/// The same of a new hub, over the lists that its versions and programs are published in.
pub fn on_new_hub<R: Threads + Wait + Copy + Send + Sync>(
    rt: &R,
    alloc: Global,
    program: Filter,
    changes: &[&str],
) -> Result<Vec<Finding>> {
    let versions = boxcar::Vec::new(alloc)?;
    let programs = boxcar::Vec::new(alloc)?;
    let start = Start::new(alloc, 5)?; // a part for each share, and one for the hub's start
    on_lists::<Brand, _>(rt, alloc, start, &versions, &programs, program, changes)
}

fn on_lists<
    N: Naming + HistoryNaming + Ledger + Send + Sync,
    R: Threads + Wait + Copy + Send + Sync,
>(
    rt: &R,
    alloc: Global,
    start: Start,
    versions: &boxcar::Vec<PieceVersion>,
    programs: &boxcar::Vec<Filter>,
    program: Filter,
    changes: &[&str],
) -> Result<Vec<Finding>>
    requires named { (N.size ≡ Small) × (versions.now ≡ N.versions) × (programs.now ≡ N.programs) }
    requires start { (start.name ≡ N.name) × (start.table ≡ N.table) × (start.parts ≡ N.parts) × (N.parts ≡ 5) }
{
    let published = Published::<N>::new(Size::Small, versions, programs);
    let (hub, shares) = Hub::new(rt, alloc, start, &published, 4)?; // a share for each thread that calls the hub
    let mut workers: Vec<Worker<N>> = shares.into_iter().map(Worker::new).collect(alloc)?;
    let workers = workers.as_mut_slice();
    findings(rt, alloc, &hub, &published, workers, program, changes)
}
