ghost use Rattle.std.specs.Prelude.{◌≡◌};
ghost use Rattle.change_ops.specs.declared.size.Size.TheVariants.{Small};

use crate::lines::{TEN_VERSIONS, TEN_VERSIONS_REPLIES};
use call_history::knowledge::HistoryNaming;
use change_keeping::keeper::NoStore;
use change_ops::size::Size;
use core_history::share::Share;
use core_history::start::Start;
use filters::filter::Filter;
use hub_requests::limits::SessionOptions;
use hub_sessions::conversation::session;
use ingest_workers::hub::Hub;
use std::alloc::Global;
use std::io;
use std::marker::Brand;
use std::process::Abort;
use std::sync::Wait;
use std::sync::ledger::Ledger;
use std::test::*;
use std::thread::Threads;
use version_history::published::{Naming, Published};
use version_pieces::version::PieceVersion;

/// A reader that gives one line a read. Before each it takes all jobs of the hub and drops them, as workers of other
/// sessions would that never come to an end.
#[derive(Drop)]
struct JobTaker<'a, 'h, 'p, N: Naming + HistoryNaming + Ledger, R: Wait + Copy> {
    rt: R,
    hub: &'h Hub<'p, N, R>,
    share: Share<N>,
    rest: &'a [u8],
    jobs: u32,
}

impl<N: Naming + HistoryNaming + Ledger, R: Wait + Copy> JobTaker<'_, '_, '_, N, R> {
    fn take_jobs(&mut self) {
        for _ in 0..100u32 {
            if self.hub.take_job(&self.rt, &mut self.share).is_none() {
                break;
            }
            self.jobs = self.jobs.saturating_add(1);
        }
    }
}

impl<N: Naming + HistoryNaming + Ledger, R: Wait + Copy> io::Read for JobTaker<'_, '_, '_, N, R> {
    fn read(&mut self, buf: &mut [u8]) -> io::Result<usize> {
        self.take_jobs();
        let mut given = 0;
        for target in buf.iter_mut() {
            let rest = self.rest;
            let Some((byte, rest)) = rest.split_first() else {
                break;
            };
            *target = *byte;
            self.rest = rest;
            given += 1;
            if *byte == b'\n' {
                break;
            }
        }
        Ok(given)
    }
}

#[test]
fn a_pull_answers_what_is_due_though_others_took_its_jobs(rt: HostRuntime) -> Result<(), Fail> {
    let versions = boxcar::Vec::new(rt.alloc())?;
    let programs = boxcar::Vec::new(rt.alloc())?;
    let start = Start::new(rt.alloc(), 3)?;
    taken::<Brand, _>(rt, rt.alloc(), start, &versions, &programs)
}

fn taken<
    N: Naming + HistoryNaming + Ledger + Send + Sync,
    R: Threads + Wait + Abort + Copy + Send + Sync,
>(
    rt: R,
    alloc: Global,
    start: Start,
    versions: &boxcar::Vec<PieceVersion>,
    programs: &boxcar::Vec<Filter>,
) -> Result<(), Fail>
    requires named { (Small ≡ N.size) × (versions.now ≡ N.versions) × (programs.now ≡ N.programs) }
    requires start { (start.name ≡ N.name) × (start.table ≡ N.table) × (start.parts ≡ N.parts) × (N.parts ≡ 3) }
{
    let published = Published::<N>::new(Size::Small, versions, programs);
    let (hub, mut shares) = Hub::new(&rt, alloc, start, &published, 2)?;
    let Some(takers) = shares.pop() else {
        return Err(Fail::from("shares"));
    };
    let mut out = Vec::new(alloc);
    let jobs = with_jobs_taken(
        &rt,
        alloc,
        &hub,
        &published,
        &mut shares[0],
        takers,
        &mut out,
    );
    assert_eq!(rt; out.as_slice(), TEN_VERSIONS_REPLIES.as_bytes());
    // Jobs are handed out of eight versions, and no session brings a batch of one.
    assert_eq!(rt; jobs, 8);
    Ok(())
}

/// Runs the session by one share, and answers how many jobs were taken from it by another.
fn with_jobs_taken<
    'p,
    N: Naming + HistoryNaming + Ledger + Send + Sync,
    R: Threads + Wait + Copy + Send + Sync,
>(
    rt: &R,
    alloc: Global,
    hub: &Hub<'p, N, R>,
    published: &Published<'p, N>,
    share: &mut Share<N>,
    takers: Share<N>,
    out: &mut Vec<u8>,
) -> u32 {
    let mut reader = JobTaker {
        rt: *rt,
        hub,
        share: takers,
        rest: TEN_VERSIONS.as_bytes(),
        jobs: 0,
    };
    let _ = session(
        rt,
        alloc,
        hub,
        published,
        &mut NoStore,
        share,
        &mut reader,
        out,
        2,
        SessionOptions::unlimited(false),
    );
    reader.jobs
}
