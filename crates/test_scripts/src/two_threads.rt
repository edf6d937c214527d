ghost use Rattle.std.specs.Prelude.{◌≡◌, ◌+◌, All, IfSome};
ghost use Rattle.change_ops.specs.declared.size.Size.TheVariants.{Small};
ghost use Rattle.ingest_workers.specs.Holdings.{IsIdle};

use crate::machine::ingested;
use call_history::knowledge::HistoryNaming;
use change_ops::size::Size;
use core_history::share::Share;
use core_history::start::Start;
use filters::filter::Filter;
use ingest_workers::hub::Hub;
use ingest_workers::ingest::settle;
use std::alloc::{AllocError, Global};
use std::marker::Brand;
use std::sync::Wait;
use std::sync::ledger::Ledger;
use std::thread::{Threads, join};
use version_history::published::{Naming, Published};
use version_pieces::version::PieceVersion;

/// Has two threads, each with a share and a peer of its own, ingest `changes` changes on a new hub. It tells what each
/// share counted, what the hub did, and the sum of the numbers that were answered.
pub fn play_threads<R: Threads + Wait + Copy + Send + Sync>(
    rt: &R,
    alloc: Global,
    changes: u64,
    told: &mut String,
) -> Result<(), AllocError> {
    let versions = boxcar::Vec::new(alloc)?;
    let programs = boxcar::Vec::new(alloc)?;
    let start = Start::new(alloc, 3)?;
    on_lists::<Brand, _>(rt, alloc, start, &versions, &programs, changes, told)
}

/// Ingests an insert of a peer, and answers its version's number.
fn ingest_insert<N: Naming + HistoryNaming + Ledger, R: Wait + Copy>(
    rt: &R,
    alloc: Global,
    hub: &Hub<'_, N, R>,
    share: &mut Share<N>,
    peer: u64,
    counter: u64,
) -> Option<u64>
    ensures { share.new.parts ≡ share.old.parts }
{
    let text = format!(in alloc; "change {peer} 1\ni {counter}@{peer} - 61\n").ok()?;
    ingested(rt, alloc, hub, share, text.as_str()).ok()
}

/// Ingests `changes` changes of a peer, and answers the sum of their versions' numbers.
fn ingest_many<N: Naming + HistoryNaming + Ledger, R: Wait + Copy>(
    rt: &R,
    alloc: Global,
    hub: &Hub<'_, N, R>,
    share: Share<N>,
    peer: u64,
    changes: u64,
) -> (Share<N>, u64)
    ensures { result.0.parts ≡ share.parts }
{
    let mut share = share;
    let mut numbers = 0u64;
    for counter in 1..changes.saturating_add(1) {
        let number = ingest_insert(rt, alloc, hub, &mut share, peer, counter);
        numbers = numbers.wrapping_add(number.unwrap_or(0));
    }
    (share, numbers)
}

/// Two of these shares.
fn two_of<N: Naming + HistoryNaming + Ledger>(shares: Vec<Share<N>>) -> Option<(Share<N>, Share<N>)>
    requires { All (IsIdle N.size) shares.items }
    ensures { IfSome result (λ two. (two.0.parts ≡ 1) × (two.1.parts ≡ 1)) }
{
    let mut shares = shares;
    let one = shares.pop()?;
    let two = shares.pop()?;
    Some((one, two))
}

/// Settles a hub, of which these are all shares.
fn settle_two<N: Naming + HistoryNaming + Ledger, R: Wait + Copy>(
    alloc: Global,
    hub: Hub<'_, N, R>,
    one: Share<N>,
    two: Share<N>,
) -> Result<u64, AllocError>
    requires { one.parts + two.parts + 1 ≡ N.parts }
{
    let mut shares = Vec::new(alloc);
    shares.push(one)?;
    shares.push(two)?;
    Ok(settle(hub, shares))
}

fn on_lists<
    'p,
    N: Naming + HistoryNaming + Ledger + Send + Sync,
    R: Threads + Wait + Copy + Send + Sync,
>(
    rt: &R,
    alloc: Global,
    start: Start,
    versions: &'p boxcar::Vec<PieceVersion>,
    programs: &'p boxcar::Vec<Filter>,
    changes: u64,
    told: &mut String,
) -> Result<(), AllocError>
    requires named { (Small ≡ N.size) × (versions.now ≡ N.versions) × (programs.now ≡ N.programs) }
    requires start { (start.name ≡ N.name) × (start.table ≡ N.table) × (start.parts ≡ N.parts) × (N.parts ≡ 3) }
{
    let published = Published::<N>::new(Size::Small, versions, programs);
    let (hub, shares) = Hub::new(rt, alloc, start, &published, 2)?;
    let (one, two) = two_of(shares).ok_or(AllocError)?;
    let there = &hub;
    let ((one, numbers), (two, others)) = join(
        rt,
        move || ingest_many(rt, alloc, there, one, 1, changes),
        || ingest_many(rt, alloc, &hub, two, 2, changes),
    );
    let counts = (one.count(), two.count());
    let all = settle_two(alloc, hub, one, two)?;
    let sum = numbers.wrapping_add(others);
    let text = format!(in alloc;
        "shares: {} {}\nsettled: {all}\nnumbers: {sum}\n",
        counts.0, counts.1
    )?;
    told.push_str(text.as_str())
}
