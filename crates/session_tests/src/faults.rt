ghost use Rattle.std.specs.Prelude.{◌≡◌};
ghost use Rattle.change_ops.specs.declared.size.Size.TheVariants.{Small};

use crate::lines::{QUEUE_OF_ONE, QUEUE_OF_ONE_REPLIES};
use call_history::knowledge::HistoryNaming;
use change_keeping::keeper::NoStore;
use change_ops::size::Size;
use core_history::start::Start;
use filters::filter::Filter;
use hub_requests::limits::SessionOptions;
use hub_sessions::conversation::{SessionFault, session};
use ingest_workers::hub::Hub;
use std::alloc::Global;
use std::marker::Brand;
use std::sync::Wait;
use std::sync::ledger::Ledger;
use std::test::Fail;
use std::thread::Threads;
use test_inputs::devices::{FailingReader, FailingWriter};
use version_history::published::{Naming, Published};
use version_pieces::version::PieceVersion;

/// How a session went whose reader and writer failed after some reads and writes, and what the hub was left at.
#[derive(Drop)]
struct Outcome {
    /// How it ended.
    ended: Result<(), SessionFault>,
    /// Whether it came to a read that failed.
    unread: bool,
    /// Whether it came to a write that failed.
    unwritten: bool,
    printed: Vec<u8>,
    /// How many of its changes were accepted.
    accepted: u64,
    /// Whether its subscriber is closed, or was never made.
    closed: bool,
    /// What another session on the same hub prints then for a change of its own.
    next: Vec<u8>,
}

fn tried<R: Threads + Wait + Copy + Send + Sync>(
    rt: &R,
    alloc: Global,
    reads: usize,
    writes: usize,
) -> Result<Outcome, Fail> {
    let versions = boxcar::Vec::new(alloc)?;
    let programs = boxcar::Vec::new(alloc)?;
    let start = Start::new(alloc, 3)?;
    tried_on::<Brand, _>(rt, alloc, start, &versions, &programs, reads, writes)
}

fn tried_on<
    N: Naming + HistoryNaming + Ledger + Send + Sync,
    R: Threads + Wait + Copy + Send + Sync,
>(
    rt: &R,
    alloc: Global,
    start: Start,
    versions: &boxcar::Vec<PieceVersion>,
    programs: &boxcar::Vec<Filter>,
    reads: usize,
    writes: usize,
) -> Result<Outcome, Fail>
    requires named { (Small ≡ N.size) × (versions.now ≡ N.versions) × (programs.now ≡ N.programs) }
    requires start { (start.name ≡ N.name) × (start.table ≡ N.table) × (start.parts ≡ N.parts) × (N.parts ≡ 3) }
{
    let published = Published::<N>::new(Size::Small, versions, programs);
    let (hub, mut shares) = Hub::new(rt, alloc, start, &published, 2)?;
    let Some(mut one) = shares.pop() else {
        return Err(Fail::from("shares"));
    };
    let Some(mut two) = shares.pop() else {
        return Err(Fail::from("shares"));
    };
    let mut reader = FailingReader {
        rest: QUEUE_OF_ONE.as_bytes(),
        good: reads,
        failed: false,
    };
    let mut writer = FailingWriter {
        bytes: Vec::new(alloc),
        good: writes,
        failed: false,
    };
    let ended = session(
        rt,
        alloc,
        &hub,
        &published,
        &mut NoStore,
        &mut one,
        &mut reader,
        &mut writer,
        1,
        SessionOptions::unlimited(false),
    );
    let closed = hub.pump(rt, &mut one, 0).is_err();
    let mut next = Vec::new(alloc);
    let other = "change 3 1\ni 9@3 - 61\n";
    let _ = session(
        rt,
        alloc,
        &hub,
        &published,
        &mut NoStore,
        &mut two,
        other.as_bytes(),
        &mut next,
        1,
        SessionOptions::unlimited(false),
    );
    Ok(Outcome {
        ended,
        unread: reader.failed,
        unwritten: writer.failed,
        printed: writer.bytes,
        accepted: one.count(),
        closed,
        next,
    })
}

/// Whether the rest of the hub is as it should be, and what was printed a beginning of the replies.
fn is_sound(alloc: Global, outcome: &Outcome) -> Result<bool, Fail> {
    let number = outcome.accepted.saturating_add(1);
    let next = format!(in alloc; "ok version {number}\n")?;
    Ok(
        outcome.closed
            && outcome.next.as_slice() == next.as_bytes()
            && QUEUE_OF_ONE_REPLIES
                .as_bytes()
                .starts_with(outcome.printed.as_slice()),
    )
}

/// The first number of reads after which the session isn't told to have failed, or leaves its hub otherwise than it
/// should.
fn first_wrong_read<R: Threads + Wait + Copy + Send + Sync>(
    rt: &R,
    alloc: Global,
) -> Result<Option<usize>, Fail> {
    for reads in 0..1000usize {
        let outcome = tried(rt, alloc, reads, usize::MAX)?;
        let told = if outcome.unread {
            matches!(outcome.ended, Err(SessionFault::Read(_)))
        } else {
            outcome.ended.is_ok() && outcome.printed.len() == QUEUE_OF_ONE_REPLIES.len()
        };
        if !told || !is_sound(alloc, &outcome)? {
            return Ok(Some(reads));
        }
        if !outcome.unread {
            return Ok(None);
        }
    }
    Ok(Some(1000))
}

/// The same of writes.
fn first_wrong_write<R: Threads + Wait + Copy + Send + Sync>(
    rt: &R,
    alloc: Global,
) -> Result<Option<usize>, Fail> {
    for writes in 0..1000usize {
        let outcome = tried(rt, alloc, usize::MAX, writes)?;
        let told = if outcome.unwritten {
            matches!(outcome.ended, Err(SessionFault::Write(_)))
        } else {
            outcome.ended.is_ok() && outcome.printed.len() == QUEUE_OF_ONE_REPLIES.len()
        };
        if !told || !is_sound(alloc, &outcome)? {
            return Ok(Some(writes));
        }
        if !outcome.unwritten {
            return Ok(None);
        }
    }
    Ok(Some(1000))
}

#[test]
fn a_failed_read_ends_the_session_alone(rt: HostRuntime) -> Result<(), Fail> {
    assert_eq!(rt; first_wrong_read(&rt, rt.alloc())?, None);
    Ok(())
}

#[test]
fn a_failed_write_ends_the_session_alone(rt: HostRuntime) -> Result<(), Fail> {
    assert_eq!(rt; first_wrong_write(&rt, rt.alloc())?, None);
    Ok(())
}
