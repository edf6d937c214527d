ghost use Rattle.std.specs.Prelude.{◌≡◌};
ghost use Rattle.change_ops.specs.declared.size.Size.TheVariants.{Small};

use crate::lines::{TWO_SUBSCRIBERS, TWO_SUBSCRIBERS_REPLIES};
use call_history::knowledge::HistoryNaming;
use change_keeping::keeper::NoStore;
use change_ops::size::Size;
use core_history::start::Start;
use filters::filter::Filter;
use hub_requests::limits::SessionOptions;
use hub_sessions::conversation::session;
use ingest_workers::hub::Hub;
use std::alloc::Global;
use std::io;
use std::marker::Brand;
use std::process::Abort;
use std::sync::Wait;
use std::sync::ledger::Ledger;
use std::test::*;
use std::thread::Threads;
use version_history::published::{Naming, Published};
use version_pieces::version::PieceVersion;

/// After how many bytes each of the answers to `TWO_SUBSCRIBERS` ends.
static ENDS: [usize; 4] = [9, 18, 31, 68];

/// A writer that notes how many bytes it had at each flush.
#[derive(Drop)]
struct FlushNotes {
    bytes: Vec<u8>,
    flushed: Vec<usize>,
}

impl io::Write for FlushNotes {
    fn write(&mut self, buf: &[u8]) -> io::Result<usize> {
        for byte in buf {
            self.bytes.push(*byte)?;
        }
        Ok(buf.len())
    }

    fn flush(&mut self) -> io::Result<()> {
        self.flushed.push(self.bytes.len())?;
        Ok(())
    }
}

#[test]
fn each_answer_is_flushed_and_all_subscribers_closed(rt: HostRuntime) -> Result<(), Fail> {
    let versions = boxcar::Vec::new(rt.alloc())?;
    let programs = boxcar::Vec::new(rt.alloc())?;
    let start = Start::new(rt.alloc(), 2)?;
    two_subscribed::<Brand, _>(&rt, rt.alloc(), start, &versions, &programs)
}

fn two_subscribed<
    N: Naming + HistoryNaming + Ledger + Send + Sync,
    R: Threads + Wait + Abort + Copy + Send + Sync,
>(
    rt: &R,
    alloc: Global,
    start: Start,
    versions: &boxcar::Vec<PieceVersion>,
    programs: &boxcar::Vec<Filter>,
) -> Result<(), Fail>
    requires named { (Small ≡ N.size) × (versions.now ≡ N.versions) × (programs.now ≡ N.programs) }
    requires start { (start.name ≡ N.name) × (start.table ≡ N.table) × (start.parts ≡ N.parts) × (N.parts ≡ 2) }
{
    let published = Published::<N>::new(Size::Small, versions, programs);
    let (hub, mut shares) = Hub::new(rt, alloc, start, &published, 1)?;
    let mut writer = FlushNotes {
        bytes: Vec::new(alloc),
        flushed: Vec::new(alloc),
    };
    let ended = session(
        rt,
        alloc,
        &hub,
        &published,
        &mut NoStore,
        &mut shares[0],
        TWO_SUBSCRIBERS.as_bytes(),
        &mut writer,
        1,
        SessionOptions::unlimited(false),
    );
    assert!(rt; ended.is_ok());
    assert_eq!(rt; writer.bytes.as_slice(), TWO_SUBSCRIBERS_REPLIES.as_bytes());
    assert_eq!(rt; writer.flushed.as_slice(), ENDS.as_slice());
    assert!(rt; hub.pump(rt, &mut shares[0], 0).is_err());
    assert!(rt; hub.pump(rt, &mut shares[0], 1).is_err());
    Ok(())
}
