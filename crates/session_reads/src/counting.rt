//! How much there is of a hub, and how much it still takes.
ghost use Rattle.std.specs.Prelude.{◌≡◌, ◌<◌, ◌≤◌, length};
ghost use Rattle.change_ops.specs.Sizes.{most_changes, most_characters, most_marks, most_subscribers, most_open};
ghost use Rattle.change_ops.specs.Sizes.{most_bytes};
ghost use Rattle.hub_core.specs.Counting.{AreWithinLimits};
ghost use Rattle.session_reads.specs.Counting.{used_of, used_by, left_of, limits_of, IsLeft, AreStats, stats_of};
ghost use Rattle.session_reads.specs.Counting.{told_limit};
ghost use Rattle.ingest_workers.specs.Calls.{IsLook};

use call_history::knowledge::HistoryNaming;
use change_ops::size::{BYTE_LIMIT, Size};
use core_history::share::Share;
use hub_core::counts::Counts;
use ingest_workers::hub::Hub;
use session_lines::stats::{Limits, Memory, PerLimit, Stats};
use std::sync::Wait;
use std::sync::ledger::Ledger;
use version_history::published::{Naming, Published};
use version_pieces::version::PieceVersion;

/// How much of a limit is used, in parts of a thousand, rounded down.
fn used_of(count: u64, limit: u64) -> u64
    requires some { 0 < limit }
    requires few { count ≤ 262144 }
    ensures { result ≡ used_of count limit }
{
    count * 1000 / limit
}

/// How much of each limit is used, where the visible text has so many bytes.
fn used_by(size: Size, counts: Counts, bytes: u64) -> PerLimit
    requires counts { AreWithinLimits size counts }
    requires bytes { bytes ≤ most_bytes }
    ensures { result ≡ used_by size counts bytes }
{
    let inserted = used_of(counts.inserted, size.characters() as u64);
    let visible = used_of(bytes, BYTE_LIMIT as u64);
    let ever = used_of(counts.subscribed, size.subscribers() as u64);
    let open = used_of(counts.subscribers, size.open_subscribers() as u64);
    PerLimit {
        changes: used_of(counts.changes, size.changes() as u64),
        characters: inserted.max(visible),
        marks: used_of(counts.marks, size.marks() as u64),
        subscribers: ever.max(open),
    }
}

/// How much of each limit is left, where the visible text has so many bytes.
fn left_of(size: Size, counts: Counts, bytes: u64) -> PerLimit
    requires counts { AreWithinLimits size counts }
    requires bytes { bytes ≤ most_bytes }
    ensures { result ≡ left_of size counts bytes }
{
    let inserted = size.characters() as u64 - counts.inserted;
    let visible = BYTE_LIMIT as u64 - bytes;
    let ever = size.subscribers() as u64 - counts.subscribed;
    let open = size.open_subscribers() as u64 - counts.subscribers;
    PerLimit {
        changes: size.changes() as u64 - counts.changes,
        characters: inserted.min(visible),
        marks: size.marks() as u64 - counts.marks,
        subscribers: ever.min(open),
    }
}

/// The bytes of a version's text.
fn text_bytes(version: &PieceVersion) -> u64
    ensures value { result ≡ length version.now.text }
    ensures few { result ≤ most_bytes }
{
    version.keeps();
    version.byte_count() as u64
}

/// The limits of a hub of this size.
fn limits_of(size: Size) -> Limits
    ensures { result ≡ limits_of size }
{
    Limits {
        changes: size.changes() as u64,
        characters: size.characters() as u64,
        bytes: BYTE_LIMIT as u64,
        marks: size.marks() as u64,
        subscribers: size.subscribers() as u64,
        open_subscribers: size.open_subscribers() as u64,
    }
}

/// What is told of a hub of this size with so much in it, of its latest version, with so many sessions, whose slowest
/// subscriber is so many versions behind, and with this memory.
fn stats_of(
    size: Size,
    counts: Counts,
    version: &PieceVersion,
    sessions: u64,
    lag: u64,
    memory: Option<Memory>,
) -> Stats
    requires { AreWithinLimits size counts }
    ensures { result ≡ stats_of size counts version.now sessions lag memory }
{
    let characters = version.character_count() as u64;
    let bytes = text_bytes(version);
    Stats {
        versions: counts.changes,
        characters,
        removed: counts.inserted.saturating_sub(characters),
        marks: counts.marks,
        subscribers: counts.subscribers,
        subscribed: counts.subscribed,
        sessions,
        bytes,
        lag,
        used: used_by(size, counts, bytes),
        limits: limits_of(size),
        memory,
    }
}

/// The memory of a hub's document, where it has a limit.
fn memory_of<N: Naming + HistoryNaming + Ledger, R: Wait + Copy>(
    rt: &R,
    hub: &Hub<'_, N, R>,
    limit: Option<u64>,
) -> Option<Memory>
    ensures { told_limit result ≡ limit }
{
    let limit = limit?;
    let used = hub.taken_bytes(rt);
    Some(Memory { used, limit })
}

/// How much of each limit of a hub is left. Its text is looked at without its lock.
pub(crate) fn left<N: Naming + HistoryNaming + Ledger, R: Wait + Copy>(
    rt: &R,
    hub: &Hub<'_, N, R>,
    share: &mut Share<N>,
    published: &Published<'_, N>,
) -> PerLimit
    ensures { IsLook N.size share.old (λ s. IsLeft N.size s result) share.new }
{
    let (latest, counts) = hub.counts(rt, share);
    let bytes = text_bytes(published.look(&latest));
    left_of(hub.size(), counts, bytes)
}

/// How much there is of a hub, whose document may take so many bytes. Its text is looked at without its lock.
pub(crate) fn stats<N: Naming + HistoryNaming + Ledger, R: Wait + Copy>(
    rt: &R,
    hub: &Hub<'_, N, R>,
    share: &mut Share<N>,
    published: &Published<'_, N>,
    limit: Option<u64>,
) -> Stats
    ensures { IsLook N.size share.old (λ s. AreStats N.size limit s result) share.new }
{
    let memory = memory_of(rt, hub, limit);
    let (latest, counts) = hub.counts(rt, share);
    stats_of(
        hub.size(),
        counts,
        published.look(&latest),
        hub.session_count(),
        hub.lag(counts.changes),
        memory,
    )
}
