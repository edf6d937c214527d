ghost use Rattle.std.specs.Prelude.{◌≡◌, ◌<◌, ◌≤◌, ◌⊎◌, ◌↔◌, [], IfOk, OnErr, IsTrue, string_bytes};
ghost use Rattle.change_ops.specs.Sizes.{most_changes};
ghost use Rattle.ingest_workers.specs.Calls.{IsLook};
ghost use Rattle.session_subscribers.specs.Holding.{Pulls, PullsAny, PullsShort};
ghost use Rattle.session_subscribers.specs.Items.{item_reply, Takes, TakesShort, GivesShort};
ghost use Rattle.session_subscribers.specs.Streams.{PullsBeginTheStream};

use crate::session_hub::{Held, SessionHub, index_of};
use call_history::knowledge::HistoryNaming;
use core_history::share::Share;
use feeds::item::Finding;
use refusals::reason::Reason;
use session_lines::reply::Reply;
use std::alloc::AllocError;
use std::sync::Wait;
use std::sync::ledger::Ledger;
use std::thread::Threads;
use stream_readers::reader::StreamReader;
use version_history::published::Naming;

/// What is printed of an item.
fn reply_of(what: Finding) -> Reply
    ensures { result ≡ item_reply what }
{
    match what {
        Finding::Hit {
            version,
            span,
            verdict,
        } => Reply::Hit {
            version,
            span,
            verdict,
        },
        Finding::End { version, spans } => Reply::End { version, spans },
    }
}

/// Gives the items that are pending, at most `most`, and appends their lines. It answers how many.
fn give_pending<N: Naming>(
    reader: &mut StreamReader<N>,
    most: usize,
    out: &mut String,
) -> Result<usize, AllocError>
    ensures ok { IfOk result (λ given. (given ≤ most)
        × Takes given reader.old reader.new (string_bytes out.old) (string_bytes out.new)) }
    ensures all { IfOk result (λ given. given < most → reader.new.pending ≡ []) }
    ensures err { OnErr result (TakesShort most reader.old reader.new (string_bytes out.old)
        (string_bytes out.new)) }
{
    for given in 0..most {
        let Some(what) = reader.next_finding() else {
            return Ok(given);
        };
        reply_of(what).push_line(out)?;
    }
    Ok(most)
}

impl<
    N: Naming + HistoryNaming + Ledger + Send + Sync,
    R: Threads + Wait + Copy + Send + Sync,
> SessionHub<'_, '_, N, R> {
    /// What answers a pull of at most `count` items that took so many, where the latest version had this number before.
    /// Where it took none since the hub is full, none comes any more: a session that may read is told so.
    fn items_reply(&self, count: usize, taken: usize, latest: u64) -> Reply
        ensures full { (result ≡ Reply.NoItemsFull) ↔ ((taken ≡ 0) × (0 < count) × IsTrue self.now.options.reads
            × (latest ≡ most_changes N.size)) }
        ensures either { (result ≡ Reply.NoItemsFull) ⊎ (result ≡ Reply.Items taken) }
    {
        let is_full = latest == self.hub.size().changes() as u64;
        if taken == 0 && count > 0 && self.options.reads && is_full {
            Reply::NoItemsFull
        } else {
            Reply::Items(taken)
        }
    }

    /// Looks at the hub once, and gives items of the versions that it has, until `count` are given or all that are due.
    /// The program is run outside of the lock.
    fn pull_from(
        &self,
        share: &mut Share<N>,
        reader: &mut StreamReader<N>,
        count: usize,
        out: &mut String,
    ) -> Result<Reply, AllocError>
        ensures ok { IfOk result (Pulls N.size share.old share.new self.now.options.reads count reader.old reader.new
            (string_bytes out.old) (string_bytes out.new)) }
        ensures err { OnErr result (IsLook N.size share.old (λ s. GivesShort s.versions count reader.old reader.new
            (string_bytes out.old) (string_bytes out.new)) share.new) }
    {
        let from = reader.next_version();
        let Ok((latest, versions)) = self.hub.versions_from(&self.rt, share, from, count) else {
            return Ok(Reply::Refused(Reason::OutOfMemory));
        };
        let mut given = give_pending(reader, count, out)?;
        for version in &versions {
            if given == count {
                break;
            }
            let judged = reader.judge(&self.rt, self.alloc, self.published, version, self.workers);
            let Ok(()) = judged else {
                return Ok(Reply::Refused(Reason::OutOfMemory));
            };
            given += give_pending(reader, count - given, out)?;
        }
        Ok(self.items_reply(count, given, latest))
    }

    /// Gives items of a subscriber of the session, appends their lines, and answers what is printed after them.
    pub fn pull(
        &self,
        share: &mut Share<N>,
        held: &mut Vec<Held<N>>,
        id: usize,
        count: usize,
        out: &mut String,
    ) -> Result<Reply, AllocError>
        ensures ok { IfOk result (PullsAny N.size share.old share.new self.now.options.reads id count held.old.items
            held.new.items (string_bytes out.old) (string_bytes out.new)) }
        ensures err { OnErr result (PullsShort N.size share.old share.new id count held.old.items held.new.items
            (string_bytes out.old) (string_bytes out.new)) }
    {
        let Some(index) = index_of(held.as_slice(), id) else {
            return Ok(Reply::Refused(Reason::NoSubscriber));
        };
        let one = &mut held[index];
        let reply = self.pull_from(share, &mut one.reader, count, out);
        self.hub.note_progress(id, one.reader.first_ungiven());
        reply
    }
}

/// What the pulls of a subscriber give, one after another, begins its program's stream.
pub fn pulls_begin_the_stream()
    ensures { PullsBeginTheStream }
{}
