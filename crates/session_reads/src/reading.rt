ghost use Rattle.std.specs.Prelude.{◌≡◌, [], IfOk, OnErr};
ghost use Rattle.ingest_workers.specs.Calls.{Makes};
ghost use Rattle.session_reads.specs.Found.{found_text};
ghost use Rattle.session_reads.specs.Reads.{Shows, Lists, Counts, Names, Tells, Reads};
ghost use Rattle.session_lines.specs.declared.query.Query.TheVariants as query;

use crate::counting::{left, stats};
use crate::found::{Answer, Found};
use call_history::knowledge::HistoryNaming;
use change_ops::refusal::ChangeError;
use core_history::share::Share;
use hub_requests::identity::HubId;
use ingest_workers::hub::Hub;
use refusals::reason::Reason;
use session_lines::query::Query;
use session_lines::reply::Reply;
use span_lines::printing::SomeSpans;
use std::alloc::AllocError;
use std::sync::Wait;
use std::sync::ledger::Ledger;
use version_history::published::{Naming, Published};

/// Which spans are asked for: `most` of the version of this number, from the one of index `first` on.
#[derive(Clone, Copy)]
struct Excerpt {
    number: u64,
    first: u64,
    most: u64,
    /// Whether keys of the third form of changes are told.
    further: bool,
}

/// `most` spans of a version, from one of them on.
fn show<'a, N: Naming + HistoryNaming + Ledger, R: Wait + Copy>(
    rt: &R,
    hub: &Hub<'_, N, R>,
    share: &mut Share<N>,
    published: &'a Published<'_, N>,
    excerpt: Excerpt,
) -> Answer<'a>
    ensures { Shows N.size share.old share.new excerpt.number excerpt.first excerpt.most excerpt.further
        (found_text result.found) result.reply }
{
    let Some(token) = hub.version(rt, share, excerpt.number) else {
        return Answer::line(Reply::Refused(Reason::NoVersion));
    };
    let version = published.look(&token);
    let spans = SomeSpans {
        version,
        first: excerpt.first as usize,
        most: excerpt.most as usize,
        further: excerpt.further,
    };
    Answer {
        found: Found::Spans(spans),
        reply: Reply::Spans(version.span_count()),
    }
}

/// `most` accepted changes behind a version.
fn list<'a, N: Naming + HistoryNaming + Ledger, R: Wait + Copy>(
    rt: &R,
    hub: &Hub<'_, N, R>,
    share: &mut Share<N>,
    from: u64,
    most: u64,
) -> Result<Answer<'a>, AllocError>
    ensures short { OnErr result (Makes N.size share.old [] share.new) }
    ensures ok { IfOk result (λ answer. Lists N.size share.old share.new from most (found_text answer.found)
        answer.reply) }
{
    let Some(texts) = hub.texts_behind(rt, share, from, most as usize)? else {
        return Ok(Answer::line(Reply::Refused(Reason::NoVersion)));
    };
    let reply = Reply::Changes(texts.len());
    Ok(Answer {
        found: Found::Changes(texts),
        reply,
    })
}

/// The greatest counter of a peer's accepted operations, where the number is one of a peer.
fn count<N: Naming + HistoryNaming + Ledger, R: Wait + Copy>(
    rt: &R,
    hub: &Hub<'_, N, R>,
    share: &mut Share<N>,
    node: u64,
) -> Reply
    ensures { Counts N.size share.old share.new node result }
{
    if node < 1 || node > 65535 {
        return Reply::Refused(Reason::Unread(ChangeError::Limit(1)));
    }
    Reply::Newest(hub.last_counter(rt, share, node as u16))
}

/// Which hub it is, where it has an id.
fn name(id: Option<HubId>) -> Reply
    ensures { Names id result }
{
    match id {
        Some(id) => Reply::Hub(id),
        None => Reply::Refused(Reason::BadCommand),
    }
}

/// What a query is told.
fn told<'a, N: Naming + HistoryNaming + Ledger, R: Wait + Copy>(
    rt: &R,
    hub: &Hub<'_, N, R>,
    share: &mut Share<N>,
    published: &'a Published<'_, N>,
    id: Option<HubId>,
    memory: Option<u64>,
    query: Query,
) -> Result<Answer<'a>, AllocError>
    ensures short { OnErr result (Makes N.size share.old [] share.new) }
    ensures ok { IfOk result (λ answer. Tells N.size share.old share.new id memory query (found_text answer.found)
        answer.reply) }
{
    match query {
        Query::Latest => Ok(Answer::line(Reply::Latest(hub.latest(rt, share)))),
        Query::Left => Ok(Answer::line(Reply::Left(left(rt, hub, share, published)))),
        Query::Hub => Ok(Answer::line(name(id))),
        Query::Stats => Ok(Answer::line(Reply::Stats(stats(rt, hub, share, published, memory)))),
        Query::Show {
            version,
            first,
            count,
            further,
        } => {
            let excerpt = Excerpt {
                number: version,
                first,
                most: count,
                further,
            };
            Ok(show(rt, hub, share, published, excerpt))
        }
        Query::Changes { from, count } => list(rt, hub, share, from, count),
        Query::Newest { node } => Ok(Answer::line(count(rt, hub, share, node))),
    }
}

/// Reads of a hub with this id, whose document may take so many bytes, by looks of this share: what is found, and the
/// reply behind it. A hub that isn't read refuses. Reading changes nothing, and copies nothing of the text: no memory
/// is taken but for a list of up to 64 texts.
pub fn read<'a, N: Naming + HistoryNaming + Ledger, R: Wait + Copy>(
    rt: &R,
    hub: &Hub<'_, N, R>,
    share: &mut Share<N>,
    published: &'a Published<'_, N>,
    reads: bool,
    id: Option<HubId>,
    memory: Option<u64>,
    query: Query,
) -> Answer<'a>
    ensures { Reads N.size share.old share.new reads id memory query (found_text result.found) result.reply }
{
    if !reads {
        return Answer::line(Reply::Refused(Reason::BadCommand));
    }
    match told(rt, hub, share, published, id, memory, query) {
        Ok(answer) => answer,
        Err(_) => Answer::line(Reply::Refused(Reason::OutOfMemory)),
    }
}
