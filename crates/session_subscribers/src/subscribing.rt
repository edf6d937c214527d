ghost use Rattle.std.specs.Prelude.{◌≡◌, ℕ, List, Option, None, [], Ok, IfOk, IfErr, MatchResult};
ghost use Rattle.change_ops.specs.declared.size.Size.{Size as TheSize};
ghost use Rattle.bpf_words.specs.Words.{IsProgram, program_of};
ghost use Rattle.filters.specs.Accepted.{IsAccepted};
ghost use Rattle.filters.specs.declared.rules.RuleSet.{RuleSet as TheRules};
ghost use Rattle.hub_core.specs.declared.run.Reply.TheVariants as told;
ghost use Rattle.core_history.specs.declared.entry.Call.TheVariants as call;
ghost use Rattle.core_history.specs.Hubs.{Seen};
ghost use Rattle.subscriber_queues.specs.Queue.{IsCapacity};
ghost use Rattle.ingest_workers.specs.Calls.{Makes, IsCall};
ghost use Rattle.session_subscribers.specs.Holding.{AreSafe, IsFirst, IsNotSubscribed, Adds, Closes};

use crate::session_hub::{Held, SessionHub, index_of};
use bpf_words::words::Words;
use call_history::knowledge::HistoryNaming;
use core_history::share::Share;
use filters::accept::accept;
use filters::filter::Filter;
use filters::rules::RuleSet;
use hub_core::error::SubscribeError;
use hub_requests::limits::SessionLimits;
use refusals::reason::Reason;
use session_lines::reply::Reply;
use std::alloc::{AllocError, Global};
use std::sync::Wait;
use std::sync::ledger::Ledger;
use stream_readers::reader::StreamReader;
use subscriber_queues::ends::{CAPACITY_LIMIT, QueueSink, queue};
use version_history::published::{Naming, ProgramToken};

/// The hub's end of a queue. A session reads the versions itself, so nothing is ever sent to it.
fn unused_sink<N: Naming, R: Wait + Copy>(
    rt: R,
    alloc: Global,
) -> Result<QueueSink<N, R>, AllocError>
    ensures { IfOk result (λ sink. (sink.sent ≡ []) × (sink.promise ≡ None)) }
{
    match queue(rt, alloc, 1) {
        Ok((sink, _)) => Ok(sink),
        Err(_) => Err(AllocError),
    }
}

/// Refuses what is no capacity.
fn check_capacity(capacity: usize) -> Result<(), Reason>
    ensures { MatchResult result (λ _. IsCapacity capacity)
        (λ why. (why ≡ Reason.BadCapacity) × ¬ IsCapacity capacity) }
{
    if (1..=CAPACITY_LIMIT).contains(&capacity) {
        Ok(())
    } else {
        Err(Reason::BadCapacity)
    }
}

/// The filter that the program of these bytes is, accepted by these rules.
fn accepted(alloc: Global, rules: RuleSet, bytes: &[u8]) -> Result<Filter, Reason>
    ensures ok { IfOk result (λ program. IsProgram bytes.now × (program ≡ program_of bytes.now)
        × IsAccepted rules (program_of bytes.now)) }
    ensures err { IfErr result (λ why. (size : TheSize) (v : Seen) (capacity : ℕ) (first : Option ℕ)
        → IsNotSubscribed size v v rules capacity bytes.now first why) }
{
    let words = match Words::new(bytes) {
        Ok(words) => words,
        Err(error) => return Err(Reason::Words(error)),
    };
    match accept(alloc, &words, rules) {
        Ok(program) => Ok(program),
        Err(error) => Err(Reason::Unverified(error)),
    }
}

impl<N: Naming + HistoryNaming + Ledger, R: Wait + Copy> SessionHub<'_, '_, N, R> {
    /// The token of a program, which is published.
    fn publish(&self, program: Filter) -> Result<ProgramToken<N>, Reason>
        ensures ok { IfOk result (λ token. token.value ≡ program) }
        ensures err { IfErr result (λ why. why ≡ Reason.OutOfMemory) }
    {
        match self.published.publish_program(&self.rt, program) {
            Ok(token) => Ok(token),
            Err(_) => Err(Reason::OutOfMemory),
        }
    }

    /// The first version of a subscriber: the one that is named, or the latest. What the hub would refuse whatever the
    /// program is, is refused.
    fn first_version(&self, share: &mut Share<N>, named: Option<u64>) -> Result<u64, Reason>
        ensures ok { IfOk result (λ first. IsFirst N.size share.old share.new named first
            × Makes N.size share.old [] share.new) }
        ensures err { IfErr result (λ why. (rules : TheRules) (capacity : ℕ) (bytes : List ℕ)
            → AreSafe rules bytes
            → IsNotSubscribed N.size share.old share.new rules capacity bytes named why) }
    {
        if self.hub.is_full(&self.rt, share) {
            return Err(Reason::SubscribersFull);
        }
        let Some(number) = named else {
            return Ok(self.hub.latest(&self.rt, share));
        };
        if self.hub.lacks_version(&self.rt, share, number) {
            return Err(Reason::NoVersion);
        }
        Ok(number)
    }

    /// The id under which the hub has the subscriber, or why it has none.
    fn id_at_hub(
        &self,
        share: &mut Share<N>,
        program: ProgramToken<N>,
        sink: QueueSink<N, R>,
        first: u64,
    ) -> Result<usize, Reason>
        requires none { sink.sent ≡ [] }
        requires promise { sink.promise ≡ None }
        ensures ok { IfOk result (λ id. IsCall N.size share.old (call.SubscribeFrom program sink first)
            (told.Subscribed (Ok id)) share.new) }
        ensures err { IfErr result (λ why. (v : Seen) (rules : TheRules) (capacity : ℕ) (bytes : List ℕ)
            (named : Option ℕ) → IsFirst N.size v share.old named first → Makes N.size v [] share.old
            → AreSafe rules bytes → program.value ≡ program_of bytes
            → IsNotSubscribed N.size v share.new rules capacity bytes named why) }
    {
        match self
            .hub
            .subscribe_from(&self.rt, share, program, sink, first)
        {
            Ok(id) => Ok(id),
            Err(SubscribeError::SubscribersFull) => Err(Reason::SubscribersFull),
            Err(SubscribeError::NoVersion) => Err(Reason::NoVersion),
            Err(SubscribeError::OutOfMemory) => Err(Reason::OutOfMemory),
        }
    }

    /// Adds a subscriber, and keeps it among those of the session, unless the session has none left.
    ///
    /// What is published stays for good, so the program is published last, and not at all where the hub is full or the
    /// first version isn't there yet. Only where sessions race for the hub's last place may each of them leave one
    /// program that no subscriber has.
    fn add(
        &self,
        share: &mut Share<N>,
        held: &mut Vec<Held<N>>,
        left: &mut SessionLimits,
        rules: RuleSet,
        capacity: usize,
        bytes: &[u8],
        named: Option<u64>,
    ) -> Result<usize, Reason>
        ensures ok { IfOk result (λ id. Adds N.size share.old share.new rules capacity bytes.now named left.old
            held.old.items (Reply.Subscribed id) left.new held.new.items) }
        ensures err { IfErr result (λ why. Adds N.size share.old share.new rules capacity bytes.now named left.old
            held.old.items (Reply.Refused why) left.new held.new.items) }
    {
        let program = accepted(self.alloc, rules, bytes)?;
        if !left.takes_subscriber() {
            return Err(Reason::SubscribersFull);
        }
        let first = self.first_version(share, named)?;
        if held.reserve(1).is_err() {
            return Err(Reason::OutOfMemory);
        }
        check_capacity(capacity)?;
        let Ok(sink) = unused_sink(self.rt, self.alloc) else {
            return Err(Reason::OutOfMemory);
        };
        let token = self.publish(program)?;
        let id = self.id_at_hub(share, token.again(), sink, first)?;
        self.hub.note_progress(id, first);
        held.push_reserved(Held {
            id,
            reader: StreamReader::new(token, first),
        });
        left.spend_subscriber();
        Ok(id)
    }

    /// Adds a subscriber, unless the session has none left: its program and the rules that accept it, a capacity, of
    /// which it is only looked whether it is one, and its first version, the latest where none is named.
    pub fn subscribe(
        &self,
        share: &mut Share<N>,
        held: &mut Vec<Held<N>>,
        left: &mut SessionLimits,
        rules: RuleSet,
        capacity: usize,
        bytes: &[u8],
        named: Option<u64>,
    ) -> Reply
        ensures { Adds N.size share.old share.new rules capacity bytes.now named left.old held.old.items result
            left.new held.new.items }
    {
        match self.add(share, held, left, rules, capacity, bytes, named) {
            Ok(id) => Reply::Subscribed(id),
            Err(reason) => Reply::Refused(reason),
        }
    }

    /// Closes a subscriber of the session.
    pub fn close(&self, share: &mut Share<N>, held: &mut Vec<Held<N>>, id: usize) -> Reply
        ensures { Closes N.size share.old share.new held.old.items id result held.new.items }
    {
        let Some(index) = index_of(held.as_slice(), id) else {
            return Reply::Refused(Reason::NoSubscriber);
        };
        let _one = held.remove(index);
        // Refused where the hub has it as closed, which it then is.
        let _ = self.hub.close(&self.rt, share, id);
        Reply::Closed(id)
    }
}
