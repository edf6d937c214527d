//! A peer's own text, and the law of it.
ghost use Rattle.std.specs.Prelude.{◌≡◌, ◌<◌, List, [], IsSome, IfOk, MatchOption, MatchResult};
ghost use Rattle.std.specs.Prelude.{length, slice_get};
ghost use Rattle.span_flatten.specs.Spans.{Span, AreSpans};
ghost use Rattle.span_flatten.specs.Version.{IsVersion};
ghost use Rattle.replica.specs.Messages.{Message as MessageValue, AreApart, SameMessages};
ghost use Rattle.replica.specs.Readiness.{operations_in, HasCauses};
ghost use Rattle.replica.specs.Buffers.{WaitsFor, IsStop};
ghost use Rattle.change_history.specs.declared.refusal.SubmitError.{SubmitError as StopError};
ghost use Rattle.replica.specs.Replicas.{taken, Delivers, Hands, ShowsTheReady, WasHanded};

use crate::buffer::Buffer;
use crate::message::Message;
use change_history::refusal::SubmitError;
use change_ops::id::OpId;
use change_ops::size::Size;
use std::alloc::{AllocError, Global};
use std::marker::Model;
use version_pieces::version::PieceVersion;

/// What became of a message.
#[derive(Clone, Copy, PartialEq, Eq, Debug)]
pub enum Delivered {
    /// It was taken in, and is accepted or held.
    Taken,
    /// One that was taken in before covers a counter of its peer that this one covers: it is the same, unless the peer
    /// gave two operations one id. Nothing changed.
    Covered,
}

/// A peer's own text, of messages that come in any order, some of them repeated or lost.
#[derive(Drop)]
pub struct Replica {
    buffer: Buffer,
    stopped: Option<SubmitError>,
}

impl Model for Replica {
    ghost use Rattle.replica.specs.Replicas.{State, state_of, IsState};

    ghost Value = { State };

    ghost view = { λ r. state_of r.buffer r.stopped };

    ghost invariant = { λ r. IsState (state_of r.buffer r.stopped) };
}

impl Replica {
    /// No message.
    pub fn new(alloc: Global, size: Size) -> Replica
        ensures { result ≡ record { size = size; accepted = []; held = []; stopped = None } }
    {
        let buffer = Buffer::new(alloc, size);
        Replica {
            buffer,
            stopped: None,
        }
    }

    /// Takes a message in, unless one that was taken in overlaps it, and accepts all that are ready then. Where memory
    /// runs out for the message itself, nothing changes.
    pub fn deliver(&mut self, message: Message) -> Result<Delivered, AllocError>
        ensures delivered { MatchResult result (Delivers self.old message self.new) (λ _. self.new ≡ self.old) }
        ensures shown { self.new.stopped ≡ None → ShowsTheReady self.new }
    {
        if self.buffer.covers(&message) {
            return Ok(Delivered::Covered);
        }
        self.buffer.hold(message)?;
        self.stopped = self.buffer.settle();
        Ok(Delivered::Taken)
    }

    /// Takes the messages of a schedule in, one after the other; after an error, only the first ones of them.
    pub fn deliver_all(&mut self, schedule: Vec<Message>) -> Result<(), AllocError>
        ensures { IfOk result (λ _. Hands self.old schedule.items self.new) }
    {
        for message in schedule {
            let _delivered = self.deliver(message)?;
        }
        Ok(())
    }

    /// How many messages were accepted.
    pub fn accepted_count(&self) -> usize
        ensures { result ≡ length self.now.accepted }
    {
        self.buffer.accepted_count()
    }

    /// The messages that are held.
    pub fn held(&self) -> &[Message]
        ensures { result.now ≡ self.now.held }
    {
        self.buffer.held()
    }

    /// Why a held message whose causes are there was not accepted at the last delivery: a limit of the size, or want of
    /// memory. None where each was: then just the ready ones of all messages are accepted.
    pub fn stopped(&self) -> Option<SubmitError>
        ensures value { result ≡ self.now.stopped }
        ensures ready { result ≡ None → ShowsTheReady self.now }
        ensures full { (error : StopError) → result ≡ Some error
            → IsStop self.now.size self.now.accepted self.now.held error }
    {
        self.stopped
    }

    /// The id of an operation that a held message waits for: one that it names, or its peer's last one before it.
    /// None where all are there; the replica is stopped then.
    pub fn waiting_for(&self, index: usize) -> Result<Option<OpId>, AllocError>
        requires { index < length self.now.held }
        ensures named { IfOk result (λ waited. (message : MessageValue) → slice_get self.now.held index ≡ Some message
            → MatchOption waited (HasCauses self.now.accepted message) (WaitsFor self.now.accepted message)) }
        ensures some { IfOk result (λ waited. self.now.stopped ≡ None → IsSome waited) }
    {
        self.buffer.waiting_for(index)
    }

    /// The version of all accepted changes, with their number.
    pub fn version(&self, alloc: Global) -> Result<PieceVersion, AllocError>
        ensures { IfOk result (IsVersion (operations_in self.now.accepted) (length self.now.accepted)) }
    {
        self.buffer.version(alloc)
    }

    /// The law that replicas converge: those that took in one set of messages, in whatever order and however often,
    /// and of which neither is stopped, have equal spans.
    pub fn same_messages_same_spans(&self, other: &Replica)
        ensures { (spans others : List Span) → self.now.stopped ≡ None → other.now.stopped ≡ None
            → SameMessages (taken self.now) (taken other.now)
            → AreSpans (operations_in self.now.accepted) spans → AreSpans (operations_in other.now.accepted) others
            → spans ≡ others }
    {
        self.buffer.same_set_same_spans(&other.buffer);
    }

    /// The same law over whole schedules: two new replicas are handed the messages of a schedule each, one after the
    /// other. If the schedules have one set of messages, of which no two different ones overlap, as those of peers that
    /// number their operations once, and neither replica is stopped in the end, then both have equal spans.
    pub fn same_schedules_same_spans(&self, other: &Replica)
        ensures { (first second : List MessageValue) (spans others : List Span)
            → WasHanded first self.now → WasHanded second other.now
            → AreApart first → SameMessages first second → self.now.stopped ≡ None → other.now.stopped ≡ None
            → AreSpans (operations_in self.now.accepted) spans → AreSpans (operations_in other.now.accepted) others
            → spans ≡ others }
    {
        self.same_messages_same_spans(other);
    }
}
