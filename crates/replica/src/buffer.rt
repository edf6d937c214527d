//! The causal buffer: the accepted changes, and the messages that wait.
ghost use Rattle.std.specs.Prelude.{◌≡◌, ◌↔◌, ◌<◌, List, [], IfOk, MatchOption, MatchResult, length, slice_get};
ghost use Rattle.std.specs.Prelude.{IsTrue};
ghost use Rattle.change_ops.specs.Spelling.{change_text};
ghost use Rattle.change_ops.specs.Changes.{Change as ChangeValue, IsChange};
ghost use Rattle.char_sequence.specs.Order.{SameSet};
ghost use Rattle.span_flatten.specs.Spans.{Span, AreSpans};
ghost use Rattle.span_flatten.specs.Version.{IsVersion};
ghost use Rattle.replica.specs.Messages.{Message as MessageValue};
ghost use Rattle.replica.specs.Readiness.{operations_in};
ghost use Rattle.replica.specs.Buffers.{IsOverlappedBy, Follows, IsBlocked, IsUnready, Accepts, Rounds, Settles, Joins};
ghost use Rattle.replica.specs.Buffers.{all_of, earlier_id, WaitsFor, Blocks, IsReadyAt, stopped_after};
ghost use Rattle.replica.specs.Readiness.{HasCauses};

use crate::known::{Blocked, Known};
use crate::message::Message;
use change_history::history::History;
use change_history::refusal::SubmitError;
use change_log::text::ChangeText;
use change_ops::change::{Change, read_change};
use change_ops::id::OpId;
use change_ops::size::Size;
use change_ops::writing::write_change;
use std::alloc::{AllocError, Global};
use std::marker::Model;
use version_pieces::version::PieceVersion;

/// Why a held message is not accepted.
#[derive(Clone, Copy)]
pub(crate) enum Unready {
    /// An operation with this id isn't there.
    Waits(OpId),
    /// There is no room for it, or memory ran out.
    Stopped(SubmitError),
}

impl From<SubmitError> for Unready {
    ghost use Rattle.std.specs.Prelude.{◌≡◌};
    ghost use Rattle.replica.specs.declared.buffer.Unready.TheVariants.{Stopped};

    ghost from_gives = { λ error e. e ≡ Stopped error };

    fn from(error: SubmitError) -> Unready {
        Unready::Stopped(error)
    }
}

impl From<AllocError> for Unready {
    ghost use Rattle.std.specs.Prelude.{◌≡◌};
    ghost use Rattle.change_history.specs.declared.refusal.SubmitError.TheVariants.{OutOfMemory};
    ghost use Rattle.replica.specs.declared.buffer.Unready.TheVariants.{Stopped};

    ghost from_gives = { λ _ e. e ≡ Stopped OutOfMemory };

    fn from(_error: AllocError) -> Unready {
        Unready::Stopped(SubmitError::OutOfMemory)
    }
}

impl From<Blocked> for Unready {
    ghost use Rattle.std.specs.Prelude.{◌≡◌};
    ghost use Rattle.replica.specs.Buffers.{unready_of};

    ghost from_gives = { λ blocked e. e ≡ unready_of blocked };

    fn from(blocked: Blocked) -> Unready {
        match blocked {
            Blocked::Waits(id) => Unready::Waits(id),
            Blocked::OutOfMemory => Unready::Stopped(SubmitError::OutOfMemory),
        }
    }
}

/// What a look at all held messages came to.
#[derive(Clone, Copy)]
pub(crate) enum Round {
    /// One was accepted.
    Accepted,
    /// None was; where one is ready, this is why.
    Settled(Option<SubmitError>),
}

/// The accepted changes, and the messages that are not accepted yet.
#[derive(Drop)]
pub(crate) struct Buffer {
    history: History,
    // Of the accepted operations.
    known: Known,
    held: Vec<Message>,
}

impl Model for Buffer {
    ghost use Rattle.replica.specs.Buffers.{Buffered, buffered, IsBuffer, IsBuffered};

    ghost Value = { Buffered };

    ghost view = { λ b. buffered b.history b.held.items };

    ghost invariant = { λ b. IsBuffered (buffered b.history b.held.items) × IsBuffer b.history b.known };
}

/// The text of a change.
fn text_of(alloc: Global, change: &Change) -> Result<ChangeText, AllocError>
    ensures { IfOk result (λ text. IsChange change.now × (text ≡ change_text change.now)) }
{
    // For its contract: the change is within the limits, as what its text is read as has to be.
    let _node = change.node();
    let mut text = String::new(alloc);
    write_change(change, &mut text)?;
    ChangeText::of(text)
}

/// A copy of the change that a text is of.
fn copy_of(alloc: Global, text: &str) -> Result<Change, AllocError>
    ensures { (change : ChangeValue) → IsChange change → text.now ≡ change_text change
        → IfOk result (λ copy. copy ≡ change) }
{
    match read_change(alloc, text) {
        Ok((copy, _)) => Ok(copy),
        Err(_) => Err(AllocError),
    }
}

/// What it takes to accept a message.
#[derive(Drop)]
pub(crate) struct Ready {
    // Of the accepted operations, with those of the message.
    known: Known,
    // A copy of the message's change, and its text.
    change: Change,
    text: ChangeText,
}

/// What it takes to accept a message, once it is known which operations are there with it.
fn readied(alloc: Global, known: Known, change: &Change) -> Result<Ready, AllocError>
    ensures { IfOk result (λ ready. (ready.known ≡ known) × (ready.change ≡ change.now)
        × (ready.text ≡ change_text change.now)) }
{
    let text = text_of(alloc, change)?;
    let copy = copy_of(alloc, text.as_str())?;
    Ok(Ready {
        known,
        change: copy,
        text,
    })
}

/// The message at an index.
fn message_at(messages: &[Message], index: usize) -> &Message
    requires { index < length messages.now }
    ensures { slice_get messages.now index ≡ Some result.now }
{
    &messages[index]
}

/// Whether one of the messages overlaps this one.
fn is_overlapped(messages: &[Message], message: &Message) -> bool
    ensures { IsTrue result ↔ IsOverlappedBy messages.now message.now }
{
    for index in 0..messages.len() {
        if message_at(messages, index).overlaps(message) {
            return true;
        }
    }
    false
}

/// The id of the last operation that the message's peer made before it.
fn earlier(message: &Message) -> OpId
    requires { 0 < message.now.previous }
    ensures { result ≡ earlier_id message.now }
{
    OpId::new(message.previous(), message.change().node() as u64).unwrap()
}

/// The id that blocks a message.
fn waited_for(blocked: Blocked) -> Result<Option<OpId>, AllocError>
    ensures { IfOk result (Blocks blocked) }
{
    match blocked {
        Blocked::Waits(id) => Ok(Some(id)),
        Blocked::OutOfMemory => Err(AllocError),
    }
}

/// Why a look at held messages stopped so far, once one more isn't accepted.
fn stopped_by(before: Option<SubmitError>, unready: Unready) -> Option<SubmitError>
    ensures { result ≡ stopped_after before unready }
{
    match unready {
        Unready::Waits(_) => before,
        Unready::Stopped(error) => Some(error),
    }
}

impl Buffer {
    ghost use Rattle.replica.specs.Buffers.{IsBuffered};

    /// No message.
    pub(crate) fn new(alloc: Global, size: Size) -> Buffer
        ensures value { result ≡ record { size = size; accepted = []; held = [] } }
        ensures kept { IsBuffered result }
    {
        let history = History::new(alloc, size);
        let known = Known::new(alloc);
        let held = Vec::new(alloc);
        Buffer {
            history,
            known,
            held,
        }
    }

    /// Whether a message that was taken in overlaps this one.
    pub(crate) fn covers(&self, message: &Message) -> bool
        ensures { IsTrue result ↔ IsOverlappedBy (all_of self.now) message.now }
    {
        let last = self.history.last_counter(message.change().node());
        if message.previous() < last {
            return true;
        }
        is_overlapped(&self.held, message)
    }

    /// Holds a message back.
    pub(crate) fn hold(&mut self, message: Message) -> Result<(), AllocError>
        requires { IsOverlappedBy (all_of self.old) message → ⊥ }
        ensures { MatchResult result (λ _. Joins self.old message self.new) (λ _. self.new ≡ self.old) }
    {
        // For its contract: a message is sound.
        let _previous = message.previous();
        self.held.push(message)?;
        Ok(())
    }

    /// What is known once the message is accepted too, if its causes are there.
    fn known_after(&self, message: &Message) -> Result<Known, Blocked>
        requires { IsOverlappedBy self.now.accepted message.now → ⊥ }
        ensures { MatchResult result (Follows self.now message.now) (IsBlocked self.now message.now) }
    {
        let last = self.history.last_counter(message.change().node());
        if last != message.previous() {
            return Err(Blocked::Waits(earlier(message)));
        }
        let mut known = self.known.clone()?;
        known.pass_all(message.change().lines())?;
        Ok(known)
    }

    /// The held message at an index, which no accepted one overlaps.
    fn held_at(&self, index: usize) -> &Message
        requires { index < length self.now.held }
        ensures at { slice_get self.now.held index ≡ Some result.now }
        ensures apart { IsOverlappedBy self.now.accepted result.now → ⊥ }
    {
        message_at(&self.held, index)
    }

    /// What it takes to accept the held message at an index, if its causes are there.
    fn ready(&self, index: usize) -> Result<Ready, Unready>
        requires { index < length self.now.held }
        ensures { MatchResult result (IsReadyAt self.now index) (IsUnready self.now index) }
    {
        let message = self.held_at(index);
        let known = self.known_after(message)?;
        let ready = readied(*self.held.allocator(), known, message.change())?;
        Ok(ready)
    }

    /// Accepts a held message, if it is ready and there is room for it; else nothing changes.
    fn accept_at(&mut self, index: usize) -> Result<(), Unready>
        requires { index < length self.old.held }
        ensures { MatchResult result (λ _. Accepts self.old index self.new)
            (λ unready. (self.new ≡ self.old) × IsUnready self.old index unready) }
    {
        let ready = self.ready(index)?;
        let Ready {
            known,
            change,
            text,
        } = ready;
        self.history.accept_spelled(change, text)?;
        self.known = known;
        let _accepted = self.held.remove(index);
        Ok(())
    }

    /// How many messages are held.
    fn held_count(&self) -> usize
        ensures { result ≡ length self.now.held }
    {
        self.held.len()
    }

    /// Accepts the first held message that can be accepted.
    fn accept_one(&mut self) -> Round
        ensures { Rounds self.old self.new result }
    {
        let mut stopped = None;
        for index in 0..self.held_count() {
            match self.accept_at(index) {
                Ok(()) => return Round::Accepted,
                Err(unready) => stopped = stopped_by(stopped, unready),
            }
        }
        Round::Settled(stopped)
    }

    /// For contracts: what the type keeps.
    fn keeps(&self)
        ensures { IsBuffered self.now }
    {
        let _held = &self.held;
    }

    /// Accepts held messages until none can be accepted, and answers why a ready one isn't, if there is one.
    pub(crate) fn settle(&mut self) -> Option<SubmitError>
        ensures settled { Settles self.old self.new result }
        ensures kept { IsBuffered self.new }
    {
        loop {
            match self.accept_one() {
                Round::Accepted => {}
                Round::Settled(stopped) => {
                    self.keeps();
                    return stopped;
                }
            }
        }
    }

    /// The messages that are held.
    pub(crate) fn held(&self) -> &[Message]
        ensures { result.now ≡ self.now.held }
    {
        self.held.as_slice()
    }

    /// How many messages were accepted.
    pub(crate) fn accepted_count(&self) -> usize
        ensures { result ≡ length self.now.accepted }
    {
        self.history.len()
    }

    /// An id that a held message waits for; None where all its causes are there.
    pub(crate) fn waiting_for(&self, index: usize) -> Result<Option<OpId>, AllocError>
        requires { index < length self.now.held }
        ensures { IfOk result (λ waited. (message : MessageValue) → slice_get self.now.held index ≡ Some message
            → MatchOption waited (HasCauses self.now.accepted message) (WaitsFor self.now.accepted message)) }
    {
        match self.known_after(self.held_at(index)) {
            Ok(_known) => Ok(None),
            Err(blocked) => waited_for(blocked),
        }
    }

    /// The version of all accepted changes, with their number.
    pub(crate) fn version(&self, alloc: Global) -> Result<PieceVersion, AllocError>
        ensures { IfOk result (IsVersion (operations_in self.now.accepted) (length self.now.accepted)) }
    {
        self.history.version(alloc)
    }

    /// One set of accepted operations has one list of spans.
    pub(crate) fn same_set_same_spans(&self, other: &Buffer)
        ensures { (spans others : List Span)
            → SameSet (operations_in self.now.accepted) (operations_in other.now.accepted)
            → AreSpans (operations_in self.now.accepted) spans → AreSpans (operations_in other.now.accepted) others
            → spans ≡ others }
    {
        self.history.same_set_same_spans(&other.history);
    }
}
