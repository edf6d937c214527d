ghost use Rattle.std.specs.Prelude.{◌≡◌};
ghost use Rattle.std.specs.declared.option.Option.TheVariants.{Some};
ghost use Rattle.refusals.specs.Reasons.{word_location, location_text, reason_title, reason_location, reason_text};
ghost use Rattle.refusals.specs.Reasons.{change_reason_text, verdict_title, verdict_location, source_title};
ghost use Rattle.refusals.specs.Reasons.{source_location, unread_title, unread_location, unaccepted_title};
ghost use Rattle.refusals.specs.Reasons.{unaccepted_location, word_title};

use crate::names::{line_fault, refusal_name, slot_fault, state_fault, structure_fault};
use assembler::fault::AsmError;
use bpf_words::refusal::WordError;
use change_history::refusal::SubmitError;
use change_ops::refusal::ChangeError;
use filters::refusal::FilterError;
use refusal_titles::{
    ASSEMBLER_OUT_OF_MEMORY, BAD_CAPACITY, BAD_COMMAND, BAD_HEX, BAD_LINE, CHAR_REFUSED, EMPTY,
    HISTORY_FULL, LENGTH_NOT_EIGHT, LIMIT, LINE_TOO_LONG, NO_SUBSCRIBER, NO_VERSION, OUT_OF_MEMORY,
    STORE_BUSY, STORE_DAMAGED, STORE_FAILED, SUBSCRIBERS_FULL, TEXT_REFUSED, TOO_LONG,
    TOO_MANY_SESSIONS, TRUNCATED, VERIFIER_OUT_OF_MEMORY, WRONG_PEER,
};
use std::fmt;
use verifier::refusal::VerifyError;

/// A program that loops, without a bound of its steps.
const UNBOUNDED_LOOP: &str = "74 UnboundedLoop";

/// A search for what is known of a program that loops, which took too long.
const SEARCH_LIMIT: &str = "75 SearchLimit";

/// Why an input, or a line of a session, is refused.
#[derive(Clone, Copy)]
pub enum Reason {
    /// Bytes that aren't a program.
    Words(WordError),
    /// A program that isn't accepted.
    Unverified(FilterError),
    /// No assembler text.
    Source(AsmError),
    /// A change that can't be read.
    Unread(ChangeError),
    /// A change that isn't accepted after those before it.
    Unaccepted(SubmitError),
    /// No memory was found.
    OutOfMemory,
    /// A subscriber after 64.
    SubscribersFull,
    /// An id that is unknown, or of a closed subscriber.
    NoSubscriber,
    /// A capacity that is not 1 to 1,024.
    BadCapacity,
    /// A subscription from a version that isn't there yet.
    NoVersion,
    /// A line of none of the forms.
    BadCommand,
    /// A line of more than 70,000 bytes.
    LineTooLong,
    /// Bytes that aren't UTF-8, or a text that is longer than a span's may be.
    TextRefused,
    /// No pairs of hexadecimal digits.
    BadHex,
    /// A store whose changes aren't those of a hub.
    StoreDamaged,
    /// What keeps the hub's changes failed.
    StoreFailed,
    /// A store that another process has.
    StoreBusy,
    /// A connection for which no session is free.
    TooManySessions,
}

/// Where a fault is.
#[derive(Clone, Copy)]
pub enum Location {
    /// In the whole.
    Whole,
    /// In a slot of a program, counted from 0.
    Slot(usize),
    /// In a line, counted from 1.
    Line(u128),
}

impl fmt::Display for Location {
    ghost output = { λ location. Some (location_text location) };

    fn fmt<W: fmt::Write>(&self, f: &mut fmt::Formatter<W>) -> fmt::Result {
        match *self {
            Location::Whole => Ok(()),
            Location::Slot(slot) => write!(f, " slot {slot}"),
            Location::Line(line) => write!(f, " line {line}"),
        }
    }
}

fn word_title(error: WordError) -> &'static str
    ensures { result.now ≡ word_title error }
{
    match error {
        WordError::Empty => EMPTY,
        WordError::TooLong => TOO_LONG,
        WordError::LengthNotEight => LENGTH_NOT_EIGHT,
        WordError::Slot { fault, .. } => slot_fault(fault),
    }
}

fn word_location(error: WordError) -> Location
    ensures { result ≡ word_location error }
{
    match error {
        WordError::Slot { slot, .. } => Location::Slot(slot),
        _ => Location::Whole,
    }
}

fn verdict_title(error: FilterError) -> &'static str
    ensures { result.now ≡ verdict_title error }
{
    match error {
        FilterError::Program(VerifyError::Structure { fault, .. }) => structure_fault(fault),
        FilterError::Program(VerifyError::State { fault, .. }) => state_fault(fault),
        FilterError::Program(VerifyError::OutOfMemory) => VERIFIER_OUT_OF_MEMORY,
        FilterError::UnboundedLoop { .. } => UNBOUNDED_LOOP,
        FilterError::SearchLimit => SEARCH_LIMIT,
    }
}

fn verdict_location(error: FilterError) -> Location
    ensures { result ≡ verdict_location error }
{
    match error {
        FilterError::Program(VerifyError::Structure { slot, .. }) => Location::Slot(slot),
        FilterError::Program(VerifyError::State { slot, .. }) => Location::Slot(slot),
        FilterError::Program(VerifyError::OutOfMemory) => Location::Whole,
        FilterError::UnboundedLoop { slot } => Location::Slot(slot),
        FilterError::SearchLimit => Location::Whole,
    }
}

fn source_title(error: AsmError) -> &'static str
    ensures { result.now ≡ source_title error }
{
    match error {
        AsmError::Line { fault, .. } => line_fault(fault),
        AsmError::OutOfMemory => ASSEMBLER_OUT_OF_MEMORY,
    }
}

fn source_location(error: AsmError) -> Location
    ensures { result ≡ source_location error }
{
    match error {
        AsmError::Line { line, .. } => Location::Line(line as u128),
        AsmError::OutOfMemory => Location::Whole,
    }
}

fn unread_title(error: ChangeError) -> &'static str
    ensures { result.now ≡ unread_title error }
{
    match error {
        ChangeError::BadLine(_) => BAD_LINE,
        ChangeError::Truncated => TRUNCATED,
        ChangeError::Limit(_) => LIMIT,
        ChangeError::CharRefused(_) => CHAR_REFUSED,
        ChangeError::WrongPeer(_) => WRONG_PEER,
        ChangeError::OutOfMemory => OUT_OF_MEMORY,
    }
}

fn unread_location(error: ChangeError) -> Location
    ensures { result ≡ unread_location error }
{
    match error {
        ChangeError::BadLine(line) => Location::Line(line as u128),
        ChangeError::Limit(line) => Location::Line(line as u128),
        ChangeError::CharRefused(line) => Location::Line(line as u128),
        ChangeError::WrongPeer(line) => Location::Line(line as u128),
        ChangeError::Truncated => Location::Whole,
        ChangeError::OutOfMemory => Location::Whole,
    }
}

fn unaccepted_title(error: SubmitError) -> &'static str
    ensures { result.now ≡ unaccepted_title error }
{
    match error {
        SubmitError::HistoryFull => HISTORY_FULL,
        SubmitError::Refused { refusal, .. } => refusal_name(refusal),
        SubmitError::OutOfMemory => OUT_OF_MEMORY,
    }
}

/// A change's other lines stand behind its first one, from line 2 on.
fn unaccepted_location(error: SubmitError) -> Location
    ensures { result ≡ unaccepted_location error }
{
    match error {
        // No index is so great that the sum of 128 bits wraps.
        SubmitError::Refused { index, .. } => Location::Line(index as u128 + 2),
        SubmitError::HistoryFull => Location::Whole,
        SubmitError::OutOfMemory => Location::Whole,
    }
}

impl Reason {
    /// The number and name.
    pub fn title(self) -> &'static str
        ensures { result.now ≡ reason_title self }
    {
        match self {
            Reason::Words(error) => word_title(error),
            Reason::Unverified(error) => verdict_title(error),
            Reason::Source(error) => source_title(error),
            Reason::Unread(error) => unread_title(error),
            Reason::Unaccepted(error) => unaccepted_title(error),
            Reason::OutOfMemory => OUT_OF_MEMORY,
            Reason::SubscribersFull => SUBSCRIBERS_FULL,
            Reason::NoSubscriber => NO_SUBSCRIBER,
            Reason::BadCapacity => BAD_CAPACITY,
            Reason::NoVersion => NO_VERSION,
            Reason::BadCommand => BAD_COMMAND,
            Reason::LineTooLong => LINE_TOO_LONG,
            Reason::TextRefused => TEXT_REFUSED,
            Reason::BadHex => BAD_HEX,
            Reason::StoreDamaged => STORE_DAMAGED,
            Reason::StoreFailed => STORE_FAILED,
            Reason::StoreBusy => STORE_BUSY,
            Reason::TooManySessions => TOO_MANY_SESSIONS,
        }
    }

    /// Where the fault is.
    pub fn location(self) -> Location
        ensures { result ≡ reason_location self }
    {
        match self {
            Reason::Words(error) => word_location(error),
            Reason::Unverified(error) => verdict_location(error),
            Reason::Source(error) => source_location(error),
            Reason::Unread(error) => unread_location(error),
            Reason::Unaccepted(error) => unaccepted_location(error),
            _ => Location::Whole,
        }
    }
}

/// The number and name, and the slot or the line, where there is one.
impl fmt::Display for Reason {
    ghost output = { λ reason. Some (reason_text reason) };

    fn fmt<W: fmt::Write>(&self, f: &mut fmt::Formatter<W>) -> fmt::Result {
        write!(f, "{}{}", self.title(), self.location())
    }
}

/// Why a change of an input of many is refused.
#[derive(Clone, Copy)]
pub struct ChangeReason {
    /// The change's, from 1.
    pub number: usize,
    pub reason: Reason,
}

/// The number and name, the change, and the line, where there is one.
impl fmt::Display for ChangeReason {
    ghost output = { λ reason. Some (change_reason_text reason) };

    fn fmt<W: fmt::Write>(&self, f: &mut fmt::Formatter<W>) -> fmt::Result {
        write!(
            f,
            "{} change {}{}",
            self.reason.title(),
            self.number,
            self.reason.location()
        )
    }
}
