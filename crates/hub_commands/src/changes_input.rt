//! An input of changes, read in pieces: each change is accepted once it is there whole.
ghost use Rattle.std.specs.Prelude.{◌≡◌, ◌≢◌, ◌++◌, ◌<◌, List, ℕ, [], length, take, IfOk, IfSome, OnOk, MatchBool};
ghost use Rattle.std.specs.List.{slice_index};
ghost use Rattle.change_ops.specs.declared.refusal.ChangeError.TheVariants.{Truncated};
ghost use Rattle.refusals.specs.declared.reason.Reason.TheVariants.{Unread};
ghost use Rattle.hub_commands.specs.ChangesInput.{Advances, EndsWith, TakesLines, IsChangesInput, IsWholeInput};
ghost use Rattle.hub_commands.specs.Hints.{text_hint};

use crate::digits::keep;
use crate::failure::Failure;
use crate::hint::{Hint, text_hint};
use crate::pieces::{Gather, append, read_pieces};
use crate::spans::{Stop, take_change};
use change_history::history::History;
use change_ops::refusal::ChangeError;
use change_ops::size::Size;
use refusals::reason::{ChangeReason, Reason};
use std::alloc::{AllocError, Global};
use std::io::Read;

/// As many bytes as a byte order mark has.
const MARK_BYTES: usize = 3;

/// Why an input is refused, whatever follows.
#[derive(Clone, Copy)]
pub(crate) enum Fault {
    /// It isn't UTF-8.
    NotText,
    /// A change can't be read, or isn't accepted after those before it.
    Change(ChangeReason),
}

/// What is kept of an input of changes while it is read.
#[derive(Drop)]
pub(crate) struct ChangesInput {
    alloc: Global,
    /// The first bytes.
    front: Vec<u8>,
    /// The changes that were read.
    pub(crate) history: History,
    pub(crate) fault: Option<Fault>,
    /// What follows the changes that were read; behind a fault, what follows the last line feed.
    left: Vec<u8>,
}

/// Where the last line feed is.
fn last_line_feed(bytes: &[u8]) -> Option<usize>
    ensures { IfSome result (λ last. (last < length bytes.now) × (slice_index bytes.now last ≡ 10)) }
{
    for index in (0..bytes.len()).rev() {
        if bytes[index] == b'\n' {
            return Some(index);
        }
    }
    None
}

/// Two parts of a text, one behind the other.
fn joined(alloc: Global, front: &[u8], behind: &[u8]) -> Result<Vec<u8>, AllocError>
    ensures { IfOk result (λ both. both.items ≡ front.now ++ behind.now) }
{
    let mut both = Vec::new(alloc);
    both.extend_from_slice(front)?;
    both.extend_from_slice(behind)?;
    Ok(both)
}

/// Whether a change at fault may be right with more behind it: no line feed ends its last line yet.
fn is_begun(reason: &ChangeReason) -> bool
    ensures { MatchBool result (reason.now.reason ≡ Unread Truncated) (reason.now.reason ≢ Unread Truncated) }
{
    match reason.reason {
        Reason::Unread(ChangeError::Truncated) => true,
        _ => false,
    }
}

/// Takes in the changes at the front of a text: what follows them, and why there is no further one.
fn take_changes<'a>(
    alloc: Global,
    history: &mut History,
    text: &'a str,
) -> Result<(&'a str, Option<ChangeReason>), AllocError>
    ensures taken { IfOk result (λ x. Advances history.old.size history.old.changes text.now
        history.new.changes x.0.now) }
    ensures ended { IfOk result (λ x. EndsWith history.old.size history.new.changes x.0.now x.1) }
    ensures size { history.new.size ≡ history.old.size }
{
    let mut rest: &str = text;
    while !rest.is_empty() {
        match take_change(alloc, history, rest) {
            Ok(behind) => rest = behind,
            Err(Stop::Refused(reason)) => return Ok((rest, Some(reason))),
            Err(Stop::Memory) => return Err(AllocError),
        }
    }
    Ok((rest, None))
}

/// Takes in the changes of whole lines: what is read again with what follows, and why a change is refused.
fn take_lines<'a>(
    alloc: Global,
    history: &mut History,
    lines: &'a str,
) -> Result<(&'a str, Option<ChangeReason>), AllocError>
    ensures taken { IfOk result (λ x. TakesLines history.old.size history.old.changes lines.now
        history.new.changes x.0.now x.1) }
    ensures size { history.new.size ≡ history.old.size }
{
    let (rest, refusal) = take_changes(alloc, history, lines)?;
    if let Some(reason) = refusal {
        if !is_begun(&reason) {
            return Ok(("", Some(reason)));
        }
    }
    Ok((rest, None))
}

impl ChangesInput {
    /// No byte yet, for a document of the size.
    pub(crate) fn new(alloc: Global, size: Size) -> ChangesInput
        ensures { IsChangesInput size [] result }
    {
        ChangesInput {
            alloc,
            front: Vec::new(alloc),
            history: History::new(alloc, size),
            fault: None,
            left: Vec::new(alloc),
        }
    }

    /// Reads the lines that have ended.
    fn read_lines(&mut self) -> Result<(), AllocError>
        ensures { OnOk result ((size : Size) (input : List ℕ) → IsChangesInput size input self.old
            → IsChangesInput size input self.new) }
    {
        let Some(last) = last_line_feed(&self.left) else {
            return Ok(());
        };
        let (lines, behind) = self.left.split_at(last + 1);
        let Ok(text) = std::str::from_utf8(lines) else {
            self.left = Vec::from_slice(self.alloc, behind)?;
            self.fault = Some(Fault::NotText);
            return Ok(());
        };
        if self.fault.is_some() {
            self.left = Vec::from_slice(self.alloc, behind)?;
            return Ok(());
        }
        let (rest, refusal) = take_lines(self.alloc, &mut self.history, text)?;
        self.left = joined(self.alloc, rest.as_bytes(), behind)?;
        if let Some(reason) = refusal {
            self.fault = Some(Fault::Change(reason));
        }
        Ok(())
    }

    /// The end of the input: what is left has to be UTF-8, and changes.
    pub(crate) fn finish(&mut self) -> Result<(), AllocError>
        ensures { OnOk result ((size : Size) (input : List ℕ) → IsChangesInput size input self.old
            → IsWholeInput size input self.new) }
    {
        let Ok(text) = std::str::from_utf8(&self.left) else {
            self.fault = Some(Fault::NotText);
            return Ok(());
        };
        if self.fault.is_none() {
            let (_, refusal) = take_changes(self.alloc, &mut self.history, text)?;
            if let Some(reason) = refusal {
                self.fault = Some(Fault::Change(reason));
            }
        }
        Ok(())
    }

    /// Reads to the end of the input.
    pub(crate) fn read<R: Read>(
        alloc: Global,
        size: Size,
        reader: &mut R,
    ) -> Result<ChangesInput, Failure>
        ensures { IfOk result (λ read. IfSome (R.remaining reader.old) (λ input. IsWholeInput size input read)) }
    {
        let mut read = ChangesInput::new(alloc, size);
        read_pieces(alloc, reader, &mut read)?;
        read.finish()?;
        Ok(read)
    }

    /// The hint to the input.
    pub(crate) fn hint(&self) -> Option<Hint>
        ensures { (size : Size) (input : List ℕ) → IsWholeInput size input self.now → result ≡ text_hint input }
    {
        text_hint(&self.front)
    }
}

impl Gather for ChangesInput {
    ghost use Rattle.change_ops.specs.declared.size.Size.{Size};
    ghost use Rattle.hub_commands.specs.ChangesInput.{IsChangesInput};

    ghost Terms = { Size };

    ghost keeps = { IsChangesInput };

    fn push_piece(&mut self, piece: &[u8]) -> Result<(), AllocError> {
        keep(&mut self.front, MARK_BYTES, piece)?;
        append(&mut self.left, piece)?;
        self.read_lines()
    }
}
