//! The command `join`: the changes of its input, joined.
ghost use Rattle.std.specs.Prelude.{◌≡◌, List, ℕ, [], All, IfOk, IfSome, OnOk};
ghost use Rattle.std.specs.List.{flat_map};
ghost use Rattle.change_ops.specs.Changes.{Change as ChangeValue, IsChange};
ghost use Rattle.change_ops.specs.Spelling.{change_text};
ghost use Rattle.hub_commands.specs.Answers.{IsAnswered};
ghost use Rattle.hub_commands.specs.Hints.{text_hint};
ghost use Rattle.hub_commands.specs.JoinReply.{IsJoinReply};
ghost use Rattle.hub_commands.specs.KeptInput.{IsKeptWhole};
ghost use Rattle.hub_commands.specs.SpansReply.{Begins};

use crate::answer::Answer;
use crate::changes_input::{ChangesInput, Fault};
use crate::ended::Ended;
use crate::failure::Failure;
use crate::output::write_answer;
use crate::pieces::{Gather, append, read_pieces};
use crate::spans::fault_answer;
use change_join::joining::joined_text;
use change_ops::change::{Change, read_change};
use change_ops::size::Size;
use std::alloc::{AllocError, Global};
use std::io::{Read, Write};

/// An input of changes, with its bytes.
#[derive(Drop)]
pub(crate) struct KeptInput {
    changes: ChangesInput,
    bytes: Vec<u8>,
}

impl Gather for KeptInput {
    ghost use Rattle.change_ops.specs.declared.size.Size.{Size};
    ghost use Rattle.hub_commands.specs.KeptInput.{IsKept};

    ghost Terms = { Size };

    ghost keeps = { IsKept };

    fn push_piece(&mut self, piece: &[u8]) -> Result<(), AllocError> {
        append(&mut self.bytes, piece)?;
        self.changes.push_piece(piece)
    }
}

impl KeptInput {
    /// Reads to the end of the input.
    fn read<R: Read>(alloc: Global, size: Size, reader: &mut R) -> Result<KeptInput, Failure>
        ensures { IfOk result (λ kept. IfSome (R.remaining reader.old) (λ input. IsKeptWhole size input kept)) }
    {
        let mut kept = KeptInput {
            changes: ChangesInput::new(alloc, size),
            bytes: Vec::new(alloc),
        };
        read_pieces(alloc, reader, &mut kept)?;
        kept.changes.finish()?;
        Ok(kept)
    }
}

/// The changes of a text that is theirs alone.
fn changes_of(alloc: Global, text: &str) -> Result<Vec<Change>, AllocError>
    ensures { IfOk result (λ read. (changes : List ChangeValue) → All IsChange changes
        → text.now ≡ flat_map change_text changes → read.items ≡ changes) }
{
    let mut changes = Vec::new(alloc);
    let mut rest: &str = text;
    while !rest.is_empty() {
        let Ok((change, behind)) = read_change(alloc, rest) else {
            return Err(AllocError);
        };
        changes.push(change)?;
        rest = behind;
    }
    Ok(changes)
}

/// What `join` answers to accepted changes.
fn joined_answer(alloc: Global, bytes: &[u8]) -> Result<Answer, AllocError>
    ensures { IfOk result (λ answer. (size : Size) (changes : List ChangeValue) → Begins size bytes.now changes []
        → IsJoinReply size bytes.now answer) }
{
    let Ok(text) = std::str::from_utf8(bytes) else {
        return fault_answer(alloc, Fault::NotText);
    };
    let changes = changes_of(alloc, text)?;
    let text = joined_text(alloc, &changes)?;
    Ok(Answer::done(text))
}

/// What `join` answers to its input.
fn join_answer(alloc: Global, input: &KeptInput) -> Result<Answer, AllocError>
    ensures { IfOk result (λ answer. (size : Size) (bytes : List ℕ) → IsKeptWhole size bytes input.now
        → IsJoinReply size bytes answer) }
{
    match input.changes.fault {
        None => joined_answer(alloc, &input.bytes),
        Some(fault) => fault_answer(alloc, fault),
    }
}

/// The command `join`: the changes of the input, for a document of the size, joined.
pub fn join<R: Read, W: Write>(
    alloc: Global,
    size: Size,
    reader: &mut R,
    writer: &mut W,
) -> Result<Ended, Failure>
    ensures answered { IfOk result (λ ended. IsAnswered (IsJoinReply size) (R.remaining reader.old)
        (W.contents writer.old) (W.contents writer.new) ended.status) }
    ensures hinted { IfOk result (λ ended. IfSome (R.remaining reader.old) (λ input. ended.hint ≡ text_hint input)) }
{
    let input = KeptInput::read(alloc, size, reader)?;
    let answer = join_answer(alloc, &input)?;
    let status = write_answer(writer, &answer)?;
    Ok(Ended {
        status,
        hint: input.changes.hint(),
        word: None,
    })
}
