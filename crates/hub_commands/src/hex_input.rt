//! An input of hexadecimal digits, read in pieces.
ghost use Rattle.std.specs.Prelude.{◌≡◌, List, ℕ, [], IfOk, IfSome};
ghost use Rattle.std.specs.List.{list_all};
ghost use Rattle.hub_commands.specs.HexInput.{IsHexInput};
ghost use Rattle.hub_commands.specs.Hints.{digits_hint, is_printable};

use crate::digits::{Digits, keep};
use crate::failure::Failure;
use crate::hint::{Hint, begins_with_mark, is_printable};
use crate::pieces::{Gather, read_pieces};
use std::alloc::{AllocError, Global};
use std::io::Read;

/// As many bytes as a byte order mark has.
const MARK_BYTES: usize = 3;

/// What a command needs of an input of hexadecimal digits, which may be of any length.
#[derive(Drop)]
pub struct HexInput {
    /// The first bytes.
    pub(crate) front: Vec<u8>,
    /// Every byte is a blank or printable.
    pub(crate) are_printable: bool,
    /// The bytes that aren't blanks.
    pub digits: Digits,
}

/// Each byte is a blank or printable. All are looked at in any case, so that the processor looks at several at once.
fn are_printable(bytes: &[u8]) -> bool
    ensures { result ≡ list_all is_printable bytes.now }
{
    let mut all = true;
    for byte in bytes {
        all &= is_printable(*byte);
    }
    all
}

impl HexInput {
    /// No byte yet.
    fn new(alloc: Global) -> HexInput
        ensures { IsHexInput [] result }
    {
        HexInput {
            front: Vec::new(alloc),
            are_printable: true,
            digits: Digits::new(alloc),
        }
    }

    /// The hint to the input.
    pub fn hint(&self) -> Option<Hint>
        ensures { (input : List ℕ) → IsHexInput input self.now → result ≡ digits_hint input }
    {
        if begins_with_mark(&self.front) {
            Some(Hint::ByteOrderMark)
        } else if self.are_printable {
            self.digits.hint()
        } else {
            Some(Hint::Binary)
        }
    }

    /// Reads to the end of the input.
    pub fn read<R: Read>(alloc: Global, reader: &mut R) -> Result<HexInput, Failure>
        ensures { IfOk result (λ read. IfSome (R.remaining reader.old) (λ input. IsHexInput input read)) }
    {
        let mut read = HexInput::new(alloc);
        read_pieces(alloc, reader, &mut read)?;
        Ok(read)
    }
}

impl Gather for HexInput {
    ghost use Rattle.hub_commands.specs.HexInput.{IsHexInput};

    ghost Terms = { Unit {0} };

    ghost keeps = { λ _. IsHexInput };

    fn push_piece(&mut self, piece: &[u8]) -> Result<(), AllocError> {
        keep(&mut self.front, MARK_BYTES, piece)?;
        self.are_printable &= are_printable(piece);
        self.digits.push_text(piece)
    }
}
