//! What is wrong with the form of an input, where it is easily put right.
ghost use Rattle.std.specs.Prelude.{◌≡◌};
ghost use Rattle.std.specs.List.{list_all};
ghost use Rattle.hex.specs.Hex.{is_hex_digit};
ghost use Rattle.hub_commands.specs.Hints.{begins_with_mark, is_printable, pairs_hint};
ghost use Rattle.hub_commands.specs.Hints.{source_hint, text_hint};

use crate::hexadecimal::is_blank;
use std::fmt;
use std::fmt::{Display, Formatter};

/// The UTF-8 form of U+FEFF.
static BYTE_ORDER_MARK: [u8; 3] = [0xef, 0xbb, 0xbf];

/// What can be said beside the refusal of an input.
#[derive(Clone, Copy)]
pub enum Hint {
    /// It begins with a byte order mark.
    ByteOrderMark,
    /// It has bytes that aren't printable, where hexadecimal digits are wanted.
    Binary,
    /// It has other signs between the hexadecimal digits, as `0x` or a comma.
    OtherSigns,
    /// A byte is two digits, and their number is odd.
    HalfByte,
    /// It has a NUL byte, where assembler text is wanted.
    Nul,
}

impl Display for Hint {
    fn fmt<W: fmt::Write>(&self, f: &mut Formatter<W>) -> fmt::Result {
        f.pad(match self {
            Hint::ByteOrderMark => "the input begins with a byte order mark",
            Hint::Binary => "the program is wanted in hexadecimal digits; try xxd -p",
            Hint::OtherSigns =>
                "the program is wanted in hexadecimal digits alone; leave out 0x and commas",
            Hint::HalfByte => "two hexadecimal digits are a byte, and the number of digits is odd",
            Hint::Nul => "the input has a NUL byte; assembler text is wanted, in UTF-8",
        })
    }
}

pub(crate) fn begins_with_mark(input: &[u8]) -> bool
    ensures { result ≡ begins_with_mark input.now }
{
    input.starts_with(&BYTE_ORDER_MARK)
}

pub(crate) fn is_printable(byte: u8) -> bool
    ensures { result ≡ is_printable byte }
{
    is_blank(byte) || (byte >= 0x20 && byte <= 0x7e)
}

#[tactic(auto, unfolding(crate::specs::Hints::text_hint))]
/// The hint to an input that is text.
pub fn text_hint(input: &[u8]) -> Option<Hint>
    ensures { result ≡ text_hint input.now }
{
    if begins_with_mark(input) {
        Some(Hint::ByteOrderMark)
    } else {
        None
    }
}

#[tactic(auto, unfolding(crate::specs::Hints::source_hint))]
/// The hint to an input that is assembler text.
pub fn source_hint(input: &[u8]) -> Option<Hint>
    ensures { result ≡ source_hint input.now }
{
    if begins_with_mark(input) {
        Some(Hint::ByteOrderMark)
    } else if input.contains(&0) {
        Some(Hint::Nul)
    } else {
        None
    }
}

/// Each byte is a hexadecimal digit. All are looked at in any case, so that the processor looks at several at once.
pub(crate) fn are_digits(text: &[u8]) -> bool
    ensures { result ≡ list_all is_hex_digit text.now }
{
    let mut all = true;
    for byte in text {
        all &= byte.is_ascii_hexdigit();
    }
    all
}

/// The hint to hexadecimal digits without blanks.
pub fn pairs_hint(digits: &[u8]) -> Option<Hint>
    ensures { result ≡ pairs_hint digits.now }
{
    if !are_digits(digits) {
        Some(Hint::OtherSigns)
    } else if digits.len() % 2 == 1 {
        Some(Hint::HalfByte)
    } else {
        None
    }
}
