//! Hexadecimal digits of any number, of which those are kept that a program may have.
ghost use Rattle.std.specs.Prelude.{◌≡◌, ◌≤◌, ◌<◌, ◌++◌, List, ℕ, [], true, length, take, slice_index};
ghost use Rattle.std.specs.Prelude.{IfOk, OnOk, MatchOption, Err};
ghost use Rattle.hex.specs.Hex.{decode_of};
ghost use Rattle.hex.specs.declared.error.FromHexError.{FromHexError};
ghost use Rattle.hub_commands.specs.Digits.{AreDigits, StandFor};
ghost use Rattle.hub_commands.specs.Hexadecimal.{is_blank, without_blanks};
ghost use Rattle.hub_commands.specs.Hints.{pairs_hint};

use crate::hexadecimal::is_blank;
use crate::hint::{Hint, are_digits};
use std::alloc::{AllocError, Global};

/// As many digits as are kept: two more than the longest program has, so that a longer one is seen to be too long.
const MOST_DIGITS: usize = 65538;

/// The first digits of a program, and what all of them are.
#[derive(Drop)]
pub struct Digits {
    pub(crate) first: Vec<u8>,
    /// Their number is odd.
    pub(crate) is_odd: bool,
    /// Each is a hexadecimal digit.
    pub(crate) are_right: bool,
}

/// Appends bytes to the first ones of a text, as many as are kept.
pub fn keep(kept: &mut Vec<u8>, most: usize, more: &[u8]) -> Result<(), AllocError>
    ensures { OnOk result ((bytes : List ℕ) → kept.old.items ≡ take most bytes
        → kept.new.items ≡ take most (bytes ++ more.now)) }
{
    let room = most.saturating_sub(kept.len()).min(more.len());
    kept.extend_from_slice(&more[..room])
}

/// How many bytes stand before the first blank.
fn run_length(text: &[u8]) -> usize
    ensures within { result ≤ length text.now }
    ensures run { without_blanks (take result text.now) ≡ take result text.now }
    ensures end { result < length text.now → is_blank (slice_index text.now result) ≡ true }
{
    for index in 0..text.len() {
        if is_blank(text[index]) {
            return index;
        }
    }
    text.len()
}

impl Digits {
    /// No digit yet.
    pub fn new(alloc: Global) -> Digits
        ensures { AreDigits [] result }
    {
        Digits {
            first: Vec::new(alloc),
            is_odd: false,
            are_right: true,
        }
    }

    /// Takes in the next digits.
    fn push(&mut self, more: &[u8]) -> Result<(), AllocError>
        ensures { OnOk result ((digits : List ℕ) → AreDigits digits self.old
            → AreDigits (digits ++ more.now) self.new) }
    {
        keep(&mut self.first, MOST_DIGITS, more)?;
        self.is_odd ^= more.len() % 2 == 1;
        self.are_right &= are_digits(more);
        Ok(())
    }

    /// Takes in the digits of a text, which has blanks between them.
    pub fn push_text(&mut self, text: &[u8]) -> Result<(), AllocError>
        ensures { OnOk result ((digits : List ℕ) → AreDigits digits self.old
            → AreDigits (digits ++ without_blanks text.now) self.new) }
    {
        let mut rest = text;
        loop {
            let (run, behind) = rest.split_at(run_length(rest));
            self.push(run)?;
            let Some((_blank, behind)) = behind.split_first() else {
                return Ok(());
            };
            rest = behind;
        }
    }

    /// The hint to the digits.
    pub fn hint(&self) -> Option<Hint>
        ensures { (digits : List ℕ) → AreDigits digits self.now → result ≡ pairs_hint digits }
    {
        if !self.are_right {
            Some(Hint::OtherSigns)
        } else if self.is_odd {
            Some(Hint::HalfByte)
        } else {
            None
        }
    }

    /// The bytes that pairs of digits stand for, where they do; of more than a program may have the first.
    pub fn bytes(&self, alloc: Global) -> Result<Option<Vec<u8>>, AllocError>
        ensures { IfOk result (λ answer. (digits : List ℕ) → AreDigits digits self.now → MatchOption answer
            ((error : FromHexError) × (decode_of digits ≡ Err error))
            (λ bytes. StandFor digits bytes.items)) }
    {
        if self.is_odd || !self.are_right {
            return Ok(None);
        }
        hex_table::decode(alloc, &self.first)
    }
}
