//! Numbers, and where a text is split into lines and words.
ghost use Rattle.std.specs.Prelude.{IfSome, MatchOption, Some, None, ◌≡◌, ◌<◌, ◌≤◌};
ghost use Rattle.std.specs.Str.{IsUtf8};
ghost use Rattle.std.specs.Option.{option_map};
ghost use Rattle.change_ops.specs.Words.{digits_after, number_in, saturated, split, behind, seen};
ghost use Rattle.change_ops.specs.Reading.{formed, Found};

use crate::numeral::numeral_in;
use crate::refusal::LineFault;

/// The number that digits spell in a base, leading zeros or not; the greatest `u64` for one that is
/// greater still.
pub fn digits(base: u64, word: &[u8]) -> Result<u64, LineFault>
    requires low { 2 ≤ base }
    requires high { base ≤ 16 }
    ensures { result ≡ formed (option_map saturated (digits_after base 0 word.now)) }
{
    let numeral = numeral_in(base, word).ok_or(LineFault::BadLine)?;
    Ok(numeral.value.unwrap_or(u64::MAX))
}

/// The number that a whole word spells in a base, without leading zeros; the greatest `u64` for one
/// that is greater still.
#[tactic(auto, unfolding(crate::specs::Words::number_in))]
pub fn number(base: u64, word: &str) -> Result<u64, LineFault>
    requires low { 2 ≤ base }
    requires high { base ≤ 16 }
    ensures { result ≡ formed (option_map saturated (number_in base word.now)) }
{
    match word.as_bytes() {
        [] | [b'0', _, ..] => Err(LineFault::BadLine),
        word => digits(base, word),
    }
}

/// The line at the front of a text, without its LF, and what follows.
#[tactic(auto, unfolding(crate::specs::Words::split))]
pub fn line_of(text: &str) -> Option<(&str, &str)>
    ensures parts { seen result ≡ split 10 text.now }
    ensures text { IfSome result (λ x. IsUtf8 x.0.now × IsUtf8 x.1.now) }
{
    text.split_once('\n')
}

/// The word at the front of a line, and what follows the space after it.
#[tactic(auto, unfolding(crate::specs::Words::split))]
pub fn word_of(line: &str) -> Result<(&str, &str), LineFault>
    ensures { Found result (split 32 line.now) }
{
    line.split_once(' ').ok_or(LineFault::BadLine)
}

/// What stands before and after the sign in an id.
#[tactic(auto, unfolding(crate::specs::Words::split))]
pub fn parts_of(word: &str) -> Result<(&str, &str), LineFault>
    ensures { Found result (split 64 word.now) }
{
    word.split_once('@').ok_or(LineFault::BadLine)
}

/// The name before the colon in a key, and what follows it.
#[tactic(auto, unfolding(crate::specs::Words::split))]
pub fn name_of(word: &str) -> Result<(&str, &str), LineFault>
    ensures { Found result (split 58 word.now) }
{
    word.split_once(':').ok_or(LineFault::BadLine)
}

/// What follows a sign at the front of a word.
pub fn after_sign(sign: char, word: &str) -> Option<&str>
    requires { sign < 128 }
    ensures { MatchOption result (behind sign word.now ≡ None) (λ rest. behind sign word.now ≡ Some rest.now) }
{
    word.strip_prefix(sign)
}
