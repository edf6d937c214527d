ghost use Rattle.std.specs.Prelude.{◌≡◌, ℕ, ◌≤◌, ◌<◌, length, take, drop, true, false, slice_index};
ghost use Rattle.assembler_lines.specs.Scanning.{Steps, IsShorter};
ghost use Rattle.assembler_lines.specs.Tokens.{is_word_byte, is_blank, sign_of, begins_word, tokens_of};
ghost use Rattle.assembler_lines.specs.Pieces.{AreWordBytes};

use crate::token::{Next, Sign, Token};

#[tactic(auto, unfolding(crate::specs::Tokens::is_word_byte))]
fn is_word(byte: u8) -> bool
    ensures { result ≡ is_word_byte byte }
{
    byte.is_ascii_alphanumeric() || byte == b'_'
}

#[tactic(auto, unfolding(crate::specs::Tokens::is_blank))]
fn is_space(byte: u8) -> bool
    ensures { result ≡ is_blank byte }
{
    matches!(byte, b' ' | b'\t' | b'\r')
}

#[tactic(auto, unfolding(crate::specs::Tokens::sign_of))]
fn sign(byte: u8) -> Option<Sign>
    ensures { result ≡ sign_of byte }
{
    match byte {
        b',' => Some(Sign::Comma),
        b'[' => Some(Sign::Open),
        b']' => Some(Sign::Close),
        b'+' => Some(Sign::Plus),
        b'-' => Some(Sign::Minus),
        b':' => Some(Sign::Colon),
        _ => None,
    }
}

/// The number of word bytes at the front.
#[tactic(auto, using(crate::proofs::Laws::scanning))]
fn word_len(bytes: &[u8]) -> usize
    ensures within { result ≤ length bytes.now }
    ensures words { AreWordBytes (take result bytes.now) }
    ensures ends { begins_word (drop result bytes.now) ≡ false }
    ensures some { 0 < length bytes.now → is_word_byte (slice_index bytes.now 0) ≡ true → 0 < result }
{
    for index in 0..bytes.len() {
        if !is_word(bytes[index]) {
            return index;
        }
    }
    bytes.len()
}

/// The number of blanks at the front.
#[tactic(auto, using(crate::proofs::Laws::scanning))]
fn blank_len(bytes: &[u8]) -> usize
    ensures within { result ≤ length bytes.now }
    ensures same { tokens_of (drop result bytes.now) ≡ tokens_of bytes.now }
    ensures ends { result < length bytes.now → is_blank (slice_index bytes.now result) ≡ false }
{
    for index in 0..bytes.len() {
        if !is_space(bytes[index]) {
            return index;
        }
    }
    bytes.len()
}

/// The token at the front of a line that doesn't begin with a blank.
#[tactic(auto, using(crate::proofs::Laws::fronts))]
fn token_at(line: &[u8]) -> Next<'_>
    requires { 0 < length line.now → is_blank (slice_index line.now 0) ≡ false }
    ensures steps { Steps line.now result }
    ensures shorter { IsShorter line.now result }
{
    let Some(byte) = line.first() else {
        return Next::End;
    };
    if *byte == b';' {
        return Next::End;
    }
    if is_word(*byte) {
        let (word, rest) = line.split_at(word_len(line));
        return Next::Found(Token::Word(word), rest);
    }
    let (_, rest) = line.split_at(1);
    match sign(*byte) {
        Some(sign) => Next::Found(Token::Mark(sign), rest),
        None => Next::Found(Token::Stray, rest),
    }
}

/// The token at the front of a line.
pub fn next(line: &[u8]) -> Next<'_>
    ensures steps { Steps line.now result }
    ensures shorter { IsShorter line.now result }
{
    let (_, rest) = line.split_at(blank_len(line));
    token_at(rest)
}
