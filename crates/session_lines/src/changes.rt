//! The lines of a change.
ghost use Rattle.std.specs.Prelude.{◌≡◌, ◌++◌, ◌∷◌, [], OnOk};
ghost use Rattle.std.specs.String.{string_bytes};
ghost use Rattle.std.specs.Option.{option_map};
ghost use Rattle.session_lines.specs.Changes.{begins_change, is_header, right_header, followers, legible};

use crate::words::{first_word, word_of};
use change_ops::numeral::decimal_number;
use std::alloc::AllocError;
use std::fmt::Write;

/// The first word of the first line of a change of the first form.
const CHANGE: &[u8] = b"change";

/// That of a change of the second form.
const CHANGE2: &[u8] = b"change2";

/// That of a change of the third form.
const CHANGE3: &[u8] = b"change3";

/// Whether a word begins a change's first line.
fn begins_change(word: &[u8]) -> bool
    ensures { result ≡ begins_change word.now }
{
    word == CHANGE || word == CHANGE2 || word == CHANGE3
}

/// Whether a line's first word is that of a change's first line.
pub fn is_header(line: &[u8]) -> bool
    ensures { result ≡ is_header line.now }
{
    begins_change(first_word(line))
}

/// The count of lines in a change's first line, where it is a right one.
#[tactic(auto, unfolding(change_ops::specs::Reading::header_at))]
fn count_of(line: &[u8]) -> Option<usize>
    ensures { result ≡ option_map (λ header. header.2) (right_header line.now) }
{
    let (name, fields) = word_of(line)?;
    let (node, count) = word_of(fields)?;
    if !begins_change(name) {
        return None;
    }
    let node = decimal_number(node)?;
    let count = decimal_number(count)?;
    if node < 1 || node > 65535 || count < 1 || count > 256 {
        return None;
    }
    Some(count as usize)
}

/// How many lines follow a change's first line: as many as its count, where it is a right one, and else none.
pub fn followers(line: &[u8]) -> usize
    ensures { result ≡ followers (right_header line.now) }
{
    count_of(line).unwrap_or(0)
}

/// A line as it is read in a change: one that isn't UTF-8 as an empty one, which has no form either.
#[tactic(auto, using(crate::proofs::Legible::is_text, crate::proofs::Legible::no_text))]
fn legible(line: &[u8]) -> &str
    ensures { result.now ≡ legible line.now }
{
    match std::str::from_utf8(line) {
        Ok(text) => text,
        Err(_) => "",
    }
}

/// Appends a line of a change to its text.
pub fn push_line(text: &mut String, line: &[u8]) -> Result<(), AllocError>
    ensures { OnOk result (string_bytes text.new ≡ string_bytes text.old ++ (legible line.now ++ 10 ∷ [])) }
{
    let line = legible(line);
    write!(text, "{line}\n")
}
