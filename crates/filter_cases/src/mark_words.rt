//! The words of a case's line that say something of its span.
ghost use Rattle.std.specs.Prelude.{◌≡◌, IfOk};
ghost use Rattle.hex.specs.Hex.{decode_of};
ghost use Rattle.change_ops.specs.Attributes.{is_link};
ghost use Rattle.change_ops.specs.Ids.{checked};
ghost use Rattle.filter_cases.specs.Marks.{color_in, key_at, mark_at, number_at, short_number, value_at};

use crate::lines::split;
use crate::marks::Marks;
use change_ops::attribute::Link;
use change_ops::numeral::decimal_number;
use std::alloc::{AllocError, Global};

const STRONG: &[u8] = b"strong";

const EM: &[u8] = b"em";

const CODE: &[u8] = b"code";

const LINK: &[u8] = b"link";

const COLOR: &[u8] = b"color";

const COMMENTS: &[u8] = b"comments";

const INDEX: &[u8] = b"index";

const COUNT: &[u8] = b"count";

const VERSION: &[u8] = b"version";

/// The number of 32 bits that a word spells.
fn short_number(word: &[u8]) -> Option<u32>
    ensures { result ≡ short_number word.now }
{
    let number = decimal_number(word)?;
    if number < 1 << 32 {
        Some(number as u32)
    } else {
        None
    }
}

/// The color of six hexadecimal digits.
fn color(alloc: Global, word: &[u8]) -> Result<Option<u32>, AllocError>
    ensures { IfOk result (λ color. color ≡ color_in (decode_of word.now)) }
{
    let Some(bytes) = hex_table::decode(alloc, word)? else {
        return Ok(None);
    };
    match bytes.as_slice() {
        [red, green, blue] => Ok(Some(
            65_536 * u32::from(*red) + 256 * u32::from(*green) + u32::from(*blue),
        )),
        _ => Ok(None),
    }
}

/// The link with this target, if it is one.
fn link(alloc: Global, word: &[u8]) -> Result<Option<Link>, AllocError>
    ensures { IfOk result (λ link. link ≡ checked is_link word.now) }
{
    match std::str::from_utf8(word) {
        Ok(target) => Link::new(alloc, target),
        Err(_) => Ok(None),
    }
}

/// These marks, and what a key with a number says further.
#[tactic(auto, unfolding(crate::specs::Marks::number_at))]
fn with_number(marks: Marks, key: &[u8], value: &[u8]) -> Option<Marks>
    ensures { result ≡ number_at marks key.now value.now }
{
    let mut marks = marks;
    if key == VERSION {
        marks.version = decimal_number(value)?;
        return Some(marks);
    }
    let number = short_number(value)?;
    if key == COMMENTS {
        marks.comments = number;
    } else if key == INDEX {
        marks.index = number;
    } else if key == COUNT {
        marks.count = number;
    } else {
        return None;
    }
    Some(marks)
}

/// These marks, and what a key with its value says further.
#[tactic(auto, unfolding(crate::specs::Marks::value_at))]
fn with_value(
    alloc: Global,
    marks: Marks,
    key: &[u8],
    value: &[u8],
) -> Result<Option<Marks>, AllocError>
    ensures { IfOk result (λ after. after ≡ value_at marks key.now value.now) }
{
    let mut marks = marks;
    if key == LINK {
        let Some(target) = link(alloc, value)? else {
            return Ok(None);
        };
        marks.link = Some(target);
        return Ok(Some(marks));
    }
    if key == COLOR {
        let Some(rgb) = color(alloc, value)? else {
            return Ok(None);
        };
        marks.color = Some(rgb);
        return Ok(Some(marks));
    }
    Ok(with_number(marks, key, value))
}

/// These marks, and what a word `key=value` says further.
#[tactic(auto, unfolding(crate::specs::Marks::key_at))]
fn with_key(alloc: Global, marks: Marks, word: &[u8]) -> Result<Option<Marks>, AllocError>
    ensures { IfOk result (λ after. after ≡ key_at marks word.now) }
{
    match split(b'=', word) {
        Some((key, value)) => with_value(alloc, marks, key, value),
        None => Ok(None),
    }
}

/// These marks, and what a word says further; None where it says nothing.
#[tactic(auto, unfolding(crate::specs::Marks::mark_at))]
pub fn with_word(alloc: Global, marks: Marks, word: &[u8]) -> Result<Option<Marks>, AllocError>
    ensures { IfOk result (λ after. after ≡ mark_at marks word.now) }
{
    let mut marks = marks;
    if word == STRONG {
        marks.strong = true;
    } else if word == EM {
        marks.em = true;
    } else if word == CODE {
        marks.code = true;
    } else {
        return with_key(alloc, marks, word);
    }
    Ok(Some(marks))
}
