//! The words of an operation's line: each reader answers what a word or several spell, if they have the
//! form and are within the limits.
ghost use Rattle.std.specs.Prelude.{◌≡◌, IfOk, IsTrue};
ghost use Rattle.change_ops.specs.Ids.{within_limits};
ghost use Rattle.change_ops.specs.Attributes.{is_color, is_comment_number, is_link};
ghost use Rattle.change_ops.specs.Values.{is_of_type, value_within};
ghost use Rattle.change_ops.specs.Limits.{parent_within, anchor_within, anchors_within, key_within, attribute_within};
ghost use Rattle.std.specs.Option.{option_map};
ghost use Rattle.change_ops.specs.Words.{saturated};
ghost use Rattle.change_ops.specs.Reading.{id_at, hex_at, parent_at, anchor_at, comment_at, key_at, color_at, link_at};
ghost use Rattle.change_ops.specs.Lines.{has_attribute, has_key};
ghost use Rattle.change_ops.specs.Reading.{attribute_at, value_at, anchors_at, formed, within, unvalued, encoded};
ghost use Rattle.change_ops.specs.Reading.{kept_if};
ghost use Rattle.change_ops.specs.Reading.{both as both_parts, Reads};

use crate::attribute::{Attribute, Color, CommentNumber, Key, Link, are_target_bytes};
use crate::character::Character;
use crate::id::OpId;
use crate::keys::{KeyRow, ValueType};
use crate::line::Form;
use crate::line_kind::LineKind;
use crate::numbers::{after_sign, digits, name_of, number, parts_of, word_of};
use crate::operation::Anchor;
use crate::refusal::LineFault;
use crate::row_value::RowValue;
use crate::value::Value;
use std::alloc::Global;

/// Two parts of a line, or the fault that is told: a part's that is of no form before any other, and
/// otherwise the first part's. So the part that may want memory is the first.
pub fn both<A: Drop, B: Drop>(
    first: Result<A, LineFault>,
    second: Result<B, LineFault>,
) -> Result<(A, B), LineFault>
    ensures { result ≡ both_parts first second }
{
    match (first, second) {
        (Ok(first), Ok(second)) => Ok((first, second)),
        (_, Err(LineFault::BadLine)) => Err(LineFault::BadLine),
        (Err(fault), _) => Err(fault),
        (Ok(_), Err(fault)) => Err(fault),
    }
}

/// An id.
#[tactic(auto, unfolding(crate::specs::Reading::id_at), using(crate::proofs::Limits::id_saturated))]
pub fn id_of(word: &str) -> Result<OpId, LineFault>
    ensures { result ≡ within within_limits (id_at word.now) }
{
    let (counter, node) = parts_of(word)?;
    let counter = number(10, counter)?;
    let node = number(10, node)?;
    OpId::new(counter, node).ok_or(LineFault::Limit)
}

/// What an insertion stands after: an id, or nothing for the text's start.
#[tactic(auto, unfolding(crate::specs::Reading::parent_at))]
pub fn parent_of(word: &str) -> Result<Option<OpId>, LineFault>
    ensures { result ≡ within parent_within (parent_at word.now) }
{
    if word == "-" {
        return Ok(None);
    }
    let id = id_of(word)?;
    Ok(Some(id))
}

/// A character's code, in lower-case hexadecimal digits.
#[tactic(auto, unfolding(crate::specs::Reading::hex_at))]
pub fn code_of(word: &str) -> Result<u64, LineFault>
    ensures { result ≡ formed (option_map saturated (hex_at word.now)) }
{
    if word.len() > 6 {
        return Err(LineFault::BadLine);
    }
    number(16, word)
}

/// A character by its code.
#[tactic(auto, using(crate::proofs::Limits::character_saturated))]
pub fn character_of(word: &str) -> Result<Character, LineFault>
    ensures { result ≡ encoded (hex_at word.now) }
{
    let code = code_of(word)?;
    Character::new(code).ok_or(LineFault::CharRefused)
}

/// An anchor.
#[tactic(auto, using(crate::proofs::Signs::anchor_signed))]
fn anchor_of(word: &str) -> Result<Anchor, LineFault>
    ensures { result ≡ within anchor_within (anchor_at word.now) }
{
    if let Some(name) = after_sign('<', word) {
        let id = id_of(name)?;
        return Ok(Anchor::BeforeCharacter(id));
    }
    if let Some(name) = after_sign('>', word) {
        let id = id_of(name)?;
        return Ok(Anchor::AfterCharacter(id));
    }
    if word == "^" {
        Ok(Anchor::TextStart)
    } else if word == "$" {
        Ok(Anchor::TextEnd)
    } else {
        Err(LineFault::BadLine)
    }
}

/// The anchors of a mark's start and end.
#[tactic(auto, unfolding(crate::specs::Reading::anchors_at))]
pub fn anchors_of(fields: &str) -> Result<(Anchor, Anchor), LineFault>
    ensures { result ≡ within anchors_within (anchors_at fields.now) }
{
    let (start, end) = word_of(fields)?;
    both(anchor_of(start), anchor_of(end))
}

/// The comment that a key names.
#[tactic(auto, unfolding(crate::specs::Reading::comment_at), using(crate::proofs::Limits::comment_saturated))]
fn comment_of(word: &str) -> Result<CommentNumber, LineFault>
    ensures { result ≡ within is_comment_number (comment_at word.now) }
{
    let (name, digits) = name_of(word)?;
    if name != "comment" {
        return Err(LineFault::BadLine);
    }
    let number = number(10, digits)?;
    CommentNumber::new(number).ok_or(LineFault::Limit)
}

/// A key that changes of the form know.
#[tactic(auto, unfolding(crate::specs::Reading::key_at))]
pub fn key_of(form: Form, word: &str) -> Result<Key, LineFault>
    ensures { result ≡ within key_within (kept_if (has_key form) (key_at word.now)) }
{
    let Some(row) = KeyRow::named(word) else {
        let number = comment_of(word)?;
        return Ok(Key::Comment(number));
    };
    if form.has(row.form()) {
        Ok(Key::Row(row))
    } else {
        Err(LineFault::BadLine)
    }
}

/// A color, in six digits.
#[tactic(auto, unfolding(crate::specs::Reading::color_at), using(crate::proofs::Limits::color_saturated))]
fn color_of(word: &str) -> Result<Color, LineFault>
    ensures { result ≡ within is_color (color_at word.now) }
{
    if word.len() != 6 {
        return Err(LineFault::BadLine);
    }
    let rgb = digits(16, word.as_bytes())?;
    Color::new(rgb).ok_or(LineFault::Limit)
}

/// A link.
#[tactic(auto, unfolding(crate::specs::Reading::link_at))]
fn link_of(alloc: Global, word: &str) -> Result<Link, LineFault>
    ensures { Reads result (within is_link (link_at word.now)) }
{
    if word.is_empty() || !are_target_bytes(word.as_bytes()) {
        return Err(LineFault::BadLine);
    }
    Link::new(alloc, word)?.ok_or(LineFault::Limit)
}

/// The word that stands for no value.
fn no_value(word: &str) -> Result<(), LineFault>
    ensures { result ≡ unvalued word.now }
{
    if word == "-" {
        Ok(())
    } else {
        Err(LineFault::BadLine)
    }
}

/// A value of a type.
#[tactic(auto, unfolding(crate::specs::Reading::value_at))]
fn value_of(alloc: Global, value_type: ValueType, word: &str) -> Result<Value, LineFault>
    ensures value { Reads result (within value_within (value_at value_type word.now)) }
    ensures typed { IfOk result (λ value. IsTrue (is_of_type value_type value)) }
{
    match value_type {
        ValueType::Nothing => {
            no_value(word)?;
            Ok(Value::Nothing)
        }
        ValueType::Link => {
            let link = link_of(alloc, word)?;
            Ok(Value::Link(link))
        }
        ValueType::Color => {
            let color = color_of(word)?;
            Ok(Value::Color(color))
        }
        ValueType::LineKind => {
            let kind = LineKind::named(word).ok_or(LineFault::BadLine)?;
            Ok(Value::LineKind(kind))
        }
    }
}

/// An attribute, by its key and its value, that changes of the form know.
#[tactic(auto, unfolding(crate::specs::Reading::attribute_at, crate::specs::Reading::key_at))]
pub fn attribute_of(
    alloc: Global,
    form: Form,
    name: &str,
    value: &str,
) -> Result<Attribute, LineFault>
    ensures { Reads result (within attribute_within (kept_if (has_attribute form) (attribute_at name.now value.now))) }
{
    let Some(row) = KeyRow::named(name) else {
        let (number, ()) = both(comment_of(name), no_value(value))?;
        return Ok(Attribute::Comment(number));
    };
    if !form.has(row.form()) {
        return Err(LineFault::BadLine);
    }
    let value = value_of(alloc, row.value_type(), value)?;
    let Some(valued) = RowValue::new(row, value) else {
        unreachable!();
    };
    Ok(Attribute::Row(valued))
}
