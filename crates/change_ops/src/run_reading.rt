//! The line of a run.
ghost use Rattle.std.specs.Prelude.{◌≡◌, ℕ, ◌+◌, ◌^◌, ◌<◌, ◌≤◌, ◌&&◌, [], length, Some, Err, is_some, IfOk, IsTrue};
ghost use Rattle.std.specs.Str.{IsUtf8};
ghost use Rattle.change_ops.specs.Ids.{within_limits};
ghost use Rattle.change_ops.specs.Limits.{parent_within};
ghost use Rattle.change_ops.specs.Words.{saturated};
ghost use Rattle.change_ops.specs.Reading.{id_at, parent_at, characters_at, run_parts, run_at, own_run, run_verdict};
ghost use Rattle.change_ops.specs.Reading.{IsNextCode, IsFirst, limited_run, encoded_all, made_verdict, ReadsAs, Reads};

use crate::character::Character;
use crate::fields::{both, character_of, code_of, id_of, parent_of};
use crate::id::OpId;
use crate::numbers::{number, word_of};
use crate::refusal::LineFault;
use crate::run::Run;
use std::alloc::Global;

/// The code at the front of several, and what follows the space behind it.
fn next_code(fields: &str) -> Result<(u64, &str), LineFault>
    ensures read { IsNextCode fields.now result }
    ensures text { IfOk result (λ x. IsUtf8 x.1.now) }
{
    let (word, after) = word_of(fields)?;
    let code = code_of(word)?;
    Ok((code, after))
}

/// Whether the fields are `count` codes with a space between them, and nothing else.
fn are_codes(count: u64, fields: &str) -> bool
    ensures codes { result ≡ is_some (characters_at count fields.now) }
    ensures long { length fields.now < 2 ^ 64 }
{
    // Each code takes a byte.
    if count > fields.len() as u64 {
        return false;
    }
    if count == 0 {
        return false;
    }
    let mut rest: &str = fields;
    for index in 1..count {
        let Ok((_, after)) = next_code(rest) else {
            return false;
        };
        rest = after;
    }
    code_of(rest).is_ok()
}

/// The first of `others + 1` characters, and the text of the others.
fn next_character(others: u64, fields: &str) -> Result<(Character, &str), LineFault>
    requires { 1 ≤ others }
    ensures read { IsFirst others fields.now result }
    ensures text { IfOk result (λ x. IsUtf8 x.1.now) }
{
    let (code, after) = next_code(fields)?;
    match Character::new(code) {
        Some(character) => Ok((character, after)),
        None if are_codes(others, after) => Err(LineFault::CharRefused),
        None => Err(LineFault::BadLine),
    }
}

/// `count` characters, their codes with a space between them.
fn characters_of(alloc: Global, count: usize, fields: &str) -> Result<Vec<Character>, LineFault>
    requires some { 1 ≤ count }
    requires few { count ≤ 256 }
    ensures { ReadsAs (λ characters. characters.items) result (encoded_all (characters_at count fields.now)) }
{
    let mut characters = Vec::with_capacity(alloc, count)?;
    let mut rest: &str = fields;
    for index in 1..count {
        let (character, after) = match next_character((count - index) as u64, rest) {
            Ok(next) => next,
            Err(fault) => return Err(fault),
        };
        characters.push(character)?;
        rest = after;
    }
    let last = character_of(rest)?;
    characters.push(last)?;
    Ok(characters)
}

/// The id and the parent of a run of `count` characters, in a change with room for `room` operations.
fn named_of(
    count: u64,
    room: usize,
    id: &str,
    parent: &str,
) -> Result<(OpId, Option<OpId>), LineFault>
    requires { room ≤ 256 }
    ensures { result ≡ limited_run count room (id_at id.now) (parent_at parent.now) }
{
    let (id, parent) = both(id_of(id), parent_of(parent))?;
    if count < 2 || count > room as u64 || id.counter() + count > 1 << 48 {
        return Err(LineFault::Limit);
    }
    Ok((id, parent))
}

/// The fault of a run of no character.
fn fault_of_none(id: &str, parent: &str) -> LineFault
    ensures { (peer room : ℕ) → run_verdict peer room (run_parts (id_at id.now) (parent_at parent.now) (Some []))
        ≡ Err result }
{
    match both(id_of(id), parent_of(parent)) {
        Err(LineFault::BadLine) => LineFault::BadLine,
        _ => LineFault::Limit,
    }
}

/// A run that is the peer's own.
fn owned(peer: u16, run: Run) -> Result<Run, LineFault>
    ensures { result ≡ own_run peer run }
{
    if run.id().node() == peer {
        Ok(run)
    } else {
        Err(LineFault::WrongPeer)
    }
}

/// The run of `count` codes, by its id and its parent, which are within the limits.
fn made_of(
    alloc: Global,
    peer: u16,
    id: OpId,
    parent: Option<OpId>,
    count: usize,
    codes: &str,
) -> Result<Run, LineFault>
    requires named { IsTrue (within_limits id && parent_within parent) }
    requires some { 2 ≤ count }
    requires few { count ≤ 256 }
    requires last { id.counter + count ≤ 2 ^ 48 }
    ensures { Reads result (made_verdict peer id parent (encoded_all (characters_at count codes.now))) }
{
    let characters = characters_of(alloc, count, codes)?;
    owned(
        peer,
        Run {
            id,
            parent,
            characters,
        },
    )
}

/// The run of `count` codes, by the words of its id and its parent, or the first fault of them all.
fn typed_of(
    alloc: Global,
    peer: u16,
    room: usize,
    id: &str,
    parent: &str,
    count: u64,
    codes: &str,
) -> Result<Run, LineFault>
    requires { room ≤ 256 }
    ensures { (n : ℕ) → count ≡ saturated n
        → Reads result
        (run_verdict peer room (run_parts (id_at id.now) (parent_at parent.now) (characters_at n codes.now))) }
{
    match named_of(count, room, id, parent) {
        Ok(named) => made_of(alloc, peer, named.0, named.1, count as usize, codes),
        Err(fault) if are_codes(count, codes) => Err(fault),
        Err(_) => Err(LineFault::BadLine),
    }
}

/// The run that a line spells behind its first word, in a peer's change with room for `room` operations, or the first
/// fault.
#[tactic(auto, unfolding(crate::specs::Reading::run_at, crate::specs::Reading::counted_at))]
pub fn run_of(alloc: Global, peer: u16, room: usize, fields: &str) -> Result<Run, LineFault>
    requires { room ≤ 256 }
    ensures { Reads result (run_verdict peer room (run_at fields.now)) }
{
    let (id, fields) = word_of(fields)?;
    let (parent, fields) = word_of(fields)?;
    if fields == "0" {
        return Err(fault_of_none(id, parent));
    }
    let (count, codes) = word_of(fields)?;
    let count = number(10, count)?;
    typed_of(alloc, peer, room, id, parent, count, codes)
}
