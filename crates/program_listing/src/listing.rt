//! Instructions with what is known before each.
ghost use Rattle.std.specs.Prelude.{◌≡◌, ◌++◌, ◌≤◌, ◌<◌, min, length, slice_get, OnOk, IfOk, string_bytes};
ghost use Rattle.bpf_words.specs.Words.{program_of};
ghost use Rattle.known_ways.specs.Ways.{KnownBelow};
ghost use Rattle.program_listing.specs.Listing.{lines_before, all_text, slot_text, lines_above, joined_text};
ghost use Rattle.program_listing.specs.Listing.{earlier_by, changes_text, listed_at, listing_text};

use crate::ways::push_ways;
use known_lines::lines::KnownLines;
use known_ways::knowledge::Knowledge;
use known_ways::place::insn_at;
use std::alloc::{AllocError, Global};
use step_lines::lines::push_instruction;

/// The lines of what is known before a slot, if a run may come there.
fn lines_of(
    alloc: Global,
    knowledge: &Knowledge<'_>,
    slot: usize,
) -> Result<Option<KnownLines>, AllocError>
    requires known { KnownBelow knowledge.now.profile (program_of knowledge.now.words.now)
        knowledge.now.states.items }
    requires within { slot < length knowledge.now.states.items }
    ensures { IfOk result (λ lines. lines
        ≡ lines_before knowledge.now.profile (program_of knowledge.now.words.now) slot) }
{
    match knowledge.before(slot) {
        Some(state) => Ok(Some(KnownLines::of(alloc, knowledge.profile, state)?)),
        None => Ok(None),
    }
}

/// Appends all that is known before a slot.
fn push_all(text: &mut String, lines: &Option<KnownLines>) -> Result<(), AllocError>
    ensures { OnOk result (string_bytes text.new ≡ string_bytes text.old ++ all_text lines.now) }
{
    match lines {
        Some(lines) => lines.push(text),
        None => text.push_str("  no run comes there\n"),
    }
}

/// Appends the instruction of a slot and all that is known before it.
pub fn push_slot(
    alloc: Global,
    text: &mut String,
    knowledge: &Knowledge<'_>,
    slot: usize,
) -> Result<(), AllocError>
    requires known { KnownBelow knowledge.now.profile (program_of knowledge.now.words.now)
        knowledge.now.states.items }
    requires within { slot < length knowledge.now.states.items }
    ensures { OnOk result (string_bytes text.new
        ≡ string_bytes text.old ++ slot_text knowledge.now.profile (program_of knowledge.now.words.now) slot) }
{
    let Some(insn) = insn_at(knowledge.words, slot) else {
        return Ok(());
    };
    push_instruction(text, slot, insn)?;
    push_all(text, &lines_of(alloc, knowledge, slot)?)
}

/// Appends what is known on the ways that join at a slot, and all that is known there.
fn push_joined(
    alloc: Global,
    text: &mut String,
    knowledge: &Knowledge<'_>,
    slot: usize,
    lines: &KnownLines,
) -> Result<(), AllocError>
    requires known { KnownBelow knowledge.now.profile (program_of knowledge.now.words.now)
        knowledge.now.states.items }
    requires within { slot < length knowledge.now.states.items }
    ensures { OnOk result (string_bytes text.new ≡ string_bytes text.old
        ++ joined_text knowledge.now.profile (program_of knowledge.now.words.now) slot lines.now) }
{
    let ways = knowledge.ways_into(alloc, slot)?;
    push_ways(alloc, text, knowledge.profile, lines, &ways)?;
    lines.push(text)
}

/// Appends what is known before a slot behind another one: what has changed, or where a jump leads there, what was
/// known on each way and all that is known.
#[tactic(auto, unfolding(crate::specs::Listing::changes_text))]
fn push_changes(
    alloc: Global,
    text: &mut String,
    knowledge: &Knowledge<'_>,
    slot: usize,
    above: &Option<KnownLines>,
    lines: &Option<KnownLines>,
) -> Result<(), AllocError>
    requires known { KnownBelow knowledge.now.profile (program_of knowledge.now.words.now)
        knowledge.now.states.items }
    requires within { slot < length knowledge.now.states.items }
    ensures { OnOk result (string_bytes text.new ≡ string_bytes text.old
        ++ changes_text knowledge.now.profile (program_of knowledge.now.words.now) slot above.now lines.now) }
{
    match (above, lines) {
        (_, None) => push_all(text, lines),
        (None, Some(lines)) => push_joined(alloc, text, knowledge, slot, lines),
        (Some(above), Some(lines)) => {
            if knowledge.is_jumped_to(slot) {
                push_joined(alloc, text, knowledge, slot, lines)
            } else {
                lines.push_beside(text, above)
            }
        }
    }
}

/// Appends the instruction of a slot, where one begins there, and what has changed before it from the one before on.
/// Returns the lines of what is known before the last instruction up to there.
fn push_next(
    alloc: Global,
    text: &mut String,
    knowledge: &Knowledge<'_>,
    slot: usize,
    above: Option<KnownLines>,
) -> Result<Option<KnownLines>, AllocError>
    requires known { KnownBelow knowledge.now.profile (program_of knowledge.now.words.now)
        knowledge.now.states.items }
    requires within { slot < length knowledge.now.states.items }
    requires above { above ≡ lines_above knowledge.now.profile (program_of knowledge.now.words.now) slot }
    ensures text { IfOk result (λ _. string_bytes text.new ≡ string_bytes text.old
        ++ listed_at knowledge.now.profile (program_of knowledge.now.words.now) slot
        (slice_get (program_of knowledge.now.words.now) slot)) }
    ensures next { IfOk result (λ lines. lines
        ≡ earlier_by knowledge.now.profile (program_of knowledge.now.words.now) slot
        (slice_get (program_of knowledge.now.words.now) slot) above) }
{
    let Some(insn) = insn_at(knowledge.words, slot) else {
        return Ok(above);
    };
    push_instruction(text, slot, insn)?;
    let lines = lines_of(alloc, knowledge, slot)?;
    push_changes(alloc, text, knowledge, slot, &above, &lines)?;
    Ok(lines)
}

/// Appends the instructions below a slot, and before each what has changed from the one before on.
pub fn push_listing(
    alloc: Global,
    text: &mut String,
    knowledge: &Knowledge<'_>,
    end: usize,
) -> Result<(), AllocError>
    requires known { KnownBelow knowledge.now.profile (program_of knowledge.now.words.now)
        knowledge.now.states.items }
    requires within { end ≤ length knowledge.now.states.items }
    ensures { OnOk result (string_bytes text.new ≡ string_bytes text.old
        ++ listing_text knowledge.now.profile (program_of knowledge.now.words.now) end) }
{
    let mut above = None;
    for slot in 0..end {
        above = push_next(alloc, text, knowledge, slot, above)?;
    }
    Ok(())
}
