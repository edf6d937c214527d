//! Instructions alone.
ghost use Rattle.std.specs.Prelude.{◌≡◌, ◌++◌, ◌+◌, min, length, slice_get, OnOk, string_bytes};
ghost use Rattle.bpf_words.specs.Words.{program_of};
ghost use Rattle.program_listing.specs.Listing.{line_at, instructions_text};

use bpf_words::words::Words;
use known_ways::place::insn_at;
use std::alloc::AllocError;
use step_lines::lines::push_instruction;

/// Appends the instruction of a slot, where one begins there.
fn push_at(text: &mut String, words: &Words<'_>, slot: usize) -> Result<(), AllocError>
    ensures { OnOk result (string_bytes text.new
        ≡ string_bytes text.old ++ line_at slot (slice_get (program_of words.now) slot)) }
{
    match insn_at(words, slot) {
        Some(insn) => push_instruction(text, slot, insn),
        None => Ok(()),
    }
}

/// Appends the instructions from one slot to another.
pub fn push_instructions(
    text: &mut String,
    words: &Words<'_>,
    first: usize,
    last: usize,
) -> Result<(), AllocError>
    ensures { OnOk result (string_bytes text.new ≡ string_bytes text.old
        ++ instructions_text (program_of words.now) first (min (length (program_of words.now)) (last + 1))) }
{
    for slot in first..words.len().min(last.saturating_add(1)) {
        push_at(text, words, slot)?;
    }
    Ok(())
}
