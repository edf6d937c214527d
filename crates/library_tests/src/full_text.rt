use crate::sequence_calls::deliver_line;
use change_ops::change::read_change;
use change_ops::line::Line;
use change_ops::size::Size;
use char_sequence::sequence::{Sequence, SequenceError};
use std::alloc::{AllocError, Global};
use std::test::Fail;

// A full text, typed on or each character at the start, in changes of 256 characters.

/// The line that inserts the character of this number.
fn line(alloc: Global, number: usize, is_appended: bool) -> Result<String, AllocError> {
    if is_appended && number > 1 {
        let before = number - 1;
        format!(in alloc; "i {number}@1 {before}@1 61\n")
    } else {
        format!(in alloc; "i {number}@1 - 61\n")
    }
}

/// A change of the 256 characters that come after the first `count`.
fn change_text(alloc: Global, count: usize, is_appended: bool) -> Result<String, AllocError> {
    let mut text = String::from_str(alloc, "change 1 256\n")?;
    for offset in 1..257 {
        let line = line(alloc, count.saturating_add(offset), is_appended)?;
        text.push_str(&line)?;
    }
    Ok(text)
}

/// Whether all operations of a change are taken.
fn is_taken(alloc: Global, sequence: &mut Sequence, text: &str) -> Result<bool, Fail> {
    let (change, _) = read_change(alloc, text)?;
    for line in change.lines() {
        if !deliver_line(sequence, line)? {
            return Ok(false);
        }
    }
    Ok(true)
}

/// Whether 128 changes are taken.
fn is_filled(alloc: Global, sequence: &mut Sequence, is_appended: bool) -> Result<bool, Fail> {
    for index in 0..128 {
        let text = change_text(alloc, index * 256, is_appended)?;
        if !is_taken(alloc, sequence, &text)? {
            return Ok(false);
        }
    }
    Ok(true)
}

/// Whether the characters stand in the order in which they were typed, or in the other one.
fn is_in_order(sequence: &Sequence, is_appended: bool) -> bool {
    let mut number: u64 = 0;
    for element in sequence.elements() {
        number = number.saturating_add(1);
        let want = if is_appended {
            number
        } else {
            32769_u64.saturating_sub(number)
        };
        if element.id.counter() != want {
            return false;
        }
    }
    number == 32768
}

/// Whether the chunks have at most 64 characters, and enough of them for all.
fn is_in_chunks(sequence: &Sequence) -> bool {
    let (chunks, longest) = sequence.shape();
    chunks >= 512 && longest <= 64 && chunks.saturating_mul(longest) >= 32768
}

/// Whether one more character is one too many for a small text, and not for a large one.
fn is_full(alloc: Global, sequence: &Sequence) -> Result<bool, Fail> {
    let (change, _) = read_change(alloc, "change 1 1\ni 32769@1 - 61\n")?;
    match change.lines().first() {
        Some(Line::Operation(op)) => {
            let is_full = sequence.check(Size::Small, op) == Err(SequenceError::DocumentFull);
            Ok(is_full && sequence.check(Size::Large, op).is_ok())
        }
        _ => Ok(false),
    }
}

/// Whether a new sequence has no chunk, and one of 32,768 characters is in order, in chunks and full.
fn is_right(alloc: Global, is_appended: bool) -> Result<bool, Fail> {
    let mut sequence = Sequence::new(alloc);
    let is_new = sequence.shape() == (0, 0);
    let is_filled = is_filled(alloc, &mut sequence, is_appended)?;
    let is_kept = is_in_order(&sequence, is_appended) && is_in_chunks(&sequence);
    Ok(is_new && is_filled && is_kept && is_full(alloc, &sequence)?)
}

#[test]
fn a_full_text_is_in_chunks(rt: HostRuntime) -> Result<(), Fail> {
    let appended = is_right(rt.alloc(), true)?;
    let at_the_start = is_right(rt.alloc(), false)?;
    assert!(rt; appended && at_the_start);
    Ok(())
}
