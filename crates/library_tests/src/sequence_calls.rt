use change_ops::change::read_change;
use change_ops::id::OpId;
use change_ops::line::Line;
use change_ops::operation::Op;
use change_ops::size::Size;
use char_sequence::sequence::{Sequence, SequenceError};
use std::alloc::{AllocError, Global};
use std::test::Fail;
use test_inputs::lines::lines;

/// Takes an operation, if it is accepted; one of a mark changes nothing.
fn deliver(sequence: &mut Sequence, op: &Op) -> Result<bool, AllocError> {
    if sequence.check(Size::Large, op).is_err() {
        return Ok(false);
    }
    match op {
        Op::Insert { .. } => sequence.insert(op)?,
        Op::Remove { .. } => sequence.remove(op)?,
        Op::Revive { .. } => sequence.revive(op)?,
        Op::AddMark { .. } | Op::RemoveMark { .. } => {}
    }
    Ok(true)
}

/// Takes the operations of a line, if they are accepted.
pub(crate) fn deliver_line(sequence: &mut Sequence, line: &Line) -> Result<bool, AllocError> {
    match line {
        Line::Operation(op) => deliver(sequence, op),
        Line::Run(run) => {
            for index in 0..run.characters().len() {
                if !deliver(sequence, &run.insert(index))? {
                    return Ok(false);
                }
            }
            Ok(true)
        }
        Line::Removals(run) => {
            for index in 0..run.count() as usize {
                if !deliver(sequence, &run.removal(index))? {
                    return Ok(false);
                }
            }
            Ok(true)
        }
        Line::Revivals(run) => {
            for index in 0..run.count() as usize {
                if !deliver(sequence, &run.revival(index))? {
                    return Ok(false);
                }
            }
            Ok(true)
        }
    }
}

/// A character, and after it two that two peers typed at once, of which one is removed again.
static CHANGES: [&str; 3] = [
    "change 1 2 / i 1@1 - 61 / i 2@1 1@1 62",
    "change 2 1 / i 2@2 1@1 63",
    "change 1 1 / d 3@1 2@1",
];

/// Three characters of a run, all removed twice, of which all of the first removals are taken back, and the second of
/// one.
static REVIVED: [&str; 4] = [
    "change2 1 1 / r 1@1 - 3 61 62 63",
    "change3 1 1 / d 4@1 1@1 3",
    "change3 2 2 / d 4@2 1@1 3 / v 7@2 4@1 3",
    "change3 1 1 / v 7@1 5@2",
];

/// Whether all operations of the change of that text are taken.
fn is_taken(alloc: Global, sequence: &mut Sequence, text: &str) -> Result<bool, Fail> {
    let text = lines(alloc, text)?;
    let (change, _) = read_change(alloc, text.as_str())?;
    for line in change.lines() {
        if !deliver_line(sequence, line)? {
            return Ok(false);
        }
    }
    Ok(true)
}

/// The sequence that takes changes, if it takes them all.
fn sequence_of(alloc: Global, texts: &[&'static str]) -> Result<Option<Sequence>, Fail> {
    let mut sequence = Sequence::new(alloc);
    for text in texts {
        if !is_taken(alloc, &mut sequence, text)? {
            return Ok(None);
        }
    }
    Ok(Some(sequence))
}

/// Why the first operation of the change of that text is refused.
fn refusal(alloc: Global, sequence: &Sequence, text: &str) -> Result<Option<SequenceError>, Fail> {
    let text = lines(alloc, text)?;
    let (change, _) = read_change(alloc, text.as_str())?;
    match change.lines().first() {
        Some(Line::Operation(op)) => Ok(sequence.check(Size::Small, op).err()),
        _ => Ok(None),
    }
}

/// Whether a counter that was used and a character that isn't there are refused.
fn are_refused(alloc: Global, sequence: &Sequence) -> Result<bool, Fail> {
    let stale = refusal(alloc, sequence, "change 1 1 / i 3@1 - 61")?;
    let unknown = refusal(alloc, sequence, "change 1 1 / i 9@1 3@1 61")?;
    Ok(stale == Some(SequenceError::StaleCounter) && unknown == Some(SequenceError::UnknownRef))
}

/// Whether the greater id stands first, and the removed character keeps its place.
fn is_in_order(sequence: &Sequence) -> bool {
    let shown = sequence.elements().map(|element| (
        element.id.counter(),
        element.id.node(),
        element.visible,
    ));
    shown.eq([(1, 1, true), (2, 2, true), (2, 1, false)])
}

/// The place of a character, and whether it is visible.
fn found(sequence: &Sequence, counter: u64, node: u64) -> Option<(Option<usize>, bool)> {
    let id = OpId::new(counter, node)?;
    Some((sequence.place_of(id), sequence.visible(id)))
}

/// Whether the visible character, the removed one and one that was never there are told apart.
fn are_found(sequence: &Sequence) -> bool {
    found(sequence, 2, 2) == Some((Some(1), true))
        && found(sequence, 2, 1) == Some((Some(2), false))
        && found(sequence, 3, 1) == Some((None, false))
}

#[test]
fn a_sequence_is_asked(rt: HostRuntime) -> Result<(), Fail> {
    let sequence = sequence_of(rt.alloc(), &CHANGES)?.ok_or("an operation is not taken")?;
    let are_right = is_in_order(&sequence) && are_found(&sequence);
    assert!(rt; are_right && are_refused(rt.alloc(), &sequence)?);
    Ok(())
}

#[test]
fn a_character_is_shown_once_all_its_removals_are_taken_back(rt: HostRuntime) -> Result<(), Fail> {
    let sequence = sequence_of(rt.alloc(), &REVIVED)?.ok_or("an operation is not taken")?;
    let shown = sequence.elements().map(|element| element.visible);
    let unknown = refusal(rt.alloc(), &sequence, "change3 1 1 / v 8@1 1@1")?;
    let stale = refusal(rt.alloc(), &sequence, "change3 3 1 / v 4@3 4@1")?;
    assert!(rt; shown.eq([false, true, false]));
    assert!(rt; unknown == Some(SequenceError::UnknownRef));
    assert!(rt; stale == Some(SequenceError::StaleCounter));
    Ok(())
}
