use change_ops::change::read_change;
use change_ops::id::OpId;
use change_ops::line::Line;
use change_ops::operation::{Anchor, Op};
use mark_anchors::marks::Marks;
use std::alloc::{AllocError, Global};
use std::test::Fail;
use test_inputs::lines::lines;

/// Marks at a removed character, at one anchor, and with their ends in the wrong order.
static CHANGE: &str =
    "change 1 10 / i 1@1 - 61 / i 2@1 1@1 62 / i 3@1 2@1 63 / d 4@1 2@1 / m 5@1 strong - >2@1 $ / m 6@1 em - <2@1 >2@1 / m 7@1 color 0000ff >3@1 <1@1 / m 8@1 link x ^ <2@1 / m 9@1 comment:1 - >2@1 >2@1 / m 10@1 comment:2 - >2@1 >3@1";

/// Adds a mark operation that is not there.
fn add(marks: &mut Marks, op: &Op) -> Result<(), Fail> {
    if op.is_mark() && marks.mark(op.id()).is_none() {
        marks.add(op).ok().ok_or("a mark is refused")?;
    }
    Ok(())
}

/// The marks of the change.
fn marks_of(alloc: Global, text: &str) -> Result<Marks, Fail> {
    let text = lines(alloc, text)?;
    let (change, _) = read_change(alloc, text.as_str())?;
    let mut marks = Marks::new(alloc);
    for line in change.lines() {
        if let Line::Operation(op) = line {
            add(&mut marks, op)?;
        }
    }
    Ok(marks)
}

/// Whether the ids have these counters.
fn are_counters(ids: &[OpId], counters: &[u64]) -> bool {
    ids.iter()
        .map(|id| id.counter())
        .eq(counters.iter().copied())
}

/// Whether the marks of these counters begin and end at the anchor.
fn are_at(
    alloc: Global,
    marks: &Marks,
    anchor: Anchor,
    begins: &[u64],
    ends: &[u64],
) -> Result<bool, AllocError> {
    let beginning = marks.begin_at(alloc, &anchor)?;
    let ending = marks.end_at(alloc, &anchor)?;
    Ok(are_counters(&beginning, begins) && are_counters(&ending, ends))
}

/// The character of this counter.
fn character(counter: u64) -> Result<OpId, Fail> {
    let id = OpId::new(counter, 1).ok_or("an id is refused")?;
    Ok(id)
}

/// Whether each mark is at its two anchors.
fn are_at_their_anchors(alloc: Global, marks: &Marks) -> Result<bool, Fail> {
    let first = character(1)?;
    let second = character(2)?;
    let third = character(3)?;
    let before = are_at(alloc, marks, Anchor::TextStart, &[8], &[])?
        && are_at(alloc, marks, Anchor::BeforeCharacter(first), &[], &[7])?
        && are_at(alloc, marks, Anchor::BeforeCharacter(second), &[6], &[8])?;
    let after = are_at(
        alloc,
        marks,
        Anchor::AfterCharacter(second),
        &[5, 9, 10],
        &[6, 9],
    )? && are_at(alloc, marks, Anchor::AfterCharacter(third), &[7], &[10])?
        && are_at(alloc, marks, Anchor::TextEnd, &[], &[5])?;
    Ok(before && after)
}

/// The counter of the mark of this counter, if it is there.
fn mark(marks: &Marks, counter: u64) -> Option<u64> {
    let op = marks.mark(OpId::new(counter, 1)?)?;
    Some(op.id().counter())
}

/// Whether a mark is found by its id, and a removal of a character and an id that isn't there are not.
fn are_found(marks: &Marks) -> bool {
    mark(marks, 5) == Some(5) && mark(marks, 4).is_none() && mark(marks, 11).is_none()
}

#[test]
fn marks_are_asked(rt: HostRuntime) -> Result<(), Fail> {
    let marks = marks_of(rt.alloc(), CHANGE)?;
    let are_right = are_at_their_anchors(rt.alloc(), &marks)? && are_found(&marks);
    assert!(rt; are_right && !marks.is_full());
    Ok(())
}
