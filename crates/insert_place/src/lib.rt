//! Where a writer's character goes beside hidden characters that bear the ends of marks.
#![tactic(auto)]

ghost use Rattle.std.specs.Prelude.{◌≡◌, ◌≤◌, ◌↔◌, IsTrue, IfOk, MatchOption, Some, length};
ghost use Rattle.char_sequence.specs.Index.{HasId};
ghost use Rattle.insert_place.specs.Place.{BearsEnd, CaretAt, IsUnknown, IsInsertPlace, IsParent};

use change_ops::id::OpId;
use change_ops::operation::Anchor;
use char_sequence::sequence::Sequence;
use mark_anchors::marks::Marks;
use std::alloc::{AllocError, Global};

/// Whether a mark ends behind the character.
fn bears_end(alloc: Global, marks: &Marks, id: OpId) -> Result<bool, AllocError>
    ensures { IfOk result (λ bears. IsTrue bears ↔ BearsEnd marks.now id) }
{
    let ids = marks.end_at(alloc, &Anchor::AfterCharacter(id))?;
    Ok(!ids.is_empty())
}

/// How many characters stand before the place of the insertion, where so many stand before the caret.
fn place_from(
    alloc: Global,
    sequence: &Sequence,
    marks: &Marks,
    caret: usize,
) -> Result<usize, AllocError>
    requires { caret ≤ length sequence.now.elements }
    ensures place { IfOk result (λ place. IsInsertPlace sequence.now.elements marks.now caret place) }
    ensures within { IfOk result (λ place. place ≤ length sequence.now.elements) }
{
    let mut place = caret;
    for seen in caret..sequence.len() {
        let Some(element) = sequence.element_at(seen) else {
            return Ok(place);
        };
        if element.visible {
            return Ok(place);
        }
        if bears_end(alloc, marks, element.id)? {
            place = seen + 1;
        }
    }
    Ok(place)
}

/// The character before a place; none at the start.
fn parent_at(sequence: &Sequence, place: usize) -> Option<OpId>
    requires { place ≤ length sequence.now.elements }
    ensures { CaretAt sequence.now.elements result place }
{
    let last = place.checked_sub(1)?;
    let element = sequence.element_at(last)?;
    Some(element.id)
}

/// How many characters stand up to this one, if it is in the text.
fn place_behind(sequence: &Sequence, id: OpId) -> Option<usize>
    ensures { MatchOption result (HasId sequence.now.elements id → ⊥)
        (λ place. CaretAt sequence.now.elements (Some id) place × (place ≤ length sequence.now.elements)) }
{
    match sequence.place_of(id) {
        Some(place) if place < sequence.len() => Some(place + 1),
        _ => None,
    }
}

/// How many characters stand before a caret behind this one, or at the start; none where it isn't in the text.
fn caret_place(sequence: &Sequence, caret: &Option<OpId>) -> Option<usize>
    ensures { MatchOption result (IsUnknown sequence.now.elements caret.now)
        (λ before. CaretAt sequence.now.elements caret.now before × (before ≤ length sequence.now.elements)) }
{
    match caret {
        None => Some(0),
        Some(id) => place_behind(sequence, *id),
    }
}

/// The character behind which a writer inserts whose caret stands behind this one, or at the start of the text: the
/// last of the hidden characters there behind which a mark ends, if there is one, so that what is typed behind a link
/// whose last characters were removed isn't part of it; else the caret's own.
pub fn insert_parent(
    alloc: Global,
    sequence: &Sequence,
    marks: &Marks,
    caret: Option<OpId>,
) -> Result<Option<OpId>, AllocError>
    ensures { IfOk result (λ parent. IsParent sequence.now.elements marks.now caret parent) }
{
    let Some(before) = caret_place(sequence, &caret) else {
        return Ok(caret);
    };
    let place = place_from(alloc, sequence, marks, before)?;
    Ok(parent_at(sequence, place))
}
