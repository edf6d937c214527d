//! Marks with the places that they cover, so that no look-up by id is left.
ghost use Rattle.std.specs.Prelude.{◌≡◌, ◌<◌, ◌↔◌, ℕ, true, List, Some, Contains, IfOk, IfSome, IsTrue, length};
ghost use Rattle.std.specs.Prelude.{slice_get};
ghost use Rattle.std.specs.Option.{option_copied};
ghost use Rattle.change_ops.specs.Ids.{Less};
ghost use Rattle.change_ops.specs.Keys.{type_of_row};
ghost use Rattle.change_ops.specs.Operations.{AnchorNames, is_mark, key_of};
ghost use Rattle.change_ops.specs.Reading.{valued};
ghost use Rattle.change_ops.specs.Values.{is_of_type};
ghost use Rattle.change_ops.specs.declared.value.Value.{Value as ValueOf};
ghost use Rattle.char_sequence.specs.declared.sequence.Element.{Element};
ghost use Rattle.char_sequence.specs.Tree.{Present};
ghost use Rattle.char_sequence.specs.Order.{Shows, IsAt};
ghost use Rattle.mark_anchors.specs.Format.{Bears};
ghost use Rattle.mark_anchors.specs.Marks.{AreMarks};
ghost use Rattle.mark_anchors.specs.Places.{IsBoundary};
ghost use Rattle.mark_anchors.specs.Placed.{IsPlaced, AreAllPlaced, ArePlaced, IsBest, IsValue};
ghost use Rattle.mark_anchors.specs.Placed.{AreFirstByRow, AreUnfilled};

use crate::key_marks::KeyMarks;
use crate::mark_range::mark_range;
use change_ops::attribute::{Attribute, Key};
use change_ops::id::OpId;
use change_ops::keys::KEYS;
use change_ops::operation::{Anchor, Op};
use change_ops::value::Value;
use char_sequence::place_table::PlaceTable;
use char_sequence::sequence::Sequence;
use std::alloc::{AllocError, Global};

/// A mark operation, by its index, with its key and the places that it covers: from `start` up to `end`, which is not
/// one of them.
#[derive(Clone, Copy)]
pub struct PlacedMark {
    pub index: usize,
    pub id: OpId,
    pub key: Key,
    pub start: usize,
    pub end: usize,
}

/// The place of a character that is there.
fn place_of(places: &PlaceTable<'_>, id: OpId) -> usize
    requires { (ops : List Op) × Shows places.now ops × Present ops id }
    ensures { IsAt places.now id result }
{
    places.place_of(id).unwrap()
}

/// The number of characters, hidden ones too, before the anchor.
pub(crate) fn boundary(places: &PlaceTable<'_>, anchor: Anchor) -> usize
    requires { (ops : List Op) × Shows places.now ops × ((x : OpId) → AnchorNames anchor x → Present ops x) }
    ensures { IsBoundary places.now anchor result }
{
    let count = places.len();
    match anchor {
        Anchor::TextStart => 0,
        Anchor::BeforeCharacter(id) => place_of(places, id),
        Anchor::AfterCharacter(id) => place_of(places, id) + 1,
        Anchor::TextEnd => count,
    }
}

/// The mark operation with its places.
fn placed_mark(places: &PlaceTable<'_>, operation: &Op, index: usize) -> PlacedMark
    requires mark { is_mark operation.now ≡ true }
    requires shown { (ops : List Op) × Shows places.now ops × Contains ops operation.now }
    ensures placed { IsPlaced places.now result.key operation.now result }
    ensures index { result.index ≡ index }
{
    let Some(range) = mark_range(operation) else {
        unreachable!();
    };
    PlacedMark {
        index,
        id: operation.id(),
        key: range.key,
        start: boundary(places, range.start),
        end: boundary(places, range.end),
    }
}

/// The mark operations with their places, each looked up once.
fn placed_marks(
    alloc: Global,
    places: &PlaceTable<'_>,
    operations: &[Op],
) -> Result<Vec<PlacedMark>, AllocError>
    requires { (ops : List Op) × Shows places.now ops × AreMarks ops operations.now }
    ensures { IfOk result (λ marks. AreAllPlaced places.now operations.now marks.items) }
{
    let mut marks = Vec::with_capacity(alloc, operations.len())?;
    for index in 0..operations.len() {
        marks.push(placed_mark(places, &operations[index], index))?;
    }
    Ok(marks)
}

/// The mark operations with their places in the text. Where there is none, no table of places is made.
pub(crate) fn marks_in(
    alloc: Global,
    sequence: &Sequence,
    operations: &[Op],
) -> Result<Vec<PlacedMark>, AllocError>
    requires { (ops : List Op) × Shows sequence.now.elements ops × AreMarks ops operations.now }
    ensures { IfOk result (λ marks. AreAllPlaced sequence.now.elements operations.now marks.items) }
{
    if operations.is_empty() {
        return Ok(Vec::new(alloc));
    }
    let places = sequence.place_table(alloc)?;
    placed_marks(alloc, &places, operations)
}

/// A list for each key of one value, of no mark yet.
fn empty_lists(alloc: Global) -> Result<Vec<Vec<PlacedMark>>, AllocError>
    ensures { IfOk result (λ lists. AreUnfilled lists.items) }
{
    let mut lists = Vec::with_capacity(alloc, KEYS)?;
    for _row in 0..KEYS {
        lists.push(Vec::new(alloc))?;
    }
    Ok(lists)
}

/// The marks of each key of one value, by row.
pub(crate) fn marks_by_row(
    alloc: Global,
    marks: &[PlacedMark],
) -> Result<Vec<Vec<PlacedMark>>, AllocError>
    ensures { IfOk result (λ lists. (es : List Element) (operations : List Op) → AreAllPlaced es operations marks.now
        → AreFirstByRow es operations (length operations) lists.items) }
{
    let mut lists = empty_lists(alloc)?;
    for mark in marks {
        if let Key::Row(row) = &mark.key {
            lists[row.row()].push(*mark)?;
        }
    }
    Ok(lists)
}

/// What the deciding mark adds at the place. `near`, here and below, is where the last look-up among these marks ended.
fn added_at<'a>(
    operations: &'a [Op],
    marks: &KeyMarks,
    place: usize,
    near: &mut usize,
) -> Option<&'a Attribute>
    requires { (i : ℕ) (p : PlacedMark) → slice_get marks.now i ≡ Some p → p.index < length operations.now }
    ensures value { (es : List Element) (ops : List Op) (key : Key) (e : OpId) → Shows es ops
        → AreMarks ops operations.now → ArePlaced es operations.now key marks.now → IsAt es e place
        → IsValue ops key e (option_copied result) }
    ensures of_key { (es : List Element) (key : Key) → ArePlaced es operations.now key marks.now
        → IfSome result (λ attribute. key_of attribute.now ≡ key) }
{
    let mark = marks.deciding(place, near)?;
    match &operations[mark.index] {
        Op::AddMark { attribute, .. } => Some(attribute),
        _ => None,
    }
}

/// Whether the marks' key holds at the place.
pub(crate) fn holds_at(operations: &[Op], marks: &KeyMarks, place: usize, near: &mut usize) -> bool
    requires { (i : ℕ) (p : PlacedMark) → slice_get marks.now i ≡ Some p → p.index < length operations.now }
    // The key has one attribute.
    ensures { (es : List Element) (ops : List Op) (a : Attribute) (e : OpId)
        → ((b : Attribute) → key_of b ≡ key_of a → b ≡ a) → Shows es ops → AreMarks ops operations.now
        → ArePlaced es operations.now (key_of a) marks.now → IsAt es e place → IsTrue result ↔ Bears ops e a }
{
    added_at(operations, marks, place, near).is_some()
}

/// The value of the marks' key at the place.
pub(crate) fn value_at<'a>(
    operations: &'a [Op],
    marks: &KeyMarks,
    place: usize,
    near: &mut usize,
) -> Option<&'a Value>
    requires { (i : ℕ) (p : PlacedMark) → slice_get marks.now i ≡ Some p → p.index < length operations.now }
    ensures bears { (es : List Element) (ops : List Op) (row : ℕ) (e : OpId) → Shows es ops
        → AreMarks ops operations.now → ArePlaced es operations.now (Key.Row row) marks.now → IsAt es e place
        → (value : ValueOf) → (option_copied result ≡ Some value) ↔ Bears ops e (valued row value) }
    ensures typed { (es : List Element) (row : ℕ) → ArePlaced es operations.now (Key.Row row) marks.now
        → IfSome result (λ value. IsTrue (is_of_type (type_of_row row) value.now)) }
{
    match added_at(operations, marks, place, near)? {
        Attribute::Row(valued) => Some(valued.value()),
        Attribute::Comment(_) => None,
    }
}
