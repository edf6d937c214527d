//! The marks of one key, painted over the places at which they begin and end, from the greatest id down: the first that
//! comes to a place is the one that decides there, so each place is painted once.
ghost use Rattle.std.specs.Prelude.{◌≡◌, ◌<◌, ◌≤◌, ◌+◌, ◌↔◌, ℕ, List, Some, Contains, IfOk, IsTrue, length, slice_get};
ghost use Rattle.std.specs.List.Sorted.{IsStrictlyIncreasing, IsPermutation};
ghost use Rattle.mark_anchors.specs.Placed.{IsBest};
ghost use Rattle.mark_anchors.specs.KeyMarks.{AreById, AreEnds, IsEndOf, IsCountBelow, IsCountUpTo, ArePainted};
ghost use Rattle.mark_anchors.specs.KeyMarks.{ArePaintedFrom};
ghost use Rattle.mark_anchors.specs.KeyMarks.{IsFree, AreJumps, AreJumpsOver, IsNextFree};
ghost use Rattle.mark_anchors.specs.declared.placed.PlacedMark.{PlacedMark};

use crate::placed::PlacedMark;
use std::alloc::{AllocError, Global};
use std::marker::Model;

/// The marks of a key, by rising ids; the places at which they begin and end; and for each of these the number of the
/// mark that decides from there on.
#[derive(Drop)]
pub(crate) struct KeyMarks {
    marks: Vec<PlacedMark>,
    places: Vec<usize>,
    numbers: Vec<Option<usize>>,
}

impl Model for KeyMarks {
    ghost use Rattle.std.specs.Prelude.{List};
    ghost use Rattle.mark_anchors.specs.KeyMarks.{AreOver};
    ghost use Rattle.mark_anchors.specs.declared.placed.PlacedMark.{PlacedMark};

    ghost Value = { List PlacedMark };

    ghost view = { λ k. k.marks.items };

    ghost invariant = { λ k. AreOver k.marks.items k.places.items k.numbers.items };
}

/// The marks by rising ids.
fn by_id(mut marks: Vec<PlacedMark>) -> Vec<PlacedMark>
    ensures rising { AreById result.items }
    ensures same { IsPermutation marks.items result.items }
{
    marks.sort_unstable_by_key(|mark| mark.id);
    marks
}

/// How many of the places are before this one.
pub(crate) fn count_below(places: &[usize], place: usize) -> usize
    requires { IsStrictlyIncreasing places.now }
    ensures below { IsCountBelow places.now place result }
    ensures within { result ≤ length places.now }
{
    match places.binary_search(&place) {
        Ok(count) => count,
        Err(count) => count,
    }
}

/// Whether `count` of the places are before this one.
fn is_count_below(places: &[usize], count: usize, place: usize) -> bool
    requires { IsStrictlyIncreasing places.now }
    ensures below { IsTrue result → IsCountBelow places.now place count }
    ensures within { IsTrue result → count ≤ length places.now }
{
    count <= places.len()
        && (count == 0 || places[count - 1] < place)
        && (count == places.len() || place <= places[count])
}

/// How many of the places are before this one. What was found for another one, `near`, is tried first.
pub(crate) fn count_below_near(places: &[usize], place: usize, near: usize) -> usize
    requires { IsStrictlyIncreasing places.now }
    ensures below { IsCountBelow places.now place result }
    ensures within { result ≤ length places.now }
{
    if is_count_below(places, near, place) {
        return near;
    }
    count_below(places, place)
}

/// The jumps over the indices of places none of which is painted: each to itself, and one behind all.
fn jumps_over(alloc: Global, places: &[usize]) -> Result<Vec<usize>, AllocError>
    ensures sized { IfOk result (λ jumps. length jumps.items ≡ length places.now + 1) }
    ensures free { IfOk result (λ jumps. (j : ℕ) → j < length jumps.items → IsFree jumps.items j) }
{
    (0..places.len() + 1).collect(alloc)
}

/// The first index from `from` on of a place that isn't painted yet, or the one behind all. The path there is halved
/// (Tarjan and van Leeuwen, 1984: path halving), so that a call takes at most a logarithmic number of steps, amortized.
fn next_free(jumps: &mut Vec<usize>, from: usize) -> usize
    requires jumps { AreJumps jumps.old.items }
    requires within { from < length jumps.old.items }
    ensures jumps { AreJumps jumps.new.items }
    ensures sized { length jumps.new.items ≡ length jumps.old.items }
    ensures same { (j : ℕ) → IsFree jumps.old.items j ↔ IsFree jumps.new.items j }
    ensures free { IsNextFree jumps.old.items from result }
{
    let mut index = from;
    while jumps[index] != index {
        let next = jumps[jumps[index]];
        jumps[index] = next;
        index = next;
    }
    index
}

/// Puts the mark of this number at those of the places that it covers at which no mark is yet.
fn paint(
    places: &[usize],
    jumps: &mut Vec<usize>,
    numbers: &mut Vec<Option<usize>>,
    mark: &PlacedMark,
    number: usize,
)
    requires rising { IsStrictlyIncreasing places.now }
    requires sized { length numbers.old.items ≡ length places.now }
    requires over { AreJumpsOver jumps.old.items numbers.old.items }
    ensures sized { length numbers.new.items ≡ length places.now }
    ensures over { AreJumpsOver jumps.new.items numbers.new.items }
    ensures painted { (marks : List PlacedMark) → slice_get marks number ≡ Some mark.now
        → ArePaintedFrom places.now marks (number + 1) numbers.old.items
        → ArePaintedFrom places.now marks number numbers.new.items }
{
    let from = count_below(places, mark.start);
    let to = count_below(places, mark.end);
    let mut index = next_free(jumps, from);
    while index < to {
        numbers[index] = Some(number);
        jumps[index] = index + 1;
        index = next_free(jumps, index + 1);
    }
}

/// How many of the places are at this one or before it.
pub(crate) fn count_up_to(places: &[usize], place: usize) -> usize
    requires { IsStrictlyIncreasing places.now }
    ensures up_to { IsCountUpTo places.now place result }
    ensures within { result ≤ length places.now }
{
    match places.binary_search(&place) {
        Ok(last) => last + 1,
        Err(count) => count,
    }
}

/// Whether `count` of the places are at this one or before it.
fn is_count_up_to(places: &[usize], count: usize, place: usize) -> bool
    requires { IsStrictlyIncreasing places.now }
    ensures up_to { IsTrue result → IsCountUpTo places.now place count }
    ensures within { IsTrue result → count ≤ length places.now }
{
    count <= places.len()
        && (count == 0 || places[count - 1] <= place)
        && (count == places.len() || place < places[count])
}

/// How many of the places are at this one or before it. What was found last, `near`, and one more are tried first, as
/// places are mostly looked up in their order.
pub(crate) fn count_near(places: &[usize], place: usize, near: &mut usize) -> usize
    requires { IsStrictlyIncreasing places.now }
    ensures up_to { IsCountUpTo places.now place result }
    ensures within { result ≤ length places.now }
{
    if !is_count_up_to(places, *near, place) {
        let next = near.saturating_add(1);
        *near = if is_count_up_to(places, next, place) {
            next
        } else {
            count_up_to(places, place)
        };
    }
    *near
}

/// The places, rising, each once. A stable sort is cheap where some of them stand in order already.
pub(crate) fn in_order(mut places: Vec<usize>) -> Result<Vec<usize>, AllocError>
    ensures rising { IfOk result (λ all. IsStrictlyIncreasing all.items) }
    ensures members { IfOk result (λ all. (c : ℕ) → Contains all.items c ↔ Contains places.items c) }
{
    places.sort()?;
    places.dedup();
    Ok(places)
}

/// The places at which the marks begin, and behind them those at which they end.
pub(crate) fn places_of(alloc: Global, marks: &[PlacedMark]) -> Result<Vec<usize>, AllocError>
    ensures begins { IfOk result (λ places. (m : PlacedMark) → Contains marks.now m → Contains places.items m.start) }
    ensures ends { IfOk result (λ places. (m : PlacedMark) → Contains marks.now m → Contains places.items m.end) }
    ensures no_other { IfOk result (λ places. (c : ℕ) → Contains places.items c → IsEndOf marks.now c) }
{
    let mut places = Vec::with_capacity(alloc, 2 * marks.len())?;
    for mark in marks {
        places.push(mark.start)?;
    }
    for mark in marks {
        places.push(mark.end)?;
    }
    Ok(places)
}

/// For each of the places the number of the mark that decides there.
fn painted(
    alloc: Global,
    places: &[usize],
    marks: &[PlacedMark],
) -> Result<Vec<Option<usize>>, AllocError>
    requires rising { IsStrictlyIncreasing places.now }
    requires sorted { AreById marks.now }
    ensures { IfOk result (λ numbers. ArePainted places.now marks.now (length marks.now) numbers.items) }
{
    let mut numbers = vec![in alloc; None; places.len()]?;
    let mut jumps = jumps_over(alloc, places)?;
    for number in (0..marks.len()).rev() {
        paint(places, &mut jumps, &mut numbers, &marks[number], number);
    }
    Ok(numbers)
}

impl KeyMarks {
    /// The marks, in whatever order they come.
    pub(crate) fn new(alloc: Global, marks: Vec<PlacedMark>) -> Result<KeyMarks, AllocError>
        ensures { IfOk result (λ key_marks. IsPermutation marks.items key_marks) }
    {
        let marks = by_id(marks);
        let places = in_order(places_of(alloc, &marks)?)?;
        let numbers = painted(alloc, &places, &marks)?;
        Ok(KeyMarks {
            marks,
            places,
            numbers,
        })
    }

    /// The places at which the marks begin and end.
    pub(crate) fn places(&self) -> &[usize]
        ensures { AreEnds self.now result.now }
    {
        &self.places
    }

    /// The mark with the greatest id among those that cover the place. `near` is where the last look-up ended.
    pub(crate) fn deciding(&self, place: usize, near: &mut usize) -> Option<PlacedMark>
        ensures { IsBest self.now place (length self.now) result }
    {
        if self.marks.is_empty() {
            return None;
        }
        let count = count_near(&self.places, place, near);
        if count == 0 {
            return None;
        }
        let number = self.numbers[count - 1]?;
        self.marks.get(number).copied()
    }
}
