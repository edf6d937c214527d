//! Those of the marks that decide the formats between two places.
ghost use Rattle.std.specs.Prelude.{◌≡◌, ◌≤◌, ◌<◌, ◌++◌, ◌∷◌, [], ℕ, List, Contains, IfOk, OnOk, length};
ghost use Rattle.change_ops.specs.declared.id.OpId.{OpId};
ghost use Rattle.change_ops.specs.declared.operation.Op.{Op as TheOp};
ghost use Rattle.char_sequence.specs.declared.sequence.Element.{Element};
ghost use Rattle.char_sequence.specs.Order.{Shows, IsAt};
ghost use Rattle.mark_anchors.specs.Format.{IsFormat};
ghost use Rattle.mark_anchors.specs.Formatting.{Format};
ghost use Rattle.mark_anchors.specs.Marks.{AreMarks};
ghost use Rattle.mark_anchors.specs.Placed.{AreAllPlaced};
ghost use Rattle.mark_places.specs.Places.{AreMarkPlaces};
ghost use Rattle.mark_places.specs.Chosen.{AreChosen};
ghost use Rattle.mark_places.specs.Floors.{numbered};
ghost use Rattle.mark_places.specs.PlaceRanges.{AreApart};
ghost use Rattle.mark_places.specs.declared.range.PlaceRange.{PlaceRange as TheRange};

use crate::floors::Floors;
use crate::places::MarkPlaces;
use crate::range::{PlaceRange, hull};
use change_ops::operation::Op;
use char_sequence::sequence::Sequence;
use mark_anchors::placed::PlacedMark;
use mark_anchors::resolved::{ResolvedMarks, resolve_placed};
use std::alloc::{AllocError, Global};
use std::marker::Model;

/// Marks that decide the formats between two places, each with the places that it covers.
#[derive(Drop)]
pub struct ChosenMarks {
    operations: Vec<Op>,
    marks: Vec<PlacedMark>,
}

impl Model for ChosenMarks {
    ghost use Rattle.mark_places.specs.Chosen.{ChosenMarks as ChosenMarksValue};

    ghost Value = { ChosenMarksValue };

    ghost view = { λ c. record { operations = c.operations.items; marks = c.marks.items } };
}

impl MarkPlaces {
    /// Chooses those of the marks that decide the formats of the characters at the places of the ranges.
    ///
    /// `operations` are all marks; `alloc` is for the copies of those that are chosen.
    pub fn choose(
        &self,
        alloc: Global,
        operations: &[Op],
        ranges: &[PlaceRange],
    ) -> Result<ChosenMarks, AllocError>
        requires places { (es : List Element) × AreMarkPlaces es operations.now self.now }
        requires apart { (end : ℕ) × AreApart ranges.now 0 end }
        ensures placed { IfOk result (λ chosen. (es : List Element) → AreMarkPlaces es operations.now self.now
            → AreAllPlaced es chosen.operations chosen.marks) }
        ensures chosen { IfOk result (λ chosen. (es : List Element) → AreMarkPlaces es operations.now self.now
            → (range : TheRange) → Contains ranges.now range
            → AreChosen es range.low range.high operations.now chosen.operations) }
    {
        let Some(hull) = hull(ranges) else {
            return Ok(ChosenMarks {
                operations: Vec::new(alloc),
                marks: Vec::new(alloc),
            });
        };
        let marks = self.touching(alloc, ranges)?;
        let floors = Floors::of(&marks, hull.low, hull.high);
        let mut chosen = ChosenMarks::with_room(alloc, marks.len())?;
        for mark in &marks {
            if floors.keeps(mark) {
                chosen.push(mark, &operations[mark.index])?;
            }
        }
        Ok(chosen)
    }
}

impl ChosenMarks {
    /// None yet, with room for so many.
    fn with_room(alloc: Global, count: usize) -> Result<ChosenMarks, AllocError>
        ensures operations { IfOk result (λ chosen. chosen.operations ≡ []) }
        ensures marks { IfOk result (λ chosen. chosen.marks ≡ []) }
    {
        Ok(ChosenMarks {
            operations: Vec::with_capacity(alloc, count)?,
            marks: Vec::with_capacity(alloc, count)?,
        })
    }

    /// Adds a mark, numbered anew.
    fn push(&mut self, mark: &PlacedMark, operation: &Op) -> Result<(), AllocError>
        ensures operations { OnOk result (self.new.operations ≡ self.old.operations ++ operation.now ∷ []) }
        ensures marks { OnOk result (self.new.marks
            ≡ self.old.marks ++ numbered mark.now (length self.old.operations) ∷ []) }
    {
        let index = self.operations.len();
        self.operations.push(operation.clone()?)?;
        self.marks.push(PlacedMark { index, ..*mark })?;
        Ok(())
    }

    /// How many there are.
    pub fn count(&self) -> usize
        ensures { result ≡ length self.now.operations }
    {
        self.operations.len()
    }

    /// The marks with the places that they cover in the sequence.
    ///
    /// `alloc` is for the lists of the result.
    pub fn resolve<'a>(
        &'a self,
        alloc: Global,
        sequence: &'a Sequence,
    ) -> Result<ResolvedMarks<'a>, AllocError>
        requires text { (ops : List Op) × Shows sequence.now.elements ops × AreMarks ops self.now.operations }
        requires placed { AreAllPlaced sequence.now.elements self.now.operations self.now.marks }
        ensures elements { IfOk result (λ resolved. resolved.elements ≡ sequence.now.elements) }
        ensures marks { IfOk result (λ resolved. resolved.marks ≡ self.now.operations) }
    {
        let marks = Vec::from_slice(alloc, &self.marks)?;
        resolve_placed(alloc, sequence, &self.operations, marks)
    }
}

/// The law of chosen marks: a set of the same edits with these marks alone gives the characters between the two places
/// the formats that the whole set gives.
pub fn chosen_give_formats()
    ensures { (es : List Element) (ops marks chosen : List TheOp) (low high : ℕ) → Shows es ops → AreMarks ops marks
        → AreChosen es low high marks chosen
        → (others : List TheOp) × Shows es others × AreMarks others chosen
        × ((e : OpId) (place : ℕ) (f : Format) → IsAt es e place → low ≤ place → place < high
        → IsFormat others e f → IsFormat ops e f) }
{}
