//! Marks with their places, for the formats of a text's characters.
ghost use Rattle.std.specs.Prelude.{◌≡◌, ◌<◌, ◌≤◌, ◌↔◌, List, IfOk, IsTrue, length};
ghost use Rattle.change_ops.specs.declared.keys.TheConstants.{KEYS};
ghost use Rattle.char_sequence.specs.declared.sequence.Element.{Element};
ghost use Rattle.char_sequence.specs.Tree.{Present};
ghost use Rattle.char_sequence.specs.Order.{Shows};
ghost use Rattle.mark_anchors.specs.Format.{IsFormat};
ghost use Rattle.mark_anchors.specs.Marks.{AreMarks};
ghost use Rattle.mark_anchors.specs.Placed.{AreAllPlaced};
ghost use Rattle.mark_anchors.specs.CommentRuns.{numbers_at};
ghost use Rattle.mark_anchors.specs.Formatting.{Format};
ghost use Rattle.mark_anchors.specs.Resolution.{AreByRow, formatting_of};
ghost use Rattle.mark_anchors.specs.Ranges.{AreCuts, IsFormatAt};

use crate::comment_runs::comment_runs;
use crate::comment_table::{CommentTable, RunCounts};
use crate::comments::comment_marks;
use crate::cut_places::cuts_between;
use crate::decided::Decided;
use crate::format::Format;
use crate::format_sweep::FormatSweep;
use crate::key_marks::{KeyMarks, in_order, places_of};
use crate::marks::Marks;
use crate::placed::{PlacedMark, marks_by_row, marks_in, value_at};
use crate::values::Values;
use change_ops::id::OpId;
use change_ops::keys::KEYS;
use change_ops::operation::Op;
use char_sequence::sequence::Sequence;
use std::alloc::{AllocError, Global};
use std::marker::Model;

/// The marks of a text, each with the places that it covers: the format at a place takes no look-up by id.
#[derive(Drop)]
pub struct ResolvedMarks<'a> {
    sequence: &'a Sequence,
    operations: &'a [Op],
    /// At these places marks begin and end.
    places: Vec<usize>,
    /// Those of each key of one value.
    rows: Vec<KeyMarks>,
    comments: CommentTable,
}

impl<'a> Model for ResolvedMarks<'a> {
    ghost use Rattle.mark_anchors.specs.Resolution.{ResolvedMarks as ResolvedMarksValue, AreResolved};

    ghost Value = { ResolvedMarksValue };

    ghost view = { λ r. record { elements = r.sequence.now.elements; marks = r.operations.now; runs = r.comments } };

    ghost invariant = { λ r. AreResolved r.sequence.now.elements r.operations.now r.places.items r.rows.items
        r.comments };
}

/// Where the last look-up of each key ended: from there the next one begins.
#[derive(Clone, Copy)]
pub(crate) struct Near {
    rows: [usize; KEYS],
    comments: RunCounts,
}

impl Near {
    /// No look-up was made.
    pub(crate) fn start() -> Near {
        Near {
            rows: [0; KEYS],
            comments: RunCounts {
                begun: 0,
                ended: 0,
                cuts: 0,
            },
        }
    }
}

/// The marks of each key of one value, so that the one that decides at a place is found.
fn rows_of(alloc: Global, marks: &[PlacedMark]) -> Result<Vec<KeyMarks>, AllocError>
    ensures { IfOk result (λ rows. (es : List Element) (operations : List Op) → AreAllPlaced es operations marks.now
        → AreByRow es operations rows.items) }
{
    let mut rows = Vec::with_capacity(alloc, KEYS)?;
    for list in marks_by_row(alloc, marks)? {
        rows.push(KeyMarks::new(alloc, list)?)?;
    }
    Ok(rows)
}

/// Mark operations with the places that they cover in the sequence.
///
/// `alloc` is for the lists of the result.
pub fn resolve_placed<'a>(
    alloc: Global,
    sequence: &'a Sequence,
    operations: &'a [Op],
    marks: Vec<PlacedMark>,
) -> Result<ResolvedMarks<'a>, AllocError>
    requires text { (ops : List Op) × Shows sequence.now.elements ops × AreMarks ops operations.now }
    requires placed { AreAllPlaced sequence.now.elements operations.now marks.items }
    ensures elements { IfOk result (λ resolved. resolved.elements ≡ sequence.now.elements) }
    ensures marks { IfOk result (λ resolved. resolved.marks ≡ operations.now) }
{
    let runs = comment_runs(alloc, operations, &comment_marks(alloc, &marks)?)?;
    Ok(ResolvedMarks {
        sequence,
        operations,
        places: in_order(places_of(alloc, &marks)?)?,
        rows: rows_of(alloc, &marks)?,
        comments: CommentTable::new(alloc, runs)?,
    })
}

impl Marks {
    /// The marks with the places that they cover in the sequence.
    ///
    /// `alloc` is for the lists of the result.
    pub fn resolve<'a>(
        &'a self,
        alloc: Global,
        sequence: &'a Sequence,
    ) -> Result<ResolvedMarks<'a>, AllocError>
        requires { (ops : List Op) × Shows sequence.now.elements ops × AreMarks ops self.now }
        ensures elements { IfOk result (λ resolved. resolved.elements ≡ sequence.now.elements) }
        ensures marks { IfOk result (λ resolved. resolved.marks ≡ self.now) }
    {
        let operations = self.operations();
        let marks = marks_in(alloc, sequence, operations)?;
        resolve_placed(alloc, sequence, operations, marks)
    }

    /// The format of a character that is there.
    pub fn format_at(
        &self,
        alloc: Global,
        sequence: &Sequence,
        id: OpId,
    ) -> Result<Format, AllocError>
        requires { (ops : List Op) × Shows sequence.now.elements ops × AreMarks ops self.now × Present ops id }
        ensures { (ops : List Op) → Shows sequence.now.elements ops → AreMarks ops self.now
            → IfOk result (λ format. IsFormat ops id format) }
    {
        let resolved = self.resolve(alloc, sequence)?;
        let place = sequence.place_of(id).unwrap();
        resolved.format_at_place(place)
    }
}

impl ResolvedMarks<'_> {
    /// The places behind `low`, up to `high`, at which marks begin and end, and `high` itself. There are none where
    /// `high` is not behind `low`.
    ///
    /// `alloc` is for the places.
    pub fn cuts(&self, alloc: Global, low: usize, high: usize) -> Result<Vec<usize>, AllocError>
        ensures { IfOk result (λ cuts. AreCuts self.now.elements self.now.marks low high cuts.items) }
    {
        cuts_between(alloc, &self.places, low, high)
    }

    /// What holds of each key but comments at the place.
    pub(crate) fn decided_at(&self, place: usize, near: &mut Near) -> Decided<'_>
        ensures { IsFormatAt self.now.elements self.now.marks place
            (formatting_of result (numbers_at self.now.runs place)) }
    {
        let mut values = [None; KEYS];
        for row in 0..KEYS {
            let mut from = near.rows[row];
            values[row] = value_at(self.operations, &self.rows[row], place, &mut from);
            near.rows[row] = from;
        }
        Decided::new(values)
    }

    /// Whether the characters at the two places, of which this was decided, have one format. No format is made for it.
    pub(crate) fn is_alike(
        &self,
        one: &Decided<'_>,
        first: usize,
        other: &Decided<'_>,
        second: usize,
        near: &mut Near,
    ) -> bool
        requires order { first ≤ second }
        requires there { second < length self.now.elements }
        requires one { IsFormatAt self.now.elements self.now.marks first
            (formatting_of one.now (numbers_at self.now.runs first)) }
        requires other { IsFormatAt self.now.elements self.now.marks second
            (formatting_of other.now (numbers_at self.now.runs second)) }
        ensures { (format : Format) → IsFormatAt self.now.elements self.now.marks first format
            → IsTrue result ↔ IsFormatAt self.now.elements self.now.marks second format }
    {
        one.is_same(other) && self.comments.is_alike(first, second, &mut near.comments)
    }

    /// The format of what was decided, with the comments at the place.
    pub(crate) fn format_of(
        &self,
        decided: &Decided<'_>,
        place: usize,
        near: &mut Near,
    ) -> Result<Format, AllocError>
        ensures { IfOk result (λ format. format ≡ formatting_of decided.now (numbers_at self.now.runs place)) }
    {
        Ok(Format {
            values: Values::of(decided)?,
            comments: self.comments.at(place, &mut near.comments)?,
        })
    }

    /// The format of the character at the place, which counts hidden characters too.
    pub fn format_at_place(&self, place: usize) -> Result<Format, AllocError>
        requires { place < length self.now.elements }
        ensures { IfOk result (λ format. IsFormatAt self.now.elements self.now.marks place format) }
    {
        let mut near = Near::start();
        let decided = self.decided_at(place, &mut near);
        self.format_of(&decided, place, &mut near)
    }

    /// The formats of the characters, from the first on.
    pub fn sweep(&self) -> FormatSweep<'_>
        ensures resolution { result.resolution ≡ self.now }
        ensures start { result.place ≡ 0 }
    {
        self.sweep_from(0)
    }

    /// The formats of the characters, from a place on.
    pub fn sweep_from(&self, place: usize) -> FormatSweep<'_>
        ensures resolution { result.resolution ≡ self.now }
        ensures start { result.place ≡ place }
    {
        let mut near = Near::start();
        let decided = self.decided_at(place, &mut near);
        FormatSweep {
            resolved: self,
            place,
            decided,
            near,
        }
    }
}
