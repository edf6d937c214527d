ghost use Rattle.std.specs.Prelude.{◌≤◌, ◌++◌, List, IfOk};
ghost use Rattle.change_ops.specs.Lines.{ops_of_lines};
ghost use Rattle.change_ops.specs.declared.operation.Op.{Op};
ghost use Rattle.mark_places.specs.Places.{AreMarkPlaces};
ghost use Rattle.span_flatten.specs.Version.{IsVersion, spans_of};
ghost use Rattle.version_pieces.specs.Alike.{AreAlike};
ghost use Rattle.version_windows.specs.Step.{IsStep};

use crate::touched::touched;
use crate::windows::windows_of;
use change_ops::line::Line;
use char_sequence::sequence::Sequence;
use mark_anchors::marks::Marks;
use mark_places::places::MarkPlaces;
use memory_budget::Budget;
use std::alloc::{AllocError, Global};
use version_pieces::laws::windows_are_version;
use version_pieces::version::{NextVersion, PieceVersion};

/// The version after a change, from the one before it: what the change touches is laid out anew, each range of places
/// alone, and the pieces that it doesn't touch are shared. What isn't there yet is paid for from the budget. With the
/// version comes how many spans stand as they stood.
pub fn next_version(
    alloc: Global,
    previous: &PieceVersion,
    before: &Sequence,
    sequence: &Sequence,
    marks: &Marks,
    places: &MarkPlaces,
    lines: &[Line],
    number: u64,
    budget: &mut Budget,
) -> Result<NextVersion, AllocError>
    requires step { (ops : List Op)
        × IsStep ops previous.now before.now.elements sequence.now marks.now lines.now }
    requires places { AreMarkPlaces sequence.now.elements marks.now places.now }
    ensures is { IfOk result (λ next. (ops : List Op)
        → IsStep ops previous.now before.now.elements sequence.now marks.now lines.now
        → IsVersion (ops ++ ops_of_lines lines.now) number next.version) }
    ensures alike { IfOk result (λ next. AreAlike (spans_of previous.now) (spans_of next.version)
        next.alike.front next.alike.behind) }
    ensures paid { budget.new ≤ budget.old }
{
    let ranges = touched(alloc, sequence, lines)?;
    let ranges = ranges.as_slice();
    let windows = windows_of(
        alloc, previous, before, sequence, marks, places, ranges, budget,
    )?;
    // The spans of the version before are maximal and the visible text is bounded, which the proof needs.
    previous.keeps();
    let _count = sequence.len();
    let next = previous.with_windows(alloc, number, windows.as_slice(), budget)?;
    // The windows make the version of all operations, which the proof needs.
    windows_are_version(previous, &next.version);
    Ok(next)
}
