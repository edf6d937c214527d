//! That the links of spans are links.
ghost use Rattle.std.specs.Prelude.{◌≡◌, ◌<◌, ◌≤◌, ℕ, Some, slice_get};
ghost use Rattle.format_runs.specs.Runs.{Run as TheRun};
ghost use Rattle.span_flatten.specs.Spans.{Span};
ghost use Rattle.span_flatten.specs.Version.{spans_of};
ghost use Rattle.version_pieces.specs.Links.{HasLink, IsLinked};

use crate::iter::formats_from;
use crate::version::PieceVersion;
use format_runs::run::Run;
use mark_anchors::format::Format;

/// The law that a format's link is one.
pub fn keeps_link(format: &Format)
    ensures { IsLinked format.now }
{
    if let Some(link) = format.link() {
        let _target = link.target();
    }
}

/// The law that the links of the runs' formats are links.
fn keep_each(runs: &[Run])
    ensures { (i : ℕ) (run : TheRun) → slice_get runs.now i ≡ Some run → IsLinked run.format }
{
    for run in runs {
        keeps_link(run.format());
    }
}

/// The law that the links of the spans from one on, up to another, are links. Each format is asked for its own, as its
/// run lies beside others, so that nothing is left of it in the executable but a step for each of these parts.
pub fn keep_links(version: &PieceVersion, from: usize, to: usize)
    ensures { (i : ℕ) (span : Span) → from ≤ i → i < to → slice_get (spans_of version.now) i ≡ Some span
        → HasLink span }
{
    let mut formats = formats_from(version, from);
    let mut left = to.saturating_sub(from);
    while left > 0 {
        let Some(part) = formats.next_part() else {
            return;
        };
        keep_each(part);
        left = left.saturating_sub(part.len());
    }
}
