//! The places at which marks begin and end, of those in a window.
ghost use Rattle.std.specs.Prelude.{IfOk};
ghost use Rattle.std.specs.List.Sorted.{IsStrictlyIncreasing};
ghost use Rattle.mark_anchors.specs.Resolution.{AreInWindow};

use crate::key_marks::{count_below, count_up_to};
use std::alloc::{AllocError, Global};

/// Those of the places that are behind `low` and before `high`, and `high` itself. There are none where `high` is not
/// behind `low`.
pub(crate) fn cuts_between(
    alloc: Global,
    places: &[usize],
    low: usize,
    high: usize,
) -> Result<Vec<usize>, AllocError>
    requires { IsStrictlyIncreasing places.now }
    ensures { IfOk result (λ cuts. AreInWindow places.now low high cuts.items) }
{
    if high <= low {
        return Ok(Vec::new(alloc));
    }
    let from = count_up_to(places, low);
    let to = count_below(places, high);
    let mut cuts = Vec::with_capacity(alloc, to - from + 1)?;
    cuts.extend_from_slice(&places[from..to])?;
    cuts.push(high)?;
    Ok(cuts)
}
