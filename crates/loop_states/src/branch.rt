//! Comparisons: what is known on either edge.
ghost use Rattle.std.specs.Prelude.{◌≡◌, Bool, true, false, Option, IfOk};
ghost use Rattle.bpf_words.specs.declared.instruction.Comparison.{Comparison as TheComparison};
ghost use Rattle.tracked_state.specs.Tracked.{TrackedSituation, IsTrackedIn, tracked_of};
ghost use Rattle.tracked_state.specs.Tracking.{AnswersTrackedBranch};
ghost use Rattle.loop_states.specs.Contained.{EdgeInLoop};
ghost use Rattle.loop_states.specs.Rules.{AnswersEdge};
ghost use Rattle.loop_states.specs.Rules as rules;
ghost use Rattle.loop_states.specs.Sharper.{sharper_in};

use crate::across::tell_across;
use crate::sharper::{Sharper, sharper_edge};
use bpf_words::instruction::{Comparison, Operand, Width};
use bpf_words::register::Register;
use std::alloc::Global;
use tracked_state::branch::TrackedEdges;
use tracked_state::state::TrackedState;
use tracked_state::stop::Stop;

/// An edge by what is known of the sides beside the comparison.
fn edge_along(
    state: &TrackedState,
    alloc: Global,
    width: Width,
    sharper: Sharper,
    left: Register,
    right: &Operand,
    edge: Option<TrackedState>,
) -> Result<Option<TrackedState>, Stop>
    ensures rule { (was : Option TrackedSituation) → IsTrackedIn edge was
        → AnswersEdge (rules.edge_along width left right.now (tracked_of state.now) sharper was) result }
    ensures sound { (comparison : TheComparison) (taken : Bool)
        → sharper ≡ sharper_in width comparison left right.now taken (tracked_of state.now)
        → EdgeInLoop state.now width comparison left right.now taken edge
        → IfOk result (EdgeInLoop state.now width comparison left right.now taken) }
{
    match sharper {
        Sharper::Same => Ok(edge),
        Sharper::Never => Ok(None),
        Sharper::Where(comparison) => {
            let edges = state.branch(alloc, width, comparison, left, right)?;
            Ok(edges.taken)
        }
    }
}

/// The states after a comparison that holds, and after one that doesn't. Where one side is known to be ahead of the
/// other, the comparison tells more. What it tells of a number it tells of the addresses with that offset too.
pub fn branch(
    state: &TrackedState,
    alloc: Global,
    width: Width,
    comparison: Comparison,
    left: Register,
    right: &Operand,
) -> Result<TrackedEdges, Stop>
    ensures rule { AnswersTrackedBranch (rules.branched width comparison left right.now (tracked_of state.now)) result }
    ensures taken { IfOk result (λ edges. EdgeInLoop state.now width comparison left right.now true edges.taken) }
    ensures untaken { IfOk result (λ edges. EdgeInLoop state.now width comparison left right.now false edges.untaken) }
{
    let edges = state.branch(alloc, width, comparison, left, right)?;
    let taken = edge_along(
        state,
        alloc,
        width,
        sharper_edge(state, width, comparison, left, right, true),
        left,
        right,
        edges.taken,
    )?;
    let untaken = edge_along(
        state,
        alloc,
        width,
        sharper_edge(state, width, comparison, left, right, false),
        left,
        right,
        edges.untaken,
    )?;
    Ok(TrackedEdges {
        taken: tell_across(&state.copies, taken, left, right),
        untaken: tell_across(&state.copies, untaken, left, right),
    })
}
