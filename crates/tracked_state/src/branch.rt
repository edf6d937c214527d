//! Comparisons: what is known on either edge, with what their sides tell their copies.
ghost use Rattle.std.specs.Prelude.{◌≡◌, ◌≢◌, ◌↔◌, ℕ, ◌∷◌, ◌≤◌, true, false, Option, Some, None, Err};
ghost use Rattle.std.specs.Prelude.{IfOk, IfErr, IfSome, IsOk, option_map};
ghost use Rattle.bpf_words.specs.declared.instruction.Width.TheVariants.{Full};
ghost use Rattle.bpf_words.specs.Flow.{read_operand};
ghost use Rattle.semantics.specs.State.{State};
ghost use Rattle.abstract_state.specs.declared.address.LentAddress.{LentAddress};
ghost use Rattle.abstract_state.specs.declared.known.Known.TheVariants.{Lent};
ghost use Rattle.abstract_state.specs.declared.state.AbsReg.TheVariants.{Set};
ghost use Rattle.abstract_state.specs.declared.refusal.Refusal.{Refusal as TheRefusal};
ghost use Rattle.abstract_state.specs.Lent.{Lengths, bound_of, tail_of};
ghost use Rattle.abstract_state.specs.State.{WithinState, register_at};
ghost use Rattle.abstract_state.specs.Branch.{IsOrder, LeavesSides};
ghost use Rattle.abstract_state.specs.Guard.{LengthensMemory};
ghost use Rattle.abstract_state.specs.Kinds.{HasNumberAt, HasNumberIn};
ghost use Rattle.abstract_state.specs.Unset.{HasUnset};
ghost use Rattle.abstract_state.specs.Situation.{Situation, IsSituationIn, situation_of};
ghost use Rattle.abstract_state.specs.Edges.{branched, edge};
ghost use Rattle.abstract_state.specs.Steps.{after};
ghost use Rattle.value_marks.specs.Copies.{Bear, LieBelow, kept};
ghost use Rattle.tracked_state.specs.Tracked.{WithinTracked, LieBelowIn, IsTrackedIn, marking_in, tracked_of, state_in};
ghost use Rattle.tracked_state.specs.Tracked.{beside, with_copies};
ghost use Rattle.tracked_state.specs.Along.{GoesAlong, unboxed};
ghost use Rattle.tracked_state.specs.Learning.{LearnsFrom, LearnsSides, KeepsKinds};
ghost use Rattle.tracked_state.specs.Tracking.{TrackedEdge, AnswersTrackedBranch, after_tracked};
ghost use Rattle.tracked_state.specs.Rules as rules;

use crate::state::TrackedState;
use crate::stop::Stop;
use abstract_state::refusal::Refusal;
use abstract_state::state::AbsState;
use abstract_state::step::Flow;
use bpf_words::instruction::{Comparison, Operand, Width};
use bpf_words::register::Register;
use std::alloc::{AllocError, Global};
use value_marks::copies::Copies;

/// The states after a comparison, `None` where no run goes that way.
#[derive(Drop)]
pub struct TrackedEdges {
    pub taken: Option<TrackedState>,
    pub untaken: Option<TrackedState>,
}

/// Goes along an edge of a comparison in its place, part by part: what its sides learn they tell their copies.
fn go_along(
    state: &mut AbsState,
    copies: &Copies,
    width: Width,
    comparison: Comparison,
    left: Register,
    right: &Operand,
    taken: bool,
) -> Result<Flow, Refusal>
    ensures along { IfOk result (λ flow. GoesAlong (beside state.old copies.now) width comparison left right.now taken
        (with_copies (after flow state.new) copies.now)) }
    ensures regions { (r : ℕ) (p q : LentAddress) → right.now ≡ Operand.Source r → width ≡ Full → IsOrder comparison
        → register_at state.old.registers left ≡ Set (Lent p) → register_at state.old.registers r ≡ Set (Lent q)
        → p.region ≡ q.region → IsOk result }
    ensures floor { HasNumberAt state.old left → HasNumberIn state.old right.now → IsOk result }
    ensures unset { IfErr result (λ e. (e ≡ TheRefusal.UnsetRegister)
        ↔ HasUnset state.old (left ∷ read_operand right.now)) }
    ensures set { IfOk result (λ _. HasUnset state.old (left ∷ read_operand right.now) → ⊥) }
    ensures refuses { (refusal : TheRefusal) → result ≡ Err refusal
        → edge width comparison left right.now taken (situation_of state.old) ≡ Err refusal }
{
    match state.take_edge(width, comparison, left, right, taken)? {
        Flow::Live => Ok(copies.tell(state, left, right)),
        Flow::Dead => Ok(Flow::Dead),
    }
}

impl TrackedState {
    /// The edge of a comparison, with what the copies of its sides learn.
    fn tell_edge(
        &self,
        alloc: Global,
        edge: Option<AbsState>,
        left: Register,
        right: &Operand,
    ) -> Result<Option<TrackedState>, AllocError>
        ensures sound { IfOk result (λ told. (lengths : Lengths) (s : State) → Bear (kept self.now.copies) s
            → WithinState edge lengths s → WithinTracked told lengths s) }
        ensures below { (m k : ℕ) → m ≤ k → LieBelow m (kept self.now.copies) → IfOk result (LieBelowIn k) }
        ensures rule { IfOk result (λ told. (was : Option Situation) → IsSituationIn edge was
            → IsTrackedIn told (rules.told_edge left right.now (marking_in self.now) was)) }
        ensures learns { IfOk result (λ told. IfSome told (λ b. LearnsFrom edge b.state)) }
        ensures copies { IfOk result (λ told. IfSome told (λ b. kept b.copies ≡ kept self.now.copies)) }
        ensures untracked { kept self.now.copies ≡ None → IfOk result (λ told. state_in told ≡ edge) }
    {
        let Some(state) = self.copies.tell_edge(edge, left, right) else {
            return Ok(None);
        };
        let copies = self.copies.copy(alloc)?;
        Ok(Some(TrackedState { state, copies }))
    }

    /// Goes along the edge where the comparison holds, or along the other. The copies stay what they are.
    pub fn take_edge(
        &mut self,
        width: Width,
        comparison: Comparison,
        left: Register,
        right: &Operand,
        taken: bool,
    ) -> Result<Flow, Refusal>
        ensures along { IfOk result (λ flow. GoesAlong self.old width comparison left right.now taken
            (after_tracked flow self.new)) }
        ensures regions { (r : ℕ) (p q : LentAddress) → right.now ≡ Operand.Source r → width ≡ Full → IsOrder comparison
            → register_at self.old.state.registers left ≡ Set (Lent p)
            → register_at self.old.state.registers r ≡ Set (Lent q) → p.region ≡ q.region → IsOk result }
        ensures floor { HasNumberAt self.old.state left → HasNumberIn self.old.state right.now → IsOk result }
        ensures unset { IfErr result (λ e. (e ≡ TheRefusal.UnsetRegister)
            ↔ HasUnset self.old.state (left ∷ read_operand right.now)) }
        ensures set { IfOk result (λ _. HasUnset self.old.state (left ∷ read_operand right.now) → ⊥) }
        ensures refuses { (refusal : TheRefusal) → result ≡ Err refusal
            → edge width comparison left right.now taken (situation_of self.old.state) ≡ Err refusal }
    {
        go_along(
            &mut self.state,
            &self.copies,
            width,
            comparison,
            left,
            right,
            taken,
        )
    }

    /// The state on an edge of a comparison, boxed. It is filled in its place, and not made where the sides alone tell
    /// that no run goes there.
    pub fn edge(
        &self,
        alloc: Global,
        width: Width,
        comparison: Comparison,
        left: Register,
        right: &Operand,
        taken: bool,
    ) -> Result<Option<Box<AbsState>>, Stop>
        ensures along { IfOk result (λ edge. GoesAlong self.now width comparison left right.now taken
            (with_copies (unboxed edge) self.now.copies)) }
        ensures regions { (r : ℕ) (p q : LentAddress) → right.now ≡ Operand.Source r → width ≡ Full → IsOrder comparison
            → register_at self.now.state.registers left ≡ Set (Lent p)
            → register_at self.now.state.registers r ≡ Set (Lent q) → p.region ≡ q.region
            → IfErr result (λ stop. stop ≡ Stop.OutOfMemory) }
        ensures floor { HasNumberAt self.now.state left → HasNumberIn self.now.state right.now
            → IfErr result (λ stop. stop ≡ Stop.OutOfMemory) }
        ensures unset { (fault : TheRefusal) → result ≡ Err (Stop.Refused fault)
            → (fault ≡ TheRefusal.UnsetRegister) ↔ HasUnset self.now.state (left ∷ read_operand right.now) }
        ensures refuses { (fault : TheRefusal) → result ≡ Err (Stop.Refused fault)
            → edge width comparison left right.now taken (situation_of self.now.state) ≡ Err fault }
    {
        let dead = self
            .state
            .is_dead_edge(width, comparison, left, right, taken);
        if dead {
            return Ok(None);
        }
        let mut edge = Box::new(alloc, self.state)?;
        match go_along(
            &mut edge,
            &self.copies,
            width,
            comparison,
            left,
            right,
            taken,
        )? {
            Flow::Live => Ok(Some(edge)),
            Flow::Dead => Ok(None),
        }
    }

    /// The states after a comparison that holds, and after one that doesn't.
    pub fn branch(
        &self,
        alloc: Global,
        width: Width,
        comparison: Comparison,
        left: Register,
        right: &Operand,
    ) -> Result<TrackedEdges, Stop>
        ensures taken { IfOk result (λ edges. TrackedEdge self.now width comparison left right.now true edges.taken) }
        ensures untaken { IfOk result (λ edges. TrackedEdge self.now width comparison left right.now false
            edges.untaken) }
        ensures taken_below { (m k : ℕ) → m ≤ k → LieBelow m (kept self.now.copies)
            → IfOk result (λ edges. LieBelowIn k edges.taken) }
        ensures untaken_below { (m k : ℕ) → m ≤ k → LieBelow m (kept self.now.copies)
            → IfOk result (λ edges. LieBelowIn k edges.untaken) }
        ensures taken_copies { IfOk result (λ edges. IfSome edges.taken (λ b. kept b.copies ≡ kept self.now.copies)) }
        ensures untaken_copies { IfOk result (λ edges. IfSome edges.untaken
            (λ b. kept b.copies ≡ kept self.now.copies)) }
        ensures regions { (r : ℕ) (p q : LentAddress) → right.now ≡ Operand.Source r → width ≡ Full → IsOrder comparison
            → register_at self.now.state.registers left ≡ Set (Lent p)
            → register_at self.now.state.registers r ≡ Set (Lent q) → p.region ≡ q.region
            → IfErr result (λ stop. stop ≡ Stop.OutOfMemory) }
        ensures floor { HasNumberAt self.now.state left → HasNumberIn self.now.state right.now
            → IfErr result (λ stop. stop ≡ Stop.OutOfMemory) }
        ensures unset { (fault : TheRefusal) → result ≡ Err (Stop.Refused fault)
            → (fault ≡ TheRefusal.UnsetRegister) ↔ HasUnset self.now.state (left ∷ read_operand right.now) }
        ensures set { IfOk result (λ _. HasUnset self.now.state (left ∷ read_operand right.now) → ⊥) }
        ensures rule { AnswersTrackedBranch (rules.branched width comparison left right.now (tracked_of self.now))
            result }
        ensures taken_learns { IfOk result (λ edges. IfSome edges.taken
            (λ b. LearnsSides left right.now self.now.state b.state)) }
        ensures untaken_learns { IfOk result (λ edges. IfSome edges.untaken
            (λ b. LearnsSides left right.now self.now.state b.state)) }
        ensures taken_kinds { HasNumberAt self.now.state left → HasNumberIn self.now.state right.now
            → IfOk result (λ edges. IfSome edges.taken (λ b. KeepsKinds self.now.state b.state)) }
        ensures untaken_kinds { HasNumberAt self.now.state left → HasNumberIn self.now.state right.now
            → IfOk result (λ edges. IfSome edges.untaken (λ b. KeepsKinds self.now.state b.state)) }
        ensures guards { (r t : ℕ) (p q : LentAddress) → right.now ≡ Operand.Source r → left ≢ r → width ≡ Full
            → comparison ≡ Comparison.Greater → register_at self.now.state.registers left ≡ Set (Lent p)
            → register_at self.now.state.registers r ≡ Set (Lent q) → p.region ≡ q.region
            → tail_of q.offset.tails p.region ≡ Some t
            → IfOk result (λ edges. IfSome edges.untaken (λ b. p.offset.range.low ≤ bound_of b.state.bounds p.region)) }
        ensures taken_others { kept self.now.copies ≡ None → IfOk result (λ edges. IfSome edges.taken
            (λ b. LeavesSides left right.now self.now.state b.state)) }
        ensures untaken_others { kept self.now.copies ≡ None → IfOk result (λ edges. IfSome edges.untaken
            (λ b. LeavesSides left right.now self.now.state b.state)) }
        ensures taken_memory { kept self.now.copies ≡ None → IfOk result (λ edges. IfSome edges.taken
            (λ b. LengthensMemory self.now.state b.state)) }
        ensures untaken_memory { kept self.now.copies ≡ None → IfOk result (λ edges. IfSome edges.untaken
            (λ b. LengthensMemory self.now.state b.state)) }
    {
        let edges = self.state.branch(width, comparison, left, right)?;
        let taken = self.tell_edge(alloc, edges.taken, left, right)?;
        let untaken = self.tell_edge(alloc, edges.untaken, left, right)?;
        Ok(TrackedEdges { taken, untaken })
    }
}
