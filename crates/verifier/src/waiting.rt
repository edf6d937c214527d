//! What is known before the slots to which jumps lead.
ghost use Rattle.std.specs.Prelude.{◌≡◌, ◌≢◌, ℕ, ◌<◌, ◌≤◌, length, Option, Some, None, IfOk};
ghost use Rattle.span_context.specs.declared.profile.Profile.{Profile as TheProfile};
ghost use Rattle.semantics.specs.State.{State};
ghost use Rattle.abstract_state.specs.Lent.{Lengths};
ghost use Rattle.tracked_state.specs.Tracked.{ContainsTracked, WithinTracked, beside};
ghost use Rattle.tracked_state.specs.Tracked.{TrackedSituation, IsTracked, IsTrackedIn};
ghost use Rattle.tracked_state.specs.Tracking.{after_tracked};
ghost use Rattle.verifier.specs.Waiting.{MarksBelow, MarksBelowIn, WaitBelow, as_tracked, unboxed, waiting_at};
ghost use Rattle.verifier.specs.Walk.{Keeps};
ghost use Rattle.verifier.specs.Awaited.{Waits, with_jump};
ghost use Rattle.verifier.specs.Decides.{either_way};
ghost use Rattle.verifier.specs.Decided.{WaitsFrom};
ghost use Rattle.verifier.specs.Arises.{Arises, ArisesAt, AllArise, IsTarget};
ghost use Rattle.semantics.specs.Step.{Program};

use abstract_state::state::AbsState;
use abstract_state::step::Flow;
use span_context::profile::Profile;
use std::alloc::{AllocError, Global};
use std::marker::Model;
use tracked_state::join::join_parts;
use tracked_state::state::TrackedState;
use value_marks::copies::Copies;

/// What waits at a slot. Only the state is boxed: a local state that owns its marks would be cleared at each call.
#[derive(Drop)]
pub struct Awaiting {
    state: Box<AbsState>,
    copies: Copies,
}

/// What is known before each slot to which a jump leads, from the jumps that were looked at.
#[derive(Drop)]
pub struct Waiting {
    alloc: Global,
    states: Vec<Option<Awaiting>>,
}

impl Model for Waiting {
    ghost use Rattle.verifier.specs.Waiting.{Waiting as WaitingValue};

    ghost Value = { WaitingValue };

    ghost view = { λ w. w.states.items };
}

/// One more state beside what waits already. Where nothing does, it is moved there.
fn join(
    alloc: Global,
    profile: Profile,
    waiting: Option<Awaiting>,
    state: Box<AbsState>,
    copies: &Copies,
) -> Result<Awaiting, AllocError>
    ensures kept { IfOk result (λ joined. (lengths : Lengths) (s : State) → WithinTracked (unboxed waiting) lengths s
        → ContainsTracked (as_tracked joined) lengths s) }
    ensures added { IfOk result (λ joined. (lengths : Lengths) (s : State)
        → ContainsTracked (beside state.value copies.now) lengths s → ContainsTracked (as_tracked joined) lengths s) }
    ensures below { (lent : TheProfile) (k : ℕ) → MarksBelowIn lent k (unboxed waiting)
        → MarksBelow lent k (beside state.value copies.now)
        → IfOk result (λ joined. MarksBelow lent k (as_tracked joined)) }
    ensures arises { (lent : TheProfile) (program : Program) (slot : ℕ) → IsTarget program slot
        → ArisesAt lent program slot (unboxed waiting) → Arises lent program slot state.value
        → IfOk result (λ joined. Arises lent program slot joined.state.value) }
    ensures rule { (o : Option TrackedSituation) (s : TrackedSituation) → IsTrackedIn (unboxed waiting) o
        → IsTracked (beside state.value copies.now) s
        → IfOk result (λ joined. IsTrackedIn (Some (as_tracked joined)) (either_way profile o (Some s))) }
{
    let Some(mut earlier) = waiting else {
        let copies = copies.copy(alloc)?;
        return Ok(Awaiting { state, copies });
    };
    join_parts(
        profile,
        &mut earlier.state,
        &mut earlier.copies,
        &state,
        copies,
    );
    Ok(earlier)
}

impl Waiting {
    /// Where the states that wait are allocated.
    pub fn alloc(&self) -> Global {
        self.alloc
    }

    /// Nothing waits at any of the `slots`.
    pub fn new(alloc: Global, slots: usize) -> Result<Waiting, AllocError>
        ensures size { IfOk result (λ waiting. length waiting ≡ slots) }
        ensures nothing { IfOk result (λ waiting. (slot : ℕ) → waiting_at waiting slot ≡ None) }
    {
        let mut states = Vec::with_capacity(alloc, slots)?;
        for _slot in 0..slots {
            states.push(None)?;
        }
        Ok(Waiting { alloc, states })
    }

    /// Joins what a jump to a slot leads there to what waits there.
    pub fn add(
        &mut self,
        profile: Profile,
        slot: usize,
        state: &AbsState,
        copies: &Copies,
    ) -> Result<(), AllocError>
        requires { slot < length self.old }
        ensures size { length self.new ≡ length self.old }
        ensures kept { IfOk result (λ _. Keeps self.old self.new) }
        ensures added { IfOk result (λ _. (lengths : Lengths) (s : State)
            → ContainsTracked (beside state.now copies.now) lengths s
            → WithinTracked (waiting_at self.new slot) lengths s) }
        ensures below { (lent : TheProfile) → WaitBelow lent self.old
            → MarksBelow lent slot (beside state.now copies.now) → IfOk result (λ _. WaitBelow lent self.new) }
        ensures arises { (lent : TheProfile) (program : Program) → AllArise lent program self.old
            → IsTarget program slot → Arises lent program slot state.now
            → IfOk result (λ _. AllArise lent program self.new) }
        ensures rule { (from : ℕ) (w : Waits) (s : TrackedSituation) → WaitsFrom from self.old w → from ≤ slot
            → IsTracked (beside state.now copies.now) s
            → IfOk result (λ _. WaitsFrom from self.new (with_jump profile slot (Some s) w)) }
    {
        let state = Box::new(self.alloc, *state)?;
        self.add_boxed(profile, slot, state, copies)
    }

    /// Joins a state to which a jump leads at a slot to what waits there.
    pub fn add_boxed(
        &mut self,
        profile: Profile,
        slot: usize,
        state: Box<AbsState>,
        copies: &Copies,
    ) -> Result<(), AllocError>
        requires { slot < length self.old }
        ensures size { length self.new ≡ length self.old }
        ensures kept { IfOk result (λ _. Keeps self.old self.new) }
        ensures added { IfOk result (λ _. (lengths : Lengths) (s : State)
            → ContainsTracked (beside state.value copies.now) lengths s
            → WithinTracked (waiting_at self.new slot) lengths s) }
        ensures below { (lent : TheProfile) → WaitBelow lent self.old
            → MarksBelow lent slot (beside state.value copies.now) → IfOk result (λ _. WaitBelow lent self.new) }
        ensures arises { (lent : TheProfile) (program : Program) → AllArise lent program self.old
            → IsTarget program slot → Arises lent program slot state.value
            → IfOk result (λ _. AllArise lent program self.new) }
        ensures rule { (from : ℕ) (w : Waits) (s : TrackedSituation) → WaitsFrom from self.old w → from ≤ slot
            → IsTracked (beside state.value copies.now) s
            → IfOk result (λ _. WaitsFrom from self.new (with_jump profile slot (Some s) w)) }
    {
        let joined = join(self.alloc, profile, self.states[slot].take(), state, copies)?;
        self.states[slot] = Some(joined);
        Ok(())
    }

    /// Takes what waits at a slot, and joins it to what falls into the slot.
    pub fn arrive(
        &mut self,
        profile: Profile,
        slot: usize,
        flow: Flow,
        state: &mut TrackedState,
    ) -> Flow
        requires { slot < length self.old }
        ensures size { length self.new ≡ length self.old }
        ensures falls { (lengths : Lengths) (s : State) → WithinTracked (after_tracked flow state.old) lengths s
            → WithinTracked (after_tracked result state.new) lengths s }
        ensures arrives { (lengths : Lengths) (s : State) → WithinTracked (waiting_at self.old slot) lengths s
            → WithinTracked (after_tracked result state.new) lengths s }
        ensures others { (other : ℕ) → other ≢ slot → waiting_at self.new other ≡ waiting_at self.old other }
        ensures alone { waiting_at self.old slot ≡ None
            → after_tracked result state.new ≡ after_tracked flow state.old }
        ensures taken { waiting_at self.new slot ≡ None }
        ensures waits_below { (lent : TheProfile) → WaitBelow lent self.old → WaitBelow lent self.new }
        ensures below { (lent : TheProfile) → WaitBelow lent self.old
            → MarksBelowIn lent slot (after_tracked flow state.old)
            → MarksBelowIn lent slot (after_tracked result state.new) }
        ensures waits { (lent : TheProfile) (program : Program) → AllArise lent program self.old
            → AllArise lent program self.new }
        ensures arises { (lent : TheProfile) (program : Program) → AllArise lent program self.old
            → ArisesAt lent program slot (after_tracked flow state.old)
            → AllArise lent program self.new × ArisesAt lent program slot (after_tracked result state.new) }
        ensures rule { (falling here : Option TrackedSituation) → IsTrackedIn (after_tracked flow state.old) falling
            → IsTrackedIn (waiting_at self.old slot) here
            → IsTrackedIn (after_tracked result state.new) (either_way profile falling here) }
    {
        let Some(waiting) = self.states[slot].take() else {
            return flow;
        };
        let Awaiting {
            state: earlier,
            copies,
        } = waiting;
        let Flow::Live = flow else {
            state.state = *earlier;
            state.copies = copies;
            return Flow::Live;
        };
        join_parts(
            profile,
            &mut state.state,
            &mut state.copies,
            &earlier,
            &copies,
        );
        Flow::Live
    }
}
