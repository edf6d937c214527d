//! What either of two states contains.
ghost use Rattle.std.specs.Prelude.{◌≡◌, ℕ, ◌<◌, min, None};
ghost use Rattle.semantics.specs.State.{State};
ghost use Rattle.abstract_state.specs.Lent.{Lengths, bound_of};
ghost use Rattle.abstract_state.specs.declared.region.Region.{Region};
ghost use Rattle.abstract_state.specs.Kinds.{JoinsReg, JoinsSlot};
ghost use Rattle.abstract_state.specs.State.{register_at, slot_at};
ghost use Rattle.abstract_state.specs.Situation.{IsSituation, situation_of};
ghost use Rattle.abstract_state.specs.Situation as alone;
ghost use Rattle.value_marks.specs.Copies.{LieBelow, kept};
ghost use Rattle.tracked_state.specs.Tracked.{ContainsTracked, IsTracked, beside, tracked_of};
ghost use Rattle.tracked_state.specs.Rules as rules;

use crate::state::TrackedState;
use abstract_state::state::AbsState;
use span_context::profile::Profile;
use value_marks::copies::Copies;

/// Takes in what another state contains, part by part: of the copies, those that both have.
pub fn join_parts(
    profile: Profile,
    state: &mut AbsState,
    copies: &mut Copies,
    other: &AbsState,
    others: &Copies,
)
    ensures left { (lengths : Lengths) (s : State) → ContainsTracked (beside state.old copies.old) lengths s
        → ContainsTracked (beside state.new copies.new) lengths s }
    ensures right { (lengths : Lengths) (s : State) → ContainsTracked (beside other.now others.now) lengths s
        → ContainsTracked (beside state.new copies.new) lengths s }
    ensures below { (k : ℕ) → LieBelow k (kept copies.old) → LieBelow k (kept copies.new) }
    ensures kinds { (i : ℕ) → i < 11 → JoinsReg (register_at state.old.registers i)
        (register_at other.now.registers i) (register_at state.new.registers i) }
    ensures slots { (i : ℕ) → i < 64 → JoinsSlot (slot_at state.old.stack i) (slot_at other.now.stack i)
        (slot_at state.new.stack i) }
    ensures bounds { (region : Region) → bound_of state.new.bounds region
        ≡ min (bound_of state.old.bounds region) (bound_of other.now.bounds region) }
    ensures rule { IsTracked (beside state.new copies.new)
        (rules.joined profile (tracked_of (beside state.old copies.old)) (tracked_of (beside other.now others.now))) }
    ensures state { IsSituation state.new
        (alone.joined profile (situation_of state.old) (situation_of other.now)) }
    ensures untracked { kept copies.old ≡ None → kept copies.new ≡ None }
{
    state.join(profile, other);
    copies.join(others);
}

impl TrackedState {
    /// Takes in what another state contains: of the copies, those that both have.
    pub fn join(&mut self, profile: Profile, other: &TrackedState)
        ensures left { (lengths : Lengths) (s : State) → ContainsTracked self.old lengths s
            → ContainsTracked self.new lengths s }
        ensures right { (lengths : Lengths) (s : State) → ContainsTracked other.now lengths s
            → ContainsTracked self.new lengths s }
        ensures below { (k : ℕ) → LieBelow k (kept self.old.copies) → LieBelow k (kept self.new.copies) }
        ensures kinds { (i : ℕ) → i < 11 → JoinsReg (register_at self.old.state.registers i)
            (register_at other.now.state.registers i) (register_at self.new.state.registers i) }
        ensures slots { (i : ℕ) → i < 64 → JoinsSlot (slot_at self.old.state.stack i) (slot_at other.now.state.stack i)
            (slot_at self.new.state.stack i) }
        ensures bounds { (region : Region) → bound_of self.new.state.bounds region
            ≡ min (bound_of self.old.state.bounds region) (bound_of other.now.state.bounds region) }
        ensures rule { IsTracked self.new (rules.joined profile (tracked_of self.old) (tracked_of other.now)) }
        ensures state { IsSituation self.new.state
            (alone.joined profile (situation_of self.old.state) (situation_of other.now.state)) }
        ensures untracked { kept self.old.copies ≡ None → kept self.new.copies ≡ None }
    {
        join_parts(
            profile,
            &mut self.state,
            &mut self.copies,
            &other.state,
            &other.copies,
        );
    }
}
