//! What is known before an instruction, with the copies among its values.
ghost use Rattle.std.specs.Prelude.{◌≡◌, ◌≢◌, ◌↔◌, ℕ, [], ◌∷◌, None, Ok, false, IsOk, IfOk, IfErr};
ghost use Rattle.semantics.specs.State.{State, start};
ghost use Rattle.semantics.specs.Step.{Returns};
ghost use Rattle.bpf_words.specs.declared.instruction.Insn.TheVariants.{Exit};
ghost use Rattle.span_context.specs.Profile.{has_more_rules};
ghost use Rattle.abstract_state.specs.State.{Span, lengths_of, does, register_at};
ghost use Rattle.abstract_state.specs.Kinds.{HasNumberAt, IsContextAt, IsStackAt};
ghost use Rattle.abstract_state.specs.Unset.{HasUnset};
ghost use Rattle.abstract_state.specs.declared.state.AbsReg.TheVariants.{Unset};
ghost use Rattle.abstract_state.specs.Situation.{situation_of, IsSituation};
ghost use Rattle.abstract_state.specs.Situation as alone;
ghost use Rattle.abstract_state.specs.Stepping.{exit};
ghost use Rattle.value_marks.specs.Copies.{AreMarking, LieBelow, kept};
ghost use Rattle.tracked_state.specs.Tracked.{ContainsTracked, IsTracked, tracked_of};
ghost use Rattle.tracked_state.specs.Rules as rules;

use abstract_state::refusal::Refusal;
use abstract_state::state::AbsState;
use span_context::profile::Profile;
use std::alloc::{AllocError, Global};
use value_marks::copies::Copies;

/// What is known before an instruction, with the copies among its values where they are followed.
#[derive(Drop)]
pub struct TrackedState {
    pub state: AbsState,
    pub copies: Copies,
}

/// The copies at the start of each run: none yet, followed by the rules that the first two profiles leave out.
fn first_copies(alloc: Global, profile: Profile) -> Result<Copies, AllocError>
    ensures rule { IfOk result (λ copies. AreMarking (kept copies) (rules.first_marking profile)) }
    ensures below { IfOk result (λ copies. LieBelow 0 (kept copies)) }
{
    if profile.has_more_rules() {
        return Copies::tracked(alloc);
    }
    Ok(Copies::untracked())
}

impl TrackedState {
    /// What is known at the start of each run.
    pub fn entry(alloc: Global, profile: Profile) -> Result<TrackedState, AllocError>
        ensures contains { IfOk result (λ a. (span : Span) → ContainsTracked a (lengths_of span) start) }
        ensures below { IfOk result (λ a. LieBelow 0 (kept a.copies)) }
        ensures context { IfOk result (λ a. IsContextAt 0 (register_at a.state.registers 1)) }
        ensures frame { IfOk result (λ a. IsStackAt 512 (register_at a.state.registers 10)) }
        ensures unset { IfOk result (λ a. (i : ℕ) → i ≢ 1 → i ≢ 10 → register_at a.state.registers i ≡ Unset) }
        ensures bounds { IfOk result (λ a. (a.state.bounds.text ≡ 0) × (a.state.bounds.link ≡ 0)) }
        ensures rule { IfOk result (λ a. IsTracked a (rules.entry profile)) }
        ensures state { IfOk result (λ a. IsSituation a.state alone.entry) }
        ensures untracked { has_more_rules profile ≡ false → IfOk result (λ a. kept a.copies ≡ None) }
    {
        let copies = first_copies(alloc, profile)?;
        Ok(TrackedState {
            state: AbsState::entry(),
            copies,
        })
    }

    /// The same once more.
    pub fn copy(&self, alloc: Global) -> Result<TrackedState, AllocError>
        ensures state { IfOk result (λ a. a.state ≡ self.now.state) }
        ensures copies { IfOk result (λ a. kept a.copies ≡ kept self.now.copies) }
    {
        let copies = self.copies.copy(alloc)?;
        Ok(TrackedState {
            state: self.state,
            copies,
        })
    }

    /// Checks that a run may end here.
    pub fn exit(&self) -> Result<(), Refusal>
        ensures sound { IfOk result (λ _. (span : Span) (s : State) → ContainsTracked self.now (lengths_of span) s
            → (v : ℕ) × (does span s Exit ≡ Ok (Returns v))) }
        ensures floor { HasNumberAt self.now.state 0 → IsOk result }
        ensures unset { IfErr result (λ e. (e ≡ Refusal.UnsetRegister) ↔ HasUnset self.now.state (0 ∷ [])) }
        ensures set { IfOk result (λ _. HasUnset self.now.state (0 ∷ []) → ⊥) }
        ensures rule { result ≡ rules.exit (tracked_of self.now) }
        ensures state { result ≡ exit (situation_of self.now.state) }
    {
        self.state.exit()
    }
}
