//! Instructions after which a run goes on at one slot of the program.
ghost use Rattle.std.specs.Prelude.{◌≡◌, ◌↔◌, ℕ, ◌<◌, None, IsOk, IfOk, IfErr, IfSome};
ghost use Rattle.bpf_words.specs.Flow.{read_by};
ghost use Rattle.abstract_state.specs.declared.known.Known.{Known};
ghost use Rattle.abstract_state.specs.Exact.{Fact};
ghost use Rattle.abstract_state.specs.Frame.{StoresSlots, SpillsSlot};
ghost use Rattle.abstract_state.specs.Guard.{Yields, Stores, Spills, Keeps, LeavesOthers, LeavesMemory};
ghost use Rattle.abstract_state.specs.Kinds.{ReadsNumbers, Carries};
ghost use Rattle.abstract_state.specs.Situation.{situation_of, AnswersStep};
ghost use Rattle.abstract_state.specs.Stepping.{stepped};
ghost use Rattle.abstract_state.specs.Steps.{MayStep, after};
ghost use Rattle.abstract_state.specs.Unset.{HasUnset};
ghost use Rattle.value_marks.specs.Copies.{LieBelow, kept};
ghost use Rattle.tracked_state.specs.Tracked.{tracked_of};
ghost use Rattle.tracked_state.specs.Tracking.{AnswersTrackedStep, StepsToTracked, after_tracked};
ghost use Rattle.tracked_state.specs.Rules as rules;

use crate::state::TrackedState;
use abstract_state::refusal::Refusal;
use abstract_state::step::Flow;
use bpf_words::instruction::Insn;
use span_context::profile::Profile;

impl TrackedState {
    /// Makes of what is known before an instruction that is no comparison what is known after it. A state that answers
    /// `Dead`, or a refusal, says nothing more.
    pub fn step(&mut self, profile: Profile, at: usize, insn: &Insn) -> Result<Flow, Refusal>
        requires { MayStep insn.now }
        ensures sound { LieBelow at (kept self.old.copies)
            → IfOk result (λ flow. StepsToTracked profile self.old insn.now (after_tracked flow self.new)) }
        ensures below { (k : ℕ) → at < k → LieBelow at (kept self.old.copies) → LieBelow k (kept self.new.copies) }
        ensures others { IfOk result (λ flow. IfSome (after flow self.new.state)
            (λ b. LeavesOthers self.old.state insn.now b)) }
        ensures memory { IfOk result (λ flow. IfSome (after flow self.new.state)
            (λ b. LeavesMemory self.old.state insn.now b)) }
        ensures yields { (d : ℕ) (fact : Fact) → Yields profile self.old.state insn.now d fact
            → Keeps result self.new.state d fact }
        ensures stores { (p count : ℕ) → Stores self.old.state insn.now p count
            → IsOk result
            × IfOk result (λ flow. IfSome (after flow self.new.state)
            (λ b. StoresSlots p count self.old.state.stack b.stack)) }
        ensures spills { (i : ℕ) (known : Known) → Spills self.old.state insn.now i known
            → IsOk result
            × IfOk result (λ flow. IfSome (after flow self.new.state)
            (λ b. SpillsSlot i known self.old.state.stack b.stack)) }
        ensures floor { ReadsNumbers self.old.state insn.now → IsOk result }
        ensures carries { ReadsNumbers self.old.state insn.now
            → IfOk result (λ flow. IfSome (after flow self.new.state) (λ b. Carries self.old.state insn.now b)) }
        ensures unset { IfErr result (λ e. (e ≡ Refusal.UnsetRegister) ↔ HasUnset self.old.state (read_by insn.now)) }
        ensures set { IfOk result (λ _. HasUnset self.old.state (read_by insn.now) → ⊥) }
        ensures rule { AnswersTrackedStep (rules.stepped profile at insn.now (tracked_of self.old)) result self.new }
        ensures state { AnswersStep (stepped profile insn.now (situation_of self.old.state)) result self.new.state }
        ensures untracked { kept self.old.copies ≡ None → kept self.new.copies ≡ None }
    {
        self.copies.follow(at, insn, &self.state);
        self.state.step(profile, insn)
    }
}
