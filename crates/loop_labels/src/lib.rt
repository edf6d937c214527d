//! Labels of programs that may loop: what is known at a slot, and a potential, which bounds how many steps are left.
//! The laws on them are functions that do nothing: a call brings the law.
#![tactic(auto)]

ghost use Rattle.std.specs.Prelude.{◌≡◌, ◌≤◌, ℕ, List, sum_by};
ghost use Rattle.span_context.specs.Context.{SpanBytes};
ghost use Rattle.span_context.specs.declared.profile.Profile.{Profile};
ghost use Rattle.semantics.specs.declared.Outcome.TheVariants.{Done};
ghost use Rattle.semantics.specs.State.{start};
ghost use Rattle.semantics.specs.Step.{Program};
ghost use Rattle.semantics.specs.Outcomes.{outcome_from};
ghost use Rattle.semantics.specs.Safe.{IsSpanIn, Verdict};
ghost use Rattle.loop_labels.specs.Potential.{Bound, steps_within, most_steps, steps_within_all};
ghost use Rattle.loop_labels.specs.Bounded.{EndsWith, EndsWithin, NeverEnds};
ghost use Rattle.loop_labels.specs.Labels.{Label, AreInductive};
ghost use Rattle.loop_labels.specs.Rules.{Rules, AreSound, AreInductiveBy};
ghost use Rattle.loop_labels.specs.FirstSet.{first_rules, jumps_and_returns, first_labels};
ghost use Rattle.loop_labels.specs.Samples.{jumps_to_itself, counts_to_ten, is_below, counting_labels, at_most};

/// What may be known of the machine before an instruction.
pub trait Knowledge {
    /// Which states of the machine that means on what a profile lends, and what is known past an instruction.
    ghost rules: { Profile → Rules Self };

    /// These rules are right.
    ghost sound: { (profile : Profile) → AreSound profile (rules profile) };
}

/// Where labels are inductive, each run ends with a number, within the bound's steps.
pub fn inductive_labels_bound_runs<K: Knowledge>()
    ensures { (profile : Profile) (program : Program) (labels : List (Label K)) (bound : Bound)
        → AreInductive (K.rules profile).contains profile program labels bound → EndsWithin profile program bound }
{}

/// So it does where they are inductive by rules that are right.
pub fn rules_bound_runs<K: Knowledge>()
    ensures inductive { (profile : Profile) (program : Program) (labels : List (Label K)) (bound : Bound)
        → AreInductiveBy (K.rules profile) program labels bound
        → AreInductive (K.rules profile).contains profile program labels bound }
    ensures within { (profile : Profile) (program : Program) (labels : List (Label K)) (bound : Bound)
        → AreInductiveBy (K.rules profile) program labels bound → EndsWithin profile program bound }
{}

/// A program of which a run doesn't end has no inductive labels, and so a jump to itself has none.
pub fn endless_programs_have_no_labels<K: Knowledge>()
    ensures any { (profile : Profile) (program : Program) (bytes : SpanBytes) → IsSpanIn profile bytes
        → NeverEnds program bytes → (labels : List (Label K)) (bound : Bound)
        → AreInductive (K.rules profile).contains profile program labels bound → ⊥ }
    ensures jump { (profile : Profile) (labels : List (Label K)) (bound : Bound)
        → AreInductive (K.rules profile).contains profile jumps_to_itself labels bound → ⊥ }
{}

/// The number with which a run ends is a function of the span, whatever steps are left then, and is the verdict where
/// the program has one.
pub fn runs_end_once()
    ensures once { (program : Program) (bytes : SpanBytes) (first second : ℕ) → EndsWith program bytes first
        → EndsWith program bytes second → first ≡ second }
    ensures longer { (program : Program) (bytes : SpanBytes) (steps more value : ℕ)
        → outcome_from program bytes steps start ≡ Done value → steps ≤ more
        → outcome_from program bytes more start ≡ Done value }
    ensures verdict { (program : Program) (bytes : SpanBytes) (value : ℕ) → Verdict program bytes value
        → EndsWith program bytes value }
{}

/// What a bound allows on any span is at most so much, and on several spans together it follows from how many they are
/// and how long.
pub fn bounds_add_up()
    ensures most { (profile : Profile) (bound : Bound) (bytes : SpanBytes) → IsSpanIn profile bytes
        → steps_within bound bytes ≤ most_steps bound }
    ensures all { (bound : Bound) (spans : List SpanBytes)
        → sum_by (steps_within bound) spans ≡ steps_within_all bound spans }
{}

/// There are labels that are inductive, of a program with a loop too.
pub fn some_loops_have_labels()
    ensures { (profile : Profile) → AreInductive is_below profile counts_to_ten counting_labels (at_most 22) }
{}

/// There are rules that are right, and labels that are inductive by them.
pub fn some_rules_are_right()
    ensures right { (profile : Profile) → AreSound profile first_rules }
    ensures labels { AreInductiveBy first_rules jumps_and_returns first_labels (at_most 3) }
{}
