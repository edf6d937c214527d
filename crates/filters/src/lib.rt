//! What a subscriber attaches to the text: a program of which every run on a span ends with a number, the verdict,
//! and how one is accepted.
#![tactic(auto)]

ghost use Rattle.std.specs.Prelude.{◌≡◌, ◌≤◌, ℕ, length};
ghost use Rattle.span_context.specs.Context.{SpanBytes};
ghost use Rattle.semantics.specs.declared.Outcome.TheVariants.{Done};
ghost use Rattle.semantics.specs.Safe.{IsSpan, Verdict};
ghost use Rattle.semantics.specs.Step.{Program};
ghost use Rattle.loop_labels.specs.Bounded.{NeverEnds};
ghost use Rattle.filters.specs.Filters.{IsFilter, whole_outcome};

pub mod accept;
pub mod filter;
pub mod refusal;
pub mod rules;

/// A run that ends within as many steps as the program has slots ends so where it is left more.
pub fn more_steps_change_nothing()
    ensures { (program : Program) (bytes : SpanBytes) (value : ℕ) → length program ≤ 4096
        → Verdict program bytes value → whole_outcome program bytes ≡ Done value }
{}

/// A program of which a run doesn't end is no filter.
pub fn endless_programs_are_no_filters()
    ensures { (program : Program) (bytes : SpanBytes) → IsSpan bytes → NeverEnds program bytes
        → IsFilter program → ⊥ }
{}
