//! A program that contexts 1 and 2 accept, and context 3 refuses.
#![tactic(auto)]

ghost use Rattle.span_context.specs.declared.profile.Profile.TheVariants.{One, Two, Three};
ghost use Rattle.verifier.specs.Decides.{IsAllowed};
ghost use Rattle.order_samples.specs.Samples.{joined_twice};

/// Context 3 doesn't accept all that contexts 1 and 2 accept: nothing to run.
pub fn context_three_accepts_not_all()
    ensures one { IsAllowed One joined_twice }
    ensures two { IsAllowed Two joined_twice }
    ensures three { ¬ (IsAllowed Three joined_twice) }
{}
