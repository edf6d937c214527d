//! Which programs a context accepts where another does.
#![tactic(auto)]

ghost use Rattle.span_context.specs.declared.profile.Profile.TheVariants.{One, Two};
ghost use Rattle.semantics.specs.Step.{Program};
ghost use Rattle.verifier.specs.Decides.{IsAllowed};
ghost use Rattle.context_order.specs.LinkLength.{LoadsNoLength};

/// Context 2 accepts each program that context 1 accepts and that loads no length of a link: nothing to run.
pub fn contexts_one_and_two()
    ensures { (program : Program) → IsAllowed One program → LoadsNoLength program → IsAllowed Two program }
{}
