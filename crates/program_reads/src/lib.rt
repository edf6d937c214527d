//! What the loads of a program can read of a span. Spans that agree on it give the program one outcome.
#![tactic(auto)]

ghost use Rattle.span_context.specs.declared.profile.Profile.{Profile};
ghost use Rattle.span_context.specs.declared.profile.Profile.TheVariants.{Two};
ghost use Rattle.semantics.specs.Safe.{SafeIn};
ghost use Rattle.semantics.specs.Step.{Program};
ghost use Rattle.program_reads.specs.declared.reads.Reads.{Reads};
ghost use Rattle.program_reads.specs.Reads.{Determines};
ghost use Rattle.program_reads.specs.Loads.{CoversRuns};

mod fields;
pub mod lines;
pub mod reads;

/// What no load of a program can read, its outcome doesn't depend on: neither on what its profile lends, nor on the
/// whole span.
pub fn unread_is_free()
    ensures lent { (profile : Profile) (program : Program) (reads : Reads) → SafeIn profile program
        → CoversRuns reads profile program → Determines reads profile program }
    ensures whole { (profile : Profile) (program : Program) (reads : Reads) → SafeIn profile program
        → CoversRuns reads profile program → Determines reads Two program }
{}
