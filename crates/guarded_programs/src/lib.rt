//! Guarded programs: which programs the verifier is known to accept, without a word of how it works. A program is
//! guarded if facts can be written before its slots that every way there gives, and that grant each instruction what it
//! needs: that a register holds a number or an address, how great it is, how many bytes stand behind it, how long a
//! lent region is, and which bytes of the stack were stored.
#![tactic(auto)]

ghost use Rattle.span_context.specs.declared.profile.Profile.{Profile};
ghost use Rattle.semantics.specs.Step.{Program};
ghost use Rattle.verifier.specs.Decides.{IsAllowed};
ghost use Rattle.guarded_programs.specs.Outlines.{IsGuarded};
ghost use Rattle.guarded_programs.specs.Sample.{first_byte, question, unguarded};

/// Guarded programs are accepted. Two shipped filters are guarded; the first without its test isn't: nothing to run.
pub fn guarded_programs_are_allowed()
    ensures law { (profile : Profile) (program : Program) → IsGuarded profile program → IsAllowed profile program }
    ensures by_length { (profile : Profile) → IsGuarded profile first_byte }
    ensures by_addresses { (profile : Profile) → IsGuarded profile question }
    ensures near_miss { (profile : Profile) → IsGuarded profile unguarded → ⊥ }
{}
