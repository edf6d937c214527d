//! Functions that call each other, and a program with the calls inlined: what both mean, and that it is the same.
//! The laws are functions that do nothing: a call brings the law.
#![tactic(auto)]

ghost use Rattle.std.specs.Prelude.{List};
ghost use Rattle.semantics.specs.Step.{Program};
ghost use Rattle.inlined_calls.specs.Calls.{Body};
ghost use Rattle.inlined_calls.specs.Inlined.{Placed, IsInlined, MeansTheSame};
ghost use Rattle.inlined_calls.specs.Kept.{CallKeeps, StoresLeave, ReturnBrings};
ghost use Rattle.inlined_calls.specs.Samples.{sample_functions, sample_program, sample_places, unmoved_program};

pub mod functions;

/// A program that is functions with their calls inlined means the same.
pub fn inlined_means_the_same()
    ensures { (functions : List Body) (program : Program) (places : List Placed)
        → IsInlined functions program places → MeansTheSame functions program }
{}

/// Some program is inlined, and it isn't where a store of the called function isn't moved to its frame.
pub fn inlined_sample()
    ensures inlined { IsInlined sample_functions sample_program sample_places }
    ensures unmoved { IsInlined sample_functions unmoved_program sample_places → ⊥ }
{}

/// What a call keeps comes back as it was, unless the called function writes to the cells (RFC 9669, section 4.3.2).
pub fn registers_come_back()
    ensures kept { CallKeeps }
    ensures stays { StoresLeave }
    ensures back { ReturnBrings }
{}
