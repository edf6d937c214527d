//! The steps of a run as text: the line of each instruction, and of what it wrote (docs/PROGRAMS.md, "The steps of a
//! run").
#![tactic(auto)]

ghost use Rattle.std.specs.Prelude.{◌≡◌};
ghost use Rattle.span_context.specs.Context.{SpanBytes};
ghost use Rattle.semantics.specs.Samples.{returns_one};
ghost use Rattle.semantics.specs.State.{start};
ghost use Rattle.step_lines.specs.Steps.{steps_text};
ghost use Rattle.step_lines.specs.Samples.{first_told, both_told, jumps_into_load, jump_told};
ghost use Rattle.step_lines.specs.Samples.{keeps_address, store_told, nothing_lent};

pub mod lines;
pub mod traced_run;

/// The texts of some runs, whole.
pub fn told_runs()
    ensures first { (bytes : SpanBytes) → steps_text returns_one bytes 1 start ≡ first_told }
    ensures both { (bytes : SpanBytes) → steps_text returns_one bytes 2 start ≡ both_told }
    ensures jump { (bytes : SpanBytes) → steps_text jumps_into_load bytes 3 start ≡ jump_told }
    ensures store { steps_text keeps_address nothing_lent 2 start ≡ store_told }
{}
