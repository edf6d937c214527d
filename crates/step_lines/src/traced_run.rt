//! A run, and its steps as text.
ghost use Rattle.std.specs.Prelude.{◌≡◌, ◌++◌, IfOk, OnOk, string_bytes};
ghost use Rattle.bpf_words.specs.Words.{program_of};
ghost use Rattle.span_context.specs.Context.{Fits, span_bytes};
ghost use Rattle.semantics.specs.Outcomes.{outcome_from};
ghost use Rattle.semantics.specs.State.{start};
ghost use Rattle.step_lines.specs.Steps.{steps_text};

use crate::lines::{push_passed, push_slot};
use bpf_words::words::Words;
use interpreter::machine::{Machine, Progress};
use semantics::Outcome;
use span_context::context::Context;
use std::alloc::{AllocError, Global};

/// How a run ended, and the lines of its steps.
#[derive(Drop)]
pub struct TracedRun {
    pub outcome: Outcome,
    pub text: String,
}

/// Runs a program on a span as `run_steps` does, and appends the lines of each step.
#[tactic(auto, using(crate::proofs::Tracing::tracing))]
fn push_steps<'a>(
    words: &Words<'_>,
    limit: usize,
    context: &'a Context,
    text: &'a [u8],
    link: &'a [u8],
    lines: &mut String,
) -> Result<Outcome, AllocError>
    requires { Fits (span_bytes context.now text.now link.now) }
    ensures outcome { IfOk result (λ outcome. outcome
        ≡ outcome_from (program_of words.now) (span_bytes context.now text.now link.now) limit start) }
    ensures told { OnOk result (string_bytes lines.new ≡ string_bytes lines.old
        ++ steps_text (program_of words.now) (span_bytes context.now text.now link.now) limit start) }
{
    let mut machine = Machine::new(context.bytes(), text, link);
    let count = words.len();
    prove!(count > 0);
    for taken in 0..limit {
        let slot = machine.slot();
        let insn = words.insn(slot);
        push_slot(lines, slot, &insn)?;
        match machine.step(words) {
            Ok(Progress::Goes) => push_passed(lines, &insn, &machine)?,
            Ok(Progress::Ends(value)) => return Ok(Outcome::Done(value)),
            Err(kind) => return Ok(Outcome::Fault { slot, kind }),
        }
    }
    Ok(Outcome::OutOfSteps)
}

/// Runs a program on a span for at most `limit` steps, and writes down each. The link's text has no byte where the span
/// has no link.
pub fn run_traced(
    alloc: Global,
    words: &Words<'_>,
    limit: usize,
    context: &Context,
    text: &[u8],
    link: &[u8],
) -> Result<TracedRun, AllocError>
    requires { Fits (span_bytes context.now text.now link.now) }
    ensures outcome { IfOk result (λ traced. traced.outcome
        ≡ outcome_from (program_of words.now) (span_bytes context.now text.now link.now) limit start) }
    ensures text { IfOk result (λ traced. string_bytes traced.text
        ≡ steps_text (program_of words.now) (span_bytes context.now text.now link.now) limit start) }
{
    let mut lines = String::new(alloc);
    let outcome = push_steps(words, limit, context, text, link, &mut lines)?;
    Ok(TracedRun {
        outcome,
        text: lines,
    })
}
