//! The steps of a run, printed before what `run` answers (docs/PROGRAMS.md, "The steps of a run").
ghost use Rattle.std.specs.Prelude.{IfOk};
ghost use Rattle.hub_commands.specs.Programs.{IsTracedReply};

use crate::answer::Answer;
use crate::run::{facts, link, outcome_answer, step_limit};
use bpf_words::words::Words;
use hub_requests::SpanOptions;
use refusals::reason::Reason;
use span_context::context::{Context, TEXT_LIMIT};
use std::alloc::{AllocError, Global};
use step_lines::traced_run::run_traced;

/// What is answered to a program on the span whose text is the input: the steps, and then what `run` answers.
pub(crate) fn steps_answer(
    alloc: Global,
    words: &Words<'_>,
    options: &SpanOptions,
    input: &[u8],
) -> Result<Answer, AllocError>
    ensures { IfOk result (λ answer. IsTracedReply options.now input.now words.now answer) }
{
    let Ok(text) = std::str::from_utf8(input) else {
        return Answer::refused(alloc, &Reason::TextRefused);
    };
    if text.len() > TEXT_LIMIT {
        return Answer::refused(alloc, &Reason::TextRefused);
    }
    let context = Context::new(&facts(options, text));
    let traced = run_traced(
        alloc,
        words,
        step_limit(options, words),
        &context,
        text.as_bytes(),
        link(options),
    )?;
    outcome_answer(alloc, traced.outcome)?.behind(traced.text)
}
