//! Programs: verified, and run on one span.
ghost use Rattle.std.specs.Prelude.{◌≤◌, [], length};
ghost use Rattle.span_context.specs.Context.{Fits, span_bytes};

use bpf_words::words::Words;
use interpreter::run::{run, run_checked};
use semantics::Outcome;
use span_context::context::{Context, Facts, TEXT_LIMIT};
use span_context::profile::Profile;
use std::alloc::Global;
use verifier::verify::{Verified, verify};

/// The context of a span of this text, without a link. Each round has one of its own, so that no run can stand for
/// another.
fn context_of(text: &[u8], round: u32) -> Context
    requires { length text.now ≤ 131072 }
    ensures { Fits (span_bytes result text.now []) }
{
    Context::new(&Facts {
        text_len: text.len() as u32,
        characters: text.len() as u32,
        flags: 0,
        color: 0,
        link_len: 0,
        comments: 0,
        index: round,
        count: 1,
        version: 1,
    })
}

fn is_accepted(alloc: Global, words: &Words<'_>) -> bool {
    verify(alloc, words, Profile::One).is_ok()
}

/// Verifies a program `rounds` times. It answers how many times it was accepted before it was first refused.
#[unsafe(no_mangle)]
pub extern "C" fn bench_verify(alloc: Global, program: &[u8], rounds: u32) -> u32 {
    let Ok(words) = Words::new(program) else {
        return 0;
    };
    for round in 0..rounds {
        if !is_accepted(alloc, &words) {
            return round;
        }
    }
    rounds
}

/// The sum of the verdicts of `rounds` runs.
fn sum_of_runs(program: &Verified, text: &[u8], rounds: u32) -> u64
    requires { length text.now ≤ 131072 }
{
    let mut sum: u64 = 0;
    for round in 0..rounds {
        let context = context_of(text, round);
        sum = sum.wrapping_add(run(program, &context, text, &[]));
    }
    sum
}

fn number_of(outcome: Outcome) -> u64 {
    match outcome {
        Outcome::Done(value) => value,
        Outcome::Fault { .. } | Outcome::OutOfSteps => u64::MAX,
    }
}

/// The same of checked runs; a run without a verdict counts as 2^64 - 1.
fn sum_of_checked_runs(words: &Words<'_>, text: &[u8], rounds: u32) -> u64
    requires { length text.now ≤ 131072 }
{
    let mut sum: u64 = 0;
    for round in 0..rounds {
        let context = context_of(text, round);
        sum = sum.wrapping_add(number_of(run_checked(words, &context, text, &[])));
    }
    sum
}

/// Verifies a program once and runs it `rounds` times, each time with a new context. It answers the sum of the
/// verdicts, 0 where the program isn't accepted.
#[unsafe(no_mangle)]
pub extern "C" fn bench_run(alloc: Global, program: &[u8], text: &[u8], rounds: u32) -> u64 {
    if text.len() > TEXT_LIMIT {
        return 0;
    }
    let Ok(words) = Words::new(program) else {
        return 0;
    };
    match verify(alloc, &words, Profile::One) {
        Ok(program) => sum_of_runs(&program, text, rounds),
        Err(_) => 0,
    }
}

/// The same with checked runs, which need no verifier.
#[unsafe(no_mangle)]
pub extern "C" fn bench_run_checked(program: &[u8], text: &[u8], rounds: u32) -> u64 {
    if text.len() > TEXT_LIMIT {
        return 0;
    }
    match Words::new(program) {
        Ok(words) => sum_of_checked_runs(&words, text, rounds),
        Err(_) => 0,
    }
}
