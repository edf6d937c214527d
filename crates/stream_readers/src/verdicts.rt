//! The verdicts of a program on all spans of a version, by several threads.
ghost use Rattle.std.specs.Prelude.{◌≡◌, ◌≤◌, IfOk, IfSome, length, slice_range};
ghost use Rattle.std.specs.Option.{option_map_or};
ghost use Rattle.span_view.specs.Views.{view_at};
ghost use Rattle.feeds.specs.Verdicts.{verdict_on, verdicts_of};
ghost use Rattle.feeds.specs.Kept.{IsKnownOf};

use feeds::batch::verdict;
use feeds::item::Job;
use feeds::kept::Known;
use filters::filter::Filter;
use rayon::prelude::*;
use span_view::view::view;
use std::alloc::{AllocError, Global};
use std::thread::Threads;
use version_history::published::{Naming, Published};
use version_pieces::version::PieceVersion;

/// How much work, in steps of a program, justifies a further thread: about half a millisecond.
const STEPS_PER_THREAD: usize = 262_144;

/// What it takes to make a span's context and begin a run, in steps.
pub const STEPS_TO_BEGIN: usize = 32;

/// The least number of spans that justifies a further thread, where `workers` workers share the processors and a run
/// takes at most `steps` steps.
fn spans_per_thread(workers: usize, steps: usize) -> usize
    requires few { steps ≤ 4096 }
{
    (STEPS_PER_THREAD / (steps + STEPS_TO_BEGIN) + 1).saturating_mul(workers)
}

/// The verdict on the span at an index, or 0 past the last one.
fn verdict_at(
    alloc: Global,
    program: &Filter,
    version: &PieceVersion,
    index: usize,
) -> Result<u64, AllocError>
    ensures { IfOk result (λ verdict. verdict ≡ option_map_or (verdict_on program.now) (view_at version.now index) 0) }
{
    let mut buffer = String::new(alloc);
    match view(version, index, &mut buffer)? {
        Some(span) => Ok(verdict(program, &span)),
        None => Ok(0),
    }
}

/// The verdicts on the spans of a version from one index up to another, in order. Each thread has at least `least`
/// spans, where there are as many.
fn verdicts_between<R: Threads + Sync>(
    rt: &R,
    alloc: Global,
    program: &Filter,
    version: &PieceVersion,
    from: usize,
    to: usize,
    least: usize,
) -> Result<Vec<u64>, AllocError>
    requires order { from ≤ to }
    requires within { to ≤ length version.now.rows }
    ensures { IfOk result (λ found. found.items ≡ slice_range (verdicts_of program.now version.now) from to) }
{
    (from..to)
        .into_par_iter()
        .with_min_len(least)
        .map(
            |index: usize| -> Result<u64, AllocError>
                ensures { IfOk result (λ verdict. verdict
                    ≡ option_map_or (verdict_on program.entry.now) (view_at version.entry.now index) 0) }
            { verdict_at(alloc, program, version, index) },
        )
        .collect::<Result<Vec<u64>, AllocError>>(rt, alloc)?
}

/// About how many steps a run may take.
fn likely_steps(program: &Filter) -> usize
    ensures { result ≤ 4096 }
{
    if program.is_straight() {
        program.slots()
    } else {
        4096
    }
}

/// The verdicts of a job's program on all spans of its version, where `workers` workers share the processors: the more
/// they are, the fewer threads this one may start. Where those on an earlier version are known, the program is run on
/// the spans alone that aren't as they were there.
pub fn verdicts<N: Naming, R: Threads + Sync>(
    rt: &R,
    alloc: Global,
    published: &Published<'_, N>,
    job: &Job<N>,
    known: Option<Known<N>>,
    workers: usize,
) -> Result<Vec<u64>, AllocError>
    requires { IfSome known (λ k. IsKnownOf k job.now) }
    ensures { IfOk result (λ found. found.items ≡ verdicts_of job.now.program.value job.now.version.value) }
{
    let program = published.program(&job.program);
    let version = published.look(&job.version);
    let least = spans_per_thread(workers, likely_steps(program));
    let count = version.span_count();
    match known {
        None => verdicts_between(rt, alloc, program, version, 0, count, least),
        Some(known) => {
            let stretch = known.stretch();
            let from = stretch.front();
            let to = count - stretch.back();
            let middle = verdicts_between(rt, alloc, program, version, from, to, least)?;
            known.verdicts(alloc, &middle)
        }
    }
}
