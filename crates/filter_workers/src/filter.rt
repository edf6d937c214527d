ghost use Rattle.std.specs.Prelude.{◌≡◌, ◌↔◌, IsTrue, IfOk, IfSome};
ghost use Rattle.feeds.specs.Kept.{IsKnownOf};
ghost use Rattle.filter_workers.specs.Turns.{IsShort};

use feeds::batch::Batch;
use feeds::item::Job;
use feeds::kept::{KeptVerdicts, Known};
use feeds::stretch::Stretch;
use std::alloc::{AllocError, Global};
use std::thread::Threads;
use stream_readers::verdicts::{STEPS_TO_BEGIN, verdicts};
use version_history::published::{Naming, Published};

/// Whether a job's batch takes at most `most` steps, a little counted for each run's start. That of a program that
/// loops is never short.
pub(crate) fn is_short<N: Naming>(published: &Published<'_, N>, job: &Job<N>, most: usize) -> bool
    ensures { IsTrue result ↔ IsShort most job.now }
{
    let program = published.program(&job.program);
    let spans = published.look(&job.version).span_count();
    program.is_straight() && spans.saturating_mul(program.slots() + STEPS_TO_BEGIN) <= most
}

/// What is known of a job's verdicts from those on an earlier version: nothing, where they are of another program, or
/// of one that lists the index, the count or the number.
fn known<N: Naming>(
    published: &Published<'_, N>,
    job: &Job<N>,
    kept: Option<KeptVerdicts<N>>,
) -> Option<Known<N>>
    ensures { IfSome result (λ k. IsKnownOf k job.now) }
{
    let kept = kept?;
    let stretch = Stretch::between(published, kept.version(), &job.version);
    Known::new(published, job, kept, stretch)
}

/// The batch of a job, as `Batch::compute` answers it, from what is kept of the verdicts of its program on an earlier
/// version, if anything is: the program is run on the spans alone that aren't as they were there. They are shared out
/// among as many threads as there are processors to run them, as far as the length of the program and the number of
/// these spans make each thread worth its start. It asks for no lock.
pub fn filter<N: Naming, R: Threads + Sync>(
    rt: &R,
    alloc: Global,
    published: &Published<'_, N>,
    job: &Job<N>,
    kept: Option<KeptVerdicts<N>>,
) -> Result<Batch<N>, AllocError>
    ensures { IfOk result (λ batch. batch ≡ job.now) }
{
    let known = known(published, job, kept);
    let verdicts = verdicts(rt, alloc, published, job, known, 1)?;
    Batch::from_verdicts(alloc, published, job, &verdicts)
}
