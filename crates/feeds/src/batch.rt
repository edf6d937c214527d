ghost use Rattle.std.specs.Prelude.{◌≡◌, ◌≤◌, ◌+◌, ◌++◌, ◌∷◌, [], IfOk, OnOk, map, length, vec_len};
ghost use Rattle.semantics.specs.Safe.{IsSpan};
ghost use Rattle.program_reads.specs.declared.reads.Reads.{Reads};
ghost use Rattle.program_reads.specs.Reads.{AgreesOn};
ghost use Rattle.filters.specs.Filters.{DeterminesRuns};
ghost use Rattle.span_view.specs.Views.{SpanView};
ghost use Rattle.span_view.specs.ContextOf.{bytes_of};
ghost use Rattle.feeds.specs.Batches.{items_of, item_of, hits_from};
ghost use Rattle.feeds.specs.Verdicts.{verdict_on, verdicts_of};

use crate::item::{Finding, Item, Job};
use filters::filter::Filter;
use span_view::context::{context, link};
use span_view::view::{SpanView, lent};
use std::alloc::{AllocError, Global};
use std::marker::Model;
use version_history::published::{Naming, Published};
use version_pieces::iter::spans_from;
use version_pieces::version::PieceVersion;

/// A job with the items of its program on its version.
pub struct Batch<N: Naming> {
    job: Job<N>,
    items: Vec<Item<N>>,
}

impl<N: Naming> Drop for Batch<N> {
    fn drop(self) {
        let Batch { job: _, items: _ } = self;
    }
}

impl<N: Naming> Model for Batch<N> {
    ghost use Rattle.std.specs.Prelude.{◌≡◌, ◌≤◌, vec_len};
    ghost use Rattle.feeds.specs.Batches.{Job, items_of};

    ghost Value = { Job };

    ghost view = { λ b. b.job };

    ghost invariant = { λ b. (b.items.items ≡ items_of b.job.program b.job.version) × (vec_len b.items ≤ 131073) };
}

/// The verdict of a program on a span, and on each that agrees with it on what the program reads.
#[tactic(auto, using(crate::proofs::Hits::verdict_is))]
pub fn verdict(program: &Filter, span: &SpanView<'_>) -> u64
    ensures verdict { result ≡ verdict_on program.now span.now }
    ensures alike { (reads : Reads) (other : SpanView) → DeterminesRuns reads program.now → IsSpan (bytes_of other)
        → AgreesOn reads (bytes_of span.now) (bytes_of other) → result ≡ verdict_on program.now other }
{
    program.run(&context(span), span.text.as_bytes(), link(span))
}

/// The verdicts of a program on all spans of a version, in order.
fn verdicts(alloc: Global, program: &Filter, version: &PieceVersion) -> Result<Vec<u64>, AllocError>
    ensures { IfOk result (λ found. found.items ≡ verdicts_of program.now version.now) }
{
    let mut found = Vec::with_capacity(alloc, version.span_count())?;
    let mut buffer = String::new(alloc);
    for span in spans_from(version, 0) {
        let span = lent(version, found.len(), span, &mut buffer)?;
        found.push(verdict(program, &span))?;
    }
    Ok(found)
}

fn push_finding<N: Naming>(
    items: &mut Vec<Item<N>>,
    job: &Job<N>,
    what: Finding,
) -> Result<(), AllocError>
    ensures few { OnOk result (vec_len items.new ≡ vec_len items.old + 1) }
    ensures items { OnOk result (items.new.items ≡ items.old.items
        ++ item_of job.now.program job.now.version what ∷ []) }
{
    items.push(Item {
        what,
        program: job.program.again(),
        version: job.version.again(),
    })?;
    Ok(())
}

/// Adds the hit of a span, if its verdict is one.
fn push_hit<N: Naming>(
    items: &mut Vec<Item<N>>,
    job: &Job<N>,
    number: u64,
    span: usize,
    verdict: u64,
) -> Result<(), AllocError>
    ensures few { OnOk result (vec_len items.new ≤ vec_len items.old + 1) }
    ensures items { OnOk result (items.new.items ≡ items.old.items
        ++ map (item_of job.now.program job.now.version) (hits_from number span (verdict ∷ []))) }
{
    if verdict == 0 {
        return Ok(());
    }
    push_finding(
        items,
        job,
        Finding::Hit {
            version: number,
            span,
            verdict,
        },
    )
}

impl<N: Naming> Batch<N> {
    /// The batch of a job: its program is run on each span of its version.
    pub fn compute(
        alloc: Global,
        published: &Published<'_, N>,
        job: &Job<N>,
    ) -> Result<Batch<N>, AllocError>
        ensures { IfOk result (λ batch. batch ≡ job.now) }
    {
        let program = published.program(&job.program);
        let version = published.look(&job.version);
        let verdicts = verdicts(alloc, program, version)?;
        Batch::from_verdicts(alloc, published, job, &verdicts)
    }

    /// The batch of a job, from the verdicts of its program on all spans of its version, in order.
    #[tactic(auto, using(crate::proofs::Hits::verdict_count))]
    pub fn from_verdicts(
        alloc: Global,
        published: &Published<'_, N>,
        job: &Job<N>,
        verdicts: &[u64],
    ) -> Result<Batch<N>, AllocError>
        requires { verdicts.now ≡ verdicts_of job.now.program.value job.now.version.value }
        ensures { IfOk result (λ batch. batch ≡ job.now) }
    {
        let version = published.look(&job.version);
        let number = version.number();
        let spans = version.span_count();
        let mut items = Vec::new(alloc);
        for (span, verdict) in verdicts.iter().enumerate() {
            push_hit(&mut items, job, number, span, *verdict)?;
        }
        let end = Finding::End {
            version: number,
            spans,
        };
        push_finding(&mut items, job, end)?;
        Ok(Batch {
            job: job.again(),
            items,
        })
    }

    /// The job that it is of.
    pub fn job(&self) -> &Job<N>
        ensures { result.now ≡ self.now }
    {
        &self.job
    }

    /// A hit for each span whose verdict is not 0, by rising index, and the version's end.
    pub fn items(&self) -> &[Item<N>]
        ensures items { result.now ≡ items_of self.now.program self.now.version }
        ensures most { length result.now ≤ 131073 }
    {
        self.items.as_slice()
    }
}
