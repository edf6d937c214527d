//! A version with a program's verdicts on its spans, as far as its findings were given.
ghost use Rattle.std.specs.Prelude.{◌≡◌, ◌+◌, ◌∷◌, ◌↔◌, [], ℕ, IfSome, MatchOption, IsTrue, drop, slice_get, Some};
ghost use Rattle.feeds.specs.Batches.{hits_from, batch_of};
ghost use Rattle.feeds.specs.Kept.{IsKnownOf};
ghost use Rattle.feeds.specs.Verdicts.{verdicts_of};

use feeds::item::{Finding, Job};
use feeds::kept::{KeptVerdicts, Known, is_blind_to_position};
use feeds::stretch::Stretch;
use std::marker::Model;
use version_history::published::{Naming, ProgramToken, Published, VersionToken};

/// A version that was judged, and how far what was found was given.
pub(crate) struct Judged<N: Naming> {
    version: VersionToken<N>,
    number: u64,
    verdicts: Vec<u64>,
    /// The first span whose verdict wasn't looked at.
    span: usize,
    /// Whether the version's end was given.
    is_over: bool,
}

impl<N: Naming> Drop for Judged<N> {
    fn drop(self) {
        let Judged {
            version: _,
            number: _,
            verdicts: _,
            span: _,
            is_over: _,
        } = self;
    }
}

impl<N: Naming> Model for Judged<N> {
    ghost use Rattle.std.specs.Prelude.{◌≡◌, ◌≤◌, length};
    ghost use Rattle.stream_readers.specs.Readers.{Judged as JudgedValue, found_from};

    ghost Value = { JudgedValue };

    ghost view = { λ j. record {
      version = j.version;
      verdicts = j.verdicts.items;
      pending = found_from j.number j.span j.verdicts.items j.is_over;
    } };

    ghost invariant = { λ j. j.number ≡ j.version.value.number };
}

/// The first span from one on whose verdict is not 0.
fn next_hit(verdicts: &[u64], from: usize) -> Option<usize>
    ensures { (number : ℕ) → MatchOption result (hits_from number from (drop from verdicts.now) ≡ [])
        (λ span. (verdict : ℕ) × (slice_get verdicts.now span ≡ Some verdict)
        × (hits_from number from (drop from verdicts.now)
        ≡ Finding.Hit number span verdict ∷ hits_from number (span + 1) (drop (span + 1) verdicts.now))) }
{
    for span in from..verdicts.len() {
        if verdicts[span] != 0 {
            return Some(span);
        }
    }
    None
}

impl<N: Naming> Judged<N> {
    /// A version with these verdicts on all its spans, of which nothing was given.
    pub(crate) fn new(
        published: &Published<'_, N>,
        version: VersionToken<N>,
        verdicts: Vec<u64>,
        program: &ProgramToken<N>,
    ) -> Judged<N>
        requires { verdicts.items ≡ verdicts_of program.now.value version.value }
        ensures version { result.version ≡ version }
        ensures verdicts { result.verdicts ≡ verdicts_of program.now.value version.value }
        ensures pending { result.pending ≡ batch_of program.now.value version.value }
    {
        let _ = program;
        Judged {
            number: published.look(&version).number(),
            version,
            verdicts,
            span: 0,
            is_over: false,
        }
    }

    /// Gives the next finding; None where all were given.
    pub(crate) fn next(&mut self) -> Option<Finding>
        ensures same { (self.new.version ≡ self.old.version) × (self.new.verdicts ≡ self.old.verdicts) }
        ensures pending { MatchOption result ((self.old.pending ≡ []) × (self.new.pending ≡ []))
            (λ what. self.old.pending ≡ what ∷ self.new.pending) }
    {
        if self.is_over {
            return None;
        }
        match next_hit(&self.verdicts, self.span) {
            Some(span) => {
                self.span = span + 1;
                Some(Finding::Hit {
                    version: self.number,
                    span,
                    verdict: self.verdicts[span],
                })
            }
            None => {
                self.is_over = true;
                Some(Finding::End {
                    version: self.number,
                    spans: self.verdicts.len(),
                })
            }
        }
    }

    /// Whether all findings were given.
    pub(crate) fn is_over(&self) -> bool
        ensures { IsTrue result ↔ (self.now.pending ≡ []) }
    {
        self.is_over
    }

    /// What is known of a job's verdicts from these, which are of the same program: nothing, where it reads the index,
    /// the count or the number.
    pub(crate) fn known(self, published: &Published<'_, N>, job: &Job<N>) -> Option<Known<N>>
        requires { self.verdicts ≡ verdicts_of job.now.program.value self.version.value }
        ensures { IfSome result (λ k. IsKnownOf k job.now) }
    {
        if !is_blind_to_position(published.program(&job.program)) {
            return None;
        }
        let Judged {
            version,
            number,
            verdicts,
            span: _,
            is_over: _,
        } = self;
        let stretch = Stretch::between(published, &version, &job.version);
        let before = Job {
            subscriber: job.subscriber,
            number,
            program: job.program.again(),
            version,
        };
        Known::new(published, job, KeptVerdicts::of(&before, verdicts), stretch)
    }
}
