//! The verdicts of a program on a version, kept to find those on a later version.
ghost use Rattle.std.specs.Prelude.{◌≡◌, ◌+◌, ◌-◌, ◌≤◌, ◌++◌, IsTrue, IfOk, IfSome, length, take, drop, slice_range};
ghost use Rattle.feeds.specs.Verdicts.{verdicts_of};
ghost use Rattle.feeds.specs.Kept.{IsBlindToPosition, IsKnownOf};

use crate::item::Job;
use crate::stretch::Stretch;
use filters::filter::Filter;
use std::alloc::{AllocError, Global};
use std::marker::Model;
use version_history::published::{Naming, ProgramToken, Published, VersionToken};

/// Whether a program's verdict on a span stays the same whatever the span's index, the count of spans and the
/// version's number are: what it reads is known, and none of them.
pub fn is_blind_to_position(program: &Filter) -> bool
    ensures { IsTrue result → IsBlindToPosition program.now }
{
    match program.reads() {
        Some(reads) => reads.is_positionless(),
        None => false,
    }
}

/// The verdicts of a program on all spans of a version, in order.
pub struct KeptVerdicts<N: Naming> {
    program: ProgramToken<N>,
    version: VersionToken<N>,
    verdicts: Vec<u64>,
}

impl<N: Naming> Drop for KeptVerdicts<N> {
    fn drop(self) {
        let KeptVerdicts {
            program: _,
            version: _,
            verdicts: _,
        } = self;
    }
}

impl<N: Naming> Model for KeptVerdicts<N> {
    ghost use Rattle.std.specs.Prelude.{◌≡◌};
    ghost use Rattle.feeds.specs.Verdicts.{verdicts_of};
    ghost use Rattle.feeds.specs.Kept.{KeptVerdicts as KeptVerdictsValue};

    ghost Value = { KeptVerdictsValue };

    ghost view = { λ k. record { program = k.program; version = k.version } };

    ghost invariant = { λ k. k.verdicts.items ≡ verdicts_of k.program.value k.version.value };
}

impl<N: Naming> KeptVerdicts<N> {
    /// The verdicts of a job's program on its version, which these are.
    pub fn of(job: &Job<N>, verdicts: Vec<u64>) -> KeptVerdicts<N>
        requires { verdicts.items ≡ verdicts_of job.now.program.value job.now.version.value }
        ensures { result ≡ record { program = job.now.program; version = job.now.version } }
    {
        KeptVerdicts {
            program: job.program.again(),
            version: job.version.again(),
            verdicts,
        }
    }

    /// The version that they are on.
    pub fn version(&self) -> &VersionToken<N>
        ensures { result.now ≡ self.now.version }
    {
        &self.version
    }

    /// The verdicts.
    fn into_verdicts(self) -> Vec<u64>
        ensures { result.items ≡ verdicts_of self.program.value self.version.value }
    {
        let KeptVerdicts {
            program: _,
            version: _,
            verdicts,
        } = self;
        verdicts
    }
}

/// The numbers with others written over them from an index on.
fn overwritten(numbers: Vec<u64>, from: usize, others: &[u64]) -> Vec<u64>
    requires { from + length others.now ≤ length numbers.items }
    ensures { result.items ≡ (take from numbers.items ++ others.now) ++ drop (from + length others.now) numbers.items }
{
    let mut numbers = numbers;
    numbers[from..from + others.len()].copy_from_slice(others);
    numbers
}

/// The first `front` numbers, the others, and the last `back` numbers.
fn joined(
    alloc: Global,
    numbers: &[u64],
    front: usize,
    others: &[u64],
    back: usize,
) -> Result<Vec<u64>, AllocError>
    requires { front + back ≤ length numbers.now }
    ensures { IfOk result (λ all. all.items ≡ (take front numbers.now ++ others.now)
        ++ drop (length numbers.now - back) numbers.now) }
{
    let mut all = Vec::new(alloc);
    all.extend_from_slice(&numbers[..front])?;
    all.extend_from_slice(others)?;
    all.extend_from_slice(&numbers[numbers.len() - back..])?;
    Ok(all)
}

/// Verdicts on a version with a later version that was compared with it. The program has the same verdicts on spans
/// that are alike.
pub struct Known<N: Naming> {
    kept: KeptVerdicts<N>,
    stretch: Stretch<N>,
}

impl<N: Naming> Drop for Known<N> {
    fn drop(self) {
        let Known {
            kept: _,
            stretch: _,
        } = self;
    }
}

impl<N: Naming> Model for Known<N> {
    ghost use Rattle.std.specs.Prelude.{◌≡◌};
    ghost use Rattle.feeds.specs.Kept.{IsBlindToPosition, Known as KnownValue};

    ghost Value = { KnownValue };

    ghost view = { λ k. record { program = k.kept.program; compared = k.stretch } };

    ghost invariant = { λ k. (k.kept.version ≡ k.stretch.older) × IsBlindToPosition k.kept.program.value };
}

impl<N: Naming> Known<N> {
    /// Verdicts that may serve to find those of a job: the stretch leads from their version to the job's, they are of
    /// the job's program, and the program lists no index, count or number.
    pub fn new(
        published: &Published<'_, N>,
        job: &Job<N>,
        kept: KeptVerdicts<N>,
        stretch: Stretch<N>,
    ) -> Option<Known<N>>
        ensures { IfSome result (λ known. IsKnownOf known job.now) }
    {
        let fits = published.is_same_program(&kept.program, &job.program)
            && published.is_same(&kept.version, stretch.older())
            && published.is_same(stretch.newer(), &job.version)
            && is_blind_to_position(published.program(&kept.program));
        if fits {
            Some(Known { kept, stretch })
        } else {
            None
        }
    }

    /// The verdicts on all spans of the later version, of which these are those on the spans in the middle, which
    /// aren't known to be alike.
    pub fn verdicts(self, alloc: Global, middle: &[u64]) -> Result<Vec<u64>, AllocError>
        requires { middle.now ≡ slice_range (verdicts_of self.program.value self.compared.newer.value)
            self.compared.front
            (length self.compared.newer.value.rows - self.compared.back) }
        ensures { IfOk result (λ all. all.items ≡ verdicts_of self.program.value self.compared.newer.value) }
    {
        let Known { kept, stretch } = self;
        let front = stretch.front();
        let back = stretch.back();
        let verdicts = kept.into_verdicts();
        if middle.len() == verdicts.len() - front - back {
            return Ok(overwritten(verdicts, front, middle));
        }
        joined(alloc, &verdicts, front, middle, back)
    }

    /// How the spans of the two versions are alike.
    pub fn stretch(&self) -> &Stretch<N>
        ensures { result.now ≡ self.now.compared }
    {
        &self.stretch
    }
}
