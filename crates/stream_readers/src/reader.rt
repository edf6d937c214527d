//! A reader of a program's stream.
ghost use Rattle.std.specs.Prelude.{◌≡◌, ◌<◌, ◌+◌, ◌-◌, ◌∷◌, [], MatchOption, OnOk, OnErr};
ghost use Rattle.feeds.specs.Batches.{Item, items_of};
ghost use Rattle.stream_readers.specs.Readers.{fresh};
ghost use Rattle.stream_readers.specs.Laws.{IsReadLater, AreReadAsOne, GivesTheStream};

use crate::judged::Judged;
use crate::verdicts::verdicts;
use feeds::item::{Finding, Job};
use std::alloc::{AllocError, Global};
use std::marker::Model;
use std::thread::Threads;
use version_history::published::{Naming, ProgramToken, Published, VersionToken};

/// What a program says of versions from a first one on, as far as it was computed and given. The verdicts on the last
/// version that was judged are kept, so that on the next one the program is run on the spans alone that have changed.
pub struct StreamReader<N: Naming> {
    program: ProgramToken<N>,
    next: u64,
    judged: Option<Judged<N>>,
}

impl<N: Naming> Drop for StreamReader<N> {
    fn drop(self) {
        let StreamReader {
            program: _,
            next: _,
            judged: _,
        } = self;
    }
}

impl<N: Naming> Model for StreamReader<N> {
    ghost use Rattle.std.specs.Prelude.{◌≡◌, IfSome};
    ghost use Rattle.feeds.specs.Verdicts.{verdicts_of};
    ghost use Rattle.stream_readers.specs.Readers.{Reader as ReaderValue, pending_of};

    ghost Value = { ReaderValue };

    ghost view = { λ r. record { program = r.program; next = r.next; pending = pending_of r.program r.judged } };

    ghost invariant = { λ r. IfSome r.judged (λ j. j.verdicts ≡ verdicts_of r.program.value j.version.value) };
}

impl<N: Naming> StreamReader<N> {
    /// A reader that begins with a version.
    pub fn new(program: ProgramToken<N>, first: u64) -> StreamReader<N>
        ensures { result ≡ fresh program first }
    {
        StreamReader {
            program,
            next: first,
            judged: None,
        }
    }

    /// The number of the first version that isn't judged.
    pub fn next_version(&self) -> u64
        ensures { result ≡ self.now.next }
    {
        self.next
    }

    /// The number of the first version that wasn't given whole.
    pub fn first_ungiven(&self) -> u64
        ensures whole { self.now.pending ≡ [] → result ≡ self.now.next }
        ensures part { ¬ (self.now.pending ≡ []) → result ≡ self.now.next - 1 }
    {
        match &self.judged {
            Some(judged) if !judged.is_over() => self.next.saturating_sub(1),
            _ => self.next,
        }
    }

    /// Gives the next finding; None where none is pending.
    pub fn next_finding(&mut self) -> Option<Finding>
        ensures same { (self.new.program ≡ self.old.program) × (self.new.next ≡ self.old.next) }
        ensures pending { MatchOption result ((self.old.pending ≡ []) × (self.new.pending ≡ []))
            (λ what. (item : Item) × (item.what ≡ what) × (self.old.pending ≡ item ∷ self.new.pending)) }
    {
        let judged = self.judged.as_mut()?;
        judged.next()
    }

    /// Judges the next version, whose token this is, where nothing is pending. `workers` workers share the processors.
    pub fn judge<R: Threads + Sync>(
        &mut self,
        rt: &R,
        alloc: Global,
        published: &Published<'_, N>,
        version: &VersionToken<N>,
        workers: usize,
    ) -> Result<(), AllocError>
        requires none { self.old.pending ≡ [] }
        requires few { self.old.next < 9223372036854775808 }
        ensures ok { OnOk result (self.new ≡ record {
          program = self.old.program;
          next = self.old.next + 1;
          pending = items_of self.old.program version.now;
        }) }
        ensures err { OnErr result (self.new ≡ self.old) }
    {
        let job = Job {
            subscriber: 0,
            number: self.next,
            program: self.program.again(),
            version: version.again(),
        };
        let known = match self.judged.take() {
            Some(judged) => judged.known(published, &job),
            None => None,
        };
        let verdicts = verdicts(rt, alloc, published, &job, known, workers)?;
        self.judged = Some(Judged::new(published, version.again(), verdicts, &self.program));
        self.next += 1;
        Ok(())
    }
}

/// The laws of readings one after another.
pub fn readings_give_the_stream()
    ensures later { IsReadLater }
    ensures one { AreReadAsOne }
    ensures stream { GivesTheStream }
{}
