ghost use Rattle.std.specs.Prelude.{◌≡◌};

use std::marker::Model;
use version_history::published::{Naming, ProgramToken, VersionToken};

/// What a subscriber is told: a span with a verdict that is not 0, or the end of a version.
#[derive(Clone, Copy)]
pub enum Finding {
    /// The span at an index, from 0, of the version with this number.
    Hit {
        version: u64,
        span: usize,
        verdict: u64,
    },
    /// All of the version's hits were before this, and it has `spans` spans.
    End {
        version: u64,
        spans: usize,
    },
}

/// A finding with the tokens of the program and the version that it is of.
pub struct Item<N: Naming> {
    pub what: Finding,
    pub program: ProgramToken<N>,
    pub version: VersionToken<N>,
}

impl<N: Naming> Drop for Item<N> {
    fn drop(self) {
        let Item {
            what: _,
            program: _,
            version: _,
        } = self;
    }
}

impl<N: Naming> Model for Item<N> {
    ghost use Rattle.feeds.specs.Batches.{Item as ItemValue};

    ghost Value = { ItemValue };

    ghost view = { λ i. record { what = i.what; program = i.program; version = i.version } };
}

impl<N: Naming> Item<N> {
    /// A copy.
    pub fn again(&self) -> Item<N>
        ensures { result ≡ self.now }
    {
        Item {
            what: self.what,
            program: self.program.again(),
            version: self.version.again(),
        }
    }
}

/// A version that a subscriber's program is to be run on.
pub struct Job<N: Naming> {
    /// The subscriber's id.
    pub subscriber: usize,
    /// The version's number.
    pub number: u64,
    pub program: ProgramToken<N>,
    pub version: VersionToken<N>,
}

impl<N: Naming> Drop for Job<N> {
    fn drop(self) {
        let Job {
            subscriber: _,
            number: _,
            program: _,
            version: _,
        } = self;
    }
}

impl<N: Naming> Model for Job<N> {
    ghost use Rattle.feeds.specs.Batches.{Job as JobValue};

    ghost Value = { JobValue };

    ghost view = { λ j. record {
      subscriber = j.subscriber;
      number = j.number;
      program = j.program;
      version = j.version;
    } };
}

impl<N: Naming> Job<N> {
    /// A copy.
    pub fn again(&self) -> Job<N>
        ensures { result ≡ self.now }
    {
        Job {
            subscriber: self.subscriber,
            number: self.number,
            program: self.program.again(),
            version: self.version.again(),
        }
    }
}
