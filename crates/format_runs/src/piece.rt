//! A piece of a list of runs, which versions share.
ghost use Rattle.std.specs.Prelude.{◌≡◌, ◌<◌, ◌≤◌, ◌-◌, ◌^◌, IfOk, length};
ghost use Rattle.format_runs.specs.Budgets.{piece_bytes};
ghost use Rattle.format_runs.specs.Runs.{character_count};

use crate::run::Run;
use memory_budget::Budget;
use piece_tree::piece::{Measure, Piece};
use std::alloc::{AllocError, Global};
use std::marker::Model;
use std::sync::Arc;

/// The most runs that a piece has: those are made where a window changes many runs at once.
pub const WIDE: usize = 48;

/// The most runs of a piece that is made for a window of few.
pub const FULL: usize = 32;

/// The least that it has, if it isn't the last one.
pub const HALF: usize = 16;

/// What a piece takes apart from its runs: the counted value's own allocation and the list's.
const PIECE_BYTES: usize = 96;

/// What a run takes in the list.
const RUN_BYTES: usize = 16;

/// Runs, with how many characters they have. Contracts see the runs.
struct Content {
    runs: Vec<Run>,
    characters: usize,
}

impl Drop for Content {
    fn drop(self) {
        let Content {
            runs: _,
            characters: _,
        } = self;
    }
}

impl Model for Content {
    ghost use Rattle.std.specs.Prelude.{◌≡◌, List};
    ghost use Rattle.format_runs.specs.Runs.{Run, character_count};

    ghost Value = { List Run };

    ghost view = { λ c. c.runs.items };

    ghost invariant = { λ c. c.characters ≡ character_count c.runs.items };
}

/// Runs that versions share. Contracts see the runs.
pub struct RunPiece {
    content: Arc<Content, Global>,
}

impl Drop for RunPiece {
    fn drop(self) {
        let RunPiece { content: _ } = self;
    }
}

impl Model for RunPiece {
    ghost use Rattle.std.specs.Prelude.{List};
    ghost use Rattle.std.specs.Arc.{arc_value};
    ghost use Rattle.format_runs.specs.Runs.{Run};

    ghost Value = { List Run };

    ghost view = { λ p. arc_value p.content };
}

/// How many characters the runs have.
pub fn characters_of(runs: &[Run]) -> usize
    requires { character_count runs.now < 2 ^ 62 }
    ensures { result ≡ character_count runs.now }
{
    let mut count: usize = 0;
    for run in runs {
        count += run.characters();
    }
    count
}

impl Content {
    /// The runs.
    fn runs(&self) -> &[Run]
        ensures { result.now ≡ self.now }
    {
        self.runs.as_slice()
    }

    /// How many characters they have.
    fn characters(&self) -> usize
        ensures { result ≡ character_count self.now }
    {
        self.characters
    }
}

impl RunPiece {
    /// The piece of these runs. It is the one way to make a piece that others don't have already, and it is paid for.
    pub fn new(alloc: Global, runs: Vec<Run>, budget: &mut Budget) -> Result<RunPiece, AllocError>
        requires few { length runs.items ≤ 48 }
        requires short { character_count runs.items < 2 ^ 62 }
        ensures piece { IfOk result (λ piece. piece ≡ runs.items) }
        ensures paid { budget.new ≡ budget.old - piece_bytes (length runs.items) }
    {
        budget.pay(PIECE_BYTES + RUN_BYTES * runs.len());
        let characters = characters_of(runs.as_slice());
        let content = Content { runs, characters };
        let content = Arc::new(alloc, content)?;
        Ok(RunPiece { content })
    }

    /// Its runs.
    pub fn runs(&self) -> &[Run]
        ensures { result.now ≡ self.now }
    {
        self.content.runs()
    }

    /// How many characters they have.
    pub fn characters(&self) -> usize
        ensures { result ≡ character_count self.now }
    {
        self.content.characters()
    }
}

impl Piece for RunPiece {
    ghost use Rattle.format_runs.specs.Runs.{run_size};

    ghost size = { run_size };

    fn size(&self, measure: Measure) -> usize {
        match measure {
            Measure::Parts => self.content.runs().len(),
            Measure::Characters => self.content.characters(),
        }
    }

    fn share(&self) -> Result<RunPiece, AllocError> {
        let content = Arc::try_clone(&self.content)?;
        Ok(RunPiece { content })
    }
}
