//! What a core's history begins with.
ghost use Rattle.std.specs.Prelude.{◌≡◌, [], IfOk};
ghost use Rattle.crossbeam_queue.specs.Passes.{view as view_of};
ghost use Rattle.call_history.specs.Rules.{recording};

use crate::entry::{CoreBoard, CorePass};
use call_history::knowledge::new_board;
use std::alloc::{AllocError, Global};
use std::marker::Model;
use std::sync::ledger::Blank;

/// What it takes to begin one history: a ledger that is of none yet, the board of a history with no entry, and the pass
/// that records it. Contracts see the ledger's name and parts, and which history it is.
pub struct Start {
    blank: Blank,
    board: CoreBoard,
    recorder: CorePass,
}

impl Drop for Start {
    fn drop(self) {
        let Start {
            blank: _,
            board: _,
            recorder: _,
        } = self;
    }
}

impl Model for Start {
    ghost use Rattle.std.specs.Prelude.{◌≡◌, []};
    ghost use Rattle.crossbeam_queue.specs.Passes.{view as view_of};
    ghost use Rattle.call_history.specs.Rules.{recording};
    ghost use Rattle.core_history.specs.Starting.{Start as StartValue};

    ghost Value = { StartValue };

    ghost view = { λ s. record {
      name = s.blank.name;
      parts = s.blank.parts;
      table = s.board.table.shared.table_id;
    } };

    ghost invariant = { λ s. (s.recorder.table_id ≡ s.board.table.shared.table_id) × (s.recorder.me.1 ≡ [])
        × (view_of s.recorder ≡ recording []) };
}

impl Start {
    /// The start of a history whose calls are made by shares of so many parts in all.
    pub fn new(alloc: Global, parts: u64) -> Result<Start, AllocError>
        ensures { IfOk result (λ start. start.parts ≡ parts) }
    {
        let (board, recorder) = new_board(alloc)?;
        Ok(Start {
            blank: Blank::new(parts),
            board,
            recorder,
        })
    }

    /// What it is made of.
    pub(crate) fn into_parts(self) -> (Blank, CoreBoard, CorePass)
        ensures blank { (result.0.name ≡ self.name) × (result.0.parts ≡ self.parts) }
        ensures board { result.1.table.shared.table_id ≡ self.table }
        ensures recorder { (result.2.table_id ≡ self.table) × (result.2.me.1 ≡ [])
            × (view_of result.2 ≡ recording []) }
    {
        let Start {
            blank,
            board,
            recorder,
        } = self;
        (blank, board, recorder)
    }
}
