//! Removals that were made one after the other, and revivals that were.
ghost use Rattle.std.specs.Prelude.{◌≡◌, ◌<◌, IsTrue, Some, slice_get};
ghost use Rattle.change_ops.specs.Ids.{checked};
ghost use Rattle.change_ops.specs.IdRuns.{id_run_within, removals_of, revivals_of};

use crate::id::OpId;
use crate::operation::Op;
use std::marker::Model;

/// Consecutive ids of a peer's operations, and as many consecutive ids that they name: 2 to 65,535.
#[derive(Clone, Copy)]
pub struct IdRun {
    id: OpId,
    first: OpId,
    count: u32,
}

impl Model for IdRun {
    ghost use Rattle.std.specs.Prelude.{IsTrue};
    ghost use Rattle.change_ops.specs.IdRuns.{IdRun as IdRunValue, id_run_within};

    ghost Value = { IdRunValue };

    ghost view = { λ r. record { id = r.id; first = r.first; count = r.count } };

    ghost invariant = { λ r. IsTrue (id_run_within (record { id = r.id; first = r.first; count = r.count })) };

    ghost inverse = { λ r. record { id = r.id; first = r.first; count = r.count } };
}

impl IdRun {
    /// The run of these ids and this number, if it is within the limits.
    pub fn new(id: OpId, first: OpId, count: u64) -> Option<Self>
        ensures { result ≡ checked id_run_within (record { id = id; first = first; count = count }) }
    {
        let last = 1 << 48;
        if count < 2 || count > 65535 {
            return None;
        }
        if id.counter() + count > last || first.counter() + count > last {
            return None;
        }
        Some(IdRun {
            id,
            first,
            count: count as u32,
        })
    }

    /// The id of the first operation.
    pub fn id(self) -> OpId
        ensures { result ≡ self.id }
    {
        self.id
    }

    /// The first id that the operations name.
    pub fn first(self) -> OpId
        ensures { result ≡ self.first }
    {
        self.first
    }

    /// How many operations they are.
    pub fn count(self) -> u32
        ensures value { result ≡ self.count }
        ensures limits { IsTrue (id_run_within self) }
    {
        self.count
    }

    /// The removal at an index, where the run is one of removals.
    pub fn removal(self, index: usize) -> Op
        requires { index < self.count }
        ensures { slice_get (removals_of self) index ≡ Some result }
    {
        Op::Remove {
            id: self.id.later(index),
            target: self.first.later(index),
        }
    }

    /// The revival at an index, where the run is one of revivals.
    pub fn revival(self, index: usize) -> Op
        requires { index < self.count }
        ensures { slice_get (revivals_of self) index ≡ Some result }
    {
        Op::Revive {
            id: self.id.later(index),
            removal: self.first.later(index),
        }
    }
}
