//! The removals of one peer, in runs.
ghost use Rattle.std.specs.Prelude.{◌≡◌, ◌+◌, ◌<◌, ◌≤◌, ◌^◌, ◌∷◌, ◌++◌, [], ℕ, IfSome, IfOk, OnOk, OnErr};
ghost use Rattle.std.specs.Prelude.{Contains, Some, length};
ghost use Rattle.removal_runs.specs.Apart.{AreApart, HaveBegun};
ghost use Rattle.removal_runs.specs.Removals.{PeerRemoval, AreRuns, begin_of_run};
ghost use Rattle.removal_runs.specs.declared.run.Run.{Run as TheRun};

use crate::run::Run;
use change_ops::id::OpId;
use std::alloc::{AllocError, Global};
use std::marker::Model;

/// A peer's removals: since its counters rise, a removal goes on the last run or begins one behind it.
#[derive(Drop)]
pub(crate) struct PeerRuns {
    node: u16,
    runs: Vec<Run>,
}

impl Model for PeerRuns {
    ghost use Rattle.std.specs.Prelude.{flat_map};
    ghost use Rattle.removal_runs.specs.Removals.{PeerRemovals, removals_in, AreRuns};

    ghost Value = { PeerRemovals };

    ghost view = { λ p. record { node = p.node; removals = flat_map removals_in p.runs.items } };

    ghost invariant = { λ p. AreRuns p.runs.items };
}

/// How many of the runs begin at the counter or before it.
fn begun_by(runs: &[Run], counter: u64) -> usize
    requires { AreRuns runs.now }
    ensures { HaveBegun begin_of_run runs.now counter result }
{
    runs.partition_point(|run| run.counter <= counter)
}

/// Makes room for one more run: where there is none, for an eighth more, so that little of it stays unused.
fn make_room(runs: &mut Vec<Run>) -> Result<(), AllocError>
    ensures { runs.new.items ≡ runs.old.items }
{
    if runs.len() == runs.capacity() {
        runs.reserve_exact(runs.len() / 8 + 1)?;
    }
    Ok(())
}

impl PeerRuns {
    /// No removal of this peer.
    pub(crate) fn new(alloc: Global, node: u16) -> PeerRuns
        ensures node { result.node ≡ node }
        ensures removals { result.removals ≡ [] }
    {
        PeerRuns {
            node,
            runs: Vec::new(alloc),
        }
    }

    /// The peer.
    pub(crate) fn node(&self) -> u16
        ensures { result ≡ self.now.node }
    {
        self.node
    }

    /// How many runs the removals take.
    pub(crate) fn run_count(&self) -> usize
        ensures { result ≤ length self.now.removals }
    {
        self.runs.len()
    }

    /// The character that the removal with this counter removes.
    pub(crate) fn target_of(&self, counter: u64) -> Option<OpId>
        ensures found { IfSome result (λ x. Contains self.now.removals (record { counter = counter; target = x })) }
        ensures only { (x : OpId) → Contains self.now.removals (record { counter = counter; target = x })
            → result ≡ Some x }
    {
        let begun = begun_by(&self.runs, counter);
        if begun == 0 {
            return None;
        }
        self.runs[begun - 1].target_of(counter)
    }

    /// Adds a removal whose counter is above all others.
    pub(crate) fn push(&mut self, counter: u64, target: OpId) -> Result<(), AllocError>
        requires small { counter < 2 ^ 48 }
        requires above { (r : PeerRemoval) → Contains self.old.removals r → r.counter < counter }
        ensures node { self.new.node ≡ self.old.node }
        ensures ok { OnOk result (self.new.removals
            ≡ self.old.removals ++ (record { counter = counter; target = target }) ∷ []) }
        ensures err { OnErr result (self.new.removals ≡ self.old.removals) }
    {
        let count = self.runs.len();
        if count > 0 {
            if let Some(longer) = self.runs[count - 1].longer(counter, target) {
                self.runs[count - 1] = longer;
                return Ok(());
            }
        }
        make_room(&mut self.runs)?;
        self.runs.push(Run::one(counter, target))?;
        Ok(())
    }
}

impl Clone for PeerRuns {
    ghost is_clone = { λ old new. new ≡ old };

    fn clone(&self) -> Result<PeerRuns, AllocError> {
        let runs = self.runs.clone()?;
        Ok(PeerRuns {
            node: self.node,
            runs,
        })
    }
}
