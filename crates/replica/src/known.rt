//! What the operations of accepted changes are, as far as others name them.
ghost use Rattle.std.specs.Prelude.{◌≡◌, ◌∷◌, [], ◌++◌, List, Contains, IfOk, MatchOption};
ghost use Rattle.change_ops.specs.Runs.{inserts_of};
ghost use Rattle.change_ops.specs.IdRuns.{removals_of, revivals_of};
ghost use Rattle.change_ops.specs.Lines.{ops_of, ops_of_lines};
ghost use Rattle.change_ops.specs.declared.operation.Op.{Op};
ghost use Rattle.replica.specs.Knowing.{Knows, Passes, CausesAreThere, IsMissing};

use change_ops::id::OpId;
use change_ops::id_run::IdRun;
use change_ops::line::Line;
use change_ops::operation::{Named, Op};
use change_ops::run::Run;
use char_sequence::sequence::named_removal;
use removal_runs::ranges::IdRanges;
use std::alloc::{AllocError, Global};

/// Why an operation does not pass.
#[derive(Clone, Copy)]
pub(crate) enum Blocked {
    /// It names this id, which isn't there.
    Waits(OpId),
    OutOfMemory,
}

impl From<AllocError> for Blocked {
    ghost use Rattle.std.specs.Prelude.{◌≡◌};
    ghost use Rattle.replica.specs.declared.known.Blocked.TheVariants.{OutOfMemory};

    ghost from_gives = { λ _ e. e ≡ OutOfMemory };

    fn from(_error: AllocError) -> Blocked {
        Blocked::OutOfMemory
    }
}

/// The characters and the removals of operations, by their ids.
#[derive(Drop)]
pub(crate) struct Known {
    characters: IdRanges,
    removals: IdRanges,
}

impl Clone for Known {
    ghost is_clone = { λ old new. new ≡ old };

    fn clone(&self) -> Result<Known, AllocError> {
        let characters = self.characters.clone()?;
        let removals = self.removals.clone()?;
        Ok(Known {
            characters,
            removals,
        })
    }
}

/// The id, if it is one and not in the set.
fn absent(ids: &IdRanges, named: Option<OpId>) -> Option<OpId>
    ensures some { (id : OpId) → result ≡ Some id → (named ≡ Some id) × (Contains ids.now id → ⊥) }
    ensures none { result ≡ None → (id : OpId) → named ≡ Some id → Contains ids.now id }
{
    named.filter(|id| !ids.has(*id))
}

impl Known {
    /// No operation.
    pub(crate) fn new(alloc: Global) -> Known
        ensures { Knows [] result }
    {
        Known {
            characters: IdRanges::new(alloc),
            removals: IdRanges::new(alloc),
        }
    }

    /// An id that the operation names and that isn't there as what it is named: a character, or a removal.
    fn missing(&self, op: &Op) -> Option<OpId>
        ensures { (ops : List Op) → Knows ops self.now
            → MatchOption result (CausesAreThere ops op.now) (IsMissing ops op.now) }
    {
        let Named { first, second } = op.named();
        absent(&self.characters, first)
            .or(absent(&self.characters, second))
            .or(absent(&self.removals, named_removal(op)))
    }

    /// Counts an operation.
    fn note(&mut self, op: &Op) -> Result<(), AllocError>
        ensures { (ops : List Op) → Knows ops self.old → IfOk result (λ _. Knows (ops ++ op.now ∷ []) self.new) }
    {
        match op {
            Op::Insert { id, .. } => self.characters.insert(*id),
            Op::Remove { id, .. } => self.removals.insert(*id),
            Op::AddMark { .. } => Ok(()),
            Op::RemoveMark { .. } => Ok(()),
            Op::Revive { .. } => Ok(()),
        }
    }

    /// Counts an operation whose causes are all there; after an error what is known is of no use.
    fn pass(&mut self, op: &Op) -> Result<(), Blocked>
        ensures { Passes (op.now ∷ []) self.old self.new result }
    {
        if let Some(id) = self.missing(op) {
            return Err(Blocked::Waits(id));
        }
        self.note(op)?;
        Ok(())
    }

    /// Counts the inserts of a run one by one in the same way.
    fn pass_run(&mut self, run: &Run) -> Result<(), Blocked>
        ensures { Passes (inserts_of run.now) self.old self.new result }
    {
        for index in 0..run.characters().len() {
            self.pass(&run.insert(index))?;
        }
        Ok(())
    }

    /// Counts the removals of a run one by one in the same way.
    fn pass_removals(&mut self, run: IdRun) -> Result<(), Blocked>
        ensures { Passes (removals_of run) self.old self.new result }
    {
        for index in 0..run.count() as usize {
            self.pass(&run.removal(index))?;
        }
        Ok(())
    }

    /// Counts the revivals of a run one by one in the same way.
    fn pass_revivals(&mut self, run: IdRun) -> Result<(), Blocked>
        ensures { Passes (revivals_of run) self.old self.new result }
    {
        for index in 0..run.count() as usize {
            self.pass(&run.revival(index))?;
        }
        Ok(())
    }

    /// Counts the operations of a line in the same way.
    fn pass_line(&mut self, line: &Line) -> Result<(), Blocked>
        ensures { Passes (ops_of line.now) self.old self.new result }
    {
        match line {
            Line::Operation(op) => self.pass(op),
            Line::Run(run) => self.pass_run(run),
            Line::Removals(run) => self.pass_removals(*run),
            Line::Revivals(run) => self.pass_revivals(*run),
        }
    }

    /// Counts the operations of lines in the same way.
    pub(crate) fn pass_all(&mut self, lines: &[Line]) -> Result<(), Blocked>
        ensures { Passes (ops_of_lines lines.now) self.old self.new result }
    {
        for index in 0..lines.len() {
            self.pass_line(&lines[index])?;
        }
        Ok(())
    }
}
