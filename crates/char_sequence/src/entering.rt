//! Removals and revivals are noted and kept together: the error is want of memory, and changes nothing.
ghost use Rattle.std.specs.Prelude.{◌≡◌, ◌<◌, ◌↔◌, ◌⊎◌, ◌++◌, ◌∷◌, [], List, Contains, IsTrue};
ghost use Rattle.std.specs.Prelude.{MatchOption, IfOk, OnOk, OnErr};
ghost use Rattle.change_ops.specs.Operations.{id_of};
ghost use Rattle.change_ops.specs.declared.id.OpId.{OpId};
ghost use Rattle.change_ops.specs.declared.operation.Op.{Op};
ghost use Rattle.removal_runs.specs.Removals.{Removal};
ghost use Rattle.removal_runs.specs.Open.{Removes, HasOpen, IsOnlyOpen};
ghost use Rattle.char_sequence.specs.Acceptance.{Used};
ghost use Rattle.char_sequence.specs.Newest.{IsNewest};

use crate::newest::Newest;
use change_ops::id::OpId;
use removal_runs::removals::Removals;
use std::alloc::AllocError;

/// Enters a removal of a character that is hidden or visible.
pub(crate) fn enter_removal(
    newest: &mut Newest,
    removals: &mut Removals,
    id: OpId,
    target: OpId,
    is_hidden: bool,
) -> Result<(), AllocError>
    requires unused { (ops : List Op) × IsNewest ops newest.old × (Used ops id → ⊥) }
    requires fresh { (r : Removal) → Contains removals.old.removals r → r.id.node ≡ id.node
        → r.id.counter < id.counter }
    requires hidden { IsTrue is_hidden ↔ HasOpen removals.old target }
    ensures noted { (ops : List Op) (op : Op) → id_of op ≡ id → IsNewest ops newest.old
        → IfOk result (λ _. IsNewest (ops ++ op ∷ []) newest.new) }
    ensures added { OnOk result ((r x : OpId) → Removes removals.new r x
        ↔ (Removes removals.old r x ⊎ ((r ≡ id) × (x ≡ target)))) }
    ensures back { removals.new.back ≡ removals.old.back }
    ensures err { OnErr result ((newest.new ≡ newest.old) × (removals.new ≡ removals.old)) }
{
    let kept = newest.kept(id.node());
    newest.note(id)?;
    match removals.add(id, target, is_hidden) {
        Ok(()) => Ok(()),
        Err(error) => {
            newest.restore(id.node(), kept);
            Err(error)
        }
    }
}

/// Enters a revival, and answers the character that it shows, if it shows one.
pub(crate) fn enter_revival(
    newest: &mut Newest,
    removals: &mut Removals,
    id: OpId,
    removal: OpId,
) -> Result<Option<OpId>, AllocError>
    requires unused { (ops : List Op) × IsNewest ops newest.old × (Used ops id → ⊥) }
    requires known { (x : OpId) × Removes removals.old removal x }
    ensures noted { (ops : List Op) (op : Op) → id_of op ≡ id → IsNewest ops newest.old
        → IfOk result (λ _. IsNewest (ops ++ op ∷ []) newest.new) }
    ensures shown { IfOk result (λ shown. MatchOption shown ((x : OpId) → IsOnlyOpen removals.old removal x → ⊥)
        (IsOnlyOpen removals.old removal)) }
    ensures taken { OnOk result ((r : OpId) → Contains removals.new.back r
        ↔ (Contains removals.old.back r ⊎ (r ≡ removal))) }
    ensures removals { removals.new.removals ≡ removals.old.removals }
    ensures err { OnErr result ((newest.new ≡ newest.old) × (removals.new ≡ removals.old)) }
{
    let kept = newest.kept(id.node());
    newest.note(id)?;
    match removals.take_back(removal) {
        Ok(shown) => Ok(shown),
        Err(error) => {
            newest.restore(id.node(), kept);
            Err(error)
        }
    }
}
