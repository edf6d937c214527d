//! Removals that can be taken back, and which characters are shown by that.
ghost use Rattle.std.specs.Prelude.{◌≡◌, ◌<◌, ◌↔◌, ◌⊎◌, ◌+◌, [], Some, Contains, IsTrue, IsSome, Some};
ghost use Rattle.std.specs.Prelude.{MatchOption, IfOk, OnOk, OnErr, unwrap_or};
ghost use Rattle.std.specs.BTreeMap.{get};
ghost use Rattle.change_ops.specs.Ids.{id_cmp};
ghost use Rattle.change_ops.specs.declared.id.OpId.{OpId as TheId};
ghost use Rattle.removal_runs.specs.Removals.{Removal};
ghost use Rattle.removal_runs.specs.Open.{Removes, HasOpen, IsOnlyOpen, fewer};

use crate::ranges::IdRanges;
use crate::runs::RemovalRuns;
use change_ops::id::OpId;
use std::alloc::{AllocError, Global};
use std::collections::BTreeMap;
use std::marker::Model;

/// The removals of a text's characters, and which of them are taken back; the others are open.
#[derive(Drop)]
pub struct Removals {
    removals: RemovalRuns,
    back: IdRanges,
    // How many open removals a character has, where it has several; a character with one needs no memory here.
    counts: BTreeMap<OpId, u32>,
}

impl Model for Removals {
    ghost use Rattle.removal_runs.specs.Open.{Removals as RemovalsValue, AreCounted};

    ghost Value = { RemovalsValue };

    ghost view = { λ r. record { removals = r.removals; back = r.back } };

    ghost invariant = { λ r. AreCounted (record { removals = r.removals; back = r.back }) r.counts };
}

/// How many open removals a character that has one has.
fn count_of(counts: &BTreeMap<OpId, u32>, target: OpId) -> u32
    ensures { result ≡ unwrap_or (get id_cmp counts.now target) 1 }
{
    counts.get(&target).copied().unwrap_or(1)
}

/// One more; no memory holds more removals than there are counts.
fn one_more(count: u32) -> Result<u32, AllocError>
    ensures { IfOk result (λ more. more ≡ count + 1) }
{
    match count.checked_add(1) {
        Some(more) => Ok(more),
        None => Err(AllocError),
    }
}

/// Counts one open removal of a character less; a count of one isn't kept.
fn count_down(counts: &mut BTreeMap<OpId, u32>, target: OpId)
    ensures here { get id_cmp counts.new target ≡ fewer (get id_cmp counts.old target) }
    ensures others { (x : TheId) → (target ≡ x → ⊥) → get id_cmp counts.new x ≡ get id_cmp counts.old x }
{
    if let Some(count) = counts.get_mut(&target) {
        if *count > 2 {
            *count -= 1;
            return;
        }
    }
    counts.remove(&target);
}

/// Gives a character that has a count another one.
fn set_count(counts: &mut BTreeMap<OpId, u32>, target: OpId, more: u32)
    requires { IsSome (get id_cmp counts.old target) }
    ensures here { get id_cmp counts.new target ≡ Some more }
    ensures others { (x : TheId) → (target ≡ x → ⊥) → get id_cmp counts.new x ≡ get id_cmp counts.old x }
{
    if let Some(count) = counts.get_mut(&target) {
        *count = more;
    }
}

impl Removals {
    /// No removal.
    pub fn new(alloc: Global) -> Removals
        ensures removals { result.removals ≡ [] }
        ensures back { result.back ≡ [] }
    {
        Removals {
            removals: RemovalRuns::new(alloc),
            back: IdRanges::new(alloc),
            counts: BTreeMap::new(alloc),
        }
    }

    /// The character that the removal with this id removes.
    pub fn target_of(&self, removal: OpId) -> Option<OpId>
        ensures cases { MatchOption result ((x : TheId) → Removes self.now removal x → ⊥) (Removes self.now removal) }
        ensures only { (x : TheId) → Removes self.now removal x → result ≡ Some x }
    {
        self.removals.target_of(removal)
    }

    /// Whether the removal with this id is taken back.
    pub fn is_taken_back(&self, removal: OpId) -> bool
        ensures { IsTrue result ↔ Contains self.now.back removal }
    {
        self.back.has(removal)
    }

    /// The character that is shown once the removal is taken back: it has no other open one.
    pub fn shows(&self, removal: OpId) -> Option<OpId>
        ensures { MatchOption result ((x : TheId) → IsOnlyOpen self.now removal x → ⊥) (IsOnlyOpen self.now removal) }
    {
        if self.back.has(removal) {
            return None;
        }
        let target = self.removals.target_of(removal)?;
        if count_of(&self.counts, target) > 1 {
            None
        } else {
            Some(target)
        }
    }

    /// Adds a removal, whose counter is above those of its peer's others, of a character that is hidden where it has an
    /// open one.
    pub fn add(&mut self, id: OpId, target: OpId, is_hidden: bool) -> Result<(), AllocError>
        requires fresh { (r : Removal) → Contains self.old.removals r → r.id.node ≡ id.node
            → r.id.counter < id.counter }
        requires hidden { IsTrue is_hidden ↔ HasOpen self.old target }
        ensures ok { OnOk result ((r x : TheId) → Removes self.new r x
            ↔ (Removes self.old r x ⊎ ((r ≡ id) × (x ≡ target)))) }
        ensures back { self.new.back ≡ self.old.back }
        ensures err { OnErr result (self.new ≡ self.old) }
    {
        if !is_hidden {
            self.removals.add(id, target)?;
            return Ok(());
        }
        let count = count_of(&self.counts, target);
        let more = one_more(count)?;
        // The count has its memory before the removal is added.
        self.counts.insert(target, count)?;
        self.removals.add(id, target)?;
        set_count(&mut self.counts, target, more);
        Ok(())
    }

    /// Takes a removal back, and answers the character that is shown by that.
    pub fn take_back(&mut self, removal: OpId) -> Result<Option<OpId>, AllocError>
        requires { (x : TheId) × Removes self.old removal x }
        ensures shown { IfOk result (λ shown. MatchOption shown ((x : TheId) → IsOnlyOpen self.old removal x → ⊥)
            (IsOnlyOpen self.old removal)) }
        ensures ok { OnOk result ((r : TheId) → Contains self.new.back r ↔ (Contains self.old.back r ⊎ (r ≡ removal))) }
        ensures removals { self.new.removals ≡ self.old.removals }
        ensures err { OnErr result (self.new ≡ self.old) }
    {
        if self.back.has(removal) {
            return Ok(None);
        }
        let target = self.removals.target_of(removal).unwrap();
        let shown = self.shows(removal);
        self.back.insert(removal)?;
        count_down(&mut self.counts, target);
        Ok(shown)
    }
}

impl Clone for Removals {
    ghost is_clone = { λ old new. new ≡ old };

    fn clone(&self) -> Result<Removals, AllocError> {
        let removals = self.removals.clone()?;
        let back = self.back.clone()?;
        let counts = self.counts.clone()?;
        Ok(Removals {
            removals,
            back,
            counts,
        })
    }
}
