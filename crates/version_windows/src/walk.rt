//! The places of characters of consecutive ids, in one walk over the text.
ghost use Rattle.std.specs.Prelude.{◌≡◌, ◌<◌, ◌≤◌, ℕ, List, Contains, MatchOption, length, true, ⊤};
ghost use Rattle.change_ops.specs.IdRuns.{later_id};
ghost use Rattle.version_windows.specs.Walked.{AreRemoved, CoversIds};
ghost use Rattle.change_ops.specs.declared.id.OpId.{OpId as TheId};
ghost use Rattle.change_ops.specs.declared.operation.Op.{Op};
ghost use Rattle.change_ops.specs.declared.operation.Op.TheVariants.{Remove};
ghost use Rattle.char_sequence.specs.Held.{HoldsRemovals};

use change_ops::id::OpId;
use change_ops::id_run::IdRun;
use char_sequence::runs::later;
use char_sequence::sequence::Sequence;
use mark_places::range::PlaceRange;

/// How many characters of a text a walk passes in the time that it takes to look one up.
const WALKED_PER_LOOKUP: usize = 16;

/// Whether a walk over the whole text takes no longer than looking up this many of its characters.
pub(crate) fn pays_to_walk(sequence: &Sequence, count: usize) -> bool {
    sequence.len() / WALKED_PER_LOOKUP < count
}

/// Whether the id is one of this many consecutive ones.
fn is_among(id: OpId, first: OpId, count: usize) -> bool
    ensures { (k : ℕ) → k < count → id ≡ later_id first k → result ≡ true }
{
    if id.node() != first.node() || id.counter() < first.counter() {
        return false;
    }
    id.counter() - first.counter() < count as u64
}

/// The least range with all characters of these consecutive ids.
pub(crate) fn places_of_ids(sequence: &Sequence, first: OpId, count: usize) -> PlaceRange
    ensures covered { CoversIds sequence.now.elements first count (length sequence.now.elements) result }
    ensures order { result.low ≤ result.high }
    ensures within { result.high ≤ length sequence.now.elements }
{
    let mut low = 0;
    let mut high = 0;
    let mut place = 0;
    for element in sequence.elements() {
        if is_among(element.id, first, count) {
            if high == 0 {
                low = place;
            }
            high = place + 1;
        }
        place += 1;
    }
    PlaceRange { low, high }
}

/// Whether the removal is of the character whose id is greater by `by` than the first one's.
fn removes_later(sequence: &Sequence, removal: OpId, first: OpId, by: usize) -> bool
    requires { by < 65536 }
    ensures { result ≡ true → (ops : List Op) → HoldsRemovals sequence.now.removals ops → (x : TheId)
        → Contains ops (Remove removal x) → x ≡ later_id first by }
{
    match sequence.removed_by(removal) {
        Some(target) => {
            target.node() == first.node() && target.counter() == first.counter() + by as u64
        }
        None => false,
    }
}

/// The first of the characters that the removals remove which the run names, if those have consecutive ids too.
fn first_removed(sequence: &Sequence, run: IdRun) -> Option<OpId>
    ensures { MatchOption result ⊤ (λ first. AreRemoved sequence.now run.first run.count first) }
{
    let count = run.count() as usize;
    let removal = run.first();
    let first = sequence.removed_by(removal)?;
    for index in 0..count {
        if !removes_later(sequence, later(removal, index), first, index) {
            return None;
        }
    }
    Some(first)
}

/// The same, where it pays to walk over the text for those characters.
pub(crate) fn first_to_walk(sequence: &Sequence, run: IdRun, count: usize) -> Option<OpId>
    ensures { MatchOption result ⊤ (λ first. AreRemoved sequence.now run.first run.count first) }
{
    if pays_to_walk(sequence, count) {
        first_removed(sequence, run)
    } else {
        None
    }
}
