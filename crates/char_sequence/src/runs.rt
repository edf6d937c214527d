//! Runs of characters, one behind the other, whose counters follow one another.
ghost use Rattle.std.specs.Prelude.{◌≡◌, ◌+◌, ◌^◌, ◌<◌, ◌≤◌, ◌++◌, ℕ, None, length, vec_capacity};
ghost use Rattle.change_ops.specs.declared.id.OpId.{OpId};
ghost use Rattle.char_sequence.specs.Named.{name_of, IsPeerPlace};
ghost use Rattle.char_sequence.specs.RunElements.{later_id, elements_from, insert_all, AreEntered};

use crate::index::Index;
use crate::sequence::Element;
use change_ops::character::Character;
use change_ops::id::OpId;

/// The id of the same peer whose counter is greater by `by`.
pub fn later(id: OpId, by: usize) -> OpId
    requires { id.counter + by < 2 ^ 48 }
    ensures { result ≡ later_id id by }
{
    OpId::new(id.counter() + by as u64, id.node() as u64).unwrap()
}

/// Puts a visible element for each character of a run at an index; there is memory for them.
pub(crate) fn put_elements(
    items: &mut Vec<Element>,
    index: usize,
    id: OpId,
    characters: &[Character],
)
    requires within { index ≤ length items.old.items }
    requires few { length items.old.items + length characters.now ≤ 64 }
    requires room { 64 ≤ vec_capacity items.old }
    requires counters { id.counter + length characters.now ≤ 2 ^ 48 }
    ensures items { items.new.items ≡ insert_all items.old.items index (elements_from id characters.now) }
    ensures capacity { vec_capacity items.old ≤ vec_capacity items.new }
{
    for by in 0..characters.len() {
        let element = Element {
            id: later(id, by),
            character: characters[by],
            visible: true,
        };
        items.insert(index + by, element).unwrap();
    }
}

/// Appends a visible element for each character of a run; there is memory for them.
pub(crate) fn push_elements(items: &mut Vec<Element>, id: OpId, characters: &[Character])
    requires few { length items.old.items + length characters.now ≤ 64 }
    requires room { 64 ≤ vec_capacity items.old }
    requires counters { id.counter + length characters.now ≤ 2 ^ 48 }
    ensures items { items.new.items ≡ items.old.items ++ elements_from id characters.now }
    ensures capacity { vec_capacity items.old ≤ vec_capacity items.new }
{
    for by in 0..characters.len() {
        items.push_reserved(Element {
            id: later(id, by),
            character: characters[by],
            visible: true,
        });
    }
}

/// Enters the elements of a run, whose counters are above all others of their peer.
pub(crate) fn push_run(index: &mut Index, place: usize, id: OpId, count: usize, name: usize)
    requires room { IsPeerPlace index.old id.node count place }
    requires above { (other : OpId) → other.node ≡ id.node → (name_of index.old other ≡ None → ⊥)
        → other.counter < id.counter }
    requires counters { id.counter + count ≤ 2 ^ 48 }
    ensures { AreEntered (name_of index.old) (name_of index.new) id count name }
{
    for by in 0..count {
        index.push(place, later(id, by), name);
    }
}
