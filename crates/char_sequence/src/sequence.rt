ghost use Rattle.std.specs.Prelude.{◌≡◌, ℕ, ◌<◌, ◌≤◌, ◌*◌, ◌==◌, ◌++◌, ◌∷◌, [], List, true, false, IsTrue, ◌↔◌, length};
ghost use Rattle.std.specs.Prelude.{slice_get, slice_range, string_bytes, MatchOption, IfOk, IfErr, OnOk, OnErr, Some};
ghost use Rattle.std.specs.Prelude.{◌+◌, ◌^◌, Contains, insert, take, drop, count_by, map, sum};

use crate::chunk_list::ChunkList;
use crate::elements::Elements;
use crate::entering::{enter_removal, enter_revival};
use crate::newest::Newest;
use crate::place_table::PlaceTable;
use crate::visible_cursor::VisibleCursor;
use change_ops::character::Character;
use change_ops::id::OpId;
use change_ops::operation::{Named, Op};
use change_ops::size::{BYTE_LIMIT, Size};
use refusal_titles::{DOCUMENT_FULL, STALE_COUNTER, UNKNOWN_REF};
use removal_runs::removals::Removals;
use std::alloc::{AllocError, Global};
use std::marker::Model;
use thiserror::Error;

/// A character of the text, with the id of the operation that inserted it.
#[derive(Clone, Copy)]
pub struct Element {
    pub id: OpId,
    pub character: Character,
    /// Whether each of its removals is taken back; a removed character stays as a tombstone.
    pub visible: bool,
}

/// Why an operation is not accepted.
#[derive(Clone, Copy, Debug, PartialEq, Eq, Error)]
pub enum SequenceError {
    /// Its counter is not above its peer's last one, or that of a character or a removal that it names.
    #[error("{STALE_COUNTER}")]
    StaleCounter,
    /// A character or a removal that it names is not there.
    #[error("{UNKNOWN_REF}")]
    UnknownRef,
    /// It inserts one character too many, or shows one that the text has no room for.
    #[error("{DOCUMENT_FULL}")]
    DocumentFull,
}

/// The most characters that a text has at any size, removed ones too.
pub const CHARACTER_LIMIT: usize = 262144;

/// The characters of a text in order, the last counter of each peer, and the removals, as a set of inserts, removals
/// and revivals makes them.
#[derive(Drop)]
pub struct Sequence {
    elements: ChunkList,
    newest: Newest,
    removals: Removals,
}

impl Model for Sequence {
    ghost use Rattle.std.specs.Prelude.{◌≤◌, List, length};
    ghost use Rattle.std.specs.Ordering.{nat_cmp};
    ghost use Rattle.std.specs.FinMap.{code};
    ghost use Rattle.std.specs.Coded.{codes, coded_ℕ};
    ghost use Rattle.change_ops.specs.declared.operation.Op.{Op};
    ghost use Rattle.char_sequence.specs.Held.{Sequence as SequenceValue, Holds};
    ghost use Rattle.char_sequence.specs.Chunks.{joined};
    ghost use Rattle.char_sequence.specs.Visible.{visible_text};
    ghost use Rattle.char_sequence.specs.declared.sequence.TheConstants.{CHARACTER_LIMIT};
    ghost use Rattle.change_ops.specs.declared.size.TheConstants.{BYTE_LIMIT};

    ghost Value = { SequenceValue };

    ghost coded = { Prim.hlevel (codes, code {R = nat_cmp} coded_ℕ coded_ℕ) };

    ghost view = { λ s. record { elements = joined s.elements.chunks; newest = s.newest; removals = s.removals } };

    ghost invariant = { λ s. (length (joined s.elements.chunks) ≤ CHARACTER_LIMIT)
        × (length (visible_text (joined s.elements.chunks)) ≤ BYTE_LIMIT)
        × ((ops : List Op)
        × Holds (record { elements = joined s.elements.chunks; newest = s.newest; removals = s.removals }) ops) };
}

ghost use Rattle.change_ops.specs.Ids.{Less};
ghost use Rattle.change_ops.specs.Operations.{id_of, is_insert, Names, NamesRemoval};
ghost use Rattle.change_ops.specs.Runs.{inserts_from};
ghost use Rattle.char_sequence.specs.Tree.{Present, IsRemoval, IsHidden};
ghost use Rattle.removal_runs.specs.Open.{Removes, IsOnlyOpen};
ghost use Rattle.char_sequence.specs.Order.{IsAt, IsText, Shows, SameSet};
ghost use Rattle.change_ops.specs.declared.size.Size.TheVariants.{Small, Large};
ghost use Rattle.change_ops.specs.declared.size.TheConstants.{BYTE_LIMIT};
ghost use Rattle.change_ops.specs.Sizes.{most_characters};
ghost use Rattle.char_sequence.specs.Acceptance.{NamesId, IsStale, IsUnknown, ShowsCharacter, HasNoRoom, Accepts};
ghost use Rattle.char_sequence.specs.Acceptance.{Checked, most_growth};
ghost use Rattle.char_sequence.specs.Newest.{IsNewest};
ghost use Rattle.char_sequence.specs.Held.{Holds, HoldsRemovals, HasInserts};
ghost use Rattle.char_sequence.specs.Index.{HasId};
ghost use Rattle.char_sequence.specs.Chunks.{joined, AreInChunks};
ghost use Rattle.char_sequence.specs.Visible.{visible_text, visible_count, IsFirstVisible, IsLastVisible};
ghost use Rattle.char_sequence.specs.RunElements.{AcceptsRun};

/// Whether the counter of a named character, if there is one, is below this one's.
fn is_above(id: OpId, named: Option<OpId>) -> bool
    ensures yes { result ≡ true → (x : OpId) → named ≡ Some x → x.counter < id.counter }
    ensures no { result ≡ false → (x : OpId) × (named ≡ Some x) × (id.counter ≤ x.counter) }
{
    match named {
        Some(other) => other.counter() < id.counter(),
        None => true,
    }
}

fn is_there(elements: &ChunkList, named: Option<OpId>) -> bool
    ensures yes { result ≡ true → (x : OpId) → named ≡ Some x → HasId (joined elements.now.chunks) x }
    ensures no { result ≡ false → (x : OpId) × (named ≡ Some x) × (HasId (joined elements.now.chunks) x → ⊥) }
{
    match named {
        Some(id) => elements.has(id),
        None => true,
    }
}

/// The removal that the operation names, if it names one.
pub fn named_removal(op: &Op) -> Option<OpId>
    ensures { (r : OpId) → NamesRemoval op.now r ↔ result ≡ Some r }
{
    match op {
        Op::Revive { removal, .. } => Some(*removal),
        Op::Insert { .. } | Op::Remove { .. } => None,
        Op::AddMark { .. } | Op::RemoveMark { .. } => None,
    }
}

/// Whether the operation's counter is above those of the characters and of the removal that it names.
pub fn is_above_named(op: &Op) -> bool
    ensures yes { result ≡ true → (x : OpId) → NamesId op.now x → x.counter < (id_of op.now).counter }
    ensures no { result ≡ false → (x : OpId) × NamesId op.now x × ((id_of op.now).counter ≤ x.counter) }
{
    let id = op.id();
    let Named { first, second } = op.named();
    is_above(id, first) && is_above(id, second) && is_above(id, named_removal(op))
}

/// Whether the operation's counter is not above each that it has to be above.
fn is_stale(newest: &Newest, op: &Op) -> bool
    ensures yes { (ops : List Op) → IsNewest ops newest.now → result ≡ true → IsStale ops op.now }
    ensures no { (ops : List Op) → IsNewest ops newest.now → result ≡ false → IsStale ops op.now → ⊥ }
{
    newest.is_used(op.id()) || !is_above_named(op)
}

/// Whether a character that the operation names is not there.
fn lacks_character(elements: &ChunkList, op: &Op) -> bool
    ensures yes { (ops : List Op) → IsText ops (joined elements.now.chunks) → result ≡ true → IsUnknown ops op.now }
    ensures no { (ops : List Op) → IsText ops (joined elements.now.chunks) → result ≡ false → (x : OpId)
        → Names op.now x → Present ops x }
{
    let Named { first, second } = op.named();
    !is_there(elements, first) || !is_there(elements, second)
}

/// Whether the removal that the operation names, if it names one, is not there.
fn lacks_removal(removals: &Removals, op: &Op) -> bool
    ensures yes { (ops : List Op) → HoldsRemovals removals.now ops → result ≡ true → IsUnknown ops op.now }
    ensures no { (ops : List Op) → HoldsRemovals removals.now ops → result ≡ false → (r : OpId)
        → NamesRemoval op.now r → IsRemoval ops r }
{
    match named_removal(op) {
        Some(removal) => removals.target_of(removal).is_none(),
        None => false,
    }
}

/// Whether a character or a removal that the operation names is not there.
fn is_unknown(elements: &ChunkList, removals: &Removals, op: &Op) -> bool
    ensures yes { (ops : List Op) → IsText ops (joined elements.now.chunks) → HoldsRemovals removals.now ops
        → result ≡ true → IsUnknown ops op.now }
    ensures characters { (ops : List Op) → IsText ops (joined elements.now.chunks) → result ≡ false → (x : OpId)
        → Names op.now x → Present ops x }
    ensures removal { (ops : List Op) → HoldsRemovals removals.now ops → result ≡ false → (r : OpId)
        → NamesRemoval op.now r → IsRemoval ops r }
{
    lacks_character(elements, op) || lacks_removal(removals, op)
}

impl Sequence {
    /// The sequence that holds no operation.
    pub fn new(alloc: Global) -> Sequence
        ensures { Holds result [] }
    {
        Sequence {
            elements: ChunkList::new(alloc),
            newest: Newest::new(alloc),
            removals: Removals::new(alloc),
        }
    }

    /// Whether an operation is accepted at a size after those held; the error is the first reason, in the order of
    /// their numbers.
    pub fn check(&self, size: Size, op: &Op) -> Result<(), SequenceError>
        ensures { (ops : List Op) → Holds self.now ops → Checked size ops op.now result }
    {
        if is_stale(&self.newest, op) {
            return Err(SequenceError::StaleCounter);
        }
        if is_unknown(&self.elements, &self.removals, op) {
            return Err(SequenceError::UnknownRef);
        }
        let is_one_too_many = op.is_insert() && self.elements.len() >= size.characters();
        if is_one_too_many || self.has_no_room(op) {
            return Err(SequenceError::DocumentFull);
        }
        Ok(())
    }

    /// How many bytes the visible text has.
    pub fn bytes(&self) -> usize
        ensures value { result ≡ length (visible_text self.now.elements) }
        ensures limit { result ≤ BYTE_LIMIT }
    {
        self.elements.bytes()
    }

    /// The character that the operation shows: an insert's, or that of a removal that alone hides it.
    fn character_shown(&self, op: &Op) -> Option<Character>
        ensures { (ops : List Op) → Holds self.now ops
            → MatchOption result ((c : ℕ) → ShowsCharacter ops op.now c → ⊥) (ShowsCharacter ops op.now) }
    {
        match op {
            Op::Insert { character, .. } => Some(*character),
            Op::Revive { removal, .. } => {
                let target = self.removals.shows(*removal)?;
                let element = self.elements.element_of(target)?;
                Some(element.character)
            }
            Op::Remove { .. } | Op::AddMark { .. } | Op::RemoveMark { .. } => None,
        }
    }

    /// Whether the visible text has no room for the character that the operation shows.
    pub fn has_no_room(&self, op: &Op) -> bool
        ensures { (ops : List Op) → Holds self.now ops → IsTrue result ↔ HasNoRoom ops op.now }
    {
        match self.character_shown(op) {
            Some(character) => self.elements.bytes() + character.value().len_utf8() > BYTE_LIMIT,
            None => false,
        }
    }

    /// Adds an insert that passed `check`; the error is want of memory, and changes nothing.
    pub fn insert(&mut self, op: &Op) -> Result<(), AllocError>
        requires insert { is_insert op.now ≡ true }
        requires accepted { (ops : List Op) → Holds self.old ops → Accepts Large ops op.now }
        ensures held { (ops : List Op) → Holds self.old ops → IfOk result (λ _. Holds self.new (ops ++ op.now ∷ [])) }
        ensures shows { (ops : List Op) → Shows self.old.elements ops → Accepts Large ops op.now
            → IfOk result (λ _. Shows self.new.elements (ops ++ op.now ∷ [])) }
        ensures err { IfErr result (λ _. self.new ≡ self.old) }
    {
        let Op::Insert {
            id,
            parent,
            character,
        } = op
        else {
            unreachable!();
        };
        let id = *id;
        let room = self.elements.reserve(*parent, id)?;
        let element = Element {
            id,
            character: *character,
            visible: true,
        };
        self.elements.put(&mut self.newest, room, element)?;
        Ok(())
    }

    /// Adds the inserts of a run's first characters, which are accepted, as many as go into one chunk, and answers how
    /// many they are; the error is want of memory, and changes nothing.
    pub fn insert_some(
        &mut self,
        id: OpId,
        parent: Option<OpId>,
        characters: &[Character],
    ) -> Result<usize, AllocError>
        requires some { 0 < length characters.now }
        requires counters { id.counter + length characters.now ≤ 2 ^ 48 }
        requires accepted { (ops : List Op) → Holds self.old ops → AcceptsRun Large ops id parent characters.now }
        ensures count { IfOk result (λ n. (0 < n) × (n ≤ length characters.now)) }
        ensures held { (ops : List Op) → Holds self.old ops
            → IfOk result (λ n. Holds self.new (ops ++ inserts_from id parent (take n characters.now))) }
        ensures shows { (ops : List Op) → Shows self.old.elements ops → AcceptsRun Large ops id parent characters.now
            → IfOk result (λ n. Shows self.new.elements (ops ++ inserts_from id parent (take n characters.now))) }
        ensures err { IfErr result (λ _. self.new ≡ self.old) }
    {
        let room = self.elements.reserve(parent, id)?;
        let count = self
            .elements
            .put_some(&mut self.newest, room, id, characters)?;
        Ok(count)
    }

    /// Adds a removal that passed `check`; the error is want of memory, and changes nothing.
    pub fn remove(&mut self, op: &Op) -> Result<(), AllocError>
        requires removal { (r : OpId) × ((x : OpId) × (op.now ≡ Op.Remove r x)) }
        requires accepted { (ops : List Op) → Holds self.old ops → Accepts Large ops op.now }
        ensures held { (ops : List Op) → Holds self.old ops → IfOk result (λ _. Holds self.new (ops ++ op.now ∷ [])) }
        ensures shows { (ops : List Op) → Shows self.old.elements ops → Accepts Large ops op.now
            → IfOk result (λ _. Shows self.new.elements (ops ++ op.now ∷ [])) }
        ensures err { IfErr result (λ _. self.new ≡ self.old) }
    {
        let Op::Remove { id, target } = op else {
            unreachable!();
        };
        let element = self.elements.element_of(*target).unwrap();
        enter_removal(
            &mut self.newest,
            &mut self.removals,
            *id,
            *target,
            !element.visible,
        )?;
        self.elements.set_visible(*target, false);
        Ok(())
    }

    /// Adds a revival that passed `check`; the error is want of memory, and changes nothing.
    pub fn revive(&mut self, op: &Op) -> Result<(), AllocError>
        requires revival { (v : OpId) × ((r : OpId) × (op.now ≡ Op.Revive v r)) }
        requires accepted { (ops : List Op) → Holds self.old ops → Accepts Large ops op.now }
        ensures held { (ops : List Op) → Holds self.old ops → IfOk result (λ _. Holds self.new (ops ++ op.now ∷ [])) }
        ensures shows { (ops part : List Op) → HasInserts ops part → Holds self.old part → Shows self.old.elements ops
            → Accepts Large ops op.now → IfOk result (λ _. Shows self.new.elements (ops ++ op.now ∷ [])) }
        ensures err { IfErr result (λ _. self.new ≡ self.old) }
    {
        let Op::Revive { id, removal } = op else {
            unreachable!();
        };
        let shown = enter_revival(&mut self.newest, &mut self.removals, *id, *removal)?;
        match shown {
            Some(target) => self.elements.set_visible(target, true),
            None => {}
        }
        Ok(())
    }

    /// The number of characters, removed ones too, before this one.
    pub fn place_of(&self, id: OpId) -> Option<usize>
        ensures found { MatchOption result (HasId self.now.elements id → ⊥) (λ k. IsAt self.now.elements id k) }
        ensures present { (ops : List Op) → Shows self.now.elements ops
            → MatchOption result (Present ops id → ⊥) (λ k. IsAt self.now.elements id k) }
    {
        self.elements.place_of(id)
    }

    /// The places of all characters by their ids, as they are now.
    ///
    /// `alloc` is for the table.
    pub fn place_table(&self, alloc: Global) -> Result<PlaceTable<'_>, AllocError>
        ensures { IfOk result (λ table. table ≡ self.now.elements) }
    {
        self.elements.place_table(alloc)
    }

    /// Whether the character is there, removed or not.
    pub fn has(&self, id: OpId) -> bool
        ensures { (ops : List Op) → Shows self.now.elements ops → IsTrue result ↔ Present ops id }
    {
        self.elements.has(id)
    }

    /// The character of this id, removed or not, if it is there.
    pub fn element_of(&self, id: OpId) -> Option<Element>
        ensures { MatchOption result (HasId self.now.elements id → ⊥)
            (λ e. (k : ℕ) × (slice_get self.now.elements k ≡ Some e) × (e.id ≡ id)) }
    {
        self.elements.element_of(id)
    }

    /// Whether the character is there and not removed.
    pub fn visible(&self, id: OpId) -> bool
        ensures { (ops : List Op) → Shows self.now.elements ops
            → IsTrue result ↔ Present ops id × (IsHidden ops id → ⊥) }
    {
        match self.elements.element_of(id) {
            Some(element) => element.visible,
            None => false,
        }
    }

    /// The character that the removal with this id removes, if there is such a removal.
    pub fn removed_by(&self, removal: OpId) -> Option<OpId>
        ensures cases { MatchOption result ((x : OpId) → Removes self.now.removals removal x → ⊥)
            (Removes self.now.removals removal) }
        ensures only { (x : OpId) → Removes self.now.removals removal x → result ≡ Some x }
    {
        self.removals.target_of(removal)
    }

    /// Whether there is a removal with this id, taken back or not.
    pub fn has_removal(&self, removal: OpId) -> bool
        ensures { (ops : List Op) → Holds self.now ops → IsTrue result ↔ IsRemoval ops removal }
    {
        self.removals.target_of(removal).is_some()
    }

    /// Whether the removal is taken back.
    pub fn is_taken_back(&self, removal: OpId) -> bool
        ensures { IsTrue result ↔ Contains self.now.removals.back removal }
    {
        self.removals.is_taken_back(removal)
    }

    /// The hidden character that is shown once the removal is taken back, if there is one.
    pub fn shown_without(&self, removal: OpId) -> Option<OpId>
        ensures { MatchOption result ((x : OpId) → IsOnlyOpen self.now.removals removal x → ⊥)
            (IsOnlyOpen self.now.removals removal) }
    {
        self.removals.shows(removal)
    }

    /// The character at a place, which counts removed ones too, if there is one.
    pub fn element_at(&self, place: usize) -> Option<Element>
        ensures { result ≡ slice_get self.now.elements place }
    {
        self.elements.element_at(place)
    }

    /// The number of characters, removed ones too.
    pub fn len(&self) -> usize
        ensures value { result ≡ length self.now.elements }
        ensures limit { length self.now.elements ≤ CHARACTER_LIMIT }
        ensures bytes { length (visible_text self.now.elements) ≤ BYTE_LIMIT }
        ensures held { (ops : List Op) × Holds self.now ops }
    {
        self.elements.len()
    }

    /// Whether there is no character, not even a removed one.
    pub fn is_empty(&self) -> bool
        ensures { result ≡ (length self.now.elements == 0) }
    {
        self.elements.len() == 0
    }

    /// All characters in order, removed ones too.
    pub fn elements(&self) -> Elements<'_>
        ensures value { result ≡ self.now.elements }
        ensures limit { length self.now.elements ≤ CHARACTER_LIMIT }
        ensures bytes { length (visible_text self.now.elements) ≤ BYTE_LIMIT }
        ensures held { (ops : List Op) × Holds self.now ops }
    {
        Elements {
            items: &[],
            chunks: self.elements.as_slice(),
            count: self.elements.len(),
        }
    }

    /// All characters in order, to read the visible ones of them piece after piece.
    pub fn visible_from_start(&self) -> VisibleCursor<'_>
        ensures { result ≡ self.now.elements }
    {
        VisibleCursor {
            chunks: self.elements.as_slice(),
            read: 0,
        }
    }

    /// The characters from a place on, to read the visible ones of them piece after piece.
    pub fn visible_from(&self, place: usize) -> VisibleCursor<'_>
        requires { place ≤ length self.now.elements }
        ensures { result ≡ drop place self.now.elements }
    {
        self.elements.visible_from(place)
    }

    /// The number of visible characters before a place.
    pub fn visible_before(&self, place: usize) -> usize
        requires { place ≤ length self.now.elements }
        ensures { result ≡ visible_count (take place self.now.elements) }
    {
        self.elements.visible_before(place)
    }

    /// The place of the last visible character before a place, if there is one.
    pub fn visible_place_before(&self, place: usize) -> Option<usize>
        requires { place ≤ length self.now.elements }
        ensures { MatchOption result (visible_count (take place self.now.elements) ≡ 0)
            (λ at. IsLastVisible self.now.elements place at) }
    {
        self.elements.visible_place_before(place)
    }

    /// The place of the first visible character from a place on, if there is one.
    pub fn visible_place_from(&self, place: usize) -> Option<usize>
        requires { place ≤ length self.now.elements }
        ensures { MatchOption result (visible_count (drop place self.now.elements) ≡ 0)
            (λ at. IsFirstVisible self.now.elements place at) }
    {
        self.elements.visible_place_from(place)
    }

    /// The number of chunks that the characters are kept in, and the length of the longest.
    pub fn shape(&self) -> (usize, usize)
        ensures chunks { AreInChunks self.now.elements result.0 result.1 }
        ensures limit { result.1 ≤ 64 }
        ensures enough { length self.now.elements ≤ result.0 * result.1 }
        ensures few { result.0 ≤ length self.now.elements }
        ensures none { length self.now.elements ≡ 0 → result ≡ (0, 0) }
    {
        self.elements.shape()
    }
}

impl Clone for Sequence {
    ghost is_clone = { λ old new. new ≡ old };

    fn clone(&self) -> Result<Sequence, AllocError> {
        let elements = self.elements.clone()?;
        let newest = self.newest.clone()?;
        let removals = self.removals.clone()?;
        Ok(Sequence {
            elements,
            newest,
            removals,
        })
    }
}

/// The law that replicas converge: two sequences that hold one set of operations, in whatever order they were accepted,
/// have equal elements.
pub fn same_set_same_text(first: &Sequence, second: &Sequence)
    ensures { (ops others : List Op) → Shows first.now.elements ops → Shows second.now.elements others
        → SameSet ops others → first.now.elements ≡ second.now.elements }
{}

/// The law that what is accepted at the small size is accepted at the large one.
pub fn small_is_large()
    ensures { (ops : List Op) (op : Op) → Accepts Small ops op → Accepts Large ops op }
{}

/// The law that as many characters as the small size allows always have room for their bytes, also where hidden ones of
/// them are shown again.
pub fn small_has_room(sequence: &Sequence)
    ensures inserts { (ops : List Op) (op : Op) → Holds sequence.now ops
        → count_by is_insert ops < most_characters Small → HasNoRoom ops op → ⊥ }
    ensures revivals { (ops : List Op) (op : Op) → Holds sequence.now ops
        → count_by is_insert ops ≤ most_characters Small → is_insert op ≡ false → HasNoRoom ops op → ⊥ }
{}

/// The law that more operations lengthen the visible text by no more bytes than they insert, and four for a revival.
pub fn text_grows_by()
    ensures { (ops added : List Op) (es later : List Element) → Shows es ops → Shows later (ops ++ added)
        → length (visible_text later) ≤ length (visible_text es) + sum (map most_growth added) }
{}
