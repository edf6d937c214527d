ghost use Rattle.std.specs.Prelude.{vec_capacity, string_bytes, ◌≡◌, ℕ, ◌+◌, ◌^◌, ◌<◌, ◌≤◌, ◌∷◌, ◌++◌, []};
ghost use Rattle.std.specs.Prelude.{Some, cond, take, drop, set, insert, length, slice_get, MatchOption, IfSome};
ghost use Rattle.std.specs.String.{string_capacity};
ghost use Rattle.std.specs.String.Boundary.{IsSplitPoint};
ghost use Rattle.change_ops.specs.Ids.{Less};
ghost use Rattle.char_sequence.specs.declared.sequence.Element.{Element};
ghost use Rattle.char_sequence.specs.Order.{IsAt};
ghost use Rattle.char_sequence.specs.Index.{HasId};
ghost use Rattle.char_sequence.specs.Places.{IsNext};
ghost use Rattle.char_sequence.specs.Chunks.{IsFloor};
ghost use Rattle.char_sequence.specs.Visible.{visible_text, visible_count};
ghost use Rattle.char_sequence.specs.RunElements.{elements_from, insert_all};

use crate::counting::count_visible;
use crate::runs::{push_elements, put_elements};
use crate::sequence::Element;
use crate::visible::{push_with_room, visible_len, write_at, write_text};
use change_ops::character::Character;
use change_ops::id::OpId;
use std::alloc::{AllocError, Global};
use std::marker::Model;

/// The most elements that a chunk has.
pub(crate) const CHUNK_LIMIT: usize = 64;

/// The most bytes that their text has.
const TEXT_LIMIT: usize = 256;

/// Memory for a chunk.
#[derive(Drop)]
pub(crate) struct Blank {
    items: Vec<Element>,
    text: String,
    ghost ready: { (items.items ≡ []) × (64 ≤ vec_capacity items) × (string_bytes text ≡ [])
        × (256 ≤ string_capacity text) },
}

impl Blank {
    pub(crate) fn new(alloc: Global) -> Result<Blank, AllocError> {
        let items = Vec::with_capacity(alloc, CHUNK_LIMIT)?;
        let text = String::with_capacity(alloc, TEXT_LIMIT)?;
        Ok(Blank { items, text })
    }
}

/// The lesser of two ids.
fn lesser(a: OpId, b: OpId) -> OpId
    ensures first { Less a result → ⊥ }
    ensures second { Less b result → ⊥ }
{
    if a.is_below(b) { a } else { b }
}

/// How many visible characters an element adds.
fn shown_by(element: &Element) -> usize
    ensures { result ≡ cond element.now.visible 1 0 }
{
    if element.visible { 1 } else { 0 }
}

/// The least id.
fn floor_of(elements: &[Element]) -> OpId
    requires { 0 < length elements.now }
    ensures { IsFloor elements.now result }
{
    let mut floor = elements[0].id;
    for element in elements {
        floor = lesser(floor, element.id);
    }
    floor
}

/// From 1 to 64 consecutive elements, of which none is taken out, with memory for 64.
pub(crate) struct Chunk {
    items: Vec<Element>,
    // Their visible text, so that the text of many chunks is copied chunk by chunk.
    text: String,
    // How many of them are visible, so that the characters of many chunks are counted chunk by chunk.
    shown: usize,
    // No id is less, so that a walk past greater ids takes one look at a chunk.
    floor: OpId,
}

impl Drop for Chunk {
    fn drop(self) {
        let Chunk {
            items: _,
            text: _,
            shown: _,
            floor: _,
        } = self;
    }
}

impl Model for Chunk {
    ghost use Rattle.std.specs.Prelude.{◌≡◌, List, vec_capacity, string_bytes};
    ghost use Rattle.std.specs.String.{string_capacity};
    ghost use Rattle.char_sequence.specs.declared.sequence.Element.{Element};
    ghost use Rattle.char_sequence.specs.Chunks.{IsChunk, IsFloor, IsTextOf};
    ghost use Rattle.char_sequence.specs.Visible.{visible_count};

    ghost Value = { List Element };

    ghost view = { λ c. c.items.items };

    ghost invariant = { λ c. IsChunk c.items.items (vec_capacity c.items)
        × IsTextOf c.items.items (string_bytes c.text) (string_capacity c.text) × IsFloor c.items.items c.floor
        × (c.shown ≡ visible_count c.items.items) };
}

impl Chunk {
    /// A chunk of one element.
    pub(crate) fn one(blank: Blank, element: Element) -> Chunk
        ensures { result ≡ element ∷ [] }
    {
        let Blank {
            mut items,
            mut text,
        } = blank;
        let floor = element.id;
        items.push_reserved(element);
        write_text(&items, &mut text);
        let shown = count_visible(&items);
        Chunk {
            items,
            text,
            shown,
            floor,
        }
    }

    pub(crate) fn as_slice(&self) -> &[Element]
        ensures value { result.now ≡ self.now }
        ensures some { 0 < length self.now }
        ensures few { length self.now ≤ 64 }
    {
        self.items.as_slice()
    }

    pub(crate) fn len(&self) -> usize
        ensures value { result ≡ length self.now }
        ensures some { 0 < length self.now }
        ensures few { length self.now ≤ 64 }
    {
        self.items.len()
    }

    /// The visible text.
    pub(crate) fn text(&self) -> &str
        ensures value { result.now ≡ visible_text self.now }
        ensures few { length result.now ≤ 256 }
    {
        self.text.as_str()
    }

    /// The number of visible characters.
    pub(crate) fn shown(&self) -> usize
        ensures value { result ≡ visible_count self.now }
        ensures few { result ≤ 64 }
    {
        self.shown
    }

    /// The index within the chunk of an element of this id.
    pub(crate) fn index_of(&self, id: OpId) -> Option<usize>
        ensures within { IfSome result (λ k. k < 64) }
        ensures found { MatchOption result (HasId self.now id → ⊥) (λ k. IsAt self.now id k) }
    {
        // Where the chunk's characters were typed one after another, their counters are too.
        let typed = id.counter().saturating_sub(self.items[0].id.counter()) as usize;
        if typed < self.items.len() && self.items[typed].id == id {
            return Some(typed);
        }
        for index in 0..self.items.len() {
            if self.items[index].id == id {
                return Some(index);
            }
        }
        None
    }

    /// The first index from `start` on whose id is not greater.
    pub(crate) fn past_greater(&self, start: usize, id: OpId) -> Option<usize>
        ensures { MatchOption result ((i : ℕ) (x : Element) → start ≤ i → slice_get self.now i ≡ Some x
            → Less id x.id) (IsNext self.now id start) }
    {
        if id.is_below(self.floor) {
            return None;
        }
        self.first_not_greater(start, id)
    }

    fn first_not_greater(&self, start: usize, id: OpId) -> Option<usize>
        ensures { MatchOption result ((i : ℕ) (x : Element) → start ≤ i → slice_get self.now i ≡ Some x
            → Less id x.id) (IsNext self.now id start) }
    {
        for index in start..self.items.len() {
            if !id.is_below(self.items[index].id) {
                return Some(index);
            }
        }
        None
    }

    /// How many bytes of the text stand before an index.
    fn text_before(&self, index: usize) -> usize
        requires { index ≤ length self.now }
        ensures value { result ≡ length (visible_text (take index self.now)) }
        ensures split { IsSplitPoint (visible_text self.now) result }
    {
        let count = self.items.len();
        if index == count {
            self.text.len()
        } else {
            let (before, _) = self.items.split_at(index);
            visible_len(before)
        }
    }

    /// Puts an element at an index; those from there on move on.
    pub(crate) fn insert(&mut self, index: usize, element: Element)
        requires within { index ≤ length self.old }
        requires room { length self.old < 64 }
        ensures { self.new ≡ insert self.old index element }
    {
        let at = self.text_before(index);
        self.floor = lesser(self.floor, element.id);
        self.shown += shown_by(&element);
        self.items.insert(index, element).unwrap();
        write_at(&element, at, &mut self.text);
    }

    /// Appends the elements of a run.
    fn append_run(&mut self, id: OpId, characters: &[Character])
        requires room { length self.old + length characters.now ≤ 64 }
        requires counters { id.counter + length characters.now ≤ 2 ^ 48 }
        ensures { self.new ≡ self.old ++ elements_from id characters.now }
    {
        let start = self.items.len();
        push_elements(&mut self.items, id, characters);
        // The run's first id is its least.
        self.floor = lesser(self.floor, id);
        let (_, added) = self.items.split_at(start);
        push_with_room(added, &mut self.text);
        self.shown += characters.len();
    }

    /// Puts the elements of a run between others.
    fn insert_between(&mut self, index: usize, id: OpId, characters: &[Character])
        requires within { index ≤ length self.old }
        requires room { length self.old + length characters.now ≤ 64 }
        requires counters { id.counter + length characters.now ≤ 2 ^ 48 }
        ensures { self.new ≡ insert_all self.old index (elements_from id characters.now) }
    {
        put_elements(&mut self.items, index, id, characters);
        self.floor = lesser(self.floor, id);
        write_text(&self.items, &mut self.text);
        self.shown = count_visible(&self.items);
    }

    /// Puts the elements of a run at an index; those from there on move on.
    pub(crate) fn insert_run(&mut self, index: usize, id: OpId, characters: &[Character])
        requires within { index ≤ length self.old }
        requires room { length self.old + length characters.now ≤ 64 }
        requires counters { id.counter + length characters.now ≤ 2 ^ 48 }
        ensures { self.new ≡ insert_all self.old index (elements_from id characters.now) }
    {
        if index == self.items.len() {
            self.append_run(id, characters);
        } else {
            self.insert_between(index, id, characters);
        }
    }

    /// Hides the element at an index, or shows it at its place in the text.
    pub(crate) fn set_visible(&mut self, index: usize, visible: bool)
        requires { index < length self.old }
        ensures { (x : Element) → slice_get self.old index ≡ Some x
            → self.new ≡ set self.old index (record { id = x.id; character = x.character; visible = visible }) }
    {
        let mut element = self.items[index];
        if element.visible == visible {
            return;
        }
        let at = self.text_before(index);
        element.visible = visible;
        self.items[index] = element;
        if visible {
            write_at(&element, at, &mut self.text);
            self.shown += 1;
        } else {
            self.text.remove(at);
            self.shown -= 1;
        }
    }

    /// Moves the elements from an index on into a chunk of their own.
    pub(crate) fn split(&mut self, at: usize, blank: Blank) -> Chunk
        requires { (0 < at) × (at < length self.old) }
        ensures left { self.new ≡ take at self.old }
        ensures right { result ≡ drop at self.old }
    {
        let Blank {
            mut items,
            mut text,
        } = blank;
        items.extend_from_slice(&self.items[at..]).unwrap();
        self.items.truncate(at);
        write_text(&self.items, &mut self.text);
        self.shown = count_visible(&self.items);
        self.floor = floor_of(&self.items);
        write_text(&items, &mut text);
        let shown = count_visible(&items);
        let floor = floor_of(&items);
        Chunk {
            items,
            text,
            shown,
            floor,
        }
    }
}

impl Clone for Chunk {
    ghost is_clone = { λ old new. new ≡ old };

    fn clone(&self) -> Result<Chunk, AllocError> {
        let mut items = Vec::with_capacity(*self.items.allocator(), CHUNK_LIMIT)?;
        items.extend_from_slice(&self.items)?;
        let mut text = String::with_capacity(*self.items.allocator(), TEXT_LIMIT)?;
        text.push_str(&self.text)?;
        Ok(Chunk {
            items,
            text,
            shown: self.shown,
            floor: self.floor,
        })
    }
}
