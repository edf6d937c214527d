ghost use Rattle.std.specs.Prelude.{◌≡◌, ℕ, ◌<◌, ◌≤◌, ◌+◌, ◌-◌, ◌^◌, ◌⊎◌, ◌∷◌, ◌++◌, List, [], true, false, length};
ghost use Rattle.std.specs.Prelude.{take, drop, slice_get, set, insert, OnErr, MatchOption, IfSome, OnOk, IfOk, Some};
ghost use Rattle.std.specs.Prelude.{None};
ghost use Rattle.char_sequence.specs.declared.sequence.Element.{Element};
ghost use Rattle.char_sequence.specs.Order.{IsAt};
ghost use Rattle.change_ops.specs.declared.id.OpId.{OpId};
ghost use Rattle.change_ops.specs.declared.operation.Op.{Op};
ghost use Rattle.change_ops.specs.Operations.{id_of};
ghost use Rattle.char_sequence.specs.Acceptance.{Used};
ghost use Rattle.char_sequence.specs.Newest.{IsNewest};
ghost use Rattle.char_sequence.specs.Index.{same_id, HasId};
ghost use Rattle.char_sequence.specs.Places.{IsPast, IsAfter};
ghost use Rattle.char_sequence.specs.Chunks.{joined, start_of};
ghost use Rattle.char_sequence.specs.Visible.{visible_text, visible_count, IsFirstVisible, IsLastVisible};
ghost use Rattle.char_sequence.specs.Named.{name_of, IsAboveAll};
ghost use Rattle.char_sequence.specs.RunElements.{elements_from, insert_all, AreEntered};

use crate::chunk::{Blank, CHUNK_LIMIT, Chunk};
use crate::chunk_counts::ChunkCounts;
use crate::chunk_names::ChunkNames;
use crate::counting::count_visible;
use crate::index::Index;
use crate::newest::Newest;
use crate::place_table::{ChunkStart, PlaceTable};
use crate::runs::{later, push_run};
use crate::sequence::Element;
use crate::visible_cursor::VisibleCursor;
use crate::visible_places::{first_visible, last_visible};
use change_ops::character::Character;
use change_ops::id::OpId;
use std::alloc::{AllocError, Global};
use std::marker::Model;

/// A chunk by its position, and how many of its elements stand before.
#[derive(Clone, Copy)]
pub(crate) struct Spot {
    position: usize,
    at: usize,
}

impl Spot {
    /// The spot once the elements from `at` on are in the chunk after this one.
    fn after_split(self, at: usize) -> Spot
        requires { self.position < usize.MAX }
        ensures { ((self.at < at) × (result.position ≡ self.position) × (result.at ≡ self.at))
            ⊎ ((at ≤ self.at) × (result.position ≡ self.position + 1) × (result.at ≡ self.at - at)) }
    {
        if self.at < at {
            self
        } else {
            Spot {
                position: self.position + 1,
                at: self.at - at,
            }
        }
    }
}

/// The least that a part of a chunk has that is split where text is typed on.
const LEAST_PART: usize = 8;

/// Where a full chunk is split for an element at an index: behind the next element, so that what is typed on fills the
/// first part, but no part gets less than an eighth of the chunk; near the end before the last element.
fn split_point(at: usize) -> usize
    ensures { (0 < result) × (result < 64) }
{
    if at >= CHUNK_LIMIT - 1 {
        CHUNK_LIMIT - 1
    } else {
        (at + 1).clamp(LEAST_PART, CHUNK_LIMIT - LEAST_PART)
    }
}

/// Where an element goes, with memory for it.
#[derive(Drop)]
pub(crate) enum Room {
    /// It is the first of all.
    First(Blank),
    /// It goes into a chunk that is not full.
    In(Spot),
}

/// Consecutive elements, of which none is taken out, in chunks, found by their ids.
#[derive(Drop)]
pub(crate) struct ChunkList {
    chunks: Vec<Chunk>,
    names: ChunkNames,
    // How many elements each chunk has, and how many of them are visible.
    counts: ChunkCounts,
    // The name of each element's chunk.
    index: Index,
    count: usize,
    // How many bytes their visible text has.
    bytes: usize,
    // Where the last element was put, so that who types on finds it at once. Splits move elements, so it is only tried.
    last: Spot,
}

impl Model for ChunkList {
    ghost use Rattle.std.specs.Prelude.{◌-◌, min, vec_len, vec_capacity};
    ghost use Rattle.std.specs.Prelude.{◌≡◌, length};
    ghost use Rattle.char_sequence.specs.Chunks.{ChunkList as ChunkListValue, AreCounts, IsKept, joined};
    ghost use Rattle.char_sequence.specs.Named.{name_of};
    ghost use Rattle.char_sequence.specs.Visible.{visible_text};

    ghost Value = { ChunkListValue };

    ghost view = { λ l. record {
      chunks = l.chunks.items;
      room = min (vec_capacity l.chunks - vec_len l.chunks) (min l.names.room l.counts.room);
    } };

    ghost invariant = { λ l. IsKept l.chunks.items l.names.names (name_of l.index) l.count
        × (l.bytes ≡ length (visible_text (joined l.chunks.items))) × AreCounts l.chunks.items l.counts };
}

ghost use Rattle.char_sequence.specs.Chunks.{IsSpot, IsSpotOf};
ghost use Rattle.char_sequence.specs.Rooms.{IsRoom};

/// Whether the element at a spot, if there is one, has this id.
fn has_at(chunks: &[Chunk], spot: Spot, id: OpId) -> bool
    ensures within { result ≡ true → spot.at < 64 }
    ensures found { result ≡ true → IsSpotOf chunks.now id spot.position spot.at }
{
    if spot.position >= chunks.len() {
        return false;
    }
    let elements = chunks[spot.position].as_slice();
    spot.at < elements.len() && elements[spot.at].id == id
}

/// The spot past the greater ids, from this one on.
fn past_greater(chunks: &[Chunk], from: Spot, id: OpId) -> Spot
    requires { (place : ℕ) × IsSpot chunks.now from.position from.at place }
    ensures { (start : ℕ) → IsSpot chunks.now from.position from.at start
        → (place : ℕ) × IsSpot chunks.now result.position result.at place
        × IsPast (joined chunks.now) id start place }
{
    let mut at = from.at;
    for position in from.position..chunks.len() {
        if let Some(at) = chunks[position].past_greater(at, id) {
            return Spot { position, at };
        }
        at = 0;
    }
    let position = chunks.len() - 1;
    Spot {
        position,
        at: chunks[position].len(),
    }
}

/// Gives the elements, which have names, a new one.
fn rename(index: &mut Index, elements: &[Element], name: usize)
    requires { (k : ℕ) (e : Element) → slice_get elements.now k ≡ Some e
        → name_of index.old e.id ≡ None → ⊥ }
    ensures renamed { (k : ℕ) (e : Element) → slice_get elements.now k ≡ Some e
        → name_of index.new e.id ≡ Some name }
    ensures kept { (q : OpId) → (HasId elements.now q → ⊥)
        → name_of index.new q ≡ name_of index.old q }
{
    for element in elements {
        index.rename(element.id, name);
    }
}

/// Notes an id, and gives it a name; the error is want of memory, and changes nothing.
fn enter(index: &mut Index, newest: &mut Newest, id: OpId, name: usize) -> Result<(), AllocError>
    requires fresh { (ops : List Op) × IsNewest ops newest.old × (Used ops id → ⊥) }
    requires above { (q : OpId) → q.node ≡ id.node → (name_of index.old q ≡ None → ⊥) → q.counter < id.counter }
    ensures named { OnOk result (name_of index.new id ≡ Some name) }
    ensures kept { OnOk result ((q : OpId) → same_id id q ≡ false → name_of index.new q ≡ name_of index.old q) }
    ensures noted { (ops : List Op) (op : Op) → id_of op ≡ id → IsNewest ops newest.old
        → IfOk result (λ _. IsNewest (ops ++ op ∷ []) newest.new) }
    ensures unchanged { OnErr result ((q : OpId) → name_of index.new q ≡ name_of index.old q) }
    ensures same { OnErr result (newest.new ≡ newest.old) }
{
    // The element has its memory before the id is noted.
    let place = index.reserve(id.node(), 1)?;
    newest.note(id)?;
    index.push(place, id, name);
    Ok(())
}

/// The same of a run: its last id is noted, and all get the name.
fn enter_run(
    index: &mut Index,
    newest: &mut Newest,
    id: OpId,
    count: usize,
    name: usize,
) -> Result<(), AllocError>
    requires some { 0 < count }
    requires counters { id.counter + count ≤ 2 ^ 48 }
    requires fresh { (ops : List Op) × IsNewest ops newest.old × (Used ops id → ⊥) }
    requires above { (q : OpId) → q.node ≡ id.node → (name_of index.old q ≡ None → ⊥) → q.counter < id.counter }
    ensures entered { OnOk result (AreEntered (name_of index.old) (name_of index.new) id count name) }
    ensures noted { (ops : List Op) (op : Op) → (id_of op).node ≡ id.node
        → (id_of op).counter + 1 ≡ id.counter + count → IsNewest ops newest.old
        → IfOk result (λ _. IsNewest (ops ++ op ∷ []) newest.new) }
    ensures unchanged { OnErr result ((q : OpId) → name_of index.new q ≡ name_of index.old q) }
    ensures same { OnErr result (newest.new ≡ newest.old) }
{
    let place = index.reserve(id.node(), count)?;
    newest.note(later(id, count - 1))?;
    push_run(index, place, id, count, name);
    Ok(())
}

impl ChunkList {
    /// No element.
    pub(crate) fn new(alloc: Global) -> Self
        ensures { result.chunks ≡ [] }
    {
        ChunkList {
            chunks: Vec::new(alloc),
            names: ChunkNames::new(alloc),
            counts: ChunkCounts::new(alloc),
            index: Index::new(alloc),
            count: 0,
            bytes: 0,
            last: Spot { position: 0, at: 0 },
        }
    }

    /// The chunks in order.
    pub(crate) fn as_slice(&self) -> &[Chunk]
        ensures { result.now ≡ self.now.chunks }
    {
        self.chunks.as_slice()
    }

    /// The number of elements.
    pub(crate) fn len(&self) -> usize
        ensures { result ≡ length (joined self.now.chunks) }
    {
        self.count
    }

    /// The number of bytes of the visible text.
    pub(crate) fn bytes(&self) -> usize
        ensures { result ≡ length (visible_text (joined self.now.chunks)) }
    {
        self.bytes
    }

    /// Whether the index has an element of this id.
    fn is_indexed(&self, id: OpId) -> bool
        ensures yes { result ≡ true → HasId (joined self.now.chunks) id }
        ensures no { result ≡ false → HasId (joined self.now.chunks) id → ⊥ }
    {
        self.index.name_of(id).is_some()
    }

    /// Whether there is an element of this id.
    pub(crate) fn has(&self, id: OpId) -> bool
        ensures yes { result ≡ true → HasId (joined self.now.chunks) id }
        ensures no { result ≡ false → HasId (joined self.now.chunks) id → ⊥ }
    {
        has_at(&self.chunks, self.last, id) || self.is_indexed(id)
    }

    /// The spot of an element of this id, by the index.
    fn indexed_spot(&self, id: OpId) -> Option<Spot>
        ensures within { IfSome result (λ s. s.at < 64) }
        ensures found { MatchOption result (HasId (joined self.now.chunks) id
            → ⊥) (λ s. IsSpotOf self.now.chunks id s.position s.at) }
    {
        let name = self.index.name_of(id)?;
        let position = self.names.position_of(name);
        let at = self.chunks[position].index_of(id).unwrap();
        Some(Spot { position, at })
    }

    /// The spot of an element of this id.
    fn spot_of(&self, id: OpId) -> Option<Spot>
        ensures within { IfSome result (λ s. s.at < 64) }
        ensures found { MatchOption result (HasId (joined self.now.chunks) id
            → ⊥) (λ s. IsSpotOf self.now.chunks id s.position s.at) }
    {
        if has_at(&self.chunks, self.last, id) {
            return Some(self.last);
        }
        self.indexed_spot(id)
    }

    /// The element of this id.
    pub(crate) fn element_of(&self, id: OpId) -> Option<Element>
        ensures { MatchOption result (HasId (joined self.now.chunks) id
            → ⊥) (λ e. (k : ℕ) × (slice_get (joined self.now.chunks) k ≡ Some e) × (e.id ≡ id)) }
    {
        let spot = self.spot_of(id)?;
        Some(self.chunks[spot.position].as_slice()[spot.at])
    }

    /// The place of an element of this id.
    pub(crate) fn place_of(&self, id: OpId) -> Option<usize>
        ensures { MatchOption result (HasId (joined self.now.chunks) id → ⊥) (λ k. IsAt (joined self.now.chunks) id k) }
    {
        let spot = self.spot_of(id)?;
        Some(self.counts.length_before(spot.position) + spot.at)
    }

    /// The element at a place, if there is one.
    pub(crate) fn element_at(&self, place: usize) -> Option<Element>
        ensures { result ≡ slice_get (joined self.now.chunks) place }
    {
        let found = self.counts.chunk_at(place);
        if found.position == self.chunks.len() {
            return None;
        }
        let element = self.chunks[found.position].as_slice()[place - found.start];
        Some(element)
    }

    /// The elements from a place on, to read the visible ones of them.
    pub(crate) fn visible_from(&self, place: usize) -> VisibleCursor<'_>
        requires { place ≤ length (joined self.now.chunks) }
        ensures { result ≡ drop place (joined self.now.chunks) }
    {
        let first = self.counts.chunk_at(place);
        VisibleCursor::at(&self.chunks, first, place)
    }

    /// The number of visible elements before a place.
    pub(crate) fn visible_before(&self, place: usize) -> usize
        requires { place ≤ length (joined self.now.chunks) }
        ensures { result ≡ visible_count (take place (joined self.now.chunks)) }
    {
        let last = self.counts.chunk_at(place);
        let shown = self.counts.shown_before(last.position);
        if last.position == self.chunks.len() {
            return shown;
        }
        let (before, _) = self.chunks[last.position]
            .as_slice()
            .split_at(place - last.start);
        shown + count_visible(before)
    }

    /// The place of the last visible element of the chunks before one.
    fn last_visible_before(&self, chunk: ChunkStart) -> Option<usize>
        requires { (chunk.position ≤ length self.now.chunks) × (chunk.start ≡ start_of self.now.chunks chunk.position) }
        ensures { MatchOption result (visible_count (take chunk.start (joined self.now.chunks)) ≡ 0)
            (λ at. IsLastVisible (joined self.now.chunks) chunk.start at) }
    {
        let position = self.counts.last_shown(chunk.position)?;
        let start = chunk.start - self.counts.length_between(position, chunk.position);
        let elements = self.chunks[position].as_slice();
        let at = last_visible(elements, elements.len()).unwrap();
        Some(start + at)
    }

    /// The place of the last visible element before a place, if there is one.
    pub(crate) fn visible_place_before(&self, place: usize) -> Option<usize>
        requires { place ≤ length (joined self.now.chunks) }
        ensures { MatchOption result (visible_count (take place (joined self.now.chunks)) ≡ 0)
            (λ at. IsLastVisible (joined self.now.chunks) place at) }
    {
        let chunk = self.counts.chunk_at(place);
        if chunk.position < self.chunks.len() {
            let elements = self.chunks[chunk.position].as_slice();
            if let Some(at) = last_visible(elements, place - chunk.start) {
                return Some(chunk.start + at);
            }
        }
        self.last_visible_before(chunk)
    }

    /// The place of the first visible element of the chunks from one on.
    fn first_visible_from(&self, chunk: ChunkStart) -> Option<usize>
        requires { (chunk.position ≤ length self.now.chunks) × (chunk.start ≡ start_of self.now.chunks chunk.position) }
        ensures { MatchOption result (visible_count (drop chunk.start (joined self.now.chunks)) ≡ 0)
            (λ at. IsFirstVisible (joined self.now.chunks) chunk.start at) }
    {
        let position = self.counts.first_shown(chunk.position)?;
        let start = chunk.start + self.counts.length_between(chunk.position, position);
        let elements = self.chunks[position].as_slice();
        let at = first_visible(elements, 0).unwrap();
        Some(start + at)
    }

    /// The place of the first visible element from a place on, if there is one.
    pub(crate) fn visible_place_from(&self, place: usize) -> Option<usize>
        requires { place ≤ length (joined self.now.chunks) }
        ensures { MatchOption result (visible_count (drop place (joined self.now.chunks)) ≡ 0)
            (λ at. IsFirstVisible (joined self.now.chunks) place at) }
    {
        let chunk = self.counts.chunk_at(place);
        if chunk.position == self.chunks.len() {
            return None;
        }
        let elements = self.chunks[chunk.position].as_slice();
        if let Some(at) = first_visible(elements, place - chunk.start) {
            return Some(chunk.start + at);
        }
        self.first_visible_from(ChunkStart {
            position: chunk.position + 1,
            start: chunk.start + elements.len(),
        })
    }

    /// The places of all elements by their ids.
    pub(crate) fn place_table(&self, alloc: Global) -> Result<PlaceTable<'_>, AllocError>
        ensures { IfOk result (λ table. table ≡ joined self.now.chunks) }
    {
        PlaceTable::new(
            alloc,
            &self.chunks,
            self.names.as_slice(),
            &self.index,
            self.count,
        )
    }

    /// The spot after the parent, or the start, past the greater ids.
    fn spot_for(&self, parent: Option<OpId>, id: OpId) -> Spot
        requires some { 0 < length self.now.chunks }
        requires there { (m : OpId) → parent ≡ Some m → HasId (joined self.now.chunks) m }
        ensures { (start : ℕ) × ((place : ℕ) × IsAfter (joined self.now.chunks) parent start
            × IsPast (joined self.now.chunks) id start place × IsSpot self.now.chunks result.position result.at place) }
    {
        let from = match parent {
            Some(parent) => {
                let spot = self.spot_of(parent).unwrap();
                Spot {
                    position: spot.position,
                    at: spot.at + 1,
                }
            }
            None => Spot { position: 0, at: 0 },
        };
        past_greater(&self.chunks, from, id)
    }

    /// Moves the elements of a chunk from an index on into a chunk of their own after it.
    fn split_chunk(&mut self, position: usize, at: usize) -> Result<(), AllocError>
        requires { (chunk : List Element) × (slice_get self.old.chunks position ≡ Some chunk) × (0 < at)
            × (at < length chunk) }
        ensures split { (chunk : List Element) → slice_get self.old.chunks position ≡ Some chunk
            → OnOk result
            (self.new.chunks ≡ insert (set self.old.chunks position (take at chunk)) (position + 1) (drop at chunk)) }
        ensures err { OnErr result (self.new.chunks ≡ self.old.chunks) }
        ensures next { position < usize.MAX }
    {
        let blank = Blank::new(*self.chunks.allocator())?;
        self.chunks.reserve(1)?;
        self.names.reserve()?;
        self.counts.reserve()?;
        let left = &mut self.chunks[position];
        let right = left.split(at, blank);
        self.counts.split(position, left, &right);
        let name = self.names.split(position);
        rename(&mut self.index, right.as_slice(), name);
        self.chunks.insert(position + 1, right).unwrap();
        Ok(())
    }

    /// Splits a full chunk, and gives the spot among its parts.
    fn split(&mut self, spot: Spot) -> Result<Spot, AllocError>
        requires { (chunk : List Element) × (slice_get self.old.chunks spot.position ≡ Some chunk)
            × (length chunk ≡ 64) × (spot.at ≤ 64) }
        ensures same { joined self.new.chunks ≡ joined self.old.chunks }
        ensures spot { IfOk result (λ s. (chunk : List Element) × (slice_get self.new.chunks s.position ≡ Some chunk)
            × (length chunk < 64) × (s.at ≤ length chunk)
            × (start_of self.new.chunks s.position + s.at ≡ start_of self.old.chunks spot.position + spot.at)) }
    {
        let at = split_point(spot.at);
        self.split_chunk(spot.position, at)?;
        Ok(spot.after_split(at))
    }

    /// Makes room for one more chunk.
    fn make_room(&mut self) -> Result<(), AllocError>
        ensures same { self.new.chunks ≡ self.old.chunks }
        ensures room { OnOk result (1 ≤ self.new.room) }
    {
        self.chunks.reserve(1)?;
        self.names.reserve()?;
        self.counts.reserve()?;
        Ok(())
    }

    /// Finds where a new element goes, after its parent and past the greater ids, and makes room for it there.
    pub(crate) fn reserve(&mut self, parent: Option<OpId>, id: OpId) -> Result<Room, AllocError>
        requires { (m : OpId) → parent ≡ Some m → HasId (joined self.old.chunks) m }
        ensures same { joined self.new.chunks ≡ joined self.old.chunks }
        ensures room { IfOk result (λ room. (start : ℕ)
            × ((place : ℕ) × IsAfter (joined self.old.chunks) parent start
            × IsPast (joined self.old.chunks) id start place × IsRoom self.new room place)) }
    {
        if self.chunks.is_empty() {
            let blank = Blank::new(*self.chunks.allocator())?;
            self.make_room()?;
            return Ok(Room::First(blank));
        }
        let spot = self.spot_for(parent, id);
        let spot = if self.chunks[spot.position].len() < CHUNK_LIMIT {
            spot
        } else {
            self.split(spot)?
        };
        Ok(Room::In(spot))
    }

    fn put_first(
        &mut self,
        newest: &mut Newest,
        blank: Blank,
        element: Element,
    ) -> Result<(), AllocError>
        requires none { self.old.chunks ≡ [] }
        requires room { 1 ≤ self.old.room }
        requires fresh { (ops : List Op) × IsNewest ops newest.old × (Used ops element.id → ⊥) }
        requires above { IsAboveAll (joined self.old.chunks) element.id }
        ensures ok { OnOk result (self.new.chunks ≡ (element ∷ []) ∷ []) }
        ensures noted { (ops : List Op) (op : Op) → id_of op ≡ element.id → IsNewest ops newest.old
            → IfOk result (λ _. IsNewest (ops ++ op ∷ []) newest.new) }
        ensures err { OnErr result ((self.new.chunks ≡ self.old.chunks) × (newest.new ≡ newest.old)) }
    {
        enter(&mut self.index, newest, element.id, 0)?;
        self.names.push_first();
        let chunk = Chunk::one(blank, element);
        self.bytes = chunk.text().len();
        self.counts.push(&chunk);
        self.chunks.push_reserved(chunk);
        self.count = 1;
        self.last = Spot { position: 0, at: 0 };
        Ok(())
    }

    fn put_in(
        &mut self,
        newest: &mut Newest,
        spot: Spot,
        element: Element,
    ) -> Result<(), AllocError>
        requires there { (chunk : List Element) × (slice_get self.old.chunks spot.position ≡ Some chunk)
            × (length chunk < 64) × (spot.at ≤ length chunk) }
        requires few { length (joined self.old.chunks) < 262144 }
        requires fresh { (ops : List Op) × IsNewest ops newest.old × (Used ops element.id → ⊥) }
        requires above { IsAboveAll (joined self.old.chunks) element.id }
        ensures ok { (chunk : List Element) → slice_get self.old.chunks spot.position ≡ Some chunk
            → OnOk result (self.new.chunks ≡ set self.old.chunks spot.position (insert chunk spot.at element)) }
        ensures noted { (ops : List Op) (op : Op) → id_of op ≡ element.id → IsNewest ops newest.old
            → IfOk result (λ _. IsNewest (ops ++ op ∷ []) newest.new) }
        ensures err { OnErr result ((self.new.chunks ≡ self.old.chunks) × (newest.new ≡ newest.old)) }
    {
        let name = self.names.name_at(spot.position);
        enter(&mut self.index, newest, element.id, name)?;
        let chunk = &mut self.chunks[spot.position];
        let before = chunk.text().len();
        chunk.insert(spot.at, element);
        self.bytes = self.bytes - before + chunk.text().len();
        self.counts.recount(spot.position, chunk);
        self.count += 1;
        self.last = spot;
        Ok(())
    }

    /// Notes an element's id, and puts the element where there is room for it; the error is want of memory, and changes
    /// nothing.
    pub(crate) fn put(
        &mut self,
        newest: &mut Newest,
        room: Room,
        element: Element,
    ) -> Result<(), AllocError>
        requires room { (place : ℕ) × IsRoom self.old room place }
        requires few { length (joined self.old.chunks) < 262144 }
        requires fresh { (ops : List Op) × IsNewest ops newest.old × (Used ops element.id → ⊥) }
        requires above { IsAboveAll (joined self.old.chunks) element.id }
        ensures ok { (place : ℕ) → IsRoom self.old room place
            → OnOk result (joined self.new.chunks ≡ insert (joined self.old.chunks) place element) }
        ensures noted { (ops : List Op) (op : Op) → id_of op ≡ element.id → IsNewest ops newest.old
            → IfOk result (λ _. IsNewest (ops ++ op ∷ []) newest.new) }
        ensures err { OnErr result ((joined self.new.chunks ≡ joined self.old.chunks) × (newest.new ≡ newest.old)) }
    {
        match room {
            Room::First(blank) => self.put_first(newest, blank, element)?,
            Room::In(spot) => self.put_in(newest, spot, element)?,
        }
        Ok(())
    }

    /// Puts a run into a chunk that has room for it.
    fn put_run(
        &mut self,
        newest: &mut Newest,
        spot: Spot,
        id: OpId,
        characters: &[Character],
    ) -> Result<(), AllocError>
        requires there { (chunk : List Element) × (slice_get self.old.chunks spot.position ≡ Some chunk)
            × (length chunk + length characters.now ≤ 64) × (spot.at ≤ length chunk) }
        requires some { 0 < length characters.now }
        requires few { length (joined self.old.chunks) + length characters.now ≤ 262144 }
        requires counters { id.counter + length characters.now ≤ 2 ^ 48 }
        requires fresh { (ops : List Op) × IsNewest ops newest.old × (Used ops id → ⊥) }
        requires above { IsAboveAll (joined self.old.chunks) id }
        ensures ok { (chunk : List Element) → slice_get self.old.chunks spot.position ≡ Some chunk
            → OnOk result (self.new.chunks
            ≡ set self.old.chunks spot.position (insert_all chunk spot.at (elements_from id characters.now))) }
        ensures noted { (ops : List Op) (op : Op) → (id_of op).node ≡ id.node
            → (id_of op).counter + 1 ≡ id.counter + length characters.now → IsNewest ops newest.old
            → IfOk result (λ _. IsNewest (ops ++ op ∷ []) newest.new) }
        ensures err { OnErr result ((self.new.chunks ≡ self.old.chunks) × (newest.new ≡ newest.old)) }
    {
        let count = characters.len();
        let name = self.names.name_at(spot.position);
        enter_run(&mut self.index, newest, id, count, name)?;
        let chunk = &mut self.chunks[spot.position];
        let before = chunk.text().len();
        chunk.insert_run(spot.at, id, characters);
        self.bytes = self.bytes - before + chunk.text().len();
        self.counts.recount(spot.position, chunk);
        self.count += count;
        self.last = Spot {
            position: spot.position,
            at: spot.at + (count - 1),
        };
        Ok(())
    }

    /// How many characters of a run go into the chunk at a spot, which is not full.
    fn room_at(&self, spot: Spot, count: usize) -> usize
        requires there { (chunk : List Element) × (slice_get self.now.chunks spot.position ≡ Some chunk)
            × (length chunk < 64) }
        requires some { 0 < count }
        ensures some { 0 < result }
        ensures within { result ≤ count }
        ensures room { (chunk : List Element) → slice_get self.now.chunks spot.position ≡ Some chunk
            → length chunk + result ≤ 64 }
    {
        let room = CHUNK_LIMIT - self.chunks[spot.position].len();
        if room < count { room } else { count }
    }

    /// Notes the last id of a run's first characters, as many as have room in a chunk, puts them there, and answers how
    /// many they are; the error is want of memory, and changes nothing.
    pub(crate) fn put_some(
        &mut self,
        newest: &mut Newest,
        room: Room,
        id: OpId,
        characters: &[Character],
    ) -> Result<usize, AllocError>
        requires room { (place : ℕ) × IsRoom self.old room place }
        requires some { 0 < length characters.now }
        requires few { length (joined self.old.chunks) + length characters.now ≤ 262144 }
        requires counters { id.counter + length characters.now ≤ 2 ^ 48 }
        requires fresh { (ops : List Op) × IsNewest ops newest.old × (Used ops id → ⊥) }
        requires above { IsAboveAll (joined self.old.chunks) id }
        ensures count { IfOk result (λ n. (0 < n) × (n ≤ length characters.now)) }
        ensures ok { (place : ℕ) → IsRoom self.old room place → IfOk result (λ n. joined self.new.chunks
            ≡ insert_all (joined self.old.chunks) place (elements_from id (take n characters.now))) }
        ensures noted { (ops : List Op) (op : Op) → (id_of op).node ≡ id.node → IsNewest ops newest.old
            → IfOk result (λ n. (id_of op).counter + 1 ≡ id.counter + n → IsNewest (ops ++ op ∷ []) newest.new) }
        ensures err { OnErr result ((joined self.new.chunks ≡ joined self.old.chunks) × (newest.new ≡ newest.old)) }
    {
        match room {
            Room::First(blank) => {
                let element = Element {
                    id,
                    character: characters[0],
                    visible: true,
                };
                self.put_first(newest, blank, element)?;
                Ok(1)
            }
            Room::In(spot) => {
                let count = self.room_at(spot, characters.len());
                let (piece, _) = characters.split_at(count);
                self.put_run(newest, spot, id, piece)?;
                Ok(count)
            }
        }
    }

    /// Hides the element of this id, or shows it.
    pub(crate) fn set_visible(&mut self, id: OpId, visible: bool)
        requires { HasId (joined self.old.chunks) id }
        ensures { (place : ℕ) × IsAt (joined self.old.chunks) id place
            × ((x : Element) → slice_get (joined self.old.chunks) place ≡ Some x
            → joined self.new.chunks
            ≡ set (joined self.old.chunks) place (record { id = x.id; character = x.character; visible = visible })) }
    {
        let spot = self.spot_of(id).unwrap();
        let chunk = &mut self.chunks[spot.position];
        let was = chunk.text().len();
        chunk.set_visible(spot.at, visible);
        self.bytes = self.bytes - was + chunk.text().len();
        self.counts.recount(spot.position, chunk);
    }

    /// The number of chunks, and the length of the longest.
    pub(crate) fn shape(&self) -> (usize, usize)
        ensures count { result.0 ≡ length self.now.chunks }
        ensures limit { result.1 ≤ 64 }
        ensures each { (i : ℕ) (c : List Element) → slice_get self.now.chunks i ≡ Some c
            → (0 < length c) × (length c ≤ result.1) }
        ensures reached { (result.1 ≡ 0) ⊎ ((i : ℕ)
            × ((c : List Element) × (slice_get self.now.chunks i ≡ Some c) × (length c ≡ result.1))) }
    {
        let mut longest = 0;
        for position in 0..self.chunks.len() {
            let len = self.chunks[position].len();
            if len > longest {
                longest = len;
            }
        }
        (self.chunks.len(), longest)
    }
}

impl Clone for ChunkList {
    ghost is_clone = { λ old new. new.chunks ≡ old.chunks };

    fn clone(&self) -> Result<ChunkList, AllocError> {
        let chunks = self.chunks.clone()?;
        let names = self.names.clone()?;
        let counts = self.counts.clone()?;
        let index = self.index.clone()?;
        Ok(ChunkList {
            chunks,
            names,
            counts,
            index,
            count: self.count,
            bytes: self.bytes,
            last: self.last,
        })
    }
}
