ghost use Rattle.std.specs.Prelude.{◌≡◌, ◌↔◌, ◌<◌, ℕ, List, [], ◌++◌, ◌∷◌, true, false, length, Contains, Some, IsTrue};
ghost use Rattle.std.specs.Prelude.{MatchResult, MatchOption, IfOk, ◌≤◌, ◌+◌, ◌^◌, take, count_by};
ghost use Rattle.change_ops.specs.Lines.{ops_of_lines};
ghost use Rattle.change_ops.specs.Operations.{id_of, is_insert, is_mark, Names, NamesRemoval};
ghost use Rattle.change_ops.specs.Runs.{inserts_from};
ghost use Rattle.change_ops.specs.declared.operation.Op.{Op};
ghost use Rattle.change_ops.specs.declared.size.Size.TheVariants.{Large};
ghost use Rattle.char_sequence.specs.Order.{SameSet, Shows};
ghost use Rattle.char_sequence.specs.Tree.{Present, IsRemoval};
ghost use Rattle.char_sequence.specs.Visible.{visible_text};
ghost use Rattle.char_sequence.specs.Newest.{IsLastCounter};
ghost use Rattle.char_sequence.specs.RunElements.{AcceptsRun};
ghost use Rattle.mark_anchors.specs.Format.{IsFormat};
ghost use Rattle.mark_places.specs.Places.{AreMarkPlaces};
ghost use Rattle.span_flatten.specs.Spans.{Span, AreSpans};
ghost use Rattle.span_flatten.specs.Version.{IsVersion, spans_of};
ghost use Rattle.version_pieces.specs.Alike.{AreAlike};
ghost use Rattle.change_history.specs.Accepted.{MayFollow, MayNotFollow};
ghost use Rattle.char_sequence.specs.Acceptance.{IsUnknown, IsFull};
ghost use Rattle.change_ops.specs.declared.size.Size.{Size};
ghost use Rattle.change_history.specs.Kept.{Keeps};
ghost use Rattle.change_history.specs.Next.{AreNextParts};
ghost use Rattle.change_history.specs.Tally.{IsTally, IsShort, AreNext, Admits};

use crate::refusal::{ApplyError, Refusal};
use crate::tally::Tally;
use change_ops::character::Character;
use change_ops::id::OpId;
use change_ops::line::Line;
use change_ops::operation::{Named, Op};
use change_ops::size::Size;
use char_sequence::newest::Newest;
use char_sequence::runs::later;
use char_sequence::sequence::{Sequence, named_removal};
use mark_anchors::format::Format;
use mark_anchors::marks::{Marks, MarksError};
use mark_places::boundary::place_of;
use mark_places::places::MarkPlaces;
use memory_budget::Budget;
use removal_runs::ranges::IdRanges;
use span_flatten::flatten::{flatten, same_set_same_spans};
use std::alloc::{AllocError, Global};
use version_pieces::version::{NextVersion, PieceVersion};
use version_windows::step::next_version;

/// What is kept of the operations that were applied.
#[derive(Clone)]
pub struct Parts {
    sequence: Sequence,
    marks: Marks,
    places: MarkPlaces,
    newest: Newest,
}

// By hand, so that a proof of a function that lets parts go sees one call there.
impl Drop for Parts {
    fn drop(self) {
        let Parts {
            sequence: _,
            marks: _,
            places: _,
            newest: _,
        } = self;
    }
}

/// Adds a mark operation to marks that have room for it and not its id, and where it begins and ends to their places.
fn add_mark(
    marks: &mut Marks,
    places: &mut MarkPlaces,
    sequence: &Sequence,
    op: &Op,
) -> Result<(), AllocError>
    requires mark { is_mark op.now ≡ true }
    requires fresh { (o : Op) → Contains marks.old o → id_of o ≡ id_of op.now → ⊥ }
    requires room { length marks.old < 16384 }
    requires there { (ops : List Op) × Shows sequence.now.elements ops
        × ((x : OpId) → Names op.now x → Present ops x) }
    ensures marks { IfOk result (λ _. marks.new ≡ marks.old ++ op.now ∷ []) }
    ensures places { AreMarkPlaces sequence.now.elements marks.old places.old
        → IfOk result (λ _. AreMarkPlaces sequence.now.elements (marks.old ++ op.now ∷ []) places.new) }
{
    match marks.add(op) {
        Ok(()) => places.add(sequence, op),
        Err(MarksError::MarksFull) => unreachable!(),
        Err(MarksError::OutOfMemory) => Err(AllocError),
    }
}

impl Parts {
    /// No operation.
    pub fn new(alloc: Global) -> Parts
        ensures { Keeps [] result }
    {
        Parts {
            sequence: Sequence::new(alloc),
            marks: Marks::new(alloc),
            places: MarkPlaces::new(alloc),
            newest: Newest::new(alloc),
        }
    }

    /// The tally of the operations that were applied, for a peer's next one.
    pub fn tally(&self, alloc: Global, node: u16) -> Tally
        ensures { (ops : List Op) → Keeps ops self.now → IsTally ops [] node result }
    {
        Tally {
            node,
            last: self.newest.last(node).unwrap_or(0),
            characters: self.sequence.len(),
            marks: self.marks.operations().len(),
            inserted: Vec::new(alloc),
            removed: IdRanges::new(alloc),
        }
    }

    /// Whether an operation inserts the character.
    fn has(&self, tally: &Tally, id: OpId) -> bool
        ensures { (ops own : List Op) (node : ℕ) → Keeps ops self.now → IsTally ops own node tally.now
            → IsTrue result ↔ Present (ops ++ own) id }
    {
        tally.has(id) || self.sequence.has(id)
    }

    fn is_there(&self, tally: &Tally, named: Option<OpId>) -> bool
        ensures yes { (ops own : List Op) (node : ℕ) → Keeps ops self.now → IsTally ops own node tally.now
            → result ≡ true → (x : OpId) → named ≡ Some x → Present (ops ++ own) x }
        ensures no { (ops own : List Op) (node : ℕ) → Keeps ops self.now → IsTally ops own node tally.now
            → result ≡ false → (x : OpId) × (named ≡ Some x) × (Present (ops ++ own) x → ⊥) }
    {
        match named {
            Some(id) => self.has(tally, id),
            None => true,
        }
    }

    /// Whether a character that the operation names is not there.
    fn lacks_character(&self, tally: &Tally, op: &Op) -> bool
        ensures yes { (ops own : List Op) (node : ℕ) → Keeps ops self.now → IsTally ops own node tally.now
            → result ≡ true → IsUnknown (ops ++ own) op.now }
        ensures no { (ops own : List Op) (node : ℕ) → Keeps ops self.now → IsTally ops own node tally.now
            → result ≡ false → (x : OpId) → Names op.now x → Present (ops ++ own) x }
    {
        let Named { first, second } = op.named();
        !self.is_there(tally, first) || !self.is_there(tally, second)
    }

    /// Whether an operation is the removal with this id.
    fn has_removal(&self, tally: &Tally, removal: OpId) -> bool
        ensures { (ops own : List Op) (node : ℕ) → Keeps ops self.now → IsTally ops own node tally.now
            → IsTrue result ↔ IsRemoval (ops ++ own) removal }
    {
        tally.has_removal(removal) || self.sequence.has_removal(removal)
    }

    /// Whether the removal that the operation names, if it names one, is not there.
    fn lacks_removal(&self, tally: &Tally, op: &Op) -> bool
        ensures yes { (ops own : List Op) (node : ℕ) → Keeps ops self.now → IsTally ops own node tally.now
            → result ≡ true → IsUnknown (ops ++ own) op.now }
        ensures no { (ops own : List Op) (node : ℕ) → Keeps ops self.now → IsTally ops own node tally.now
            → result ≡ false → (r : OpId) → NamesRemoval op.now r → IsRemoval (ops ++ own) r }
    {
        match named_removal(op) {
            Some(removal) => !self.has_removal(tally, removal),
            None => false,
        }
    }

    /// Whether a character or a removal that the operation names is not there.
    fn is_unknown(&self, tally: &Tally, op: &Op) -> bool
        ensures yes { (ops own : List Op) (node : ℕ) → Keeps ops self.now → IsTally ops own node tally.now
            → result ≡ true → IsUnknown (ops ++ own) op.now }
        ensures characters { (ops own : List Op) (node : ℕ) → Keeps ops self.now → IsTally ops own node tally.now
            → result ≡ false → (x : OpId) → Names op.now x → Present (ops ++ own) x }
        ensures removal { (ops own : List Op) (node : ℕ) → Keeps ops self.now → IsTally ops own node tally.now
            → result ≡ false → (r : OpId) → NamesRemoval op.now r → IsRemoval (ops ++ own) r }
    {
        self.lacks_character(tally, op) || self.lacks_removal(tally, op)
    }

    /// Whether a peer's operation, which the visible text has room for, is accepted after those applied and those
    /// counted since.
    pub fn check(&self, size: Size, tally: &Tally, op: &Op) -> Result<(), Refusal>
        ensures { (ops own : List Op) (node : ℕ) → Keeps ops self.now → IsTally ops own node tally.now
            → (id_of op.now).node ≡ node → IsShort size (ops ++ own) op.now
            → MatchResult result (λ _. MayFollow size (ops ++ own) op.now) (MayNotFollow size (ops ++ own) op.now) }
    {
        if tally.is_stale(op) {
            return Err(Refusal::StaleCounter);
        }
        if self.is_unknown(tally, op) {
            return Err(Refusal::UnknownRef);
        }
        if tally.is_character_too_many(size, op) {
            return Err(Refusal::DocumentFull);
        }
        if tally.is_mark_too_many(size, op) {
            return Err(Refusal::MarksFull);
        }
        Ok(())
    }

    /// Why a peer's operation, which the visible text has no room for, is not accepted after those applied and those
    /// counted since.
    pub fn check_full(&self, tally: &Tally, op: &Op) -> Refusal
        ensures { (size : Size) (ops own : List Op) (node : ℕ) → Keeps ops self.now → IsTally ops own node tally.now
            → (id_of op.now).node ≡ node → IsFull size (ops ++ own) op.now
            → MayNotFollow size (ops ++ own) op.now result }
    {
        if tally.is_stale(op) {
            return Refusal::StaleCounter;
        }
        if self.is_unknown(tally, op) {
            return Refusal::UnknownRef;
        }
        Refusal::DocumentFull
    }

    /// The characters, in their order.
    pub fn sequence(&self) -> &Sequence
        ensures { result.now ≡ self.now.sequence }
    {
        &self.sequence
    }

    /// How many bytes the visible text has.
    pub fn bytes(&self) -> usize
        ensures value { result ≡ length (visible_text self.now.sequence.elements) }
        ensures limit { result ≤ 131072 }
    {
        self.sequence.bytes()
    }

    /// Counts a peer's next operation, if it is accepted; after an error the tally is of no use.
    pub fn admit(&self, size: Size, tally: &mut Tally, op: &Op) -> Result<(), ApplyError>
        requires { AreNext size (op.now ∷ []) self.now tally.old }
        ensures { Admits size (op.now ∷ []) self.now tally.old tally.new result }
    {
        if let Err(refusal) = self.check(size, tally, op) {
            return Err(ApplyError::Refused(refusal));
        }
        match tally.note(op) {
            Ok(()) => Ok(()),
            Err(_) => Err(ApplyError::OutOfMemory),
        }
    }

    /// Adds an accepted operation to the parts that it belongs to; after an error they are of no use.
    pub fn add(&mut self, op: &Op) -> Result<(), AllocError>
        requires { (ops : List Op) × Keeps ops self.old × MayFollow Large ops op.now }
        ensures { (ops : List Op) → Keeps ops self.old → MayFollow Large ops op.now
            → IfOk result (λ _. Keeps (ops ++ op.now ∷ []) self.new) }
    {
        self.newest.note(op.id())?;
        match op {
            Op::Insert { id, .. } => {
                self.sequence.insert(op)?;
                let place = place_of(&self.sequence, *id);
                self.places.shift(place, 1);
                Ok(())
            }
            Op::Remove { .. } => self.sequence.remove(op),
            Op::Revive { .. } => self.sequence.revive(op),
            Op::AddMark { .. } => {
                add_mark(&mut self.marks, &mut self.places, &self.sequence, op)
            }
            Op::RemoveMark { .. } => {
                add_mark(&mut self.marks, &mut self.places, &self.sequence, op)
            }
        }
    }

    /// Adds inserts of an accepted run from the first on, and answers how many; after an error the parts are of no use.
    pub fn add_some(
        &mut self,
        id: OpId,
        parent: Option<OpId>,
        characters: &[Character],
    ) -> Result<usize, AllocError>
        requires some { 0 < length characters.now }
        requires counters { id.counter + length characters.now ≤ 2 ^ 48 }
        requires accepted { (ops : List Op) × Keeps ops self.old × AcceptsRun Large ops id parent characters.now }
        ensures count { IfOk result (λ n. (0 < n) × (n ≤ length characters.now)) }
        ensures kept { (ops : List Op) → Keeps ops self.old → AcceptsRun Large ops id parent characters.now
            → IfOk result (λ n. Keeps (ops ++ inserts_from id parent (take n characters.now)) self.new) }
    {
        let count = self.sequence.insert_some(id, parent, characters)?;
        let place = place_of(&self.sequence, id);
        self.places.shift(place, count);
        self.newest.note(later(id, count - 1))?;
        Ok(count)
    }

    /// The version of the operations that were applied, with this number. It shares nothing, and is paid for.
    pub fn version(
        &self,
        alloc: Global,
        number: u64,
        budget: &mut Budget,
    ) -> Result<PieceVersion, AllocError>
        requires { (ops : List Op) × Keeps ops self.now }
        ensures is { IfOk result (λ version. (ops : List Op) → Keeps ops self.now → IsVersion ops number version) }
        ensures paid { budget.new ≤ budget.old }
    {
        let whole = flatten(alloc, &self.sequence, &self.marks, number)?;
        let version = PieceVersion::from_version(alloc, &whole, budget)?;
        Ok(version)
    }

    /// The version of the operations that were applied, with this number, from the one before those of the lines; the
    /// parts `before` are of the operations before them.
    pub fn next_version(
        &self,
        alloc: Global,
        before: &Parts,
        previous: &PieceVersion,
        lines: &[Line],
        number: u64,
        budget: &mut Budget,
    ) -> Result<NextVersion, AllocError>
        requires { (ops : List Op) × AreNextParts ops previous.now lines.now before.now self.now }
        ensures is { IfOk result (λ next. (ops : List Op) → AreNextParts ops previous.now lines.now before.now self.now
            → IsVersion (ops ++ ops_of_lines lines.now) number next.version) }
        ensures alike { IfOk result (λ next. AreAlike (spans_of previous.now) (spans_of next.version)
            next.alike.front next.alike.behind) }
        ensures paid { budget.new ≤ budget.old }
    {
        next_version(
            alloc,
            previous,
            &before.sequence,
            &self.sequence,
            &self.marks,
            &self.places,
            lines,
            number,
            budget,
        )
    }

    /// The format of a character, a removed one too, if it is there.
    pub fn format_at(&self, alloc: Global, id: OpId) -> Result<Option<Format>, AllocError>
        requires { (ops : List Op) × Keeps ops self.now }
        ensures { IfOk result (λ format. (ops : List Op) → Keeps ops self.now
            → MatchOption format (Present ops id → ⊥) (IsFormat ops id)) }
    {
        match self.sequence.place_of(id) {
            Some(_) => Ok(Some(self.marks.format_at(alloc, &self.sequence, id)?)),
            None => Ok(None),
        }
    }

    /// How many characters were inserted, removed ones too.
    pub fn inserted(&self) -> usize
        ensures count { (ops : List Op) → Keeps ops self.now → result ≡ count_by is_insert ops }
        ensures few { result ≤ 262144 }
    {
        self.sequence.len()
    }

    /// How many mark operations there are.
    pub fn mark_count(&self) -> usize
        ensures count { (ops : List Op) → Keeps ops self.now → result ≡ count_by is_mark ops }
        ensures few { result ≤ 16384 }
    {
        // Tells the proof how many there are at most.
        let _ = self.marks.is_full();
        self.marks.operations().len()
    }

    /// The last counter of a peer, 0 where it has no operation.
    pub fn last_counter(&self, node: u16) -> u64
        ensures { (ops : List Op) → Keeps ops self.now → IsLastCounter ops node result }
    {
        self.newest.last_counter(node)
    }

    /// One set of operations has one list of spans.
    pub fn same_set_same_spans(&self)
        ensures { (ops others : List Op) (spans more : List Span) → Keeps ops self.now → SameSet ops others
            → AreSpans ops spans → AreSpans others more → spans ≡ more }
    {
        same_set_same_spans(&self.sequence);
    }
}
