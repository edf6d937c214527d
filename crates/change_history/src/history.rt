ghost use Rattle.std.specs.Prelude.{◌≡◌, ◌<◌, ◌≤◌, ◌+◌, ◌^◌, ℕ, List, [], ◌++◌, ◌∷◌};
ghost use Rattle.std.specs.Prelude.{IfOk, MatchResult, MatchOption, length, count_by};
ghost use Rattle.change_ops.specs.Changes.{Change, operations};
ghost use Rattle.change_ops.specs.Operations.{is_insert, is_mark};
ghost use Rattle.change_ops.specs.Runs.{inserts_of};
ghost use Rattle.change_ops.specs.IdRuns.{removals_of, revivals_of};
ghost use Rattle.change_ops.specs.Lines.{ops_of, ops_of_lines};
ghost use Rattle.change_ops.specs.Spelling.{change_text};
ghost use Rattle.change_ops.specs.Sizes.{most_characters, most_marks, most_changes};
ghost use Rattle.change_ops.specs.declared.operation.Op.{Op};
ghost use Rattle.change_ops.specs.declared.size.Size.{Size};
ghost use Rattle.change_ops.specs.declared.size.Size.TheVariants.{Small, Large};
ghost use Rattle.char_sequence.specs.Order.{SameSet};
ghost use Rattle.char_sequence.specs.Tree.{Present};
ghost use Rattle.char_sequence.specs.Newest.{IsLastCounter};
ghost use Rattle.mark_anchors.specs.Format.{IsFormat};
ghost use Rattle.span_flatten.specs.Spans.{Span, AreSpans};
ghost use Rattle.span_flatten.specs.Version.{IsVersion, spans_of};
ghost use Rattle.version_pieces.specs.Alike.{AreAlike};
ghost use Rattle.change_history.specs.Accepted.{IsAccepted, IsRefused, AreAccepted, operations_of};
ghost use Rattle.change_history.specs.Alike.{FormsAreAlike};
ghost use Rattle.change_history.specs.Kept.{Keeps, AreAllAccepted, AreAcceptedNext, Applies, IsDraft};
ghost use Rattle.change_history.specs.Kept.{IsApplied, StandAt, CanCatchUp, parent_at};

use crate::admission::admit_all;
use crate::kept_change::{KeptChange, text_of};
use crate::parts::Parts;
use crate::refusal::SubmitError;
use change_log::text::ChangeText;
use change_ops::change::Change;
use change_ops::id::OpId;
use change_ops::id_run::IdRun;
use change_ops::line::Line;
use change_ops::run::Run;
use change_ops::size::Size;
use char_sequence::runs::later;
use mark_anchors::format::Format;
use memory_budget::Budget;
use std::alloc::{AllocError, Global};
use std::collections::LinkedList;
use std::marker::Model;
use std::mem::replace;
use version_pieces::version::{NextVersion, PieceVersion};

/// The changes that were accepted, in their order, and the text that they make.
pub struct History {
    size: Size,
    // A linked list, since a draft brings the node of its change: to append it takes no memory.
    changes: LinkedList<KeptChange>,
    // The last of them, with its lines: the others are not read again.
    last: Option<Change>,
    parts: Parts,
    // The parts without the last change: the next one is applied to these, and those of all changes stay as they are
    // until it is appended. None where they were used up for want of memory; a copy then replaces them.
    spare: Option<Parts>,
}

// By hand, so that a proof of a function that lets a history go sees one call there.
impl Drop for History {
    fn drop(self) {
        let History {
            size: _,
            changes: _,
            last: _,
            parts: _,
            spare: _,
        } = self;
    }
}

impl Model for History {
    ghost use Rattle.change_history.specs.Chronicle.{Chronicle};
    ghost use Rattle.change_history.specs.Kept.{IsHistory, IsSpare, IsLast};

    ghost Value = { Chronicle };

    ghost view = { λ h. record { size = h.size; changes = h.changes } };

    ghost invariant = { λ h. IsHistory h.size h.changes h.parts × IsSpare h.changes h.spare
        × IsLast h.changes h.last };
}

/// What the character of a run at an index stands after.
fn parent_at(id: OpId, parent: Option<OpId>, index: usize) -> Option<OpId>
    requires { id.counter + index < 2 ^ 48 }
    ensures { result ≡ parent_at id parent index }
{
    match index {
        0 => parent,
        _ => Some(later(id, index - 1)),
    }
}

/// Applies inserts of a run from the one at an index on, and answers how many; after an error the parts are of no use.
fn apply_some(parts: &mut Parts, run: &Run, index: usize) -> Result<usize, AllocError>
    requires next { (ops : List Op) × ((added : List Op) × ((from : ℕ)
        × IsApplied ops added (from + index) parts.old × StandAt added from (inserts_of run.now))) }
    requires within { index < length run.now.characters }
    ensures count { IfOk result (λ n. (0 < n) × (index + n ≤ length run.now.characters)) }
    ensures applied { (ops added : List Op) (from : ℕ) → IsApplied ops added (from + index) parts.old
        → StandAt added from (inserts_of run.now)
        → IfOk result (λ n. IsApplied ops added (from + (index + n)) parts.new) }
{
    let (_, rest) = run.characters().split_at(index);
    let id = run.id();
    let parent = parent_at(id, run.parent(), index);
    let count = parts.add_some(later(id, index), parent, rest)?;
    Ok(count)
}

/// Applies the inserts of a run, which are accepted; after an error the parts are of no use.
fn apply_run(parts: &mut Parts, run: &Run) -> Result<(), AllocError>
    requires { AreAcceptedNext (inserts_of run.now) parts.old }
    ensures { Applies (inserts_of run.now) parts.old parts.new result }
{
    let end = run.characters().len();
    let mut applied = 0;
    while applied < end {
        applied += apply_some(parts, run, applied)?;
    }
    Ok(())
}

/// Applies the removals of a run one by one in the same way.
fn apply_removals(parts: &mut Parts, run: IdRun) -> Result<(), AllocError>
    requires { AreAcceptedNext (removals_of run) parts.old }
    ensures { Applies (removals_of run) parts.old parts.new result }
{
    for index in 0..run.count() as usize {
        parts.add(&run.removal(index))?;
    }
    Ok(())
}

/// Applies the revivals of a run one by one in the same way.
fn apply_revivals(parts: &mut Parts, run: IdRun) -> Result<(), AllocError>
    requires { AreAcceptedNext (revivals_of run) parts.old }
    ensures { Applies (revivals_of run) parts.old parts.new result }
{
    for index in 0..run.count() as usize {
        parts.add(&run.revival(index))?;
    }
    Ok(())
}

/// Applies the operations of a line in the same way.
fn apply_line(parts: &mut Parts, line: &Line) -> Result<(), AllocError>
    requires { AreAcceptedNext (ops_of line.now) parts.old }
    ensures { Applies (ops_of line.now) parts.old parts.new result }
{
    match line {
        Line::Operation(op) => parts.add(op),
        Line::Run(run) => apply_run(parts, run),
        Line::Removals(run) => apply_removals(parts, *run),
        Line::Revivals(run) => apply_revivals(parts, *run),
    }
}

/// Applies lines whose operations are accepted; after an error the parts are of no use.
fn apply_all(parts: &mut Parts, lines: &[Line]) -> Result<(), AllocError>
    requires { (ops : List Op) × Keeps ops parts.old × AreAllAccepted Large ops lines.now }
    ensures { (ops : List Op) → Keeps ops parts.old → AreAllAccepted Large ops lines.now
        → IfOk result (λ _. Keeps (ops ++ ops_of_lines lines.now) parts.new) }
{
    for index in 0..lines.len() {
        apply_line(parts, &lines[index])?;
    }
    Ok(())
}

/// Applies the last of some changes, if there are any, to the parts of those before it.
fn catch_up(parts: &mut Parts, last: &Option<Change>) -> Result<(), AllocError>
    requires { (changes : List Change) × CanCatchUp changes last.now parts.old }
    ensures { (changes : List Change) → CanCatchUp changes last.now parts.old
        → IfOk result (λ _. Keeps (operations_of changes) parts.new) }
{
    match last {
        Some(change) => apply_all(parts, change.lines()),
        None => Ok(()),
    }
}

/// A change that is accepted next, with the parts that follow it.
#[derive(Drop)]
pub struct Draft {
    // The change alone, as it is kept.
    added: LinkedList<KeptChange>,
    change: Change,
    parts: Parts,
}

/// A list of the change alone.
fn alone(alloc: Global, kept: KeptChange) -> Result<LinkedList<KeptChange>, AllocError>
    ensures { IfOk result (λ list. list ≡ kept ∷ []) }
{
    let mut list = LinkedList::new(alloc);
    match list.push_back(kept) {
        Ok(()) => Ok(list),
        Err(_) => Err(AllocError),
    }
}

impl History {
    /// No change.
    pub fn new(alloc: Global, size: Size) -> History
        ensures { result ≡ record { size = size; changes = [] } }
    {
        History {
            size,
            changes: LinkedList::new(alloc),
            last: None,
            parts: Parts::new(alloc),
            spare: None,
        }
    }

    /// The size that it was made with.
    pub fn size(&self) -> Size
        ensures { result ≡ self.now.size }
    {
        self.size
    }

    /// The number of changes that were accepted.
    pub fn len(&self) -> usize
        ensures value { result ≡ length self.now.changes }
        ensures most { result ≤ most_changes self.now.size }
        ensures accepted { AreAccepted self.now.size self.now.changes }
    {
        self.changes.len()
    }

    /// Parts of all operations that may be changed: the spare ones, brought up to date, or else a copy.
    fn working_parts(&mut self) -> Result<Parts, AllocError>
        ensures kept { IfOk result (Keeps (operations_of self.old.changes)) }
        ensures same { self.new ≡ self.old }
    {
        if let Some(mut spare) = self.spare.take() {
            if let Ok(()) = catch_up(&mut spare, &self.last) {
                return Ok(spare);
            }
        }
        self.parts.clone()
    }

    /// The parts that follow the lines, whose operations are accepted next.
    fn parts_after(&mut self, lines: &[Line]) -> Result<Parts, AllocError>
        requires { AreAllAccepted Large (operations_of self.old.changes) lines.now }
        ensures applied { IfOk result (Keeps (operations_of self.old.changes ++ ops_of_lines lines.now)) }
        ensures same { self.new ≡ self.old }
    {
        let mut parts = self.working_parts()?;
        apply_all(&mut parts, lines)?;
        Ok(parts)
    }

    /// Whether the change is accepted next, which is found before anything is changed.
    fn admit(&self, change: &Change) -> Result<(), SubmitError>
        ensures { MatchResult result (λ _. IsAccepted self.now.size self.now.changes change.now)
            (IsRefused self.now.size self.now.changes change.now) }
    {
        if self.changes.len() >= self.size.changes() {
            return Err(SubmitError::HistoryFull);
        }
        admit_all(
            *self.changes.allocator(),
            self.size,
            &self.parts,
            change.node(),
            change.lines(),
        )
    }

    /// The draft of a change that was admitted, and of which this is the text.
    fn draft_admitted(&mut self, change: Change, text: ChangeText) -> Result<Draft, AllocError>
        requires accepted { IsAccepted self.old.size self.old.changes change }
        requires spelled { text ≡ change_text change }
        ensures drafted { IfOk result (IsDraft self.old.size self.old.changes change) }
        ensures same { self.new ≡ self.old }
    {
        let parts = self.parts_after(change.lines())?;
        let added = alone(*self.changes.allocator(), KeptChange::of(text))?;
        Ok(Draft {
            added,
            change,
            parts,
        })
    }

    /// The change with all that it takes to append it, if it is accepted next; nothing is appended yet.
    pub fn draft(&mut self, change: Change) -> Result<Draft, SubmitError>
        ensures drafted { MatchResult result (IsDraft self.old.size self.old.changes change)
            (IsRefused self.old.size self.old.changes change) }
        ensures same { self.new ≡ self.old }
    {
        self.admit(&change)?;
        let text = text_of(*self.changes.allocator(), &change)?;
        let draft = self.draft_admitted(change, text)?;
        Ok(draft)
    }

    /// The same for a caller that has the change's text, which is kept and not written again.
    pub fn draft_spelled(&mut self, change: Change, text: ChangeText) -> Result<Draft, SubmitError>
        requires spelled { text ≡ change_text change }
        ensures drafted { MatchResult result (IsDraft self.old.size self.old.changes change)
            (IsRefused self.old.size self.old.changes change) }
        ensures same { self.new ≡ self.old }
    {
        self.admit(&change)?;
        let draft = self.draft_admitted(change, text)?;
        Ok(draft)
    }

    /// Appends a draft, which takes no memory.
    pub fn put(&mut self, mut draft: Draft)
        requires { (change : Change) × IsDraft self.old.size self.old.changes change draft }
        ensures { (change : Change) → IsDraft self.old.size self.old.changes change draft
            → self.new ≡ record { size = self.old.size; changes = self.old.changes ++ change ∷ [] } }
    {
        self.changes.append(&mut draft.added).unwrap();
        self.last = Some(draft.change);
        self.spare = Some(replace(&mut self.parts, draft.parts));
    }

    /// Takes a change in after those before it, whole; where it is refused the history stays as it was.
    pub fn accept(&mut self, change: Change) -> Result<(), SubmitError>
        ensures { MatchResult result (λ _. (self.new ≡ record {
          size = self.old.size;
          changes = self.old.changes ++ change ∷ [];
        }) × IsAccepted self.old.size self.old.changes change)
            (λ error. (self.new ≡ self.old) × IsRefused self.old.size self.old.changes change error) }
    {
        let draft = self.draft(change)?;
        self.put(draft);
        Ok(())
    }

    /// The same for a caller that has the change's text, which is kept and not written again.
    pub fn accept_spelled(&mut self, change: Change, text: ChangeText) -> Result<(), SubmitError>
        requires spelled { text ≡ change_text change }
        ensures { MatchResult result (λ _. (self.new ≡ record {
          size = self.old.size;
          changes = self.old.changes ++ change ∷ [];
        }) × IsAccepted self.old.size self.old.changes change)
            (λ error. (self.new ≡ self.old) × IsRefused self.old.size self.old.changes change error) }
    {
        let draft = self.draft_spelled(change, text)?;
        self.put(draft);
        Ok(())
    }

    /// The version that the changes make with the one of a draft, from the version before it. What it doesn't share
    /// with that one is paid for from the budget.
    pub fn next_version(
        &self,
        alloc: Global,
        previous: &PieceVersion,
        draft: &Draft,
        budget: &mut Budget,
    ) -> Result<NextVersion, AllocError>
        requires drafted { (change : Change) × IsDraft self.now.size self.now.changes change draft.now }
        requires previous { (number : ℕ) × IsVersion (operations_of self.now.changes) number previous.now }
        ensures is { IfOk result (λ next. (change : Change) → IsDraft self.now.size self.now.changes change draft.now
            → IsVersion (operations_of (self.now.changes ++ change ∷ [])) (length self.now.changes + 1) next.version) }
        ensures alike { IfOk result (λ next. AreAlike (spans_of previous.now) (spans_of next.version)
            next.alike.front next.alike.behind) }
        ensures paid { budget.new ≤ budget.old }
    {
        let lines = draft.change.lines();
        let number = self.len() as u64 + 1;
        let before = &self.parts;
        let next = draft
            .parts
            .next_version(alloc, before, previous, lines, number, budget)?;
        Ok(next)
    }

    /// The version that the changes make: its number is how many they are. It shares nothing with others.
    pub fn version(&self, alloc: Global) -> Result<PieceVersion, AllocError>
        ensures { IfOk result (IsVersion (operations_of self.now.changes) (length self.now.changes)) }
    {
        self.parts
            .version(alloc, self.len() as u64, &mut Budget::unlimited())
    }

    /// The format of a character, a removed one too; None where no accepted operation inserted it.
    pub fn format_at(&self, alloc: Global, id: OpId) -> Result<Option<Format>, AllocError>
        ensures { IfOk result (λ format. MatchOption format (Present (operations_of self.now.changes) id
            → ⊥) (IsFormat (operations_of self.now.changes) id)) }
    {
        self.parts.format_at(alloc, id)
    }

    /// How many characters the accepted operations inserted, removed ones too.
    pub fn inserted(&self) -> usize
        ensures count { result ≡ count_by is_insert (operations_of self.now.changes) }
        ensures few { result ≤ most_characters self.now.size }
    {
        self.parts.inserted()
    }

    /// How many of the accepted operations are of marks.
    pub fn mark_count(&self) -> usize
        ensures count { result ≡ count_by is_mark (operations_of self.now.changes) }
        ensures few { result ≤ most_marks self.now.size }
    {
        self.parts.mark_count()
    }

    /// The greatest counter of a peer's accepted operations, 0 where it has none.
    pub fn last_counter(&self, node: u16) -> u64
        ensures { IsLastCounter (operations_of self.now.changes) node result }
    {
        self.parts.last_counter(node)
    }

    /// The law that replicas converge: histories of one set of operations have equal spans, in whatever
    /// order and in however many changes the operations were accepted.
    pub fn same_set_same_spans(&self, other: &History)
        ensures { (spans others : List Span)
            → SameSet (operations_of self.now.changes) (operations_of other.now.changes)
            → AreSpans (operations_of self.now.changes) spans → AreSpans (operations_of other.now.changes) others
            → spans ≡ others }
    {
        self.parts.same_set_same_spans();
    }
}

/// The law of the two forms: changes of the same operations are accepted alike, refused alike, and make the same
/// version, in whatever lines the operations stand.
pub fn forms_are_alike()
    ensures { FormsAreAlike }
{}

/// The law that what is accepted at the small size is accepted at the large one.
pub fn small_is_large()
    ensures accepted { (changes : List Change) (change : Change) → IsAccepted Small changes change
        → IsAccepted Large changes change }
    ensures all { (changes : List Change) → AreAccepted Small changes → AreAccepted Large changes }
{}
