//! The runs of a text.
ghost use Rattle.std.specs.Prelude.{◌≡◌, ◌<◌, ◌≤◌, ◌+◌, ◌^◌, ◌++◌, [], ◌-◌, ◌↔◌, ℕ, IfOk, IfSome, IsTrue};
ghost use Rattle.std.specs.Prelude.{All, MatchOption, Some, drop, get_or, length, max, replicate, slice_get};
ghost use Rattle.std.specs.Prelude.{slice_range, take};
ghost use Rattle.piece_tree.specs.Budgets.{root_bytes, window_bytes};
ghost use Rattle.piece_tree.specs.Nodes.{pieces_of};
ghost use Rattle.span_flatten.specs.Edges.{KeepEdges};
ghost use Rattle.format_runs.specs.Budgets.{piece_bytes, put_bytes, rows_bytes};
ghost use Rattle.format_runs.specs.Runs.{AreMaximal, AreRuns, HasCharacters, HasWindow, IsOver, IsPlaced, Run};
ghost use Rattle.format_runs.specs.Runs.{character_count, formats_in, formats_of, row_count, runs_in};

use crate::cut::cut;
use crate::draft::{add_runs, between, is_inside, runs_of, share_all, sized};
use crate::iter::RunsFrom;
use crate::piece::{HALF, RunPiece, characters_of};
use crate::run::Run;
use mark_anchors::format::Format;
use memory_budget::Budget;
use piece_tree::piece::Measure;
use piece_tree::tree::PieceTree;
use span_flatten::version::Row;
use std::alloc::{AllocError, Global};
use std::marker::Model;

/// Runs in pieces that versions share: the formats of a text's characters. Contracts see the runs.
pub struct SharedRuns {
    pieces: PieceTree<RunPiece>,
}

impl Drop for SharedRuns {
    fn drop(self) {
        let SharedRuns { pieces: _ } = self;
    }
}

impl Model for SharedRuns {
    ghost use Rattle.std.specs.Prelude.{List};
    ghost use Rattle.piece_tree.specs.Nodes.{pieces_of};
    ghost use Rattle.format_runs.specs.Runs.{AreRuns, Run};

    ghost Value = { List Run };

    ghost view = { λ r. pieces_of r.pieces };

    ghost invariant = { λ r. AreRuns r.pieces };
}

/// A run of a list, and how many characters stand before it.
#[derive(Drop)]
pub struct Placed<'a> {
    pub run: &'a Run,
    pub start: usize,
}

/// The run of a piece by its index there, the piece's index, and how many characters stand before the piece.
#[derive(Clone, Copy)]
struct RunSpot {
    piece: usize,
    start: usize,
    run: usize,
}

impl SharedRuns {
    /// No run.
    pub fn new(alloc: Global, budget: &mut Budget) -> Result<SharedRuns, AllocError>
        ensures runs { IfOk result (λ runs. runs ≡ []) }
        ensures paid { budget.new ≡ budget.old - 96 }
    {
        let pieces = PieceTree::new(alloc, budget)?;
        Ok(SharedRuns { pieces })
    }

    /// The same runs once more: nothing of them is copied.
    pub fn shared(&self) -> Result<SharedRuns, AllocError>
        ensures { IfOk result (λ again. again ≡ self.now) }
    {
        let pieces = self.pieces.shared()?;
        Ok(SharedRuns { pieces })
    }

    /// The law that the runs are maximal, and short together.
    pub fn keeps(&self)
        ensures maximal { AreMaximal self.now }
        ensures short { character_count self.now ≤ 2097152 }
    {
        self.pieces.keeps();
    }

    /// How many runs there are.
    pub fn count(&self) -> usize
        ensures { result ≡ length self.now }
    {
        self.pieces.size(Measure::Parts)
    }

    /// How many characters they have.
    pub fn character_count(&self) -> usize
        ensures { result ≡ character_count self.now }
    {
        self.pieces.size(Measure::Characters)
    }

    /// The run with this index, if there is one.
    pub fn run(&self, index: usize) -> Option<Placed<'_>>
        ensures { MatchOption result (length self.now ≤ index)
            (λ placed. IsPlaced self.now index placed.run.now placed.start) }
    {
        let (mut runs, start) = self.runs_from(index);
        let Some(run) = runs.next() else {
            return None;
        };
        Some(Placed { run, start })
    }

    /// The runs from one on, and how many characters stand before them. There is none from beyond the last one.
    pub fn runs_from(&self, index: usize) -> (RunsFrom<'_>, usize)
        ensures runs { result.0 ≡ drop index self.now }
        ensures start { result.1 ≡ character_count (take index self.now) }
    {
        // How many runs and characters there are, which the proof needs.
        self.pieces.keeps();
        if index >= self.count() {
            let none = RunsFrom {
                rest: &[],
                pieces: self.pieces.pieces_from(self.pieces.len()),
            };
            return (none, self.character_count());
        }
        let spot = self.pieces.spot(Measure::Parts, index + 1);
        let mut pieces = self.pieces.pieces_from(spot.index);
        let runs = pieces.next().unwrap().runs();
        let (before, rest) = runs.split_at(index - spot.parts);
        let start = spot.characters + characters_of(before);
        (RunsFrom { rest, pieces }, start)
    }

    /// The runs with those of the rows in place of the characters from `from` up to `to`. The rows begin and end with
    /// formats that stand there. Where one run has these characters and there is one row, as for a key, that run alone
    /// gets another number of characters. What is paid for is the rows, up to 96 runs around them, and the root.
    pub fn with_window(
        &self,
        alloc: Global,
        from: usize,
        to: usize,
        rows: &[Row],
        budget: &mut Budget,
    ) -> Result<SharedRuns, AllocError>
        requires order { from ≤ to }
        requires within { to ≤ character_count self.now }
        requires short { character_count self.now + row_count rows.now ≤ 2097152 }
        requires maximal { AreMaximal (runs_in rows.now) }
        requires edges { KeepEdges (formats_of self.now) from to (formats_in rows.now) }
        ensures formats { IfOk result (λ next. formats_of next
            ≡ take from (formats_of self.now) ++ (formats_in rows.now ++ drop to (formats_of self.now))) }
        ensures count { IfOk result (λ next. length next ≤ length self.now + (length rows.now + 96)) }
        ensures spent { budget.old ≤ budget.new + (rows_bytes (length rows.now)
            + root_bytes (length self.now + length rows.now)) }
        ensures less { budget.new ≤ budget.old }
    {
        match window_run(&self.pieces, from, to, rows) {
            Some(spot) => {
                let count = rows[0].characters;
                resized(alloc, &self.pieces, spot, from, to, count, budget)
            }
            None => self.with_rows(alloc, from, to, rows, budget),
        }
    }

    /// The same for any window. What is left of a run that is cut has the row's format and joins it, and where a run
    /// begins the one before it has another format. Places tell which of these holds, and no formats are compared for
    /// it. The first and the last row share the formats that stand there, and pieces that the window doesn't touch are
    /// shared. Where what is made is too small for a piece, it joins the piece behind it.
    fn with_rows(
        &self,
        alloc: Global,
        from: usize,
        to: usize,
        rows: &[Row],
        budget: &mut Budget,
    ) -> Result<SharedRuns, AllocError>
        requires order { from ≤ to }
        requires within { to ≤ character_count self.now }
        requires short { character_count self.now + row_count rows.now ≤ 2097152 }
        requires maximal { AreMaximal (runs_in rows.now) }
        requires edges { KeepEdges (formats_of self.now) from to (formats_in rows.now) }
        ensures formats { IfOk result (λ next. formats_of next
            ≡ take from (formats_of self.now) ++ (formats_in rows.now ++ drop to (formats_of self.now))) }
        ensures count { IfOk result (λ next. length next ≤ length self.now + (length rows.now + 96)) }
        ensures spent { budget.old ≤ budget.new + (rows_bytes (length rows.now)
            + root_bytes (length self.now + length rows.now)) }
        ensures less { budget.new ≤ budget.old }
    {
        // How many runs and characters there are, which the proof needs.
        self.pieces.keeps();
        let first = self.pieces.spot(Measure::Characters, from);
        let last = self.pieces.spot(Measure::Characters, to + 1);
        let front = runs_at(&self.pieces, first.index);
        let back = runs_at(&self.pieces, last.index);
        let fresh = runs_of(
            alloc,
            rows,
            self.run_behind(from),
            self.run_before(to),
            budget,
        )?;
        let room = rows.len() + back.len();
        let mut runs = between(alloc, front, 0, from - first.characters, room)?;
        let cuts_front = is_inside(front, from - first.characters);
        add_runs(&mut runs, fresh, cuts_front)?;
        let behind = between(alloc, back, to - last.characters, self.character_count(), 0)?;
        let cuts_back = is_inside(back, to - last.characters);
        add_runs(&mut runs, behind, cuts_back)?;
        let end = self.pieces.len().min(last.index + 1);
        let end = fill(&self.pieces, &mut runs, end)?;
        put(alloc, &self.pieces, first.index, end, runs, budget)
    }

    /// The index of the run of the character at a place: how many runs end at the place or before it. From the end of
    /// the text on these are all.
    pub fn index_over(&self, place: usize) -> usize
        ensures { IsOver self.now place result }
    {
        // How many runs and characters there are, which the proof needs.
        self.pieces.keeps();
        if place >= self.character_count() {
            return self.count();
        }
        let spot = self.pieces.spot(Measure::Characters, place + 1);
        let runs = self.pieces.piece(spot.index).runs();
        spot.parts + ended(runs, place - spot.characters)
    }

    /// The format of the character at a place, if there is one.
    pub fn format_at(&self, place: usize) -> Option<&Format>
        ensures { MatchOption result (length (formats_of self.now) ≤ place)
            (λ format. slice_get (formats_of self.now) place ≡ Some format.now) }
    {
        let Some(run) = self.run_at(place) else {
            return None;
        };
        Some(run.format())
    }

    /// The run of the character at a place, if there is one.
    fn run_at(&self, place: usize) -> Option<&Run>
        ensures { MatchOption result (character_count self.now ≤ place)
            (λ run. slice_get (formats_of self.now) place ≡ Some run.now.format) }
    {
        // How many characters there are, which the proof needs.
        self.pieces.keeps();
        if place >= self.character_count() {
            return None;
        }
        let spot = self.pieces.spot(Measure::Characters, place + 1);
        let runs = self.pieces.piece(spot.index).runs();
        Some(&runs[ended(runs, place - spot.characters)])
    }

    /// The run of the character behind a place, unless nothing stands before that.
    fn run_behind(&self, place: usize) -> Option<&Run>
        ensures { IfSome result (λ run. (0 < place)
            × (slice_get (formats_of self.now) place ≡ Some run.now.format)) }
    {
        if place == 0 {
            return None;
        }
        self.run_at(place)
    }

    /// The run of the character before a place, unless nothing stands behind that.
    fn run_before(&self, place: usize) -> Option<&Run>
        ensures { IfSome result (λ run. (place < character_count self.now)
            × (slice_get (formats_of self.now) (place - 1) ≡ Some run.now.format)) }
    {
        if place == 0 || place >= self.character_count() {
            return None;
        }
        self.run_at(place - 1)
    }

    /// How many runs have the characters from `from` up to `to`.
    fn count_between(&self, from: usize, to: usize) -> usize
        requires { to ≤ character_count self.now }
        ensures none { to ≤ from → result ≡ 0 }
        ensures some { from < to → (first last : ℕ) → IsOver self.now from first → IsOver self.now (to - 1) last
            → first + result ≡ last + 1 }
    {
        // How many runs there are, which the proof needs.
        self.pieces.keeps();
        if from >= to {
            return 0;
        }
        self.index_over(to - 1) - self.index_over(from) + 1
    }

    /// Whether the rows are the runs' characters from `from` up to `to`. They are not said to be where more comments
    /// would be compared than `comments`, which falls by those that were.
    pub fn shows(&self, from: usize, to: usize, rows: &[Row], comments: &mut u32) -> bool
        requires { to ≤ character_count self.now }
        ensures { IsTrue result → slice_range (formats_of self.now) from to ≡ formats_in rows.now }
    {
        // How many characters there are, which the proof needs.
        self.keeps();
        // Counts tell most of what isn't shown. Formats with many comments are dear to compare.
        if rows.len() != self.count_between(from, to)
            || !have_characters(rows, to.saturating_sub(from))
        {
            return false;
        }
        let mut place = from;
        for row in rows {
            if place >= to || !self.shows_at(place, row, comments) {
                return false;
            }
            place += row.characters;
        }
        place == to
    }

    /// Whether the characters from the place on are the row's.
    fn shows_at(&self, place: usize, row: &Row, comments: &mut u32) -> bool
        requires { place < character_count self.now }
        ensures within { IsTrue result → place + row.now.characters ≤ character_count self.now }
        ensures shown { IsTrue result → slice_range (formats_of self.now) place (place + row.now.characters)
            ≡ replicate row.now.characters row.now.format }
    {
        // How many characters there are, which the proof needs.
        self.pieces.keeps();
        let spot = self.pieces.spot(Measure::Characters, place + 1);
        let runs = self.pieces.piece(spot.index).runs();
        let Some(run) = run_over(runs, place - spot.characters, row.characters) else {
            return false;
        };
        let count = run.format().comment_count();
        if count > *comments {
            return false;
        }
        *comments -= count;
        *run.format() == row.format
    }
}

/// The runs of the piece with this index, and none behind the last piece.
fn runs_at(pieces: &PieceTree<RunPiece>, index: usize) -> &[Run]
    ensures { result.now ≡ get_or pieces.now index [] }
{
    if index < pieces.len() {
        pieces.piece(index).runs()
    } else {
        &[]
    }
}

/// The run that has all characters from `from` up to `to`, for which one row is put, if there is one. The row has its
/// format, since it begins or ends with what stands there. Where the window takes all of the text, that isn't known.
fn window_run(pieces: &PieceTree<RunPiece>, from: usize, to: usize, rows: &[Row]) -> Option<RunSpot>
    requires { to ≤ character_count (pieces_of pieces.now) }
    ensures one { IfSome result (λ _. length rows.now ≡ 1) }
    ensures window { IfSome result (λ spot. HasWindow pieces.now spot.piece spot.start spot.run from to) }
{
    // How many characters there are, which the proof needs.
    pieces.keeps();
    if rows.len() != 1 || from >= to {
        return None;
    }
    if from == 0 && to == pieces.size(Measure::Characters) {
        return None;
    }
    let spot = pieces.spot(Measure::Characters, from + 1);
    let runs = pieces.piece(spot.index).runs();
    let run = index_having(runs, from - spot.characters, to - from)?;
    Some(RunSpot {
        piece: spot.index,
        start: spot.characters,
        run,
    })
}

/// The runs with so many characters in place of those from `from` up to `to`, which one run has. Its piece alone is
/// made anew, and no format is compared or copied.
fn resized(
    alloc: Global,
    pieces: &PieceTree<RunPiece>,
    spot: RunSpot,
    from: usize,
    to: usize,
    count: usize,
    budget: &mut Budget,
) -> Result<SharedRuns, AllocError>
    requires window { HasWindow pieces.now spot.piece spot.start spot.run from to }
    requires some { 0 < count }
    requires kept { AreRuns pieces.now }
    requires short { character_count (pieces_of pieces.now) + count ≤ 2097152 }
    ensures formats { (run : Run) → slice_get (get_or pieces.now spot.piece []) spot.run ≡ Some run
        → IfOk result (λ next. formats_of next ≡ take from (formats_of (pieces_of pieces.now))
        ++ (replicate count run.format ++ drop to (formats_of (pieces_of pieces.now)))) }
    ensures count { IfOk result (λ next. length next ≤ length (pieces_of pieces.now) + 48) }
    ensures spent { budget.old ≤ budget.new + (piece_bytes 48
        + (window_bytes 1 + root_bytes (length (pieces_of pieces.now) + 48))) }
    ensures less { budget.new ≤ budget.old }
{
    let runs = pieces.piece(spot.piece).runs();
    let characters = runs[spot.run].characters() - (to - from) + count;
    let next = sized(alloc, runs, spot.run, characters)?;
    let piece = RunPiece::new(alloc, next, budget)?;
    let pieces = pieces.with_window(alloc, spot.piece, spot.piece + 1, &[piece], budget)?;
    Ok(SharedRuns { pieces })
}

/// Adds the runs of the piece with this index, where there are too few for a piece of their own. It gives the index of
/// the first piece that is behind the runs then.
fn fill(
    pieces: &PieceTree<RunPiece>,
    runs: &mut Vec<Run>,
    index: usize,
) -> Result<usize, AllocError>
    requires within { index ≤ length pieces.now }
    requires small { All (λ piece. length piece ≤ 48) pieces.now }
    ensures order { IfOk result (λ end. index ≤ end) }
    ensures within { IfOk result (λ end. end ≤ length pieces.now) }
    ensures same { IfOk result (λ end. runs.new.items ++ pieces_of (drop end pieces.now)
        ≡ runs.old.items ++ pieces_of (drop index pieces.now)) }
    ensures few { IfOk result (λ _. length runs.new.items ≤ max (length runs.old.items) 63) }
{
    if runs.len() >= HALF || index >= pieces.len() {
        return Ok(index);
    }
    share_all(runs, pieces.piece(index).runs())?;
    Ok(index + 1)
}

/// The runs with others in place of the pieces from one index up to another.
fn put(
    alloc: Global,
    pieces: &PieceTree<RunPiece>,
    from: usize,
    to: usize,
    runs: Vec<Run>,
    budget: &mut Budget,
) -> Result<SharedRuns, AllocError>
    requires order { from ≤ to }
    requires within { to ≤ length pieces.now }
    requires filled { All (λ piece. 0 < length piece) pieces.now }
    requires small { All (λ piece. length piece ≤ 48) pieces.now }
    requires maximal { AreMaximal (pieces_of (take from pieces.now) ++ (runs.items ++ pieces_of (drop to pieces.now))) }
    requires short { character_count
        (pieces_of (take from pieces.now) ++ (runs.items ++ pieces_of (drop to pieces.now))) ≤ 2097152 }
    ensures runs { IfOk result (λ next. next
        ≡ pieces_of (take from pieces.now) ++ (runs.items ++ pieces_of (drop to pieces.now))) }
    ensures count { IfOk result (λ next. length next ≤ length (pieces_of pieces.now) + length runs.items) }
    ensures spent { budget.old ≤ budget.new + (put_bytes (length runs.items)
        + root_bytes (length (pieces_of pieces.now) + length runs.items)) }
    ensures less { budget.new ≤ budget.old }
{
    let made = cut(alloc, runs, budget)?;
    let pieces = pieces.with_window(alloc, from, to, made.as_slice(), budget)?;
    Ok(SharedRuns { pieces })
}

/// Whether the rows have so many characters.
fn have_characters(rows: &[Row], count: usize) -> bool
    ensures { IsTrue result ↔ (row_count rows.now ≡ count) }
{
    let mut left = count;
    for row in rows {
        if row.characters > left {
            return false;
        }
        left -= row.characters;
    }
    left == 0
}

/// How many of the runs end at the place or before it.
fn ended(runs: &[Run], place: usize) -> usize
    requires { character_count runs.now < 2 ^ 62 }
    ensures { IsOver runs.now place result }
{
    let mut count: usize = 0;
    let mut start: usize = 0;
    for run in runs {
        let end = start + run.characters();
        if place < end {
            return count;
        }
        count += 1;
        start = end;
    }
    count
}

/// The run that has so many characters from a place on, if there is one.
fn run_over(runs: &[Run], place: usize, count: usize) -> Option<&Run>
    requires { character_count runs.now < 2 ^ 62 }
    ensures within { IfSome result (λ run. place + count ≤ character_count runs.now) }
    ensures shown { IfSome result (λ run. slice_range (formats_of runs.now) place (place + count)
        ≡ replicate count run.now.format) }
{
    let mut start: usize = 0;
    for run in runs {
        let end = start + run.characters();
        if place < end {
            return if count <= end - place {
                Some(run)
            } else {
                None
            };
        }
        start = end;
    }
    None
}

/// The index of the run that has so many characters from a place on, if there is one.
fn index_having(runs: &[Run], place: usize, count: usize) -> Option<usize>
    requires { character_count runs.now < 2 ^ 62 }
    ensures { IfSome result (λ index. HasCharacters runs.now index place count) }
{
    let mut start: usize = 0;
    for (index, run) in runs.iter().enumerate() {
        let end = start + run.characters();
        if place < end {
            return if count <= end - place {
                Some(index)
            } else {
                None
            };
        }
        start = end;
    }
    None
}
