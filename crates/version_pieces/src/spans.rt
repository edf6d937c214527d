//! Spans as a text and the runs of its formats.
ghost use Rattle.std.specs.Prelude.{◌≡◌, ◌≤◌, ◌+◌, ◌++◌, IfOk, List, MatchOption, Some, chars, drop, encode_utf8_all};
ghost use Rattle.std.specs.Prelude.{length, slice_get, take};
ghost use Rattle.piece_tree.specs.Budgets.{root_bytes};
ghost use Rattle.text_pieces.specs.Budgets.{text_bytes, text_root_bytes};
ghost use Rattle.format_runs.specs.Budgets.{rows_bytes};
ghost use Rattle.format_runs.specs.Runs.{AreMaximal as AreMaximalRuns, character_count, formats_in, formats_of};
ghost use Rattle.format_runs.specs.Runs.{row_count, runs_in};
ghost use Rattle.span_flatten.specs.Edges.{KeepEdges};
ghost use Rattle.span_flatten.specs.Spans.{Span};
ghost use Rattle.span_flatten.specs.Version.{IsWhole, joined, spans_in};
ghost use Rattle.version_glyphs.specs.Glyphs.{AreMaximal, glyphs};
ghost use Rattle.version_pieces.specs.Alike.{AreAlike, AreAround, AreBegun};
ghost use Rattle.version_pieces.specs.Budgets.{roots_bytes, whole_bytes, window_bytes, windows_bytes};
ghost use Rattle.version_pieces.specs.Putting.{CanTake};
ghost use Rattle.version_glyphs.specs.Replacements.{HasMaximalSpans, IsEdged, formats, glyphs_in, put, put_all};

use crate::alike::Alike;
use crate::span_text::SpanText;
use format_runs::runs::SharedRuns;
use mark_anchors::format::Format;
use memory_budget::Budget;
use span_flatten::version::Row;
use std::alloc::{AllocError, Global};
use std::marker::Model;
use text_pieces::text::SharedText;
use version_glyphs::replacement::Replacement;

/// Spans, as the characters of a text and the runs of their formats. Contracts see the spans.
pub struct Spans {
    pub(crate) text: SharedText,
    pub(crate) runs: SharedRuns,
}

impl Drop for Spans {
    fn drop(self) {
        let Spans { text: _, runs: _ } = self;
    }
}

impl Model for Spans {
    ghost use Rattle.std.specs.Prelude.{List};
    ghost use Rattle.span_flatten.specs.Spans.{Span};
    ghost use Rattle.version_pieces.specs.Along.{IsAlong, spans_along};

    ghost Value = { List Span };

    ghost view = { λ s. spans_along s.runs s.text };

    ghost invariant = { λ s. IsAlong s.text s.runs };
}

/// How many comments' numbers are compared for the windows of a change: formats with many of them are dear to compare.
pub const COMPARED_LIMIT: u32 = 65_536;

/// The text with `new` in place of the characters from `from` up to `to`. It is shared as a whole where it has that
/// there already.
fn text_with(
    alloc: Global,
    text: &SharedText,
    from: usize,
    to: usize,
    new: &str,
    budget: &mut Budget,
) -> Result<SharedText, AllocError>
    requires order { from ≤ to }
    requires within { to ≤ length text.now }
    requires short { length (encode_utf8_all (take from text.now ++ (chars new.now ++ drop to text.now))) ≤ 2097152 }
    ensures text { IfOk result (λ next. next ≡ take from text.now ++ (chars new.now ++ drop to text.now)) }
    ensures spent { budget.old ≤ budget.new + (text_bytes (length new.now)
        + text_root_bytes (length (encode_utf8_all text.now) + length new.now)) }
    ensures less { budget.new ≤ budget.old }
{
    if text.between(from, to).is(new) {
        let same = text.shared()?;
        return Ok(same);
    }
    let next = text.with_window(alloc, from, to, new, budget)?;
    Ok(next)
}

/// The runs with those of the rows in place of the characters from `from` up to `to`. They are shared as a whole where
/// they have those there already.
fn runs_with(
    alloc: Global,
    runs: &SharedRuns,
    from: usize,
    to: usize,
    rows: &[Row],
    comments: &mut u32,
    budget: &mut Budget,
) -> Result<SharedRuns, AllocError>
    requires order { from ≤ to }
    requires within { to ≤ character_count runs.now }
    requires short { character_count runs.now + row_count rows.now ≤ 2097152 }
    requires maximal { AreMaximalRuns (runs_in rows.now) }
    requires edges { KeepEdges (formats_of runs.now) from to (formats_in rows.now) }
    ensures formats { IfOk result (λ next. formats_of next
        ≡ take from (formats_of runs.now) ++ (formats_in rows.now ++ drop to (formats_of runs.now))) }
    ensures count { IfOk result (λ next. length next ≤ length runs.now + (length rows.now + 96)) }
    ensures spent { budget.old ≤ budget.new + (rows_bytes (length rows.now)
        + root_bytes (length runs.now + length rows.now)) }
    ensures less { budget.new ≤ budget.old }
{
    if runs.shows(from, to, rows, comments) {
        let same = runs.shared()?;
        return Ok(same);
    }
    let next = runs.with_window(alloc, from, to, rows, budget)?;
    Ok(next)
}

impl Spans {
    /// The spans of a text with its rows, which share nothing.
    pub fn new(
        alloc: Global,
        text: &str,
        rows: &[Row],
        budget: &mut Budget,
    ) -> Result<Spans, AllocError>
        requires whole { IsWhole text.now rows.now }
        requires maximal { AreMaximal (spans_in text.now rows.now) }
        ensures glyphs { IfOk result (λ spans. glyphs spans ≡ glyphs (spans_in text.now rows.now)) }
        ensures spent { budget.old ≤ budget.new + whole_bytes (length text.now) (length rows.now) }
        ensures less { budget.new ≤ budget.old }
    {
        let no_text = SharedText::new(alloc, budget)?;
        let own = no_text.with_window(alloc, 0, 0, text, budget)?;
        let no_runs = SharedRuns::new(alloc, budget)?;
        let runs = no_runs.with_window(alloc, 0, 0, rows, budget)?;
        // What their types keep, which the proof needs.
        own.keeps();
        runs.keeps();
        Ok(Spans { text: own, runs })
    }

    /// The same spans once more: nothing of them is copied.
    pub fn shared(&self) -> Result<Spans, AllocError>
        ensures { IfOk result (λ again. again ≡ self.now) }
    {
        let text = self.text.shared()?;
        let runs = self.runs.shared()?;
        Ok(Spans { text, runs })
    }

    /// The law that the spans are maximal.
    pub fn keeps(&self)
        ensures { AreMaximal self.now }
    {
        let _text = &self.text;
    }

    /// How many spans there are.
    pub fn count(&self) -> usize
        ensures { result ≡ length self.now }
    {
        self.runs.count()
    }

    /// How many characters they have.
    pub fn character_count(&self) -> usize
        ensures { result ≡ length (glyphs self.now) }
    {
        self.text.character_count()
    }

    /// How many bytes their text has.
    pub fn byte_count(&self) -> usize
        ensures { result ≡ length (joined self.now) }
    {
        self.text.byte_count()
    }

    /// The format of the character at a place, if there is one.
    pub fn format_at(&self, place: usize) -> Option<&Format>
        ensures { MatchOption result (length (glyphs self.now) ≤ place)
            (λ format. slice_get (formats (glyphs self.now)) place ≡ Some format.now) }
    {
        self.runs.format_at(place)
    }

    /// The span with this index, if there is one.
    pub fn span(&self, index: usize) -> Option<SpanText<'_>>
        ensures { result ≡ slice_get self.now index }
    {
        // How short the runs are, which the proof needs.
        self.runs.keeps();
        let Some(placed) = self.runs.run(index) else {
            return None;
        };
        let characters = placed.run.characters();
        Some(SpanText {
            text: self.text.between(placed.start, placed.start + characters),
            characters,
            format: placed.run.format(),
        })
    }

    /// The spans with the window put in place. A text or runs that it shows already are shared as a whole.
    fn with_window(
        &self,
        alloc: Global,
        window: &Replacement,
        comments: &mut u32,
        budget: &mut Budget,
    ) -> Result<Spans, AllocError>
        requires order { window.now.from ≤ window.now.to }
        requires within { window.now.to ≤ length (glyphs self.now) }
        requires maximal { HasMaximalSpans window.now }
        requires edged { IsEdged (glyphs self.now) window.now }
        requires few { length (glyphs self.now) + length (glyphs_in window.now) ≤ 262144 }
        ensures glyphs { IfOk result (λ next. glyphs next ≡ put window.now (glyphs self.now)) }
        ensures bytes { IfOk result (λ next. length (joined next)
            ≤ length (joined self.now) + length window.now.window.text) }
        ensures rows { IfOk result (λ next. length next ≤ length self.now + (length window.now.window.rows + 96)) }
        ensures spent { budget.old ≤ budget.new + (window_bytes window.now
            + (text_root_bytes (length (joined self.now) + length window.now.window.text)
            + root_bytes (length self.now + length window.now.window.rows))) }
        ensures less { budget.new ≤ budget.old }
    {
        let new = window.window.text();
        let rows = window.window.rows();
        let text = text_with(alloc, &self.text, window.from, window.to, new, budget)?;
        let runs = runs_with(
            alloc,
            &self.runs,
            window.from,
            window.to,
            rows,
            comments,
            budget,
        )?;
        // What their types keep, which the proof needs.
        text.keeps();
        runs.keeps();
        Ok(Spans { text, runs })
    }

    /// The spans with the windows put in place, the last one first, so that none moves the place of another. What is
    /// paid for is what the windows bring, and two roots for each of them.
    pub fn with_windows(
        &self,
        alloc: Global,
        windows: &[Replacement],
        budget: &mut Budget,
    ) -> Result<Spans, AllocError>
        requires { CanTake (glyphs self.now) windows.now }
        ensures glyphs { IfOk result (λ next. glyphs next ≡ put_all windows.now (glyphs self.now)) }
        ensures spent { budget.old ≤ budget.new + windows_bytes
            (roots_bytes (length (joined self.now)) (length self.now) windows.now) windows.now }
        ensures less { budget.new ≤ budget.old }
    {
        let mut comments = COMPARED_LIMIT;
        let mut all = self.shared()?;
        let mut rest = windows;
        while let Some((window, before)) = rest.split_last() {
            all = all.with_window(alloc, window, &mut comments, budget)?;
            rest = before;
        }
        Ok(all)
    }

    /// How many spans begin before the place.
    fn begun(&self, place: usize) -> usize
        requires { place ≤ length (glyphs self.now) }
        ensures { AreBegun self.now place result }
    {
        match place.checked_sub(1) {
            None => 0,
            Some(last) => self.runs.index_over(last) + 1,
        }
    }

    /// How many spans end before the characters from `from` up to `to`, and how many begin behind them.
    fn around(&self, from: usize, to: usize) -> Alike
        requires order { from ≤ to }
        requires within { to ≤ length (glyphs self.now) }
        ensures { AreAround self.now from to result.front result.behind }
    {
        Alike {
            front: self.runs.index_over(from),
            behind: self.count() - self.begun(to),
        }
    }

    /// How many spans stay as they are before the windows and behind them. A window begins and ends with the formats
    /// that stand there. So the span before the one in which the first window begins doesn't join what follows, and
    /// none is compared for it. A span in which a window begins or ends isn't counted, even where it stays as it was.
    /// The contract allows such a count that is less, and none that is more than what stays.
    pub fn alike(&self, windows: &[Replacement]) -> Alike
        requires { CanTake (glyphs self.now) windows.now }
        ensures { (next : List Span) → AreMaximal next → glyphs next ≡ put_all windows.now (glyphs self.now)
            → AreAlike self.now next result.front result.behind }
    {
        // What the spans keep, which the proof needs.
        self.keeps();
        match (windows.first(), windows.last()) {
            (Some(first), Some(last)) => self.around(first.from, last.to),
            _ => Alike {
                front: self.count(),
                behind: 0,
            },
        }
    }
}
