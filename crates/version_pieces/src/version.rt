//! A version in pieces.
ghost use Rattle.std.specs.Prelude.{◌≡◌, ◌≤◌, ◌+◌, IfOk, All, MatchOption, Some, chars, length, slice_get};
ghost use Rattle.span_flatten.specs.Version.{IsWhole, spans_of};
ghost use Rattle.version_glyphs.specs.Laid.{laid};
ghost use Rattle.version_glyphs.specs.Glyphs.{AreMaximal, glyphs, text_of};
ghost use Rattle.version_glyphs.specs.Made.{IsMade};
ghost use Rattle.version_glyphs.specs.Replacements.{AreEdged, AreInOrder, HasMaximalSpans, formats, put_all};
ghost use Rattle.version_pieces.specs.Alike.{AreAlike};
ghost use Rattle.version_pieces.specs.Budgets.{roots_bytes, whole_bytes, windows_bytes};

use crate::alike::Alike;
use crate::span_text::SpanText;
use crate::spans::Spans;
use mark_anchors::format::Format;
use memory_budget::Budget;
use span_flatten::version::Version;
use std::alloc::{AllocError, Global};
use std::marker::Model;
use version_glyphs::replacement::Replacement;

/// A version of the text: its number and its spans, in pieces that it shares with the versions before it and after it.
/// A version that shows what the one before it shows shares all of them. Contracts see what they see of a `Version`.
pub struct PieceVersion {
    number: u64,
    pub(crate) spans: Spans,
}

impl Drop for PieceVersion {
    fn drop(self) {
        let PieceVersion {
            number: _,
            spans: _,
        } = self;
    }
}

impl Model for PieceVersion {
    ghost use Rattle.std.specs.Prelude.{◌≤◌, length};
    ghost use Rattle.span_flatten.specs.Version.{Version as VersionValue, joined};
    ghost use Rattle.version_glyphs.specs.Laid.{laid};

    ghost Value = { VersionValue };

    ghost view = { λ v. laid v.number v.spans };

    ghost invariant = { λ v. length (joined v.spans) ≤ 131072 };
}

/// The next version, and how many of its spans stand as they stood in the version before it.
pub struct NextVersion {
    pub version: PieceVersion,
    pub alike: Alike,
}

impl Drop for NextVersion {
    fn drop(self) {
        let NextVersion {
            version: _,
            alike: _,
        } = self;
    }
}

impl NextVersion {
    /// The version, and how many of its spans stand as they stood.
    pub fn into_parts(self) -> (PieceVersion, Alike)
        ensures { (result.0 ≡ self.version) × (result.1 ≡ self.alike) }
    {
        let NextVersion { version, alike } = self;
        (version, alike)
    }
}

impl PieceVersion {
    /// A version in pieces, which shares nothing.
    pub fn from_version(
        alloc: Global,
        version: &Version,
        budget: &mut Budget,
    ) -> Result<PieceVersion, AllocError>
        requires { IsMade version.now }
        ensures version { IfOk result (λ made. made ≡ version.now) }
        ensures spent { budget.old ≤ budget.new + whole_bytes (length version.now.text) (length version.now.rows) }
        ensures less { budget.new ≤ budget.old }
    {
        let spans = Spans::new(alloc, version.text(), version.rows(), budget)?;
        // What the spans keep, which the proof needs.
        spans.keeps();
        Ok(PieceVersion {
            number: version.number(),
            spans,
        })
    }

    /// The law that the spans are maximal and laid out end to end.
    pub fn keeps(&self)
        ensures maximal { AreMaximal (spans_of self.now) }
        ensures laid { self.now ≡ laid self.now.number (spans_of self.now) }
        ensures few { length (glyphs (spans_of self.now)) ≤ 131072 }
        ensures short { length self.now.text ≤ 131072 }
    {
        self.spans.keeps();
    }

    /// The number that the version was made with.
    pub fn number(&self) -> u64
        ensures { result ≡ self.now.number }
    {
        self.number
    }

    /// How many spans there are.
    pub fn span_count(&self) -> usize
        ensures value { result ≡ length self.now.rows }
        ensures whole { IsWhole self.now.text self.now.rows }
    {
        // What the spans keep, which the proof needs.
        self.spans.keeps();
        self.spans.count()
    }

    /// How many characters there are.
    pub fn character_count(&self) -> usize
        ensures glyphs { result ≡ length (glyphs (spans_of self.now)) }
        ensures text { result ≡ length (chars self.now.text) }
    {
        // What the spans keep, which the proof needs.
        self.spans.keeps();
        self.spans.character_count()
    }

    /// How many bytes the text has.
    pub fn byte_count(&self) -> usize
        ensures { result ≡ length self.now.text }
    {
        self.spans.byte_count()
    }

    /// The span with this index, if there is one.
    pub fn span(&self, index: usize) -> Option<SpanText<'_>>
        ensures { result ≡ slice_get (spans_of self.now) index }
    {
        self.spans.span(index)
    }

    /// The format of the character at a place, if there is one.
    pub fn format_at(&self, place: usize) -> Option<&Format>
        ensures { MatchOption result (length (glyphs (spans_of self.now)) ≤ place)
            (λ format. slice_get (formats (glyphs (spans_of self.now))) place ≡ Some format.now) }
    {
        self.spans.format_at(place)
    }

    /// The version with this number in which the windows stand in place of the characters that they name. A row joins
    /// its neighbor where formats are equal. Pieces that no window touches are shared, and all of them where no window
    /// shows anything new: what is paid for is what the windows bring, and two roots for each of them. Spans that stand
    /// as they stood are counted by the windows' places alone.
    pub fn with_windows(
        &self,
        alloc: Global,
        number: u64,
        windows: &[Replacement],
        budget: &mut Budget,
    ) -> Result<NextVersion, AllocError>
        requires order { AreInOrder windows.now 0 (length (glyphs (spans_of self.now))) }
        requires windows { All HasMaximalSpans windows.now }
        requires edged { AreEdged (glyphs (spans_of self.now)) windows.now }
        requires short { length (text_of (put_all windows.now (glyphs (spans_of self.now)))) ≤ 131072 }
        ensures number { IfOk result (λ next. next.version.number ≡ number) }
        ensures glyphs { IfOk result (λ next. glyphs (spans_of next.version)
            ≡ put_all windows.now (glyphs (spans_of self.now))) }
        ensures maximal { IfOk result (λ next. AreMaximal (spans_of next.version)) }
        ensures laid { IfOk result (λ next. next.version ≡ laid number (spans_of next.version)) }
        ensures alike { IfOk result (λ next. AreAlike (spans_of self.now) (spans_of next.version)
            next.alike.front next.alike.behind) }
        ensures spent { budget.old ≤ budget.new + windows_bytes
            (roots_bytes (length self.now.text) (length self.now.rows) windows.now) windows.now }
        ensures less { budget.new ≤ budget.old }
    {
        // What the spans keep, which the proof needs.
        self.spans.keeps();
        let alike = self.spans.alike(windows);
        let spans = self.spans.with_windows(alloc, windows, budget)?;
        spans.keeps();
        let version = PieceVersion { number, spans };
        Ok(NextVersion { version, alike })
    }
}
