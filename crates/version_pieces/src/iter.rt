//! The spans of a version, one after another.
ghost use Rattle.std.specs.Prelude.{◌≡◌, ◌<◌, ◌++◌, [], MatchOption, drop, length, map};
ghost use Rattle.std.specs.Iterator.{YieldsFirst, YieldsFirstRef, item_count};
ghost use Rattle.span_flatten.specs.Version.{spans_of};

use crate::span_text::SpanText;
use crate::spans::Spans;
use crate::version::PieceVersion;
use format_runs::iter::RunsFrom;
use format_runs::run::Run;
use mark_anchors::format::Format;
use std::iter::FusedIterator;
use std::marker::Model;
use text_pieces::extract::Extract;

/// The spans of a version that are left, seen as their list. A step takes the next run and its characters: nothing is
/// searched for.
#[derive(Drop)]
pub struct SpanTexts<'a> {
    runs: RunsFrom<'a>,
    text: Extract<'a>,
}

impl<'a> Model for SpanTexts<'a> {
    ghost use Rattle.std.specs.Prelude.{◌≡◌, List, length};
    ghost use Rattle.span_flatten.specs.Spans.{Span};
    ghost use Rattle.format_runs.specs.Runs.{character_count};
    ghost use Rattle.version_pieces.specs.Along.{spans_along};

    ghost Value = { List Span };

    ghost view = { λ s. spans_along s.runs s.text };

    ghost invariant = { λ s. character_count s.runs ≡ length s.text };
}

impl Spans {
    /// The spans from one on, in order.
    fn spans_from(&self, index: usize) -> SpanTexts<'_>
        ensures { result ≡ drop index self.now }
    {
        let (runs, start) = self.runs.runs_from(index);
        let text = self.text.between(start, self.text.character_count());
        SpanTexts { runs, text }
    }
}

/// The spans of the version from one on, in order.
pub fn spans_from<'a>(version: &'a PieceVersion, index: usize) -> SpanTexts<'a>
    ensures { result ≡ drop index (spans_of version.now) }
{
    version.spans.spans_from(index)
}

impl<'a> Iterator for SpanTexts<'a> {
    type Item = SpanText<'a>;

    ghost next_gives = { YieldsFirst (λ rest. rest) };

    ghost remaining = { item_count (λ rest. rest) };

    fn next(&mut self) -> Option<SpanText<'a>> {
        let run = self.runs.next()?;
        let characters = run.characters();
        Some(SpanText {
            text: self.text.take_front(characters),
            characters,
            format: run.format(),
        })
    }
}

impl<'a> FusedIterator for SpanTexts<'a> {}

/// The formats of the spans of a version that are left, seen as their list. A step takes the next run: the text isn't
/// looked at.
#[derive(Drop)]
pub struct FormatsFrom<'a> {
    runs: RunsFrom<'a>,
}

impl<'a> Model for FormatsFrom<'a> {
    ghost use Rattle.std.specs.Prelude.{List, map};
    ghost use Rattle.mark_anchors.specs.Formatting.{Format as FormatValue};

    ghost Value = { List FormatValue };

    ghost view = { λ s. map (λ run. run.format) s.runs };
}

impl Spans {
    /// The formats of the spans from one on, in order.
    fn formats_from(&self, index: usize) -> FormatsFrom<'_>
        ensures { result ≡ drop index (map (λ span. span.format) self.now) }
    {
        let (runs, _start) = self.runs.runs_from(index);
        FormatsFrom { runs }
    }
}

/// The formats of the spans of the version from one on, in order.
pub fn formats_from<'a>(version: &'a PieceVersion, index: usize) -> FormatsFrom<'a>
    ensures { result ≡ drop index (map (λ span. span.format) (spans_of version.now)) }
{
    version.spans.formats_from(index)
}

impl<'a> Iterator for FormatsFrom<'a> {
    type Item = &'a Format;

    ghost next_gives = { YieldsFirstRef (λ rest. rest) };

    ghost remaining = { item_count (λ rest. rest) };

    fn next(&mut self) -> Option<&'a Format> {
        let run = self.runs.next()?;
        Some(run.format())
    }
}

impl<'a> FusedIterator for FormatsFrom<'a> {}

impl<'a> FormatsFrom<'a> {
    /// Takes the next formats whose runs lie together, at least one, if any is left.
    pub(crate) fn next_part(&mut self) -> Option<&'a [Run]>
        ensures { MatchOption result (self.old ≡ []) (λ part. (0 < length part.now)
            × (self.old ≡ map (λ run. run.format) part.now ++ self.new)) }
    {
        self.runs.next_part()
    }
}
