//! Printing the spans of a version, a line a span.
ghost use Rattle.std.specs.Prelude.{◌≡◌, ◌++◌, ◌+◌, ◌-◌, ◌<◌, ◌≤◌, [], Some, if◌then◌else◌, IfOk, codes, map};
ghost use Rattle.std.specs.Prelude.{string_bytes, encode_utf8, encode_utf8_all};
ghost use Rattle.std.specs.Fmt.{WritesOnOk};
ghost use Rattle.change_ops.specs.declared.keys.TheConstants.{KEYS};
ghost use Rattle.mark_anchors.specs.Formatting.{value_in};
ghost use Rattle.mark_anchors.specs.Values.{lent};
ghost use Rattle.span_flatten.specs.Version.{spans_of as spans_in};
ghost use Rattle.span_lines.specs.SpanLines.{begun, comment_key, key_with, row_keys, parted, format_text};
ghost use Rattle.span_lines.specs.SpanLines.{escaped, some_lines, span_line, span_lines};
ghost use Rattle.span_lines.specs.Writes.{AddsOnOk};

use change_ops::keys::{KEYS, KeyRow};
use mark_anchors::format::Format;
use mark_anchors::value_ref::ValueRef;
use std::alloc::{AllocError, Global};
use std::fmt;
use std::string::ToString;
use text_pieces::extract::Extract;
use version_pieces::iter::spans_from;
use version_pieces::span_text::SpanText;
use version_pieces::version::PieceVersion;

/// What stands before a key: a comma behind another key.
#[derive(Clone, Copy)]
struct Comma(bool);

impl fmt::Display for Comma {
    ghost output = { λ comma. Some (if comma.0 then codes "," else []) };

    fn fmt<W: fmt::Write>(&self, f: &mut fmt::Formatter<W>) -> fmt::Result {
        if self.0 { f.write_str(",") } else { Ok(()) }
    }
}

/// Rows of the keys that stand before comments: those that the first two forms of changes know.
pub const BEFORE_COMMENTS: usize = 5;

/// Writes the key of a row with its value.
fn write_key<W: fmt::Write>(
    f: &mut fmt::Formatter<W>,
    row: KeyRow,
    value: ValueRef<'_>,
    behind: bool,
) -> fmt::Result
    ensures { WritesOnOk W.write_str_gives f.old result (parted behind (key_with row (Some (lent value.entry)))) f.new }
{
    let comma = Comma(behind);
    let word = row.word();
    match value {
        ValueRef::Nothing => write!(f, "{comma}{word}"),
        ValueRef::Link(link) => write!(f, "{comma}{word}={}", link.target()),
        ValueRef::Color(color) => write!(f, "{comma}{word}={:06x}", color.rgb()),
        ValueRef::LineKind(kind) => write!(f, "{comma}{word}={}", kind.word()),
    }
}

/// Writes the key of a row with its value, where it holds. Whether a key then stands before what comes next.
fn write_row<W: fmt::Write>(
    f: &mut fmt::Formatter<W>,
    format: &Format,
    row: usize,
    behind: bool,
) -> Result<bool, fmt::Error>
    requires { row < KEYS }
    ensures writes { AddsOnOk W.write_str_gives f.old result
        (parted behind (key_with row (value_in format.now row))) f.new }
    ensures begun { IfOk result (λ after. after ≡ begun behind (key_with row (value_in format.now row))) }
{
    let Some(key) = KeyRow::new(row) else {
        return Ok(behind);
    };
    let Some(value) = format.value(key) else {
        return Ok(behind);
    };
    write_key(f, key, value, behind)?;
    Ok(true)
}

/// Writes the keys of `count` rows of a format from `first` on. Whether a key then stands before what comes next.
fn write_rows<W: fmt::Write>(
    f: &mut fmt::Formatter<W>,
    format: &Format,
    first: usize,
    count: usize,
    behind: bool,
) -> Result<bool, fmt::Error>
    requires { first + count ≤ KEYS }
    ensures writes { AddsOnOk W.write_str_gives f.old result (parted behind (row_keys format.now first count)) f.new }
    ensures begun { IfOk result (λ after. after ≡ begun behind (row_keys format.now first count)) }
{
    let mut begun = behind;
    for row in first..first + count {
        begun = write_row(f, format, row, begun)?;
    }
    Ok(begun)
}

/// Writes the comments' keys of a format. Whether a key then stands before what comes next.
fn write_comments<W: fmt::Write>(
    f: &mut fmt::Formatter<W>,
    format: &Format,
    behind: bool,
) -> Result<bool, fmt::Error>
    ensures writes { AddsOnOk W.write_str_gives f.old result
        (parted behind (map comment_key format.now.comments)) f.new }
    ensures begun { IfOk result (λ after. after ≡ begun behind (map comment_key format.now.comments)) }
{
    let mut begun = behind;
    for comment in format.comments() {
        write!(f, "{}comment:{}", Comma(begun), comment.number())?;
        begun = true;
    }
    Ok(begun)
}

/// How many rows are printed behind comments: none to a reader that knows none of their keys.
fn further_rows(further: bool) -> usize
    ensures { result ≡ (if further then KEYS - BEFORE_COMMENTS else 0) }
{
    if further { KEYS - BEFORE_COMMENTS } else { 0 }
}

/// Writes the keys of a format that hold, with their values and a comma between each two; `plain` where there is none.
fn write_keys<W: fmt::Write>(
    f: &mut fmt::Formatter<W>,
    format: &Format,
    further: bool,
) -> fmt::Result
    ensures { WritesOnOk W.write_str_gives f.old result (format_text further format.now) f.new }
{
    let begun = write_rows(f, format, 0, BEFORE_COMMENTS, false)?;
    let begun = write_comments(f, format, begun)?;
    let begun = write_rows(f, format, BEFORE_COMMENTS, further_rows(further), begun)?;
    if begun { Ok(()) } else { f.write_str("plain") }
}

fn write_character<W: fmt::Write>(f: &mut fmt::Formatter<W>, character: char) -> fmt::Result
    ensures { WritesOnOk W.write_str_gives f.old result (escaped (encode_utf8 character)) f.new }
{
    match character {
        '\n' => f.write_str("\\n"),
        '\\' => f.write_str("\\\\"),
        _ => f.write_char(character),
    }
}

/// A text with its line feeds and backslashes escaped.
#[derive(Clone, Copy)]
struct Escaped<'a>(&'a str);

impl fmt::Display for Escaped<'_> {
    ghost output = { λ text. Some (escaped text.0.now) };

    fn fmt<W: fmt::Write>(&self, f: &mut fmt::Formatter<W>) -> fmt::Result {
        for character in self.0.chars() {
            write_character(f, character)?;
        }
        Ok(())
    }
}

/// Writes a text with its line feeds and backslashes escaped, part by part as it lies in its pieces.
fn write_text<W: fmt::Write>(f: &mut fmt::Formatter<W>, mut text: Extract<'_>) -> fmt::Result
    ensures { WritesOnOk W.write_str_gives f.old result (escaped (encode_utf8_all text.entry)) f.new }
{
    while let Some(part) = text.next() {
        write!(f, "{}", Escaped(part))?;
    }
    Ok(())
}

/// Writes the line of a span with its LF: its index, format and text.
fn write_span<W: fmt::Write>(
    f: &mut fmt::Formatter<W>,
    index: usize,
    span: SpanText<'_>,
    further: bool,
) -> fmt::Result
    ensures { WritesOnOk W.write_str_gives f.old result (span_line further index span.entry) f.new }
{
    write!(f, "{index} ")?;
    write_keys(f, span.format, further)?;
    f.write_str(" ")?;
    write_text(f, span.text)?;
    f.write_str("\n")
}

/// A line for each span of the version.
#[derive(Clone, Copy)]
struct AllSpans<'a>(&'a PieceVersion);

impl fmt::Display for AllSpans<'_> {
    ghost output = { λ all. Some (span_lines (spans_in all.0.now)) };

    fn fmt<W: fmt::Write>(&self, f: &mut fmt::Formatter<W>) -> fmt::Result {
        let indices = 0..self.0.span_count();
        for (index, span) in indices.zip(spans_from(self.0, 0)) {
            write_span(f, index, span, true)?;
        }
        Ok(())
    }
}

/// A line for each span of the version: its index, format and text.
pub fn lines_of(alloc: Global, version: &PieceVersion) -> Result<String, AllocError>
    ensures { IfOk result (λ lines. string_bytes lines ≡ span_lines (spans_in version.now)) }
{
    AllSpans(version).to_string(alloc)
}

/// `most` spans of a version, from the one of index `first` on, or as many as there are: a line for each, `span ` and
/// what [`lines_of`] has.
#[derive(Clone, Copy)]
pub struct SomeSpans<'a> {
    pub version: &'a PieceVersion,
    pub first: usize,
    pub most: usize,
    /// Whether keys of the third form of changes are printed.
    pub further: bool,
}

impl fmt::Display for SomeSpans<'_> {
    ghost output = { λ some. Some (some_lines some.further some.first some.most some.version.now) };

    fn fmt<W: fmt::Write>(&self, f: &mut fmt::Formatter<W>) -> fmt::Result {
        let indices = self.first..self.version.span_count();
        let spans = spans_from(self.version, self.first);
        for (index, span) in indices.zip(spans).take(self.most) {
            f.write_str("span ")?;
            write_span(f, index, span, self.further)?;
        }
        Ok(())
    }
}
