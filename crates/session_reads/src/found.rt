//! What a query finds, and how it is printed.
ghost use Rattle.std.specs.Prelude.{◌≡◌, ◌++◌, Some, OnOk, flat_map};
ghost use Rattle.std.specs.Fmt.{WritesOnOk};
ghost use Rattle.std.specs.Io.KnownBytes.{Appends};
ghost use Rattle.session_reads.specs.Found.{found_text};
ghost use Rattle.session_reads.specs.declared.found.Found.TheVariants as found;

use change_log::text::ChangeText;
use session_lines::reply::Reply;
use span_lines::printing::SomeSpans;
use span_lines::writing::write_displayed;
use std::{fmt, io};

/// What is printed before the reply: lent or shared, and nothing of it is copied before it is written.
#[derive(Drop)]
pub enum Found<'a> {
    Nothing,
    /// Spans of a version, a line each.
    Spans(SomeSpans<'a>),
    /// The texts of changes, one behind the other.
    Changes(Vec<ChangeText>),
}

/// An answer: what was found, and the line behind it.
#[derive(Drop)]
pub struct Answer<'a> {
    pub found: Found<'a>,
    pub reply: Reply,
}

impl<'a> Answer<'a> {
    /// A line alone.
    pub fn line(reply: Reply) -> Answer<'a>
        ensures found { result.found ≡ found.Nothing }
        ensures reply { result.reply ≡ reply }
    {
        Answer {
            found: Found::Nothing,
            reply,
        }
    }
}

fn write_texts<W: fmt::Write>(f: &mut fmt::Formatter<W>, texts: &[ChangeText]) -> fmt::Result
    ensures { WritesOnOk W.write_str_gives f.old result (flat_map (λ text. text) texts.now) f.new }
{
    for text in texts {
        f.write_str(text.as_str())?;
    }
    Ok(())
}

impl fmt::Display for Found<'_> {
    ghost output = { λ found. Some (found_text found) };

    fn fmt<W: fmt::Write>(&self, f: &mut fmt::Formatter<W>) -> fmt::Result {
        match self {
            Found::Nothing => Ok(()),
            Found::Spans(spans) => write!(f, "{spans}"),
            Found::Changes(texts) => write_texts(f, texts),
        }
    }
}

/// What was found, and lines behind it.
#[derive(Clone, Copy)]
struct Whole<'w, 'a> {
    found: &'w Found<'a>,
    lines: &'w str,
}

impl fmt::Display for Whole<'_, '_> {
    ghost output = { λ whole. Some (found_text whole.found.now ++ whole.lines.now) };

    fn fmt<W: fmt::Write>(&self, f: &mut fmt::Formatter<W>) -> fmt::Result {
        write!(f, "{}{}", self.found, self.lines)
    }
}

impl Found<'_> {
    /// Writes it and lines behind it, in pieces and without memory for that.
    pub fn write<W: io::Write>(&self, lines: &str, writer: &mut W) -> io::Result<()>
        ensures { OnOk result (Appends (W.contents writer.old) (W.contents writer.new)
            (found_text self.now ++ lines.now)) }
    {
        match self {
            Found::Nothing => writer.write_all(lines.as_bytes()),
            _ => {
                let whole = Whole { found: self, lines };
                write_displayed(writer, &whole)
            }
        }
    }
}
