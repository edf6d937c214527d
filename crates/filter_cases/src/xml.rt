//! Text within an attribute of XML.
ghost use Rattle.std.specs.Prelude.{Some};
ghost use Rattle.std.specs.Fmt.{WritesOnOk};
ghost use Rattle.filter_cases.specs.Xml.{xml_character, xml_text};

use std::fmt;

/// Writes a character, or what stands for it.
fn write_character<W: fmt::Write>(f: &mut fmt::Formatter<W>, character: char) -> fmt::Result
    ensures { WritesOnOk W.write_str_gives f.old result (xml_character character) f.new }
{
    match character {
        '"' => f.write_str("&quot;"),
        '&' => f.write_str("&amp;"),
        '<' => f.write_str("&lt;"),
        '\t' => f.write_str("&#9;"),
        '\n' => f.write_str("&#10;"),
        '\r' => f.write_str("&#13;"),
        '\0'..='\u{1f}' | '\u{fffe}' | '\u{ffff}' => f.write_str("?"),
        _ => f.write_char(character),
    }
}

/// A text as it stands in an attribute.
#[derive(Clone, Copy)]
pub struct XmlText<'a>(pub &'a str);

impl fmt::Display for XmlText<'_> {
    ghost output = { λ text. Some (xml_text text.0.now) };

    fn fmt<W: fmt::Write>(&self, f: &mut fmt::Formatter<W>) -> fmt::Result {
        for character in self.0.chars() {
            write_character(f, character)?;
        }
        Ok(())
    }
}
