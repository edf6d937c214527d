ghost use Rattle.std.specs.Prelude.{◌≡◌};

use mark_anchors::format::Format;
use std::marker::Model;

/// A span: from `start` to `end` in the version's text, in bytes, all of one format, with the number of its characters.
pub struct Row {
    pub start: usize,
    pub end: usize,
    pub characters: usize,
    pub format: Format,
}

impl Drop for Row {
    fn drop(self) {
        let Row {
            start: _,
            end: _,
            characters: _,
            format: _,
        } = self;
    }
}

/// A version of the text: its number, the visible text, and a row for each span.
pub struct Version {
    pub(crate) number: u64,
    pub(crate) text: String,
    pub(crate) rows: Vec<Row>,
}

impl Drop for Version {
    fn drop(self) {
        let Version {
            number: _,
            text: _,
            rows: _,
        } = self;
    }
}

impl Model for Version {
    ghost use Rattle.std.specs.String.{string_bytes};
    ghost use Rattle.span_flatten.specs.Version.{Version as VersionValue, IsWhole};

    ghost Value = { VersionValue };

    ghost view = { λ v. record { number = v.number; text = string_bytes v.text; rows = v.rows.items } };

    ghost invariant = { λ v. IsWhole (string_bytes v.text) v.rows.items };
}

impl Version {
    ghost use Rattle.span_flatten.specs.Version.{IsWhole};

    /// The number that the version was made with.
    pub fn number(&self) -> u64
        ensures { result ≡ self.now.number }
    {
        self.number
    }

    /// The visible text.
    pub fn text(&self) -> &str
        ensures { result.now ≡ self.now.text }
    {
        self.text.as_str()
    }

    /// The spans, in the order of the text.
    pub fn rows(&self) -> &[Row]
        ensures value { result.now ≡ self.now.rows }
        ensures whole { IsWhole self.now.text self.now.rows }
    {
        self.rows.as_slice()
    }
}
