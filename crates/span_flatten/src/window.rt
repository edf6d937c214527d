ghost use Rattle.std.specs.Prelude.{◌≡◌};

use crate::version::{Row, Version};
use std::marker::Model;

/// What is visible of the characters between two places: a text of its own, and a row for each span.
pub struct Window {
    pub(crate) text: String,
    pub(crate) rows: Vec<Row>,
}

impl Drop for Window {
    fn drop(self) {
        let Window { text: _, rows: _ } = self;
    }
}

impl Model for Window {
    ghost use Rattle.std.specs.String.{string_bytes};
    ghost use Rattle.span_flatten.specs.Version.{IsWhole};
    ghost use Rattle.span_flatten.specs.Window.{Window as WindowValue};

    ghost Value = { WindowValue };

    ghost view = { λ w. record { text = string_bytes w.text; rows = w.rows.items } };

    ghost invariant = { λ w. IsWhole (string_bytes w.text) w.rows.items };
}

impl Window {
    ghost use Rattle.span_flatten.specs.Version.{IsWhole};

    /// The visible text.
    pub fn text(&self) -> &str
        ensures { result.now ≡ self.now.text }
    {
        self.text.as_str()
    }

    /// The spans, in the order of the text.
    pub fn rows(&self) -> &[Row]
        ensures value { result.now ≡ self.now.rows }
        ensures whole { IsWhole self.now.text self.now.rows }
    {
        self.rows.as_slice()
    }

    /// The version with this number whose text and spans the window has.
    pub(crate) fn into_version(self, number: u64) -> Version
        ensures value { result ≡ record { number = number; text = self.text; rows = self.rows } }
        ensures whole { IsWhole self.text self.rows }
    {
        let Window { text, rows } = self;
        Version { number, text, rows }
    }
}
