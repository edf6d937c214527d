use mark_anchors::format::Format;
use std::marker::Model;
use text_pieces::extract::Extract;

/// A span, lent: its text, the number of its characters, and its format.
#[derive(Drop)]
pub struct SpanText<'a> {
    pub text: Extract<'a>,
    pub characters: usize,
    pub format: &'a Format,
}

impl<'a> Model for SpanText<'a> {
    ghost use Rattle.std.specs.Prelude.{◌≡◌, length, encode_utf8_all};
    ghost use Rattle.span_flatten.specs.Spans.{Span};

    ghost Value = { Span };

    ghost view = { λ s. record { text = encode_utf8_all s.text; format = s.format.now } };

    ghost invariant = { λ s. s.characters ≡ length s.text };
}
