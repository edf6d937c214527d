ghost use Rattle.std.specs.Prelude.{◌≡◌, ◌≤◌, chars, length, unwrap_or};
ghost use Rattle.span_context.specs.Context.{Fits, span_bytes};
ghost use Rattle.mark_anchors.specs.Formatting.{color_in};
ghost use Rattle.span_view.specs.ContextOf.{flag, flags_of, facts_of, context_of, link_of};

use crate::view::SpanView;
use change_ops::keys;
use mark_anchors::format::Format;
use span_context::context::{Context, Facts};

/// The flags of a context.
const STRONG: u32 = 1;

const EM: u32 = 2;

const LINK: u32 = 4;

const COLOR: u32 = 8;

const COMMENT: u32 = 16;

const CODE: u32 = 32;

fn flag(holds: bool, bit: u32) -> u32
    ensures { result ≡ flag holds bit }
{
    if holds { bit } else { 0 }
}

fn flags(format: &Format) -> u32
    ensures { result ≡ flags_of format.now }
{
    flag(format.has(keys::STRONG), STRONG)
        + flag(format.has(keys::EM), EM)
        + flag(format.link().is_some(), LINK)
        + flag(format.color().is_some(), COLOR)
        + flag(format.comment_count() > 0, COMMENT)
        + flag(format.has(keys::CODE), CODE)
}

/// A text has no more characters than bytes, so their count has 32 bits.
fn character_count(span: &SpanView) -> u32
    ensures { result ≡ length (chars span.now.text) }
{
    span.characters as u32
}

/// The text of the span's link, borrowed from its format; it has no byte where the span has no link.
pub fn link<'a>(span: &SpanView<'a>) -> &'a [u8]
    ensures value { result.now ≡ link_of span.now }
    ensures short { length result.now ≤ 1024 }
{
    match span.format.link() {
        Some(link) => link.target().as_bytes(),
        None => &[],
    }
}

fn color_number(format: &Format) -> u32
    ensures { result ≡ unwrap_or (color_in format.now) 0 }
{
    match format.color() {
        Some(color) => color.rgb(),
        None => 0,
    }
}

fn facts(span: &SpanView) -> Facts
    ensures value { result ≡ facts_of span.now }
    ensures short { result.text_len ≤ 131072 }
    ensures link_short { result.link_len ≤ 1024 }
{
    let format = span.format;
    Facts {
        text_len: span.text.len() as u32,
        characters: character_count(span),
        flags: flags(format),
        color: color_number(format),
        link_len: link(span).len() as u32,
        comments: format.comment_count(),
        index: span.index as u32,
        count: span.count as u32,
        version: span.version,
    }
}

/// The context that a program reads of the span.
pub fn context(span: &SpanView) -> Context
    ensures value { result ≡ context_of span.now }
    ensures fits { Fits (span_bytes result span.now.text (link_of span.now)) }
{
    Context::new(&facts(span))
}
