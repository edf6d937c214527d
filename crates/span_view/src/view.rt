ghost use Rattle.std.specs.Prelude.{◌≡◌, IfOk, Some, slice_get};
ghost use Rattle.span_flatten.specs.Version.{spans_of};
ghost use Rattle.span_view.specs.Views.{view_at};

use mark_anchors::format::Format;
use std::alloc::AllocError;
use std::marker::Model;
use version_pieces::span_text::SpanText;
use version_pieces::version::PieceVersion;

/// A span of a version, lent from it.
#[derive(Drop)]
pub struct SpanView<'a> {
    /// The span's text.
    pub text: &'a str,
    /// The number of its characters.
    pub characters: usize,
    pub format: &'a Format,
    /// The span's index among those of the version, from 0.
    pub index: usize,
    /// The number of spans of the version.
    pub count: usize,
    /// The version's number.
    pub version: u64,
}

impl<'a> Model for SpanView<'a> {
    ghost use Rattle.std.specs.Prelude.{◌≡◌, length, chars};
    ghost use Rattle.span_view.specs.Views.{SpanView as SpanViewValue, IsWithinLimits};

    ghost Value = { SpanViewValue };

    ghost view = { λ v. record {
      text = v.text.now;
      format = v.format.now;
      index = v.index;
      count = v.count;
      version = v.version;
    } };

    ghost invariant = { λ v. IsWithinLimits (length v.text.now) v.index v.count
        × (v.characters ≡ length (chars v.text.now)) };
}

/// A span of the version, which has this index there. Where its text lies in several pieces, it is put together in the
/// buffer.
pub fn lent<'a>(
    version: &'a PieceVersion,
    index: usize,
    span: SpanText<'a>,
    buffer: &'a mut String,
) -> Result<SpanView<'a>, AllocError>
    requires { slice_get (spans_of version.now) index ≡ Some span }
    ensures { IfOk result (λ view. view_at version.now index ≡ Some view) }
{
    let text = span.text.joined(buffer)?;
    Ok(SpanView {
        text,
        characters: span.characters,
        format: span.format,
        index,
        count: version.span_count(),
        version: version.number(),
    })
}

/// The span with this index in the version, if there is one. Where its text lies in several pieces, it is put together
/// in the buffer.
pub fn view<'a>(
    version: &'a PieceVersion,
    index: usize,
    buffer: &'a mut String,
) -> Result<Option<SpanView<'a>>, AllocError>
    ensures { IfOk result (λ view. view ≡ view_at version.now index) }
{
    let Some(span) = version.span(index) else {
        return Ok(None);
    };
    Ok(Some(lent(version, index, span, buffer)?))
}
