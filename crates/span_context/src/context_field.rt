//! The fields of a context: what a program may read of a span beside its bytes.
ghost use Rattle.std.specs.Prelude.{◌≡◌, ◌+◌, ◌≤◌, Some, IfSome, IsTrue, ◌↔◌};
ghost use Rattle.span_context.specs.declared.context.Facts.{Facts};
ghost use Rattle.span_context.specs.Context.{context_bytes};
ghost use Rattle.span_context.specs.ContextField.{offset_of, bytes_of, size_of, name_of, every_field, StandsIn};
ghost use Rattle.span_context.specs.ContextField.{bytes_of_fields};

use crate::size::Size;

/// A field of the 72 bytes of a context, by rising offset.
#[derive(Clone, Copy, PartialEq, Eq)]
pub enum ContextField {
    /// The address at which the text begins.
    Text,
    /// The address behind the text's last byte.
    End,
    /// How many bytes the text has.
    Length,
    /// How many characters the text has.
    Characters,
    /// What the span is formatted with, as `Facts::flags` says.
    Flags,
    Color,
    /// How many bytes the link's text has.
    LinkLength,
    Comments,
    /// The span's index among those of its version.
    Index,
    /// How many spans the version has.
    Count,
    Version,
    /// The address at which the link's text begins.
    Link,
    /// The address behind the last byte of the link's text.
    LinkEnd,
}

/// The fields' bytes, one after another, are the context, and each field's stand at its offset.
pub fn layout()
    ensures all { ContextField.ALL ≡ every_field }
    ensures whole { (facts : Facts) → bytes_of_fields facts every_field ≡ context_bytes facts }
    ensures offsets { (facts : Facts) (field : ContextField) → StandsIn facts field }
{}

impl ContextField {
    /// All of them, by rising offset.
    pub const ALL: [ContextField; 13] = [
        ContextField::Text,
        ContextField::End,
        ContextField::Length,
        ContextField::Characters,
        ContextField::Flags,
        ContextField::Color,
        ContextField::LinkLength,
        ContextField::Comments,
        ContextField::Index,
        ContextField::Count,
        ContextField::Version,
        ContextField::Link,
        ContextField::LinkEnd,
    ];

    /// How many bytes stand before it.
    pub fn offset(self) -> u64
        ensures value { result ≡ offset_of self }
        ensures within { result + bytes_of self ≤ 72 }
    {
        match self {
            ContextField::Text => 0,
            ContextField::End => 8,
            ContextField::Length => 16,
            ContextField::Characters => 20,
            ContextField::Flags => 24,
            ContextField::Color => 28,
            ContextField::LinkLength => 32,
            ContextField::Comments => 36,
            ContextField::Index => 40,
            ContextField::Count => 44,
            ContextField::Version => 48,
            ContextField::Link => 56,
            ContextField::LinkEnd => 64,
        }
    }

    /// The size of the load that reads all of it.
    pub fn size(self) -> Size
        ensures { result ≡ size_of self }
    {
        match self {
            ContextField::Text
            | ContextField::End
            | ContextField::Version
            | ContextField::Link
            | ContextField::LinkEnd => Size::Double,
            _ => Size::Word,
        }
    }

    /// What it is called in C.
    pub fn name(self) -> &'static str
        ensures { result.now ≡ name_of self }
    {
        match self {
            ContextField::Text => "text",
            ContextField::End => "end",
            ContextField::Length => "len",
            ContextField::Characters => "characters",
            ContextField::Flags => "flags",
            ContextField::Color => "color",
            ContextField::LinkLength => "link_len",
            ContextField::Comments => "comments",
            ContextField::Index => "index",
            ContextField::Count => "count",
            ContextField::Version => "version",
            ContextField::Link => "link",
            ContextField::LinkEnd => "link_end",
        }
    }

    /// Whether it begins there and has that size.
    fn begins(self, offset: u64, size: Size) -> bool
        ensures { IsTrue result ↔ (offset_of self ≡ offset) × (size_of self ≡ size) }
    {
        self.offset() == offset && self.size() == size
    }

    /// The field that begins there and has that size.
    pub fn at(offset: u64, size: Size) -> Option<Self>
        ensures begins { IfSome result (λ f. (offset_of f ≡ offset) × (size_of f ≡ size)) }
        ensures found { (f : ContextField) → offset_of f ≡ offset → size_of f ≡ size → result ≡ Some f }
    {
        for field in Self::ALL {
            if field.begins(offset, size) {
                return Some(field);
            }
        }
        None
    }
}
