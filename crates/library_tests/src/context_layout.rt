use semantics::sizes::count;
use span_context::context_field::ContextField;
use span_context::size::Size;
use std::test::Fail;

/// The members of `struct linked_span` as examples/filters/span.h has them: offset, bytes, name.
static MEMBERS: [(u64, usize, &str); 13] = [
    (0, 8, "text"),
    (8, 8, "end"),
    (16, 4, "len"),
    (20, 4, "characters"),
    (24, 4, "flags"),
    (28, 4, "color"),
    (32, 4, "link_len"),
    (36, 4, "comments"),
    (40, 4, "index"),
    (44, 4, "count"),
    (48, 8, "version"),
    (56, 8, "link"),
    (64, 8, "link_end"),
];

#[test]
fn fields_stand_as_in_c(rt: HostRuntime) -> Result<(), Fail> {
    for (field, (offset, bytes, name)) in ContextField::ALL.into_iter().zip(&MEMBERS) {
        assert_eq!(rt; field.name(), *name);
        assert_eq!(rt; field.offset(), *offset);
        assert_eq!(rt; count(field.size()), *bytes);
    }
    Ok(())
}

/// The name of the field of a size at an offset.
fn named(offset: u64, size: Size) -> Option<&'static str> {
    ContextField::at(offset, size).map(|field| field.name())
}

#[test]
fn fields_are_found_where_they_begin(rt: HostRuntime) -> Result<(), Fail> {
    assert_eq!(rt; named(0, Size::Double), Some("text"));
    assert_eq!(rt; named(0, Size::Word), None);
    assert_eq!(rt; named(24, Size::Word), Some("flags"));
    assert_eq!(rt; named(24, Size::Byte), None);
    assert_eq!(rt; named(26, Size::Half), None);
    assert_eq!(rt; named(44, Size::Double), None);
    assert_eq!(rt; named(48, Size::Double), Some("version"));
    assert_eq!(rt; named(64, Size::Double), Some("link_end"));
    assert_eq!(rt; named(72, Size::Word), None);
    Ok(())
}
