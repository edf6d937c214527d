//! How many bytes a load or a store moves.

/// How many bytes a load or a store moves: 1, 2, 4 or 8 (RFC 9669, section 5).
#[derive(Clone, Copy, PartialEq, Eq)]
pub enum Size {
    Byte,
    Half,
    Word,
    Double,
}
