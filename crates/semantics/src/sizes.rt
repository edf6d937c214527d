//! How many bytes loads and stores move.
ghost use Rattle.std.specs.Prelude.{◌≡◌, ◌≤◌};
ghost use Rattle.semantics.specs.Memory.{bytes_in, bytes_in_signed};

use bpf_words::instruction::SignedSize;
use span_context::size::Size;

/// How many bytes a load or a store moves.
pub fn count(size: Size) -> usize
    ensures value { result ≡ bytes_in size }
    ensures few { result ≤ 8 }
{
    match size {
        Size::Byte => 1,
        Size::Half => 2,
        Size::Word => 4,
        Size::Double => 8,
    }
}

/// How much a sign-extending load reads.
pub fn size_read(size: SignedSize) -> Size
    ensures { bytes_in result ≡ bytes_in_signed size }
{
    match size {
        SignedSize::SignedByte => Size::Byte,
        SignedSize::SignedHalf => Size::Half,
        SignedSize::SignedWord => Size::Word,
    }
}

/// How many bytes a sign-extending load moves.
pub fn count_signed(size: SignedSize) -> usize
    ensures value { result ≡ bytes_in_signed size }
    ensures few { result ≤ 8 }
{
    count(size_read(size))
}
