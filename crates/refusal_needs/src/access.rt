//! What a load takes.
ghost use Rattle.std.specs.Prelude.{◌≡◌};
ghost use Rattle.semantics.specs.Memory.{bytes_in, bytes_in_signed};
ghost use Rattle.refusal_needs.specs.Refused.{load_in};

use bpf_words::instruction::{Insn, SignedSize};
use bpf_words::register::Register;
use span_context::size::Size;

/// The base, the offset and the number of bytes of a load.
#[derive(Clone, Copy)]
pub struct Access {
    pub base: Register,
    pub offset: i16,
    pub bytes: u8,
}

pub fn bytes_of(size: Size) -> u8
    ensures { result ≡ bytes_in size }
{
    match size {
        Size::Byte => 1,
        Size::Half => 2,
        Size::Word => 4,
        Size::Double => 8,
    }
}

fn signed_bytes_of(size: SignedSize) -> u8
    ensures { result ≡ bytes_in_signed size }
{
    match size {
        SignedSize::SignedByte => 1,
        SignedSize::SignedHalf => 2,
        SignedSize::SignedWord => 4,
    }
}

#[tactic(auto, unfolding(crate::specs::Refused::load_in))]
pub(crate) fn load_of(insn: Insn) -> Option<Access>
    ensures { result ≡ load_in insn }
{
    match insn {
        Insn::Load {
            size,
            base,
            offset,
            ..
        } => Some(Access {
            base,
            offset,
            bytes: bytes_of(size),
        }),
        Insn::LoadSigned {
            size,
            base,
            offset,
            ..
        } => Some(Access {
            base,
            offset,
            bytes: signed_bytes_of(size),
        }),
        _ => None,
    }
}
