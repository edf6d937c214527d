use bpf_words::instruction::{
    Arithmetic, Comparison, Conversion, ConvertedBits, Extension, SignedSize, Width,
};
use span_context::size::Size;

/// The form of an instruction, which its mnemonic names: all but its registers, numbers and distance.
#[derive(Clone, Copy)]
pub enum Form {
    Compute(Width, Arithmetic),
    Negate(Width),
    Extend(Extension),
    Convert(Conversion, ConvertedBits),
    Jump,
    JumpLong,
    Branch(Width, Comparison),
    Load(Size),
    LoadSigned(SignedSize),
    StoreImmediate(Size),
    StoreRegister(Size),
    LoadWide,
    Exit,
}
