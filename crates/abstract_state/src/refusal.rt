/// Why an instruction is refused. Of several reasons the first stands, in this order: an unset register, then what the
/// instruction does with addresses, then what a load or a store meets (not an address, a store to what is read only, a
/// field of the context, the stack, the text).
#[derive(Clone, Copy)]
pub enum Refusal {
    /// A register that is read may be unset.
    UnsetRegister,
    /// Arithmetic with an address that is none of: a 64-bit move, a number added to or taken from an address in the
    /// text, a constant added to or taken from one in the context or the stack that stays there.
    PointerArithmetic,
    /// A comparison with an address that isn't one of two addresses in the text by 64 bits, for equality or order
    /// without sign.
    PointerCompare,
    /// A load from the context that isn't of a whole field at its own size.
    ContextField,
    /// A load or a store that leaves the stack.
    StackBounds,
    /// A load of stack bytes that may be unset, or of a part of a stored address.
    StackUnset,
    /// A load that may leave the text.
    TextBounds,
    /// An address that may lie over 2^20 bytes after the text's start.
    TextOffset,
    /// A store to the context or the text.
    ReadOnlyStore,
    /// A load from, or a store to, a number.
    NotAnAddress,
    /// A store of an address other than as eight bytes at a multiple of eight.
    PointerStore,
    /// An address in r0 at the end.
    ReturnPointer,
}
