//! Functions that call each other.
use bpf_words::instruction::Insn;

/// A slot of a function.
#[derive(Clone, Copy)]
pub enum FunctionSlot {
    /// An instruction that is no call.
    Plain(Insn),
    /// The second slot of a wide load.
    Second,
    /// A call of a function by its number, and which of r6 to r9 it keeps (RFC 9669, section 4.3.2).
    Call { function: usize, kept: [bool; 4] },
}

/// A call that a run is in: the function that calls, and the slot of the call.
#[derive(Clone, Copy, PartialEq, Eq)]
pub struct Caller {
    pub function: usize,
    pub slot: usize,
}
