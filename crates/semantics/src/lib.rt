//! What a program means: the types of its outcome, and the sizes of what it moves. The meaning itself stands in specs/.
#![tactic(auto)]

ghost use Rattle.semantics.specs.Safe.{Safe};
ghost use Rattle.semantics.specs.Samples.{returns_one, exit_alone};

pub mod sizes;

/// Why a run stops at an instruction.
#[derive(Clone, Copy)]
pub enum FaultKind {
    /// A register is read that nothing was written to.
    UnsetRegister,
    /// The bytes of a load or store don't all lie in one region.
    BadAddress,
    /// A store into the context, the text or the link's text.
    ReadOnly,
    /// A load of a stack byte that nothing was written to.
    UnsetStack,
    /// The slot is the second of a wide load.
    BadInstruction,
    /// The next slot isn't in the program.
    OutOfCode,
    /// A write to r10, which holds the stack's end.
    WriteR10,
}

/// How a run ends.
#[derive(Clone, Copy)]
pub enum Outcome {
    /// An exit, with the number in r0.
    Done(u64),
    /// The first fault, with the slot of the instruction that met it.
    Fault { slot: usize, kind: FaultKind },
    /// No end within as many steps as the program has slots.
    OutOfSteps,
}

/// Some programs are safe, and not all are.
pub fn safety()
    ensures some { Safe returns_one }
    ensures not_all { Safe exit_alone → ⊥ }
{}
