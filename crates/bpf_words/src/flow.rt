//! What an instruction does with registers and with the run's position, as far as it shows without a state.
ghost use Rattle.std.specs.Prelude.{◌≡◌, ◌≤◌};
ghost use Rattle.bpf_words.specs.Flow.{written_by, jump_of, slots_of};

use crate::instruction::Insn;
use crate::register::Register;

impl Insn {
    /// The register that it writes.
    pub fn written(&self) -> Option<Register>
        ensures { result ≡ written_by self.now }
    {
        match *self {
            Insn::Compute { destination, .. }
            | Insn::Negate { destination, .. }
            | Insn::Extend { destination, .. }
            | Insn::Convert { destination, .. }
            | Insn::Load { destination, .. }
            | Insn::LoadSigned { destination, .. }
            | Insn::LoadWide { destination, .. } => Some(destination),
            _ => None,
        }
    }

    /// How far it jumps, counted from the slot after it; of a comparison, where it holds.
    pub fn distance(&self) -> Option<i32>
        ensures { result ≡ jump_of self.now }
    {
        match *self {
            Insn::Jump { distance } | Insn::Branch { distance, .. } => Some(i32::from(distance)),
            Insn::JumpLong { distance } => Some(distance),
            _ => None,
        }
    }

    /// How many slots it takes: 2 for a wide load, else 1.
    pub fn slots(&self) -> usize
        ensures value { result ≡ slots_of self.now }
        ensures few { result ≤ 2 }
    {
        match self {
            Insn::LoadWide { .. } => 2,
            _ => 1,
        }
    }
}
