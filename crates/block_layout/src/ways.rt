//! Where instructions lead.
ghost use Rattle.std.specs.Prelude.{◌≡◌, ◌<◌, ◌^◌, ℕ, MatchOption};
ghost use Rattle.bpf_words.specs.Flow.{falls_through};
ghost use Rattle.block_layout.specs.Loops.{IsAway};

use bpf_words::instruction::Insn;

/// The slot that far from the slot after this one.
pub(crate) fn target(slot: usize, distance: i32) -> Option<usize>
    requires { slot < 2 ^ 32 }
    ensures { MatchOption result ((to : ℕ) → IsAway slot distance to → ⊥) (λ to. IsAway slot distance to) }
{
    usize::try_from(slot as i64 + 1 + i64::from(distance)).ok()
}

/// Whether a run may go on from it to the instruction after it.
pub(crate) fn falls(insn: &Insn) -> bool
    ensures { result ≡ falls_through insn.now }
{
    !matches!(insn, Insn::Jump { .. } | Insn::JumpLong { .. } | Insn::Exit)
}
