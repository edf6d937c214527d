//! The cells of the registers that a call keeps, between its frame and that of the called function.
ghost use Rattle.std.specs.Prelude.{◌≡◌, ◌+◌, ◌≤◌, pos, ◌-ℤ◌, IfSome, length};
ghost use Rattle.inlined_calls.specs.Calls.{saving, restoring, saves, restores, kept_from};
ghost use Rattle.call_inlining.specs.Checked.{StandTo};

use crate::instructions::starts_at;
use bpf_words::instruction::{Insn, Operand};
use bpf_words::register::Register;
use span_context::size::Size;

/// The offset of the cell under so many bytes, if it has one.
fn cell_offset(depth: usize) -> Option<i16>
    ensures { IfSome result (λ offset. offset ≡ pos 0 -ℤ pos (depth + 8)) }
{
    let depth = u16::try_from(depth).ok()?;
    i16::try_from(-(i32::from(depth) + 8)).ok()
}

/// The store that keeps a register in the cell under so many bytes.
pub(crate) fn saving(depth: usize, register: u8) -> Option<Insn>
    ensures { IfSome result (λ insn. insn ≡ saving depth register) }
{
    Some(Insn::Store {
        size: Size::Double,
        base: Register::new(10)?,
        offset: cell_offset(depth)?,
        value: Operand::Source(Register::new(register)?),
    })
}

/// The load that brings it back.
pub(crate) fn restoring(depth: usize, register: u8) -> Option<Insn>
    ensures { IfSome result (λ insn. insn ≡ restoring depth register) }
{
    Some(Insn::Load {
        size: Size::Double,
        destination: Register::new(register)?,
        base: Register::new(10)?,
        offset: cell_offset(depth)?,
    })
}

/// The slot behind the instructions that keep registers, if these stand from a slot on.
#[tactic(auto, unfolding(inlined_calls::specs::Calls::saves, inlined_calls::specs::Inlined::AllStand, inlined_calls::specs::Inlined::behind))]
pub(crate) fn behind_saves(
    program: &[Option<Insn>],
    slot: usize,
    depth: usize,
    register: u8,
    kept: &[bool],
) -> Option<usize>
    requires { register + length kept.now ≤ 10 }
    ensures { IfSome result (StandTo program.now slot (saves depth (kept_from register kept.now))) }
{
    match kept {
        [] => Some(slot),
        [true, rest @ ..] => {
            let insn = saving(depth, register)?;
            if !starts_at(program, slot, insn) {
                return None;
            }
            behind_saves(program, slot + 1, depth.checked_add(8)?, register + 1, rest)
        }
        [false, rest @ ..] => behind_saves(program, slot, depth, register + 1, rest),
    }
}

/// The slot behind the instructions that bring registers back, if these stand from a slot on.
#[tactic(auto, unfolding(inlined_calls::specs::Calls::restores, inlined_calls::specs::Inlined::AllStand, inlined_calls::specs::Inlined::behind))]
pub(crate) fn behind_restores(
    program: &[Option<Insn>],
    slot: usize,
    depth: usize,
    register: u8,
    kept: &[bool],
) -> Option<usize>
    requires { register + length kept.now ≤ 10 }
    ensures { IfSome result (StandTo program.now slot (restores depth (kept_from register kept.now))) }
{
    match kept {
        [] => Some(slot),
        [true, rest @ ..] => {
            let insn = restoring(depth, register)?;
            if !starts_at(program, slot, insn) {
                return None;
            }
            behind_restores(program, slot + 1, depth.checked_add(8)?, register + 1, rest)
        }
        [false, rest @ ..] => behind_restores(program, slot, depth, register + 1, rest),
    }
}
