//! Instructions: whether two are the same, where they lead, and what they become in a frame below another.
ghost use Rattle.std.specs.Prelude.{◌≡◌, IsTrue, IfSome, MatchOption, Some, true};
ghost use Rattle.bpf_words.specs.declared.instruction.Insn.TheVariants.{Compute, Load, LoadSigned, Store};
ghost use Rattle.bpf_words.specs.Flow.{StartsAt, falls_through};
ghost use Rattle.inlined_calls.specs.Calls.{Stuck, lowered, in_frame, moved, frame_address, is_frame, unless};
ghost use Rattle.inlined_calls.specs.Inlined.{IsAway, aimed};
ghost use Rattle.call_inlining.specs.Checked.{onward_of, uses_frame, work_of};

use bpf_words::encoding::encode;
use bpf_words::instruction::{Arithmetic, Insn, Operand, SignedSize, Width};
use bpf_words::register::Register;
use span_context::size::Size;
use std::alloc::AllocError;

/// Whether two instructions are the same, as their bytes are.
#[tactic(auto, using(crate::proofs::Same::read_alike))]
pub(crate) fn is_same(a: Insn, b: Insn) -> bool
    ensures { IsTrue result → a ≡ b }
{
    let a = encode(a);
    let b = encode(b);
    a.bytes() == b.bytes()
}

/// Puts an instruction behind a program, with its second slot.
pub(crate) fn add(program: &mut Vec<Option<Insn>>, insn: Insn) -> Result<(), AllocError> {
    let count = insn.slots();
    program.push(Some(insn))?;
    if count == 2 {
        program.push(None)?;
    }
    Ok(())
}

/// The instruction that begins at a slot.
pub(crate) fn insn_at(program: &[Option<Insn>], slot: usize) -> Option<Insn>
    ensures { IfSome result (λ insn. StartsAt program.now slot insn) }
{
    match program.get(slot) {
        Some(Some(insn)) => Some(*insn),
        _ => None,
    }
}

/// Whether an instruction stands at a slot.
pub(crate) fn starts_at(program: &[Option<Insn>], slot: usize, insn: Insn) -> bool
    ensures { IsTrue result → StartsAt program.now slot insn }
{
    match insn_at(program, slot) {
        Some(there) => is_same(there, insn),
        None => false,
    }
}

/// The slot that far from the slot after this one, if there is one.
pub(crate) fn target(slot: usize, distance: i32) -> Option<usize>
    ensures { IfSome result (λ to. IsAway slot distance to) }
{
    let behind = i64::try_from(slot).ok()?.checked_add(1)?;
    usize::try_from(behind.checked_add(i64::from(distance))?).ok()
}

/// How far it is from the slot after one to another, if a jump may be that far.
pub(crate) fn distance(slot: usize, to: usize) -> Option<i32>
    ensures { IfSome result (λ distance. IsAway slot distance to) }
{
    let slot = i32::try_from(slot).ok()?;
    let to = i32::try_from(to).ok()?;
    Some(to - slot - 1)
}

/// Whether a run may go on from it to the instruction after it.
pub(crate) fn falls(insn: &Insn) -> bool
    ensures { result ≡ falls_through insn.now }
{
    !matches!(insn, Insn::Jump { .. } | Insn::JumpLong { .. } | Insn::Exit)
}

/// How far it jumps; 0 if it doesn't.
pub(crate) fn onward_of(insn: &Insn) -> i32
    ensures { result ≡ onward_of insn.now }
{
    insn.distance().unwrap_or(0)
}

/// An instruction with another distance, if it jumps, and if it can have that one.
pub(crate) fn aimed(insn: Insn, onward: i32) -> Option<Insn>
    ensures { IfSome result (λ new. new ≡ aimed insn onward) }
{
    match insn {
        Insn::Jump { .. } => {
            let distance = i16::try_from(onward).ok()?;
            Some(Insn::Jump { distance })
        }
        Insn::JumpLong { .. } => Some(Insn::JumpLong { distance: onward }),
        Insn::Branch {
            width,
            comparison,
            left,
            right,
            ..
        } => {
            let distance = i16::try_from(onward).ok()?;
            Some(Insn::Branch {
                width,
                comparison,
                left,
                right,
                distance,
            })
        }
        _ => Some(insn),
    }
}

/// Whether an instruction is another but for how far it jumps.
pub(crate) fn is_aimed(there: Insn, insn: Insn) -> bool
    ensures { IsTrue result → there ≡ aimed insn (onward_of there) }
{
    match aimed(insn, onward_of(&there)) {
        Some(wanted) => is_same(there, wanted),
        None => false,
    }
}

/// What stands for an instruction in a frame below another: one instruction, or one behind another.
#[derive(Clone, Copy)]
pub(crate) enum Replacement {
    Alone(Insn),
    Pair { before: Insn, last: Insn },
}

/// Whether it is r10.
fn is_frame(operand: &Operand) -> bool
    ensures { result ≡ is_frame operand.now }
{
    match *operand {
        Operand::Immediate(_) => false,
        Operand::Source(register) => register.number() == 10,
    }
}

/// The offset from a base in a frame that lies so far below, if there is one.
fn lowered(depth: u16, base: Register, offset: i16) -> Option<i16>
    ensures { IfSome result (λ new. new ≡ lowered depth base offset) }
{
    if base.number() == 10 {
        i16::try_from(i32::from(offset) - i32::from(depth)).ok()
    } else {
        Some(offset)
    }
}

/// A move of r10 in a frame that lies so far below, and a sum behind it; no other operation has a meaning.
fn frame_address(
    depth: u16,
    width: Width,
    operation: Arithmetic,
    destination: Register,
    frame: Operand,
) -> Option<Replacement>
    requires { is_frame frame ≡ true }
    ensures { MatchOption result (frame_address depth width operation destination ≡ Stuck)
        (λ new. work_of new ≡ frame_address depth width operation destination) }
{
    match (width, operation) {
        (Width::Full, Arithmetic::Mov) => Some(Replacement::Pair {
            before: Insn::Compute {
                width,
                operation,
                destination,
                operand: frame,
            },
            last: Insn::Compute {
                width,
                operation: Arithmetic::Add,
                destination,
                operand: Operand::Immediate(-i32::from(depth)),
            },
        }),
        _ => None,
    }
}

/// What stands for a computation in a frame that lies so far below.
fn computed(
    depth: u16,
    width: Width,
    operation: Arithmetic,
    destination: Register,
    operand: Operand,
) -> Option<Replacement>
    ensures { MatchOption result (moved depth (Compute width operation destination operand) ≡ Stuck)
        (λ new. work_of new ≡ moved depth (Compute width operation destination operand)) }
{
    if is_frame(&operand) {
        return frame_address(depth, width, operation, destination, operand);
    }
    Some(Replacement::Alone(Insn::Compute {
        width,
        operation,
        destination,
        operand,
    }))
}

/// Whether a move with a sign is of r10, or a comparison with it.
fn uses_frame(insn: &Insn) -> bool
    ensures { result ≡ uses_frame insn.now }
{
    match insn {
        Insn::Extend { source, .. } => source.number() == 10,
        Insn::Branch { left, right, .. } => left.number() == 10 || is_frame(right),
        _ => false,
    }
}

/// An instruction by itself, unless it has no meaning.
fn unless(has_none: bool, insn: Insn) -> Option<Replacement>
    ensures { MatchOption result (unless has_none insn ≡ Stuck) (λ new. work_of new ≡ unless has_none insn) }
{
    if has_none {
        None
    } else {
        Some(Replacement::Alone(insn))
    }
}

/// A load in a frame that lies so far below.
fn loaded(
    depth: u16,
    size: Size,
    destination: Register,
    base: Register,
    offset: i16,
) -> Option<Replacement>
    ensures { IfSome result (λ new. work_of new ≡ moved depth (Load size destination base offset)) }
{
    let offset = lowered(depth, base, offset)?;
    Some(Replacement::Alone(Insn::Load {
        size,
        destination,
        base,
        offset,
    }))
}

/// A load with a sign in a frame that lies so far below.
fn loaded_signed(
    depth: u16,
    size: SignedSize,
    destination: Register,
    base: Register,
    offset: i16,
) -> Option<Replacement>
    ensures { IfSome result (λ new. work_of new ≡ moved depth (LoadSigned size destination base offset)) }
{
    let offset = lowered(depth, base, offset)?;
    Some(Replacement::Alone(Insn::LoadSigned {
        size,
        destination,
        base,
        offset,
    }))
}

/// A store in a frame that lies so far below.
fn stored(
    depth: u16,
    size: Size,
    base: Register,
    offset: i16,
    value: Operand,
) -> Option<Replacement>
    ensures { IfSome result (λ new. work_of new ≡ moved depth (Store size base offset value)) }
{
    if is_frame(&value) {
        return None;
    }
    let offset = lowered(depth, base, offset)?;
    Some(Replacement::Alone(Insn::Store {
        size,
        base,
        offset,
        value,
    }))
}

/// What stands for an instruction in a frame that lies so far below.
fn moved(depth: u16, insn: Insn) -> Option<Replacement>
    ensures { IfSome result (λ new. work_of new ≡ moved depth insn) }
{
    match insn {
        Insn::Compute {
            width,
            operation,
            destination,
            operand,
        } => computed(depth, width, operation, destination, operand),
        Insn::Extend { .. } | Insn::Branch { .. } => {
            let has_none = uses_frame(&insn);
            unless(has_none, insn)
        }
        Insn::Load {
            size,
            destination,
            base,
            offset,
        } => loaded(depth, size, destination, base, offset),
        Insn::LoadSigned {
            size,
            destination,
            base,
            offset,
        } => loaded_signed(depth, size, destination, base, offset),
        Insn::Store {
            size,
            base,
            offset,
            value,
        } => stored(depth, size, base, offset, value),
        _ => Some(Replacement::Alone(insn)),
    }
}

/// What stands for an instruction in a frame that lies so far below the end of the stack.
pub(crate) fn in_frame(depth: usize, insn: Insn) -> Option<Replacement>
    ensures { IfSome result (λ new. work_of new ≡ in_frame depth insn) }
{
    if depth == 0 {
        Some(Replacement::Alone(insn))
    } else {
        moved(u16::try_from(depth).ok()?, insn)
    }
}
