//! The numbers and names of the refusals of the libraries.
ghost use Rattle.std.specs.Prelude.{◌≡◌};
ghost use Rattle.refusals.specs.Names.{slot_fault, structure_fault, state_fault, line_fault, refusal_name};

use abstract_state::refusal::Refusal as StateFault;
use assembler_lines::fault::LineFault;
use bpf_words::refusal::SlotFault;
use change_history::refusal::Refusal;
use refusal_titles::{
    BACKWARD_JUMP, BAD_REGISTER, BAD_WIDTH, CONTEXT_FIELD, DOCUMENT_FULL, FALL_OFF, JUMP_INTO_WIDE,
    JUMP_OUT, JUMP_RANGE, LABEL_TWICE, MARKS_FULL, NOT_AN_ADDRESS, NUMBER_RANGE, OUT_OF_PROFILE,
    POINTER_ARITHMETIC, POINTER_COMPARE, POINTER_STORE, READ_ONLY_STORE, RETURN_POINTER,
    STACK_BOUNDS, STACK_UNSET, STALE_COUNTER, SYNTAX, TEXT_BOUNDS, TEXT_OFFSET, TRUNCATED_WIDE,
    UNKNOWN_LABEL, UNKNOWN_NAME, UNKNOWN_OPCODE, UNKNOWN_REF, UNSET_REGISTER, UNUSED_FIELD,
    WRITE_R10,
};
use verifier::refusal::StructureFault;

pub fn slot_fault(fault: SlotFault) -> &'static str
    ensures { result.now ≡ slot_fault fault }
{
    match fault {
        SlotFault::UnknownOpcode => UNKNOWN_OPCODE,
        SlotFault::OutOfProfile => OUT_OF_PROFILE,
        SlotFault::UnusedField => UNUSED_FIELD,
        SlotFault::BadRegister => BAD_REGISTER,
        SlotFault::BadWidth => BAD_WIDTH,
        SlotFault::TruncatedWide => TRUNCATED_WIDE,
    }
}

pub fn structure_fault(fault: StructureFault) -> &'static str
    ensures { result.now ≡ structure_fault fault }
{
    match fault {
        StructureFault::BackwardJump => BACKWARD_JUMP,
        StructureFault::JumpOut => JUMP_OUT,
        StructureFault::JumpIntoWide => JUMP_INTO_WIDE,
        StructureFault::FallOff => FALL_OFF,
        StructureFault::WriteR10 => WRITE_R10,
    }
}

pub fn state_fault(fault: StateFault) -> &'static str
    ensures { result.now ≡ state_fault fault }
{
    match fault {
        StateFault::UnsetRegister => UNSET_REGISTER,
        StateFault::PointerArithmetic => POINTER_ARITHMETIC,
        StateFault::PointerCompare => POINTER_COMPARE,
        StateFault::ContextField => CONTEXT_FIELD,
        StateFault::StackBounds => STACK_BOUNDS,
        StateFault::StackUnset => STACK_UNSET,
        StateFault::TextBounds => TEXT_BOUNDS,
        StateFault::TextOffset => TEXT_OFFSET,
        StateFault::ReadOnlyStore => READ_ONLY_STORE,
        StateFault::NotAnAddress => NOT_AN_ADDRESS,
        StateFault::PointerStore => POINTER_STORE,
        StateFault::ReturnPointer => RETURN_POINTER,
    }
}

pub fn line_fault(fault: LineFault) -> &'static str
    ensures { result.now ≡ line_fault fault }
{
    match fault {
        LineFault::Syntax => SYNTAX,
        LineFault::UnknownName => UNKNOWN_NAME,
        LineFault::NumberRange => NUMBER_RANGE,
        LineFault::UnknownLabel => UNKNOWN_LABEL,
        LineFault::LabelTwice => LABEL_TWICE,
        LineFault::JumpRange => JUMP_RANGE,
    }
}

pub fn refusal_name(refusal: Refusal) -> &'static str
    ensures { result.now ≡ refusal_name refusal }
{
    match refusal {
        Refusal::StaleCounter => STALE_COUNTER,
        Refusal::UnknownRef => UNKNOWN_REF,
        Refusal::DocumentFull => DOCUMENT_FULL,
        Refusal::MarksFull => MARKS_FULL,
    }
}
