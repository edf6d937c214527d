use crate::bytes::program_bytes;
use crate::check::is_inlined;
use crate::fault::{InlineError, InlineFault};
use crate::function::Function;
use crate::inline::inline;
use crate::place::{Place, Placed};
use bpf_words::instruction::{Arithmetic, Comparison, Insn, Operand, Width};
use bpf_words::register::Register;
use inlined_calls::functions::{Caller, FunctionSlot};
use span_context::size::Size;
use std::alloc::{AllocError, Global};
use std::test::Fail;

fn register(number: u8) -> Register {
    Register::new(number).unwrap_or(Register::r0())
}

fn number(destination: u8, value: i32) -> Insn {
    Insn::Compute {
        width: Width::Full,
        operation: Arithmetic::Mov,
        destination: register(destination),
        operand: Operand::Immediate(value),
    }
}

fn compute(operation: Arithmetic, destination: u8, source: u8) -> Insn {
    Insn::Compute {
        width: Width::Full,
        operation,
        destination: register(destination),
        operand: Operand::Source(register(source)),
    }
}

fn store(offset: i16, source: u8) -> Insn {
    Insn::Store {
        size: Size::Double,
        base: register(10),
        offset,
        value: Operand::Source(register(source)),
    }
}

fn load(destination: u8, offset: i16) -> Insn {
    Insn::Load {
        size: Size::Double,
        destination: register(destination),
        base: register(10),
        offset,
    }
}

/// Two functions, of which the first calls the second.
fn functions(alloc: Global) -> Result<Vec<Function>, AllocError> {
    let calling = vec![in alloc;
        FunctionSlot::Plain(compute(Arithmetic::Mov, 6, 1)),
        FunctionSlot::Call {
            function: 1,
            kept: [true, false, false, false],
        },
        FunctionSlot::Plain(compute(Arithmetic::Add, 0, 6)),
        FunctionSlot::Plain(Insn::Exit),
    ]?;
    let called = vec![in alloc;
        FunctionSlot::Plain(store(-8, 1)),
        FunctionSlot::Plain(number(6, 3)),
        FunctionSlot::Plain(load(0, -8)),
        FunctionSlot::Plain(Insn::Exit),
    ]?;
    let mut functions = Vec::new(alloc);
    functions.push(Function::new(calling, 8))?;
    functions.push(Function::new(called, 8))?;
    Ok(functions)
}

/// Both with the call inlined, and an instruction in place of that of a slot.
fn program(slot: usize, insn: Insn) -> [Option<Insn>; 8] {
    let mut program = [
        Some(compute(Arithmetic::Mov, 6, 1)),
        Some(store(-16, 6)),
        Some(store(-24, 1)),
        Some(number(6, 3)),
        Some(load(0, -24)),
        Some(load(6, -16)),
        Some(compute(Arithmetic::Add, 0, 6)),
        Some(Insn::Exit),
    ];
    if slot < 8 {
        program[slot] = Some(insn);
    }
    program
}

/// The places of its slots, where the call enters the second function at that slot, and goes back to that slot.
fn places(alloc: Global, entered: usize, back: usize) -> Result<Vec<Placed>, AllocError> {
    let mut places = Vec::new(alloc);
    for (slot, function, at) in [
        (0, 0, 0),
        (1, 0, 1),
        (2, 1, entered),
        (3, 1, 1),
        (4, 1, 2),
        (5, 1, 3),
        (6, 0, back),
        (7, 0, 3),
    ] {
        let mut callers = Vec::new(alloc);
        if function == 1 {
            callers.push(Caller {
                function: 0,
                slot: 1,
            })?;
        }
        places.push(Placed::new(slot, Place::new(function, at, callers)))?;
    }
    Ok(places)
}

#[test]
fn program_is_inlined_and_spoiled_ones_are_not(rt: HostRuntime) -> Result<(), Fail> {
    let alloc = rt.alloc();
    let functions = functions(alloc)?;
    for (name, slot, insn, entered, back, wanted) in [
        ("the sample", 7, Insn::Exit, 0, 2, true),
        ("a frame not moved", 2, store(-8, 1), 0, 2, false),
        ("cells forgotten", 2, store(-16, 1), 0, 2, false),
        ("a register not kept", 1, store(-16, 7), 0, 2, false),
        ("a register not brought back", 5, number(6, 3), 0, 2, false),
        ("brought back from elsewhere", 5, load(6, -24), 0, 2, false),
        ("back to the call", 7, Insn::Exit, 0, 1, false),
        ("entered elsewhere", 7, Insn::Exit, 1, 2, false),
        ("a jump away", 6, Insn::Jump { distance: 1 }, 0, 2, false),
    ] {
        let program = program(slot, insn);
        let places = places(alloc, entered, back)?;
        assert_eq!(rt; is_inlined(&functions, &program, &places), wanted, "{name}");
    }
    Ok(())
}

fn call(function: usize, kept: bool) -> FunctionSlot {
    FunctionSlot::Call {
        function,
        kept: [kept, false, false, kept],
    }
}

/// A function that goes round and calls two others, of which the first calls the other.
fn nested(alloc: Global, last: FunctionSlot) -> Result<Vec<Function>, AllocError> {
    let first = vec![in alloc;
        FunctionSlot::Plain(number(6, 3)),
        call(1, true),
        FunctionSlot::Plain(branch(1)),
        FunctionSlot::Plain(Insn::Exit),
        call(2, false),
        FunctionSlot::Plain(Insn::LoadWide {
            destination: register(3),
            value: 1 << 40
        }),
        FunctionSlot::Second,
        FunctionSlot::Plain(Insn::JumpLong { distance: -7 }),
    ]?;
    let second = vec![in alloc;
        FunctionSlot::Plain(branch(1)),
        FunctionSlot::Plain(Insn::Exit),
        FunctionSlot::Plain(compute(Arithmetic::Mov, 2, 10)),
        call(2, true),
        FunctionSlot::Plain(load(0, -16)),
        FunctionSlot::Plain(Insn::Exit),
    ]?;
    let third = vec![in alloc;
        FunctionSlot::Plain(store(-8, 1)),
        last,
        FunctionSlot::Plain(Insn::Exit),
    ]?;
    let mut functions = Vec::new(alloc);
    functions.push(Function::new(first, 0))?;
    functions.push(Function::new(second, 16))?;
    functions.push(Function::new(third, 8))?;
    Ok(functions)
}

fn branch(distance: i16) -> Insn {
    Insn::Branch {
        width: Width::Full,
        comparison: Comparison::Equal,
        left: register(1),
        right: Operand::Immediate(0),
        distance,
    }
}

#[test]
fn calls_are_inlined(rt: HostRuntime) -> Result<(), Fail> {
    let alloc = rt.alloc();
    let functions = functions(alloc)?;
    let inlined = inline(alloc, &functions)?;
    assert_eq!(rt; inlined.program.len(), 8);
    let nested = nested(alloc, FunctionSlot::Plain(number(0, 1)))?;
    let inlined = inline(alloc, &nested)?;
    // 1 + 2, then 1 + 1 + 2 + 2, 2 + 2, 1 + 2 of the two copies, and 1 + 1 + 2 + 2 + 1.
    assert_eq!(rt; inlined.program.len(), 23);
    let bytes = program_bytes(alloc, &inlined.program)?;
    assert!(rt; bytes.is_some());
    Ok(())
}

/// Whether the first fault is that one.
fn is_fault(alloc: Global, last: FunctionSlot, wanted: &str) -> Result<bool, AllocError> {
    let functions = nested(alloc, last)?;
    let found = match inline(alloc, &functions) {
        Ok(_) => "none",
        Err(InlineError::Fault { fault, .. }) => match fault {
            InlineFault::NoFunction => "no function",
            InlineFault::Recursion => "recursion",
            InlineFault::FrameRegister => "frame register",
            InlineFault::JumpOut => "jump out",
            InlineFault::RunsOut => "runs out",
            _ => "another",
        },
        Err(_) => "an error",
    };
    Ok(found == wanted)
}

#[test]
fn faults_are_told(rt: HostRuntime) -> Result<(), Fail> {
    let alloc = rt.alloc();
    for (last, wanted) in [
        (call(3, false), "no function"),
        (call(1, false), "recursion"),
        (call(2, false), "recursion"),
        (
            FunctionSlot::Plain(compute(Arithmetic::Add, 10, 10)),
            "frame register",
        ),
        (FunctionSlot::Plain(branch(7)), "jump out"),
        (FunctionSlot::Second, "runs out"),
    ] {
        assert!(rt; is_fault(alloc, last, wanted)?, "{wanted}");
    }
    Ok(())
}
