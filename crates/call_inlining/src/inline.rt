//! Functions with their calls inlined: a copy of a function for each call.
ghost use Rattle.std.specs.Prelude.{◌≤◌, length, IfOk};
ghost use Rattle.inlined_calls.specs.Inlined.{IsInlined, MeansTheSame};

use crate::cells::{restoring, saving};
use crate::check::is_inlined;
use crate::fault::{InlineError, InlineFault};
use crate::function::{Function, depth_of, slot_of};
use crate::instructions::{Replacement, add, aimed, distance, falls, in_frame, target};
use crate::place::{Place, Placed};
use bpf_words::instruction::Insn;
use inlined_calls::functions::{Caller, FunctionSlot};
use std::alloc::{AllocError, Global};

/// The most slots that a program has.
const SLOT_LIMIT: usize = 4096;

/// The most places for which they stand.
const PLACE_LIMIT: usize = 8192;

/// The most functions that run at once.
const RUNNING_LIMIT: usize = 8;

/// How far below the end of the stack a frame may end.
const STACK_BYTES: usize = 512;

/// A program with its calls inlined, and the places for which its slots stand, in the order of the slots.
#[derive(Drop)]
pub struct Inlined {
    pub program: Vec<Option<Insn>>,
    pub places: Vec<Placed>,
}

/// A jump of a copy: its slot in the program, and the function's slot to which it leads.
#[derive(Clone, Copy)]
struct Jump {
    from: usize,
    to: usize,
}

/// A copy of a function that is being laid out.
#[derive(Drop)]
struct Copying {
    function: usize,
    // How far below the end of the stack its frame begins.
    depth: usize,
    // Which registers come back behind it, and how far below the end of the stack their cells begin.
    kept: [bool; 4],
    cells: usize,
    // Where its slots so far begin in the program.
    begins: Vec<usize>,
    jumps: Vec<Jump>,
}

/// What is laid out so far.
#[derive(Drop)]
struct Laying<'a> {
    alloc: Global,
    functions: &'a [Function],
    program: Vec<Option<Insn>>,
    places: Vec<Placed>,
    // Those whose copies aren't finished: each but the last one is at a call of the next.
    running: Vec<Copying>,
}

impl Copying {
    fn fault(&self, slot: usize, fault: InlineFault) -> InlineError {
        InlineError::Fault {
            function: self.function,
            slot,
            fault,
        }
    }
}

impl Laying<'_> {
    /// Lays out an instruction, with its second slot.
    fn push(&mut self, insn: Insn) -> Result<(), InlineError> {
        add(&mut self.program, insn)?;
        if self.program.len() > SLOT_LIMIT {
            Err(InlineError::TooLong)
        } else {
            Ok(())
        }
    }

    /// The calls that are inlined at present, the last one first.
    fn callers(&self) -> Result<Vec<Caller>, AllocError> {
        let mut callers = Vec::new(self.alloc);
        for copy in self.running.iter().rev() {
            callers.push(Caller {
                function: copy.function,
                slot: copy.begins.len().saturating_sub(1),
            })?;
        }
        Ok(callers)
    }

    /// The next slot stands for a slot of the copy.
    fn stand(&mut self, copy: &Copying, slot: usize) -> Result<(), InlineError> {
        if self.places.len() >= PLACE_LIMIT {
            return Err(InlineError::TooLong);
        }
        let callers = self.callers()?;
        let place = Place::new(copy.function, slot, callers);
        self.places.push(Placed::new(self.program.len(), place))?;
        Ok(())
    }

    /// Whether an instruction or a call is at a slot of the copy.
    fn is_at(&self, copy: &Copying, slot: usize) -> bool {
        match slot_of(self.functions, copy.function, slot) {
            Some(FunctionSlot::Plain(_)) | Some(FunctionSlot::Call { .. }) => true,
            Some(FunctionSlot::Second) | None => false,
        }
    }

    fn has_second(&self, copy: &Copying, slot: usize) -> bool {
        matches!(
            slot_of(self.functions, copy.function, slot),
            Some(FunctionSlot::Second)
        )
    }

    /// An exit of the first function ends the run, and another goes to the end of its copy.
    fn exit(&mut self, copy: &mut Copying, slot: usize) -> Result<(), InlineError> {
        if self.running.is_empty() {
            return self.push(Insn::Exit);
        }
        let count = match self.functions.get(copy.function) {
            Some(body) => body.len(),
            None => 0,
        };
        if slot.saturating_add(1) == count {
            return Ok(());
        }
        copy.jumps.push(Jump {
            from: self.program.len(),
            to: count,
        })?;
        self.push(Insn::Jump { distance: 0 })
    }

    /// Notes where a jump of the copy leads.
    fn note_jump(&self, copy: &mut Copying, slot: usize, distance: i32) -> Result<(), InlineError> {
        match target(slot, distance) {
            Some(to) if self.is_at(copy, to) => {
                copy.jumps.push(Jump {
                    from: self.program.len(),
                    to,
                })?;
                Ok(())
            }
            _ => Err(copy.fault(slot, InlineFault::JumpOut)),
        }
    }

    /// Where the second slot of a wide load begins that is laid out.
    fn begin_second(&mut self, copy: &mut Copying, slot: usize) -> Result<(), InlineError> {
        if !self.has_second(copy, slot.saturating_add(1)) {
            return Err(copy.fault(slot, InlineFault::LoneSlot));
        }
        copy.begins.push(self.program.len().saturating_sub(1))?;
        Ok(())
    }

    /// What stands for an instruction in the frame of the copy, or why nothing does.
    fn replacement(
        &self,
        copy: &Copying,
        slot: usize,
        insn: &Insn,
    ) -> Result<Replacement, InlineError> {
        if falls(insn) && !self.is_at(copy, slot.saturating_add(insn.slots())) {
            return Err(copy.fault(slot, InlineFault::RunsOut));
        }
        match in_frame(copy.depth, *insn) {
            Some(new) => Ok(new),
            None => Err(copy.fault(slot, InlineFault::FrameRegister)),
        }
    }

    /// Lays out an instruction that stands for that of the slot.
    fn push_last(
        &mut self,
        copy: &mut Copying,
        slot: usize,
        insn: Insn,
    ) -> Result<(), InlineError> {
        if let Some(distance) = insn.distance() {
            self.note_jump(copy, slot, distance)?;
        }
        let count = insn.slots();
        self.push(insn)?;
        if count == 1 {
            return Ok(());
        }
        self.begin_second(copy, slot)
    }

    fn push_pair(
        &mut self,
        copy: &mut Copying,
        slot: usize,
        before: Insn,
        last: Insn,
    ) -> Result<(), InlineError> {
        self.push(before)?;
        self.push_last(copy, slot, last)
    }

    /// Lays out what stands for an instruction of the copy.
    fn push_insn(
        &mut self,
        copy: &mut Copying,
        slot: usize,
        insn: Insn,
    ) -> Result<(), InlineError> {
        match self.replacement(copy, slot, &insn) {
            Ok(Replacement::Alone(last)) => self.push_last(copy, slot, last),
            Ok(Replacement::Pair { before, last }) => self.push_pair(copy, slot, before, last),
            Err(error) => Err(error),
        }
    }

    /// Lays out what is no call.
    fn push_plain(
        &mut self,
        copy: &mut Copying,
        slot: usize,
        insn: Insn,
    ) -> Result<(), InlineError> {
        self.stand(copy, slot)?;
        match insn {
            Insn::Exit => self.exit(copy, slot),
            _ => self.push_insn(copy, slot, insn),
        }
    }

    /// Whether a function runs already, with a copy that calls it.
    fn is_running(&self, copy: &Copying, function: usize) -> bool {
        copy.function == function || self.running.iter().any(|one| one.function == function)
    }

    /// The copy of a function that is called, or why it can't be.
    fn called(
        &self,
        copy: &Copying,
        function: usize,
        kept: [bool; 4],
    ) -> Result<Copying, InlineFault> {
        if function >= self.functions.len() {
            return Err(InlineFault::NoFunction);
        }
        if self.is_running(copy, function) {
            return Err(InlineFault::Recursion);
        }
        if self.running.len() + 1 >= RUNNING_LIMIT {
            return Err(InlineFault::TooDeep);
        }
        let count = kept.iter().filter(|is_kept| **is_kept).count();
        let cells = copy
            .depth
            .saturating_add(depth_of(self.functions, copy.function));
        let depth = cells.saturating_add(count.saturating_mul(8));
        if depth.saturating_add(depth_of(self.functions, function)) > STACK_BYTES {
            return Err(InlineFault::FramesTooLarge);
        }
        Ok(Copying {
            function,
            depth,
            kept,
            cells,
            begins: Vec::new(self.alloc),
            jumps: Vec::new(self.alloc),
        })
    }

    /// Lays out what keeps a register, or what brings it back.
    fn push_cell(
        &mut self,
        depth: usize,
        register: u8,
        comes_back: bool,
    ) -> Result<(), InlineError> {
        let insn = if comes_back {
            restoring(depth, register)
        } else {
            saving(depth, register)
        };
        match insn {
            Some(insn) => self.push(insn),
            None => Err(InlineError::Unsure),
        }
    }

    /// Lays out what keeps the registers of a copy, or what brings them back.
    fn push_cells(&mut self, copy: &Copying, comes_back: bool) -> Result<(), InlineError> {
        let mut depth = copy.cells;
        for (register, is_kept) in [6u8, 7, 8, 9].into_iter().zip(copy.kept) {
            if is_kept {
                self.push_cell(depth, register, comes_back)?;
                depth = depth.saturating_add(8);
            }
        }
        Ok(())
    }

    /// Begins to lay out a function that the copy calls.
    fn call(
        &mut self,
        copy: Copying,
        slot: usize,
        function: usize,
        kept: [bool; 4],
    ) -> Result<(), InlineError> {
        self.stand(&copy, slot)?;
        if !self.is_at(&copy, slot.saturating_add(1)) {
            return Err(copy.fault(slot, InlineFault::RunsOut));
        }
        match self.called(&copy, function, kept) {
            Ok(called) => {
                self.push_cells(&called, false)?;
                self.running.push(copy)?;
                self.running.push(called)?;
                Ok(())
            }
            Err(fault) => Err(copy.fault(slot, fault)),
        }
    }

    /// Gives a jump its distance.
    fn aim(&mut self, from: usize, begin: usize) {
        if let Some(distance) = distance(from, begin) {
            if let Some(there) = self.program.get_mut(from) {
                if let Some(insn) = *there {
                    *there = aimed(insn, distance);
                }
            }
        }
    }

    /// Ends a copy: the registers come back, and its jumps lead to where its slots begin.
    fn finish(&mut self, copy: &Copying) -> Result<(), InlineError> {
        self.push_cells(copy, true)?;
        for jump in &copy.jumps {
            if let Some(begin) = copy.begins.get(jump.to) {
                self.aim(jump.from, *begin);
            }
        }
        Ok(())
    }

    /// Lays out the next slot of a copy.
    fn step(&mut self, mut copy: Copying) -> Result<(), InlineError> {
        let slot = copy.begins.len();
        copy.begins.push(self.program.len())?;
        match slot_of(self.functions, copy.function, slot) {
            Some(FunctionSlot::Plain(insn)) => {
                self.push_plain(&mut copy, slot, insn)?;
                self.running.push(copy)?;
                Ok(())
            }
            Some(FunctionSlot::Second) => Err(copy.fault(slot, InlineFault::LoneSlot)),
            Some(FunctionSlot::Call { function, kept }) => self.call(copy, slot, function, kept),
            None if slot == 0 => Err(copy.fault(slot, InlineFault::RunsOut)),
            None => self.finish(&copy),
        }
    }
}

/// Functions with a copy for each call, and nothing known of it.
fn lay_out(alloc: Global, functions: &[Function]) -> Result<Inlined, InlineError> {
    let mut laying = Laying {
        alloc,
        functions,
        program: Vec::new(alloc),
        places: Vec::new(alloc),
        running: Vec::new(alloc),
    };
    laying.running.push(Copying {
        function: 0,
        depth: 0,
        kept: [false; 4],
        cells: 0,
        begins: Vec::new(alloc),
        jumps: Vec::new(alloc),
    })?;
    // A step lays out a place or ends a copy, and there are no more copies than places and one.
    for _ in 0..3 * PLACE_LIMIT {
        match laying.running.pop() {
            Some(copy) => laying.step(copy)?,
            None => {
                return Ok(Inlined {
                    program: laying.program,
                    places: laying.places,
                });
            }
        }
    }
    Err(InlineError::TooLong)
}

/// The first of some functions with its calls inlined, which means the same. Else a fault, where one is known.
pub fn inline(alloc: Global, functions: &[Function]) -> Result<Inlined, InlineError>
    ensures inlined { IfOk result (λ inlined.
        IsInlined functions.now inlined.program.items inlined.places.items) }
    ensures same { IfOk result (λ inlined. MeansTheSame functions.now inlined.program.items) }
    ensures short { IfOk result (λ inlined. length inlined.program.items ≤ 4096) }
{
    let laid = lay_out(alloc, functions)?;
    if laid.program.len() > SLOT_LIMIT || !is_inlined(functions, &laid.program, &laid.places) {
        return Err(InlineError::Unsure);
    }
    Ok(laid)
}
