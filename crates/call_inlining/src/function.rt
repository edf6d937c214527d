//! The functions of a program, and the frames that they use.
ghost use Rattle.std.specs.Prelude.{◌≡◌, ◌+◌, ◌*◌, ◌∷◌, length, IfSome, slice_get};
ghost use Rattle.inlined_calls.specs.Calls.{slot_at, depth_in, kept_by, kept_from, below, cells};

use inlined_calls::functions::{Caller, FunctionSlot};
use std::marker::Model;

/// A function: its slots, and how many bytes of its frame it uses.
#[derive(Drop)]
pub struct Function {
    slots: Vec<FunctionSlot>,
    depth: usize,
}

impl Model for Function {
    ghost use Rattle.inlined_calls.specs.Calls.{Body};

    ghost Value = { Body };

    ghost view = { λ f. record { slots = f.slots.items; depth = f.depth } };
}

impl Function {
    pub fn new(slots: Vec<FunctionSlot>, depth: usize) -> Function
        ensures slots { result.slots ≡ slots.items }
        ensures depth { result.depth ≡ depth }
    {
        Function { slots, depth }
    }

    /// What is at a slot, where there is one.
    pub fn slot(&self, index: usize) -> Option<FunctionSlot>
        ensures { result ≡ slice_get self.now.slots index }
    {
        self.slots.get(index).copied()
    }

    /// How many slots it has.
    pub fn len(&self) -> usize
        ensures { result ≡ length self.now.slots }
    {
        self.slots.len()
    }

    /// How many bytes of its frame it uses.
    pub fn depth(&self) -> usize
        ensures { result ≡ self.now.depth }
    {
        self.depth
    }
}

/// What is at a slot of a function, where there is one.
#[tactic(auto, unfolding(inlined_calls::specs::Calls::slot_at))]
pub(crate) fn slot_of(functions: &[Function], function: usize, slot: usize) -> Option<FunctionSlot>
    ensures { result ≡ slot_at functions.now function slot }
{
    match functions.get(function) {
        Some(body) => body.slot(slot),
        None => None,
    }
}

/// How many bytes of its frame a function uses.
pub(crate) fn depth_of(functions: &[Function], function: usize) -> usize
    ensures { result ≡ depth_in (slice_get functions.now function) }
{
    match functions.get(function) {
        Some(body) => body.depth(),
        None => 0,
    }
}

/// Which of r6 to r9 a call keeps.
#[tactic(auto, unfolding(inlined_calls::specs::Calls::kept_by))]
pub(crate) fn kept_of(functions: &[Function], caller: Caller) -> [bool; 4]
    ensures { kept_from 6 result ≡ kept_by functions.now caller }
{
    match slot_of(functions, caller.function, caller.slot) {
        Some(FunctionSlot::Call { kept, .. }) => kept,
        _ => [false; 4],
    }
}

/// How many registers a call keeps.
#[tactic(auto, using(crate::proofs::Kept::counts))]
fn kept_count(functions: &[Function], caller: Caller) -> usize
    ensures { result ≡ length (kept_by functions.now caller) }
{
    let kept = kept_of(functions, caller);
    kept.iter().filter(|is_kept| **is_kept).count()
}

/// How far below its caller's frame a frame lies, if that is a number.
fn frame_of(functions: &[Function], caller: Caller) -> Option<usize>
    ensures { IfSome result (λ bytes. bytes
        ≡ depth_in (slice_get functions.now caller.function) + 8 * length (kept_by functions.now caller)) }
{
    let kept = kept_count(functions, caller);
    depth_of(functions, caller.function).checked_add(kept.checked_mul(8)?)
}

/// How far below the end of the stack a frame begins, within such calls, if that is a number.
pub(crate) fn below(functions: &[Function], callers: &[Caller]) -> Option<usize>
    ensures { IfSome result (λ bytes. bytes ≡ below functions.now callers.now) }
{
    let mut bytes: usize = 0;
    for caller in callers {
        bytes = bytes.checked_add(frame_of(functions, *caller)?)?;
    }
    Some(bytes)
}

/// How far below it the cells of the last of some calls begin, if that is a number.
#[tactic(auto, unfolding(inlined_calls::specs::Calls::cells))]
pub(crate) fn cells(functions: &[Function], caller: Caller, callers: &[Caller]) -> Option<usize>
    ensures { IfSome result (λ bytes. bytes ≡ cells functions.now caller callers.now) }
{
    below(functions, callers)?.checked_add(depth_of(functions, caller.function))
}

/// How far below the end of the stack the frame of a called function begins, if that is a number.
#[tactic(auto, unfolding(inlined_calls::specs::Calls::cells, inlined_calls::specs::Calls::below))]
pub(crate) fn below_call(
    functions: &[Function],
    caller: Caller,
    callers: &[Caller],
) -> Option<usize>
    ensures { IfSome result (λ bytes. bytes ≡ below functions.now (caller ∷ callers.now)) }
{
    let kept = kept_count(functions, caller);
    cells(functions, caller, callers)?.checked_add(kept.checked_mul(8)?)
}
