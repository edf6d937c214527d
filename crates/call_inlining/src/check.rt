//! Whether a program is functions with their calls inlined, by the places for which its slots stand.
ghost use Rattle.std.specs.Prelude.{◌≡◌, ◌+◌, ℤ, true, IsTrue, IfSome, Some, nat_eq};
ghost use Rattle.std.specs.List.{list_any};
ghost use Rattle.bpf_words.specs.Flow.{falls_through, jump_of, slots_of};
ghost use Rattle.inlined_calls.specs.Calls.{Passes, in_frame, work_at, plain, calls, returns, callee, place_at};
ghost use Rattle.inlined_calls.specs.Calls.{at_slot, saves, restores, kept_from, may_call, is_running, has_room};
ghost use Rattle.inlined_calls.specs.Inlined.{StandsFor, JumpsOn, GoesOn, LeadsTo, JumpsFrom, Does};
ghost use Rattle.inlined_calls.specs.Inlined.{IsInlined, MeansTheSame};
ghost use Rattle.call_inlining.specs.Checked.{onward_of, work_of, AllDo};

use crate::cells::{behind_restores, behind_saves};
use crate::function::{Function, below, below_call, cells, depth_of, kept_of, slot_of};
use crate::instructions::{
    Replacement, falls, in_frame, insn_at, is_aimed, onward_of, starts_at, target,
};
use crate::place::{Place, Placed, Spot, enters, stands_for, stays_at};
use bpf_words::instruction::Insn;
use inlined_calls::functions::{Caller, FunctionSlot};

/// Whether the slot behind an instruction stands for the place behind it, if runs go on there.
fn falls_on(places: &[Placed], slot: usize, place: &Place, insn: &Insn) -> bool
    ensures { IsTrue result → falls_through insn.now ≡ true
        → StandsFor places.now (slot + slots_of insn.now) (at_slot place.now (place.now.slot + slots_of insn.now)) }
{
    if !falls(insn) {
        return true;
    }
    let slots = insn.slots();
    match (slot.checked_add(slots), place.slot().checked_add(slots)) {
        (Some(next), Some(to)) => stays_at(places, next, place, to),
        _ => false,
    }
}

/// Whether a jump, if it is one, leads to a slot that stands for the place to which it led.
fn jumps_on(places: &[Placed], slot: usize, place: &Place, insn: &Insn, there: &Insn) -> bool
    ensures { IsTrue result → (distance : ℤ) → jump_of insn.now ≡ Some distance
        → JumpsOn places.now slot place.now distance (onward_of there.now) }
{
    let Some(distance) = insn.distance() else {
        return true;
    };
    match (
        target(place.slot(), distance),
        target(slot, onward_of(there)),
    ) {
        (Some(to), Some(next)) => stays_at(places, next, place, to),
        _ => false,
    }
}

/// Whether an instruction of a place stands at a slot, and goes on there as it did.
fn goes_on(
    program: &[Option<Insn>],
    places: &[Placed],
    slot: usize,
    place: &Place,
    insn: Insn,
) -> bool
    ensures { IsTrue result → GoesOn program.now places.now slot place.now insn }
{
    match insn_at(program, slot) {
        Some(there) => {
            is_aimed(there, insn)
                && falls_on(places, slot, place, &insn)
                && jumps_on(places, slot, place, &insn, &there)
        }
        None => false,
    }
}

/// Whether what stands for an instruction of a place stands at a slot, and goes on there as it did.
#[tactic(auto, unfolding(inlined_calls::specs::Inlined::AllStand, inlined_calls::specs::Inlined::behind))]
fn performs(
    program: &[Option<Insn>],
    places: &[Placed],
    slot: usize,
    place: &Place,
    new: &Replacement,
) -> bool
    ensures { IsTrue result → Does program.now places.now slot place.now (work_of new.now) }
{
    match *new {
        Replacement::Alone(last) => goes_on(program, places, slot, place, last),
        Replacement::Pair { before, last } => {
            starts_at(program, slot, before) && goes_on(program, places, slot + 1, place, last)
        }
    }
}

/// Whether an instruction in the frame of a place is at a slot.
fn does_in_frame(
    program: &[Option<Insn>],
    places: &[Placed],
    slot: usize,
    place: &Place,
    depth: usize,
    insn: Insn,
) -> bool
    ensures { IsTrue result → Does program.now places.now slot place.now (in_frame depth insn) }
{
    match in_frame(depth, insn) {
        Some(new) => performs(program, places, slot, place, &new),
        None => false,
    }
}

/// The slot to which a jump at a slot leads.
fn jump_at(program: &[Option<Insn>], slot: usize) -> Option<usize>
    ensures { IfSome result (JumpsFrom program.now slot) }
{
    match insn_at(program, slot) {
        Some(Insn::Jump { distance }) => target(slot, i32::from(distance)),
        _ => None,
    }
}

/// Where a call goes back to, which registers it kept, and how far below the end of the stack they are.
#[derive(Clone, Copy)]
struct Return<'a> {
    caller: Caller,
    callers: &'a [Caller],
    kept: [bool; 4],
    depth: usize,
}

/// Whether the registers come back from a slot on, and the slot behind stands for the place behind the call.
fn brings_back(program: &[Option<Insn>], places: &[Placed], slot: usize, back: &Return<'_>) -> bool
    ensures { IsTrue result → LeadsTo program.now places.now slot
        (restores back.now.depth (kept_from 6 back.now.kept))
        (place_at back.now.caller.function (back.now.caller.slot + 1) back.now.callers.now) }
{
    let Some(to) = back.caller.slot.checked_add(1) else {
        return false;
    };
    let spot = Spot {
        function: back.caller.function,
        slot: to,
        last: None,
        callers: back.callers,
    };
    match behind_restores(program, slot, back.depth, 6, &back.kept) {
        Some(next) => stands_for(places, next, &spot),
        None => false,
    }
}

/// Whether that is so from a slot on, or from the one to which it jumps.
fn returns_to(
    program: &[Option<Insn>],
    places: &[Placed],
    slot: usize,
    place: &Place,
    back: &Return<'_>,
) -> bool
    ensures { IsTrue result → Does program.now places.now slot place.now
        (Passes (restores back.now.depth (kept_from 6 back.now.kept))
        (place_at back.now.caller.function (back.now.caller.slot + 1) back.now.callers.now)) }
{
    if brings_back(program, places, slot, back) {
        return true;
    }
    match jump_at(program, slot) {
        Some(to) => brings_back(program, places, to, back),
        None => false,
    }
}

/// Whether what there is to do at an exit is done at a slot.
#[tactic(auto, unfolding(inlined_calls::specs::Inlined::AllStand, inlined_calls::specs::Inlined::behind))]
fn does_exit(
    functions: &[Function],
    program: &[Option<Insn>],
    places: &[Placed],
    slot: usize,
    place: &Place,
) -> bool
    ensures { IsTrue result → Does program.now places.now slot place.now (returns functions.now place.now.callers) }
{
    match place.callers() {
        [] => goes_on(program, places, slot, place, Insn::Exit),
        [caller, callers @ ..] => match cells(functions, *caller, callers) {
            Some(depth) => {
                let caller = *caller;
                let kept = kept_of(functions, caller);
                let back = Return {
                    caller,
                    callers,
                    kept,
                    depth,
                };
                returns_to(program, places, slot, place, &back)
            }
            None => false,
        },
    }
}

/// Whether what there is to do at an instruction that is no call is done at a slot.
fn does_plain(
    functions: &[Function],
    program: &[Option<Insn>],
    places: &[Placed],
    slot: usize,
    place: &Place,
    insn: Insn,
) -> bool
    ensures { IsTrue result → Does program.now places.now slot place.now (plain functions.now place.now insn) }
{
    match insn {
        Insn::Exit => does_exit(functions, program, places, slot, place),
        _ => match below(functions, place.callers()) {
            Some(depth) => does_in_frame(program, places, slot, place, depth, insn),
            None => false,
        },
    }
}

/// Whether a function is among those that call.
fn is_among(callers: &[Caller], function: usize) -> bool
    ensures { result ≡ list_any (λ caller. nat_eq caller.function function) callers.now }
{
    callers.iter().any(|caller| caller.function == function)
}

/// Whether a function is among those that run at a place.
fn is_running(place: &Place, function: usize) -> bool
    ensures { result ≡ is_running place.now function }
{
    place.function() == function || is_among(place.callers(), function)
}

/// Whether the frame of a function that is called at a place lies within the stack.
#[tactic(auto, unfolding(inlined_calls::specs::Calls::below))]
fn has_room(functions: &[Function], place: &Place, function: usize) -> bool
    ensures { IsTrue result → has_room functions.now (callee place.now function) ≡ true }
{
    match below_call(functions, place.caller(), place.callers()) {
        Some(begin) => match begin.checked_add(depth_of(functions, function)) {
            Some(end) => end <= 512,
            None => false,
        },
        None => false,
    }
}

fn may_call(functions: &[Function], place: &Place, function: usize) -> bool
    ensures { IsTrue result → may_call functions.now place.now function ≡ true }
{
    !is_running(place, function) && has_room(functions, place, function)
}

/// A call of a function, which registers it keeps, and how far below the end of the stack their cells are.
#[derive(Clone, Copy)]
struct Entry {
    function: usize,
    kept: [bool; 4],
    depth: usize,
}

/// Whether the registers are kept from a slot on, and the slot behind stands for the begin of the called function.
fn keeps(
    program: &[Option<Insn>],
    places: &[Placed],
    slot: usize,
    place: &Place,
    entry: &Entry,
) -> bool
    ensures { IsTrue result → LeadsTo program.now places.now slot
        (saves entry.now.depth (kept_from 6 entry.now.kept)) (callee place.now entry.now.function) }
{
    match behind_saves(program, slot, entry.depth, 6, &entry.kept) {
        Some(next) => enters(places, next, place, entry.function),
        None => false,
    }
}

/// Whether that is so from a slot on, or from the one to which it jumps.
fn calls_to(
    program: &[Option<Insn>],
    places: &[Placed],
    slot: usize,
    place: &Place,
    entry: &Entry,
) -> bool
    ensures { IsTrue result → Does program.now places.now slot place.now
        (Passes (saves entry.now.depth (kept_from 6 entry.now.kept)) (callee place.now entry.now.function)) }
{
    if keeps(program, places, slot, place, entry) {
        return true;
    }
    match jump_at(program, slot) {
        Some(to) => keeps(program, places, to, place, entry),
        None => false,
    }
}

/// Whether what there is to do at a call is done at a slot.
fn does_call(
    functions: &[Function],
    program: &[Option<Insn>],
    places: &[Placed],
    here: &Placed,
    function: usize,
    kept: [bool; 4],
) -> bool
    ensures { IsTrue result → Does program.now places.now here.now.slot here.now.place
        (calls functions.now here.now.place function kept) }
{
    let place = here.place();
    if !may_call(functions, place, function) {
        return false;
    }
    match cells(functions, place.caller(), place.callers()) {
        Some(depth) => {
            let entry = Entry {
                function,
                kept,
                depth,
            };
            calls_to(program, places, here.slot(), place, &entry)
        }
        None => false,
    }
}

/// Whether what there is to do at the place of a slot is done at the slot.
#[tactic(auto, unfolding(inlined_calls::specs::Calls::work_at))]
fn does(functions: &[Function], program: &[Option<Insn>], places: &[Placed], here: &Placed) -> bool
    ensures { IsTrue result → Does program.now places.now here.now.slot here.now.place
        (work_at functions.now here.now.place) }
{
    let place = here.place();
    match slot_of(functions, place.function(), place.slot()) {
        Some(FunctionSlot::Plain(insn)) => {
            does_plain(functions, program, places, here.slot(), place, insn)
        }
        Some(FunctionSlot::Call { function, kept }) => {
            does_call(functions, program, places, here, function, kept)
        }
        Some(FunctionSlot::Second) | None => false,
    }
}

/// Whether what there is to do at each place is done at its slot.
fn all_do(functions: &[Function], program: &[Option<Insn>], places: &[Placed]) -> bool
    ensures { IsTrue result → AllDo functions.now program.now places.now }
{
    for here in places {
        if here.slot() >= program.len() || !does(functions, program, places, here) {
            return false;
        }
    }
    true
}

/// Whether the first slot begins the first function, and each slot does what there is to do at its place.
fn corresponds(functions: &[Function], program: &[Option<Insn>], places: &[Placed]) -> bool
    ensures { IsTrue result → IsInlined functions.now program.now places.now }
{
    let first = Spot {
        function: 0,
        slot: 0,
        last: None,
        callers: &[],
    };
    stands_for(places, 0, &first) && all_do(functions, program, places)
}

/// Whether it is sure that a program is functions with their calls inlined, by places in the order of their slots.
/// Then both mean the same.
pub fn is_inlined(functions: &[Function], program: &[Option<Insn>], places: &[Placed]) -> bool
    ensures inlined { IsTrue result → IsInlined functions.now program.now places.now }
    ensures same { IsTrue result → MeansTheSame functions.now program.now }
{
    corresponds(functions, program, places)
}
