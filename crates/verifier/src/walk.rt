//! One walk over the slots, with what is known of the machine before each.
ghost use Rattle.std.specs.Prelude.{◌≡◌, ◌≢◌, ℕ, ℤ, pos, ◌+◌, ◌<◌, ◌≤◌, length, Option, Some, Err, IfOk, IfErr, ◌↔◌};
ghost use Rattle.span_context.specs.declared.profile.Profile.{Profile as TheProfile};
ghost use Rattle.bpf_words.specs.Flow.{IsPaired, StartsAt, jump_of, read_by, written_by};
ghost use Rattle.bpf_words.specs.Words.{program_of};
ghost use Rattle.semantics.specs.Safe.{Safe, SafeIn};
ghost use Rattle.semantics.specs.State.{State};
ghost use Rattle.semantics.specs.Step.{Program};
ghost use Rattle.abstract_state.specs.Lent.{Lengths};
ghost use Rattle.abstract_state.specs.State.{Span, lengths_of, does};
ghost use Rattle.tracked_state.specs.Tracked.{ContainsTracked, WithinTracked, with_copies, state_in};
ghost use Rattle.abstract_state.specs.Steps.{after};
ghost use Rattle.tracked_state.specs.Tracked.{TrackedSituation, IsTracked, IsTrackedIn, tracked_of};
ghost use Rattle.tracked_state.specs.Tracking.{after_tracked};
ghost use Rattle.tracked_state.specs.Along.{unboxed as in_box};
ghost use Rattle.abstract_state.specs.Unset.{HasUnset};
ghost use Rattle.abstract_state.specs.declared.refusal.Refusal.{Refusal as TheRefusal};
ghost use Rattle.verifier.specs.Structure.{IsOfState, IsStructured};
ghost use Rattle.verifier.specs.Arises.{Arises, ArisesAt, AllArise, IsTarget, IsGranted, IsCause, FallsAs, FallsFrom};
ghost use Rattle.verifier.specs.Waiting.{MarksBelow, MarksBelowIn, WaitBelow, waiting_at};
ghost use Rattle.verifier.specs.Walk.{Advances, Follows, IsComparison, JumpsWithin, Keeps};
ghost use Rattle.program_reads.specs.Runs.{ContainsRuns};
ghost use Rattle.program_reads.specs.Loads.{CoversRuns};
ghost use Rattle.verifier.specs.Reaches.{AriseEverywhere, ContainEachRun, Covers, ListsBelow, IsStateBelow};
ghost use Rattle.verifier.specs.Reaches.{TracksRuns, TrackAllRuns};
ghost use Rattle.verifier.specs.Awaited.{Waits};
ghost use Rattle.verifier.specs.Decides.{IsAllowedBelow, KnownEach};
ghost use Rattle.verifier.specs.Decided.{WaitsFrom, Awaits, Passes, NamesSlot, NamesFirst};
ghost use Rattle.verifier.specs.Awaited.{with_jump, awaited_at};
ghost use Rattle.verifier.specs.Decides.{led, trimmed, arrived, known_before};

use crate::refusal::VerifyError;
use crate::waiting::Waiting;
use abstract_state::state::AbsState;
use abstract_state::step::Flow;
use bpf_words::instruction::Insn;
use bpf_words::words::Words;
use program_reads::reads::Reads;
use span_context::profile::Profile;
use std::alloc::{AllocError, Global};
use tracked_state::state::TrackedState;
use tracked_state::stop::Stop;
use value_marks::copies::Copies;
use value_marks::marks::Marks;

/// The slot to which an instruction jumps.
fn target(slot: usize, insn: &Insn) -> usize
    requires { slot < 4096 }
    ensures { (n : ℕ) → jump_of insn.now ≡ Some (pos n) → result ≡ slot + 1 + n }
{
    match insn.distance() {
        Some(distance) => slot + 1 + distance.unsigned_abs() as usize,
        None => slot + 1,
    }
}

/// Records the edge of a comparison that holds, where it is live.
fn record(
    profile: Profile,
    target: usize,
    edge: Option<Box<AbsState>>,
    copies: &Copies,
    waiting: &mut Waiting,
) -> Result<(), AllocError>
    requires { target < length waiting.old }
    ensures size { length waiting.new ≡ length waiting.old }
    ensures kept { IfOk result (λ _. Keeps waiting.old waiting.new) }
    ensures added { IfOk result (λ _. (lengths : Lengths) (s : State)
        → WithinTracked (with_copies (in_box edge) copies.now) lengths s
        → WithinTracked (waiting_at waiting.new target) lengths s) }
    ensures below { (lent : TheProfile) → WaitBelow lent waiting.old
        → MarksBelowIn lent target (with_copies (in_box edge) copies.now)
        → IfOk result (λ _. WaitBelow lent waiting.new) }
    ensures arises { (lent : TheProfile) (program : Program) → AllArise lent program waiting.old
        → IsTarget program target → ArisesAt lent program target (with_copies (in_box edge) copies.now)
        → IfOk result (λ _. AllArise lent program waiting.new) }
    ensures rule { (from : ℕ) (w : Waits) (o : Option TrackedSituation) → WaitsFrom from waiting.old w → from ≤ target
        → IsTrackedIn (with_copies (in_box edge) copies.now) o
        → IfOk result (λ _. WaitsFrom from waiting.new (with_jump profile target o w)) }
{
    let Some(state) = edge else {
        return Ok(());
    };
    waiting.add_boxed(profile, target, state, copies)
}

/// What is known once more, if a run can come there.
fn live(alloc: Global, flow: Flow, state: &TrackedState) -> Result<Option<TrackedState>, AllocError>
    ensures tracks { (lengths : Lengths) (s : State) → WithinTracked (after_tracked flow state.now) lengths s
        → IfOk result (λ known. WithinTracked known lengths s) }
    ensures arises { (lent : TheProfile) (program : Program) (slot : ℕ)
        → ArisesAt lent program slot (after_tracked flow state.now) → IfOk result (ArisesAt lent program slot) }
    ensures rule { (o : Option TrackedSituation) → IsTrackedIn (after_tracked flow state.now) o
        → IfOk result (λ known. IsTrackedIn known o) }
{
    match flow {
        Flow::Live => Ok(Some(state.copy(alloc)?)),
        Flow::Dead => Ok(None),
    }
}

/// A state has no more than the machine's eleven registers and the 64 slots of its stack.
fn is_state_whole(state: &AbsState)
    ensures registers { length state.now.registers ≡ 11 }
    ensures stack { length state.now.stack ≡ 64 }
{
    let _register = state.registers[0];
    let _slot = state.stack[0];
}

/// Nor do the marks.
fn are_marks_whole(marks: &Marks)
    ensures registers { length marks.now.registers ≡ 11 }
    ensures slots { length marks.now.slots ≡ 64 }
{
    let _of_register = marks.registers[0];
    let _of_slot = marks.slots[0];
}

/// What `visit` has to know of the length of a state and of its marks, with nothing to run.
fn is_whole(state: &TrackedState)
    ensures { (t : TrackedSituation) → IsTracked state.now t → trimmed t ≡ tracked_of state.now }
{
    is_state_whole(&state.state);
    if let Some(marks) = &state.copies.marks {
        are_marks_whole(marks);
    }
}

/// Makes of what is known before a comparison what is known on its edges: where it holds in a box of its own, which is
/// moved to what waits at its target, and else in place. So no state is a local, which would be cleared at each call.
fn compare(
    profile: Profile,
    slot: usize,
    insn: &Insn,
    state: &mut TrackedState,
    waiting: &mut Waiting,
) -> Result<Flow, Stop>
    requires few { slot < 4096 }
    requires jumps { JumpsWithin (length waiting.old) slot insn.now }
    requires compares { IsComparison insn.now }
    ensures size { length waiting.new ≡ length waiting.old }
    ensures kept { IfOk result (λ _. Keeps waiting.old waiting.new) }
    ensures sound { MarksBelow profile slot state.old → IfOk result (λ flow. (span : Span) (s : State)
        → span.profile ≡ profile → ContainsTracked state.old (lengths_of span) s
        → Advances (lengths_of span) slot insn.now (after_tracked flow state.new) waiting.new (does span s insn.now)) }
    ensures below { MarksBelow profile slot state.old → WaitBelow profile waiting.old → IfOk result (λ flow.
        WaitBelow profile waiting.new × MarksBelowIn profile (slot + 1) (after_tracked flow state.new)) }
    ensures floor { IsGranted profile state.old.state insn.now → IfErr result (λ stop. stop ≡ Stop.OutOfMemory) }
    ensures unset { (fault : TheRefusal) → result ≡ Err (Stop.Refused fault)
        → (fault ≡ TheRefusal.UnsetRegister) ↔ HasUnset state.old.state (read_by insn.now) }
    ensures arises { (program : Program) → StartsAt program slot insn.now → MarksBelow profile slot state.old
        → Arises profile program slot state.old.state → AllArise profile program waiting.old
        → IfOk result (λ flow. AllArise profile program waiting.new
        × FallsFrom profile program slot insn.now (after_tracked flow state.new)) }
    ensures rule { (w : Waits) → WaitsFrom (slot + 1) waiting.old w
        → IfOk result (λ flow. Passes profile slot insn.now (Some (tracked_of state.old)) w
        (after_tracked flow state.new) waiting.new) }
    ensures refuses { (fault : TheRefusal) → result ≡ Err (Stop.Refused fault)
        → led profile slot insn.now (tracked_of state.old) ≡ Err fault }
{
    let Insn::Branch {
        width,
        comparison,
        left,
        right,
        ..
    } = *insn
    else {
        unreachable!()
    };
    is_state_whole(&state.state);
    let taken = state.edge(waiting.alloc(), width, comparison, left, &right, true)?;
    record(profile, target(slot, insn), taken, &state.copies, waiting)?;
    Ok(state.take_edge(width, comparison, left, &right, false)?)
}

/// Makes of what is known before an instruction what is known on its edges: of a jump at its target, else in the state.
fn pass(
    profile: Profile,
    slot: usize,
    insn: &Insn,
    state: &mut TrackedState,
    waiting: &mut Waiting,
) -> Result<Flow, Stop>
    requires few { slot < 4096 }
    requires jumps { JumpsWithin (length waiting.old) slot insn.now }
    requires spares { written_by insn.now ≢ Some 10 }
    ensures size { length waiting.new ≡ length waiting.old }
    ensures kept { IfOk result (λ _. Keeps waiting.old waiting.new) }
    ensures sound { MarksBelow profile slot state.old → IfOk result (λ flow. (span : Span) (s : State)
        → span.profile ≡ profile → ContainsTracked state.old (lengths_of span) s
        → Advances (lengths_of span) slot insn.now (after_tracked flow state.new) waiting.new (does span s insn.now)) }
    ensures below { MarksBelow profile slot state.old → WaitBelow profile waiting.old → IfOk result (λ flow.
        WaitBelow profile waiting.new × MarksBelowIn profile (slot + 1) (after_tracked flow state.new)) }
    ensures floor { IsGranted profile state.old.state insn.now → IfErr result (λ stop. stop ≡ Stop.OutOfMemory) }
    ensures unset { (fault : TheRefusal) → result ≡ Err (Stop.Refused fault)
        → (fault ≡ TheRefusal.UnsetRegister) ↔ HasUnset state.old.state (read_by insn.now) }
    ensures arises { (program : Program) → StartsAt program slot insn.now → MarksBelow profile slot state.old
        → Arises profile program slot state.old.state → AllArise profile program waiting.old
        → IfOk result (λ flow. AllArise profile program waiting.new
        × FallsFrom profile program slot insn.now (after_tracked flow state.new)) }
    ensures rule { (w : Waits) → WaitsFrom (slot + 1) waiting.old w
        → IfOk result (λ flow. Passes profile slot insn.now (Some (tracked_of state.old)) w
        (after_tracked flow state.new) waiting.new) }
    ensures refuses { (fault : TheRefusal) → result ≡ Err (Stop.Refused fault)
        → led profile slot insn.now (tracked_of state.old) ≡ Err fault }
{
    match *insn {
        Insn::Jump { .. } => {
            waiting.add(profile, target(slot, insn), &state.state, &state.copies)?;
            Ok(Flow::Dead)
        }
        Insn::JumpLong { .. } => {
            waiting.add(profile, target(slot, insn), &state.state, &state.copies)?;
            Ok(Flow::Dead)
        }
        Insn::Branch { .. } => compare(profile, slot, insn, state, waiting),
        Insn::Exit => {
            state.exit()?;
            Ok(Flow::Dead)
        }
        _ => Ok(state.step(profile, slot, insn)?),
    }
}

/// Joins all edges into a slot, lists what its instruction can read, and goes past it, if a run can come there.
fn visit(
    profile: Profile,
    slot: usize,
    insn: &Insn,
    flow: Flow,
    state: &mut TrackedState,
    waiting: &mut Waiting,
    reads: &mut Reads,
) -> Result<Flow, VerifyError>
    requires slot { slot < length waiting.old }
    requires few { slot < 4096 }
    requires jumps { JumpsWithin (length waiting.old) slot insn.now }
    requires spares { written_by insn.now ≢ Some 10 }
    ensures size { length waiting.new ≡ length waiting.old }
    ensures below { IfErr result (IsStateBelow (slot + 1)) }
    ensures marks { MarksBelowIn profile slot (after_tracked flow state.old) → WaitBelow profile waiting.old
        → IfOk result (λ next. WaitBelow profile waiting.new
        × MarksBelowIn profile (slot + 1) (after_tracked next state.new)) }
    ensures covers { (program : Program) → IsPaired program → IsStructured program → StartsAt program slot insn.now
        → MarksBelowIn profile slot (after_tracked flow state.old) → WaitBelow profile waiting.old
        → Covers profile program slot (after_tracked flow state.old) waiting.old
        → IfOk result (λ next. Covers profile program (slot + 1) (after_tracked next state.new) waiting.new) }
    ensures follows { (program : Program) → IsPaired program → IsStructured program → StartsAt program slot insn.now
        → MarksBelowIn profile slot (after_tracked flow state.old) → WaitBelow profile waiting.old
        → Follows profile program slot (after_tracked flow state.old) waiting.old
        → IfOk result (λ next. Follows profile program (slot + 1) (after_tracked next state.new) waiting.new) }
    ensures lists { (program : Program) → IsStructured program → StartsAt program slot insn.now
        → Covers profile program slot (after_tracked flow state.old) waiting.old
        → ListsBelow profile program slot reads.old
        → IfOk result (λ _. ListsBelow profile program (slot + 1) reads.new) }
    ensures floor { (program : Program) → IsPaired program → IsStructured program → StartsAt program slot insn.now
        → MarksBelowIn profile slot (after_tracked flow state.old) → WaitBelow profile waiting.old
        → AllArise profile program waiting.old → FallsAs profile program slot (after_tracked flow state.old)
        → Covers profile program slot (after_tracked flow state.old) waiting.old
        → IfErr result (IsCause profile program)
        × IfOk result (λ next. AllArise profile program waiting.new
        × FallsAs profile program (slot + 1) (after_tracked next state.new)) }
    ensures rule { (falling here : Option TrackedSituation) (w : Waits)
        → IsTrackedIn (after_tracked flow state.old) falling → IsTrackedIn (waiting_at waiting.old slot) here
        → WaitsFrom (slot + 1) waiting.old w
        → IfOk result (λ next. Passes profile slot insn.now (arrived profile falling here) w
        (after_tracked next state.new) waiting.new)
        × IfErr result (NamesSlot profile slot insn.now (arrived profile falling here)) }
{
    let Flow::Live = waiting.arrive(profile, slot, flow, state) else {
        return Ok(Flow::Dead);
    };
    is_whole(state);
    reads.add_insn(insn, &state.state);
    match pass(profile, slot, insn, state, waiting) {
        Ok(next) => Ok(next),
        Err(Stop::Refused(fault)) => Err(VerifyError::State { slot, fault }),
        Err(Stop::OutOfMemory) => Err(VerifyError::OutOfMemory),
    }
}

/// What a walk knows before a slot, once it is past those below it.
#[derive(Drop)]
pub struct Walked {
    flow: Flow,
    state: TrackedState,
    waiting: Waiting,
    /// What the instructions below can read.
    reads: Reads,
}

/// Takes the instructions below a slot in order, once.
fn walk_to(
    alloc: Global,
    words: &Words<'_>,
    profile: Profile,
    end: usize,
) -> Result<Walked, VerifyError>
    requires structured { IsStructured (program_of words.now) }
    requires end { end ≤ length (program_of words.now) }
    ensures size { IfOk result (λ walked. length walked.waiting ≡ length (program_of words.now)) }
    ensures marks { IfOk result (λ walked. WaitBelow profile walked.waiting
        × MarksBelowIn profile end (after_tracked walked.flow walked.state)) }
    ensures follows { IfOk result (λ walked. Follows profile (program_of words.now) end
        (after_tracked walked.flow walked.state) walked.waiting) }
    ensures covers { IfOk result (λ walked. Covers profile (program_of words.now) end
        (after_tracked walked.flow walked.state) walked.waiting) }
    ensures lists { IfOk result (λ walked. ListsBelow profile (program_of words.now) end walked.reads) }
    ensures arises { IfOk result (λ walked. AllArise profile (program_of words.now) walked.waiting
        × FallsAs profile (program_of words.now) end (after_tracked walked.flow walked.state)) }
    ensures below { IfErr result (IsStateBelow end) }
    ensures floor { IfErr result (IsCause profile (program_of words.now)) }
    ensures awaits { IfOk result (λ walked. Awaits end (after_tracked walked.flow walked.state) walked.waiting
        (awaited_at profile (program_of words.now) end)) }
    ensures passes { IfOk result (λ _. IsAllowedBelow profile (program_of words.now) end) }
    ensures names { IfErr result (NamesFirst profile (program_of words.now)) }
{
    let mut waiting = Waiting::new(alloc, words.len())?;
    let mut state = TrackedState::entry(alloc, profile)?;
    let mut flow = Flow::Live;
    let mut reads = Reads::nothing();
    for slot in 0..end {
        if let Some(insn) = words.insn(slot) {
            flow = visit(
                profile,
                slot,
                &insn,
                flow,
                &mut state,
                &mut waiting,
                &mut reads,
            )?;
        }
    }
    Ok(Walked {
        flow,
        state,
        waiting,
        reads,
    })
}

/// Takes the instructions of a program in order, once, and lists what they can read.
pub fn walk(alloc: Global, words: &Words<'_>, profile: Profile) -> Result<Reads, VerifyError>
    requires { IsStructured (program_of words.now) }
    ensures safe { IfOk result (λ _. Safe (program_of words.now)) }
    ensures seen { IfOk result (λ _. SafeIn profile (program_of words.now)) }
    ensures reads { IfOk result (λ reads. CoversRuns reads profile (program_of words.now)) }
    ensures states { IfErr result IsOfState }
    ensures below { IfErr result (IsStateBelow (length (program_of words.now))) }
    ensures floor { IfErr result (IsCause profile (program_of words.now)) }
    ensures passes { IfOk result (λ _. IsAllowedBelow profile (program_of words.now) (length (program_of words.now))) }
    ensures names { IfErr result (NamesFirst profile (program_of words.now)) }
{
    let walked = walk_to(alloc, words, profile, words.len())?;
    Ok(walked.reads)
}

/// What is known before a slot, from all edges into it; nothing only where no run comes there.
pub fn walk_before(
    alloc: Global,
    words: &Words<'_>,
    profile: Profile,
    slot: usize,
) -> Result<Option<TrackedState>, VerifyError>
    requires structured { IsStructured (program_of words.now) }
    requires slot { slot < length (program_of words.now) }
    ensures contains { IfOk result (λ known. ContainsRuns profile (program_of words.now) slot (state_in known)) }
    ensures tracks { IfOk result (TracksRuns profile (program_of words.now) slot) }
    ensures arises { (insn : Insn) → StartsAt (program_of words.now) slot insn
        → IfOk result (ArisesAt profile (program_of words.now) slot) }
    ensures below { IfErr result (IsStateBelow slot) }
    ensures floor { IfErr result (IsCause profile (program_of words.now)) }
    ensures rule { IfOk result (λ known. IsTrackedIn known (known_before profile (program_of words.now) slot)) }
    ensures passes { IfOk result (λ _. IsAllowedBelow profile (program_of words.now) slot) }
    ensures names { IfErr result (NamesFirst profile (program_of words.now)) }
{
    let Walked {
        flow,
        mut state,
        mut waiting,
        reads: _,
    } = walk_to(alloc, words, profile, slot)?;
    match waiting.arrive(profile, slot, flow, &mut state) {
        Flow::Live => Ok(Some(state)),
        Flow::Dead => Ok(None),
    }
}

/// What is known before each slot, from all edges into it; nothing only where no run comes there.
pub fn walk_each(
    alloc: Global,
    words: &Words<'_>,
    profile: Profile,
) -> Result<Vec<Option<TrackedState>>, VerifyError>
    requires { IsStructured (program_of words.now) }
    ensures size { IfOk result (λ states. length states.items ≡ length (program_of words.now)) }
    ensures contains { IfOk result (λ states. ContainEachRun profile (program_of words.now) states.items) }
    ensures tracks { IfOk result (λ states. TrackAllRuns profile (program_of words.now) states.items) }
    ensures arises { IfOk result (λ states. AriseEverywhere profile (program_of words.now) states.items) }
    ensures below { IfErr result (IsStateBelow (length (program_of words.now))) }
    ensures floor { IfErr result (IsCause profile (program_of words.now)) }
    ensures rule { IfOk result (λ states. KnownEach profile (program_of words.now) states.items) }
    ensures passes { IfOk result (λ _. IsAllowedBelow profile (program_of words.now) (length (program_of words.now))) }
    ensures names { IfErr result (NamesFirst profile (program_of words.now)) }
{
    let mut states = Vec::with_capacity(alloc, words.len())?;
    let mut waiting = Waiting::new(alloc, words.len())?;
    let mut state = TrackedState::entry(alloc, profile)?;
    let mut flow = Flow::Live;
    let mut reads = Reads::nothing();
    for slot in 0..words.len() {
        flow = waiting.arrive(profile, slot, flow, &mut state);
        let known = live(alloc, flow, &state)?;
        states.push(known)?;
        if let Some(insn) = words.insn(slot) {
            flow = visit(
                profile,
                slot,
                &insn,
                flow,
                &mut state,
                &mut waiting,
                &mut reads,
            )?;
        }
    }
    Ok(states)
}
