//! What the verifier knows before a slot, and before each.
ghost use Rattle.std.specs.Prelude.{◌≡◌, ◌↔◌, ◌⊎◌, ℕ, ◌<◌, length, Err, IfOk, IfErr, IsErrAnd};
ghost use Rattle.bpf_words.specs.declared.instruction.Insn.{Insn};
ghost use Rattle.bpf_words.specs.Flow.{StartsAt};
ghost use Rattle.bpf_words.specs.Words.{program_of};
ghost use Rattle.verifier.specs.Arises.{ArisesAt, RefusesAt};
ghost use Rattle.abstract_state.specs.declared.refusal.Refusal.{Refusal as TheRefusal};
ghost use Rattle.verifier.specs.Plain.{IsPlain};
ghost use Rattle.verifier.specs.Unset.{ReadsUnset};
ghost use Rattle.verifier.specs.Framed.{IsFramed};
ghost use Rattle.verifier.specs.Guard.{IsGuard};
ghost use Rattle.verifier.specs.Judged.{Rejects};
ghost use Rattle.tracked_state.specs.Tracked.{IsTrackedIn, state_in};
ghost use Rattle.verifier.specs.Decides.{IsAllowed, FirstRefusal, IsAllowedBelow, KnownEach, known_before};
ghost use Rattle.verifier.specs.Structure.{FirstFault};
ghost use Rattle.program_reads.specs.Runs.{ContainsRuns};
ghost use Rattle.verifier.specs.Reaches.{AriseEverywhere, ContainEachRun, TracksRuns, TrackAllRuns, IsBefore};
ghost use Rattle.verifier.specs.declared.refusal.StructureFault.{StructureFault};

use crate::refusal::VerifyError;
use crate::structure::check;
use crate::walk::{walk_before, walk_each};
use bpf_words::words::Words;
use span_context::profile::Profile;
use std::alloc::Global;
use tracked_state::state::TrackedState;

/// What `verify` knows of the machine before a slot: it contains each state to which a run comes there, on whatever the
/// profile lends of a span, and its copies are true of that; it is nothing only where no run comes there. Refused is
/// what `verify` refuses for its structure or at a slot below.
pub fn state_before(
    alloc: Global,
    words: &Words<'_>,
    profile: Profile,
    slot: usize,
) -> Result<Option<TrackedState>, VerifyError>
    requires { slot < length (program_of words.now) }
    ensures contains { IfOk result (λ known. ContainsRuns profile (program_of words.now) slot (state_in known)) }
    ensures tracks { IfOk result (TracksRuns profile (program_of words.now) slot) }
    ensures arises { IfOk result (λ known. (insn : Insn) → StartsAt (program_of words.now) slot insn
        → ArisesAt profile (program_of words.now) slot known) }
    ensures structure { (at : ℕ) (fault : StructureFault)
        → (result ≡ Err (VerifyError.Structure at fault)) ↔ FirstFault (program_of words.now) at fault }
    ensures refused { (at : ℕ) (fault : TheRefusal) → result ≡ Err (VerifyError.State at fault)
        → RefusesAt profile (program_of words.now) at fault }
    ensures unset { (at : ℕ) (fault : TheRefusal) → result ≡ Err (VerifyError.State at fault)
        → ReadsUnset profile (program_of words.now) at → fault ≡ TheRefusal.UnsetRegister }
    ensures plain { IfErr result (λ e. IsPlain (program_of words.now) → e ≡ VerifyError.OutOfMemory) }
    ensures framed { IfErr result (λ e. IsFramed (program_of words.now) → e ≡ VerifyError.OutOfMemory) }
    ensures guard { IfErr result (λ e. IsGuard profile (program_of words.now) → e ≡ VerifyError.OutOfMemory) }
    ensures before { IfErr result (IsBefore slot) }
    ensures rejects { IfErr result (λ e. Rejects profile (program_of words.now) e) }
    ensures rule { IfOk result (λ known. IsTrackedIn known (known_before profile (program_of words.now) slot)) }
    ensures accepts { IfOk result (λ _. IsAllowedBelow profile (program_of words.now) slot) }
    ensures complete { IsAllowedBelow profile (program_of words.now) slot
        → IfErr result (λ e. e ≡ VerifyError.OutOfMemory) }
    ensures first { (at : ℕ) (fault : TheRefusal) → result ≡ Err (VerifyError.State at fault)
        → FirstRefusal profile (program_of words.now) at fault }
    ensures named { (at : ℕ) (fault : TheRefusal) → at < slot → FirstRefusal profile (program_of words.now) at fault
        → IsErrAnd result (λ e. (e ≡ VerifyError.State at fault) ⊎ (e ≡ VerifyError.OutOfMemory)) }
{
    if let Err(wrong) = check(words) {
        return Err(VerifyError::Structure {
            slot: wrong.slot,
            fault: wrong.fault,
        });
    }
    walk_before(alloc, words, profile, slot)
}

/// What `verify` knows of the machine before each slot, as `state_before` answers it of one, by one walk. Refused is
/// what `verify` refuses.
pub fn states_before(
    alloc: Global,
    words: &Words<'_>,
    profile: Profile,
) -> Result<Vec<Option<TrackedState>>, VerifyError>
    ensures size { IfOk result (λ states. length states.items ≡ length (program_of words.now)) }
    ensures contains { IfOk result (λ states. ContainEachRun profile (program_of words.now) states.items) }
    ensures tracks { IfOk result (λ states. TrackAllRuns profile (program_of words.now) states.items) }
    ensures arises { IfOk result (λ states. AriseEverywhere profile (program_of words.now) states.items) }
    ensures structure { (at : ℕ) (fault : StructureFault)
        → (result ≡ Err (VerifyError.Structure at fault)) ↔ FirstFault (program_of words.now) at fault }
    ensures refused { (at : ℕ) (fault : TheRefusal) → result ≡ Err (VerifyError.State at fault)
        → RefusesAt profile (program_of words.now) at fault }
    ensures unset { (at : ℕ) (fault : TheRefusal) → result ≡ Err (VerifyError.State at fault)
        → ReadsUnset profile (program_of words.now) at → fault ≡ TheRefusal.UnsetRegister }
    ensures plain { IfErr result (λ e. IsPlain (program_of words.now) → e ≡ VerifyError.OutOfMemory) }
    ensures framed { IfErr result (λ e. IsFramed (program_of words.now) → e ≡ VerifyError.OutOfMemory) }
    ensures guard { IfErr result (λ e. IsGuard profile (program_of words.now) → e ≡ VerifyError.OutOfMemory) }
    ensures before { IfErr result (IsBefore (length (program_of words.now))) }
    ensures rejects { IfErr result (λ e. Rejects profile (program_of words.now) e) }
    ensures rule { IfOk result (λ states. KnownEach profile (program_of words.now) states.items) }
    ensures accepts { IfOk result (λ _. IsAllowed profile (program_of words.now)) }
    ensures complete { IsAllowed profile (program_of words.now) → IfErr result (λ e. e ≡ VerifyError.OutOfMemory) }
    ensures first { (at : ℕ) (fault : TheRefusal) → result ≡ Err (VerifyError.State at fault)
        → FirstRefusal profile (program_of words.now) at fault }
    ensures named { (at : ℕ) (fault : TheRefusal) → FirstRefusal profile (program_of words.now) at fault
        → IsErrAnd result (λ e. (e ≡ VerifyError.State at fault) ⊎ (e ≡ VerifyError.OutOfMemory)) }
{
    if let Err(wrong) = check(words) {
        return Err(VerifyError::Structure {
            slot: wrong.slot,
            fault: wrong.fault,
        });
    }
    walk_each(alloc, words, profile)
}
