//! The verifier, and the programs that it accepts.
ghost use Rattle.std.specs.Prelude.{◌≡◌, ◌↔◌, ◌⊎◌, ℕ, length, Err, IfOk, IfErr, IsErrAnd};
ghost use Rattle.span_context.specs.declared.profile.Profile.TheVariants.{Two};
ghost use Rattle.bpf_words.specs.Words.{program_of};
ghost use Rattle.semantics.specs.Safe.{Safe, SafeIn, IsBlindToLink};
ghost use Rattle.program_reads.specs.Reads.{Determines};
ghost use Rattle.verifier.specs.Plain.{IsPlain};
ghost use Rattle.verifier.specs.Unset.{ReadsUnset};
ghost use Rattle.verifier.specs.Framed.{IsFramed};
ghost use Rattle.verifier.specs.Guard.{IsGuard};
ghost use Rattle.verifier.specs.Structure.{IsStructured, FirstFault};
ghost use Rattle.verifier.specs.Reaches.{IsBefore};
ghost use Rattle.verifier.specs.Judged.{Rejects};
ghost use Rattle.verifier.specs.Decides.{IsAllowed, FirstRefusal};
ghost use Rattle.verifier.specs.Arises.{RefusesAt};
ghost use Rattle.abstract_state.specs.declared.refusal.Refusal.{Refusal as TheRefusal};
ghost use Rattle.verifier.specs.declared.refusal.StructureFault.{StructureFault};

use crate::refusal::VerifyError;
use crate::structure::check;
use crate::walk::walk;
use bpf_words::words::Words;
use decoded_rows::rows::Rows;
use program_reads::reads::Reads;
use span_context::profile::Profile;
use std::alloc::Global;
use std::marker::Model;

/// A program of which every run ends with a number: it meets no fault, and takes no more steps than the program has
/// slots.
pub struct Verified {
    reads: Reads,
    rows: Rows,
}

impl Drop for Verified {
    fn drop(self) {
        let Verified { reads: _, rows: _ } = self;
    }
}

impl Model for Verified {
    ghost use Rattle.span_context.specs.declared.profile.Profile.TheVariants.{Two};
    ghost use Rattle.semantics.specs.Safe.{Safe};
    ghost use Rattle.semantics.specs.Step.{Program};
    ghost use Rattle.program_reads.specs.Reads.{Determines};

    ghost Value = { Program };

    ghost view = { λ v. v.rows };

    ghost invariant = { λ v. Safe v.rows × Determines v.reads Two v.rows };
}

impl Verified {
    /// What its loads can read of a span: spans that agree on that give it one verdict.
    pub fn reads(&self) -> Reads
        ensures { Determines result Two self.now }
    {
        self.reads
    }

    /// The program's words, lent.
    pub fn words(&self) -> Words<'_>
        ensures program { program_of result ≡ self.now }
        ensures safe { Safe self.now }
    {
        self.rows.words()
    }

    /// The decoded program, lent.
    pub fn rows(&self) -> &Rows
        ensures program { result.now ≡ self.now }
        ensures safe { Safe self.now }
    {
        &self.rows
    }
}

/// Accepts a program of which every run ends with a number, and that reads of a span no more than the profile lets it.
/// The positions and targets of all instructions are looked at first, and then what is known of the machine before
/// each. Accepted is exactly a program in which neither the structure nor the rules find a fault (`accepts`,
/// `complete`); of any other the first slot at fault is named, with its fault (`structure`; `first`, `named`). Besides,
/// memory may run out.
pub fn verify(alloc: Global, words: &Words<'_>, profile: Profile) -> Result<Verified, VerifyError>
    ensures same { IfOk result (λ verified. verified ≡ program_of words.now) }
    ensures safe { IfOk result (λ verified. Safe verified) }
    ensures seen { IfOk result (λ verified. SafeIn profile verified) }
    ensures blind { profile ≡ Profile.One → IfOk result (λ verified. IsBlindToLink verified) }
    ensures structured { IfOk result (λ _. IsStructured (program_of words.now)) }
    ensures structure { (slot : ℕ) (fault : StructureFault)
        → (result ≡ Err (VerifyError.Structure slot fault)) ↔ FirstFault (program_of words.now) slot fault }
    ensures refused { (at : ℕ) (fault : TheRefusal) → result ≡ Err (VerifyError.State at fault)
        → RefusesAt profile (program_of words.now) at fault }
    ensures unset { (at : ℕ) (fault : TheRefusal) → result ≡ Err (VerifyError.State at fault)
        → ReadsUnset profile (program_of words.now) at → fault ≡ TheRefusal.UnsetRegister }
    ensures plain { IfErr result (λ e. IsPlain (program_of words.now) → e ≡ VerifyError.OutOfMemory) }
    ensures framed { IfErr result (λ e. IsFramed (program_of words.now) → e ≡ VerifyError.OutOfMemory) }
    ensures guard { IfErr result (λ e. IsGuard profile (program_of words.now) → e ≡ VerifyError.OutOfMemory) }
    ensures before { IfErr result (IsBefore (length (program_of words.now))) }
    ensures rejects { IfErr result (λ e. Rejects profile (program_of words.now) e) }
    ensures accepts { IfOk result (λ _. IsAllowed profile (program_of words.now)) }
    ensures complete { IsAllowed profile (program_of words.now) → IfErr result (λ e. e ≡ VerifyError.OutOfMemory) }
    ensures first { (slot : ℕ) (fault : TheRefusal) → result ≡ Err (VerifyError.State slot fault)
        → FirstRefusal profile (program_of words.now) slot fault }
    ensures named { (slot : ℕ) (fault : TheRefusal) → FirstRefusal profile (program_of words.now) slot fault
        → IsErrAnd result (λ e. (e ≡ VerifyError.State slot fault) ⊎ (e ≡ VerifyError.OutOfMemory)) }
{
    if let Err(wrong) = check(words) {
        return Err(VerifyError::Structure {
            slot: wrong.slot,
            fault: wrong.fault,
        });
    }
    let reads = walk(alloc, words, profile)?;
    Ok(Verified {
        reads,
        rows: Rows::of(alloc, words)?,
    })
}
