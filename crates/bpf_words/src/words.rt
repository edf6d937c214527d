ghost use Rattle.std.specs.Prelude.{◌≡◌, ℕ, ◌<◌, ◌≤◌, ◌*◌, ◌/◌, ◌+◌, List, false, length, MatchResult, IfOk, OnOk};
ghost use Rattle.std.specs.Prelude.{IfErr, IfSome, slice_get};
ghost use Rattle.bpf_words.specs.Slots.{slot_at};
ghost use Rattle.bpf_words.specs.Encoding.{encoded, IsInsn};
ghost use Rattle.bpf_words.specs.RoundTrip.{StandsAt, AllStand};
ghost use Rattle.bpf_words.specs.Words.{IsProgram, IsRefused, next_slot, fault_at, is_second, read_at, program_of};
ghost use Rattle.bpf_words.specs.Faults.{first_fault_at};

use crate::fields::{Fields, fields_at};
use crate::instruction::Insn;
use crate::opcode::Opcode;
use crate::reading::read;
use crate::refusal::{SlotFault, WordError};
use byteorder::{ByteOrder, LittleEndian};
use std::alloc::{AllocError, Global};
use std::marker::Model;

/// How many bytes a program may have: 4,096 slots of 8.
const BYTES_LIMIT: usize = 32768;

/// The bytes of a program, each slot of which is an instruction or the second of a wide load.
#[derive(Drop)]
pub struct Words<'a> {
    bytes: &'a [u8],
}

impl<'a> Model for Words<'a> {
    ghost Value = { List ℕ };

    ghost view = { λ w. w.bytes.now };

    ghost invariant = { λ w. IsProgram w.bytes.now × AllStand w.bytes.now (length w.bytes.now / 8) };
}

/// A slot as one number.
fn number_at(bytes: &[u8], index: usize) -> u64
    requires { 8 * index + 8 ≤ length bytes.now }
    ensures { result ≡ slot_at bytes.now index }
{
    LittleEndian::read_u64(&bytes[8 * index..8 * index + 8])
}

fn slot_after(bytes: &[u8], index: usize) -> Option<u64>
    requires { index < length bytes.now / 8 }
    ensures { result ≡ next_slot bytes.now (index + 1) }
{
    if index + 1 < bytes.len() / 8 {
        Some(number_at(bytes, index + 1))
    } else {
        None
    }
}

#[tactic(auto, unfolding(crate::specs::Words::read_at))]
fn read_slot(bytes: &[u8], index: usize) -> Result<Insn, SlotFault>
    requires { index < length bytes.now / 8 }
    ensures value { result ≡ read_at bytes.now index }
    ensures bytes { IfOk result (λ insn. StandsAt bytes.now (8 * index) (encoded insn)) }
    ensures valid { IfOk result IsInsn }
{
    let next = slot_after(bytes, index);
    let fields = fields_at(bytes, index);
    read(Opcode::new(fields.opcode), &fields, next)
}

/// Looks at the length first, and then at one slot after the other.
#[tactic(auto, using(crate::proofs::Sound::stepping, crate::proofs::Standing::standing))]
fn check(bytes: &[u8]) -> Result<(), WordError>
    ensures answer { MatchResult result (λ ok. IsProgram bytes.now) (IsRefused bytes.now) }
    ensures stand { OnOk result (AllStand bytes.now (length bytes.now / 8)) }
{
    if bytes.is_empty() {
        return Err(WordError::Empty);
    }
    if bytes.len() > BYTES_LIMIT {
        return Err(WordError::TooLong);
    }
    if bytes.len() % 8 != 0 {
        return Err(WordError::LengthNotEight);
    }
    let mut second = false;
    for slot in 0..bytes.len() / 8 {
        if second {
            second = false;
        } else {
            match read_slot(bytes, slot) {
                Ok(Insn::LoadWide { .. }) => second = true,
                Ok(_) => {}
                Err(fault) => return Err(WordError::Slot { slot, fault }),
            }
        }
    }
    Ok(())
}

impl<'a> Words<'a> {
    /// Lends the bytes of a program: 1 to 4,096 slots, each an instruction or the second of a wide load. Else the first
    /// fault, with its slot where it is one slot's (RFC 9669, sections 3 to 5).
    #[tactic(auto, using(crate::proofs::Refused::refusals, crate::proofs::Faults::orders))]
    pub fn new(bytes: &'a [u8]) -> Result<Words<'a>, WordError>
        ensures value { MatchResult result (λ words. (words ≡ bytes.now) × IsProgram bytes.now) (IsRefused bytes.now) }
        ensures first { IfErr result (λ error. (other : WordError) → IsRefused bytes.now other → other ≡ error) }
        ensures program { (error : WordError) → IsRefused bytes.now error → IsProgram bytes.now → ⊥ }
        ensures order { (slot : ℕ) → is_second bytes.now slot ≡ false
            → fault_at bytes.now slot ≡ first_fault_at bytes.now slot }
    {
        check(bytes)?;
        Ok(Words { bytes })
    }

    /// The number of slots, 1 to 4,096; a wide load counts as two.
    #[tactic(auto, using(crate::proofs::Second::entries))]
    pub fn len(&self) -> usize
        ensures value { result ≡ length (program_of self.now) }
        ensures some { 0 < result }
        ensures few { result ≤ 4096 }
        ensures sound { IsProgram self.now }
        ensures stand { AllStand self.now (length self.now / 8) }
    {
        self.bytes.len() / 8
    }

    /// The instruction of a slot, or `None` at the second slot of a wide load. Its bytes are what `encode` gives.
    #[tactic(auto, using(crate::proofs::Second::entries))]
    pub fn insn(&self, index: usize) -> Option<Insn>
        requires { index < length (program_of self.now) }
        ensures value { slice_get (program_of self.now) index ≡ Some result }
        ensures bytes { IfSome result (λ insn. StandsAt self.now (8 * index) (encoded insn)) }
    {
        match read_slot(self.bytes, index) {
            Ok(insn) => Some(insn),
            // The opcode byte of a second slot is 0, which names no instruction.
            Err(_) => None,
        }
    }

    /// Lends the bytes of what is known to be a program, and looks at none of them.
    pub fn of_program(bytes: &'a [u8]) -> Words<'a>
        requires program { IsProgram bytes.now }
        requires stand { AllStand bytes.now (length bytes.now / 8) }
        ensures { result ≡ bytes.now }
    {
        Words { bytes }
    }

    /// A copy of the bytes.
    pub fn copy(&self, alloc: Global) -> Result<Vec<u8>, AllocError>
        ensures value { IfOk result (λ bytes. bytes.items ≡ self.now) }
        ensures sound { IsProgram self.now }
        ensures stand { AllStand self.now (length self.now / 8) }
    {
        self.bytes.to_vec(alloc)
    }
}
