//! Operations on one number.
ghost use Rattle.std.specs.Prelude.{◌≡◌, ◌≢◌, IfErr, ℕ, ◌+◌, ◌%◌, ◌^◌, ◌<◌, ◌≤◌, Option, IfSome, IfOk, IsOk};
ghost use Rattle.abstract_state.specs.Lent.{Lengths};
ghost use Rattle.abstract_state.specs.Quantity.{Contains, Fits};
ghost use Rattle.abstract_state.specs.Known.{ContainsKnown, WithinKnown, IsNumber, AreNumbers};
ghost use Rattle.bpf_words.specs.declared.instruction.Width.TheVariants.{Narrow, Full};
ghost use Rattle.semantics.specs.Value.{cut, negated, extended, converted, bytes_kept};
ghost use Rattle.std.specs.Prelude.{option_map};
ghost use Rattle.abstract_state.specs.Addresses as rules;
ghost use Rattle.abstract_state.specs.Addresses.{content_of, answer_of};

use crate::known::Known;
use crate::quantity::Quantity;
use crate::refusal::Refusal;
use bpf_words::instruction::{Conversion, ConvertedBits, Extension, Width};

/// The greatest number of the bytes that a conversion keeps.
fn greatest_kept(bits: ConvertedBits) -> u64
    ensures { result + 1 ≡ 256 ^ bytes_kept bits }
{
    match bits {
        ConvertedBits::Bits16 => 0xffff,
        ConvertedBits::Bits32 => 0xffff_ffff,
        ConvertedBits::Bits64 => u64::MAX,
    }
}

/// The width of a sign-extending move.
fn width_of(extension: Extension) -> Width
    ensures fits { (a : ℕ) → Fits result (extended extension a) }
    ensures rule { result ≡ rules.width_of extension }
{
    match extension {
        Extension::FromByte | Extension::FromHalf | Extension::FromWord => Width::Full,
        Extension::NarrowFromByte | Extension::NarrowFromHalf => Width::Narrow,
    }
}

impl Known {
    /// Any number of the width, where this is a number of which something is left when it is cut.
    #[tactic(auto, unfolding(crate::specs::Addresses::replaced))]
    fn replaced(self, width: Width) -> Result<Option<Known>, Refusal>
        ensures sound { IfOk result (λ o. (lengths : Lengths) (x y : ℕ) → ContainsKnown self lengths x → Fits width y
            → WithinKnown o lengths y) }
        ensures floor { IsNumber self → IsOk result }
        ensures numbers { IfOk result (λ o. AreNumbers o) }
        ensures not_unset { IfErr result (λ e. e ≢ Refusal.UnsetRegister) }
        ensures rule { answer_of (option_map content_of) result ≡ rules.replaced width (content_of self) }
    {
        let Known::Number(a) = self else {
            return Err(Refusal::PointerArithmetic);
        };
        let Some(_left) = a.cut_to(width) else {
            return Ok(None);
        };
        Ok(Some(Known::Number(Quantity::unknown(width))))
    }

    /// The negated number.
    pub fn negate(self, width: Width) -> Result<Option<Known>, Refusal>
        ensures sound { IfOk result (λ o. (lengths : Lengths) (x : ℕ) → ContainsKnown self lengths x
            → WithinKnown o lengths (negated width (cut width x))) }
        ensures floor { IsNumber self → IsOk result }
        ensures numbers { IfOk result (λ o. AreNumbers o) }
        ensures not_unset { IfErr result (λ e. e ≢ Refusal.UnsetRegister) }
        ensures rule { answer_of (option_map content_of) result ≡ rules.replaced width (content_of self) }
    {
        let known = self.replaced(width)?;
        Ok(known)
    }

    /// The low bits with their sign.
    pub fn extend(self, extension: Extension) -> Result<Option<Known>, Refusal>
        ensures sound { IfOk result (λ o. (lengths : Lengths) (x : ℕ) → ContainsKnown self lengths x
            → WithinKnown o lengths (extended extension x)) }
        ensures floor { IsNumber self → IsOk result }
        ensures numbers { IfOk result (λ o. AreNumbers o) }
        ensures not_unset { IfErr result (λ e. e ≢ Refusal.UnsetRegister) }
        ensures rule { answer_of (option_map content_of) result
            ≡ rules.replaced (rules.width_of extension) (content_of self) }
    {
        let known = self.replaced(width_of(extension))?;
        Ok(known)
    }

    /// The low bytes, in one order or the other.
    #[tactic(auto, unfolding(crate::specs::Addresses::converted))]
    pub fn convert(self, conversion: Conversion, bits: ConvertedBits) -> Result<Known, Refusal>
        ensures sound { IfOk result (λ k. (lengths : Lengths) (x : ℕ) → ContainsKnown self lengths x
            → ContainsKnown k lengths (converted conversion bits x)) }
        ensures floor { IsNumber self → IsOk result }
        ensures numbers { IfOk result (λ k. IsNumber k) }
        ensures not_unset { IfErr result (λ e. e ≢ Refusal.UnsetRegister) }
        ensures rule { answer_of content_of result ≡ rules.converted bits (content_of self) }
    {
        let Known::Number(_) = self else {
            return Err(Refusal::PointerArithmetic);
        };
        Ok(Known::Number(Quantity::up_to(greatest_kept(bits))))
    }
}
