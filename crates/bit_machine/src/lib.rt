//! The meaning of BPF instructions said a second time, on words of bits: sums by ripple carry, division by long
//! division, signs by the leading bit. The laws, that both meanings are one, are functions that do nothing.
#![tactic(auto)]

ghost use Rattle.std.specs.Prelude.{◌≡◌, ℕ, ◌<◌, ◌^◌};
ghost use Rattle.span_context.specs.Context.{SpanBytes};
ghost use Rattle.span_context.specs.declared.profile.Profile.{Profile};
ghost use Rattle.bpf_words.specs.declared.instruction.Width.{Width};
ghost use Rattle.bpf_words.specs.declared.instruction.Arithmetic.{Arithmetic};
ghost use Rattle.bpf_words.specs.declared.instruction.Extension.{Extension};
ghost use Rattle.bpf_words.specs.declared.instruction.Conversion.{Conversion};
ghost use Rattle.bpf_words.specs.declared.instruction.ConvertedBits.{ConvertedBits};
ghost use Rattle.bpf_words.specs.declared.instruction.Comparison.{Comparison};
ghost use Rattle.bpf_words.specs.declared.instruction.SignedSize.{SignedSize};
ghost use Rattle.bpf_words.specs.declared.instruction.Insn.{Insn};
ghost use Rattle.semantics.specs.Value.{cut, value_of, negated, extended, converted, holds_of, with_sign};
ghost use Rattle.semantics.specs.Memory.{bytes_in_signed};
ghost use Rattle.semantics.specs.State.{State, start};
ghost use Rattle.semantics.specs.Step.{Program, perform, step};
ghost use Rattle.semantics.specs.Outcomes.{outcome_from, outcome};
ghost use Rattle.semantics.specs.Safe.{IsSpanIn};
ghost use Rattle.bit_machine.specs.Bits.{value, negation};
ghost use Rattle.bit_machine.specs.Machine.{word, result_of, extension_of, conversion_of, holds_by, signed_word};
ghost use Rattle.bit_machine.specs.Machine.{performs, steps, run_from, run};
ghost use Rattle.bit_machine.specs.Machine.{LendsBytes, HoldsBytes, LeadsToBytes, IsSignedLoad};

/// What an instruction makes of words of bits is what it makes of numbers.
pub fn words_agree()
    ensures arithmetic { (operation : Arithmetic) (width : Width) (a b : ℕ)
        → value (result_of operation width (word width a) (word width b))
        ≡ value_of operation width (cut width a) (cut width b) }
    ensures negation { (width : Width) (a : ℕ) → value (negation (word width a)) ≡ negated width (cut width a) }
    ensures extension { (extension : Extension) (a : ℕ) → value (extension_of extension a) ≡ extended extension a }
    ensures conversion { (conversion : Conversion) (kept : ConvertedBits) (a : ℕ)
        → value (conversion_of conversion kept a) ≡ converted conversion kept a }
    ensures comparison { (comparison : Comparison) (width : Width) (a b : ℕ)
        → holds_by comparison (word width a) (word width b) ≡ holds_of comparison width (cut width a) (cut width b) }
    ensures signed_load { (size : SignedSize) (number : ℕ) → number < 256 ^ bytes_in_signed size
        → value (signed_word size number) ≡ with_sign size number }
{}

/// Each instruction does the same by both meanings, in any state; of a signed load it is to be known that memory holds
/// bytes, which it does from the start on. So each step is the same.
pub fn steps_agree()
    ensures instruction { (bytes : SpanBytes) (state : State) (insn : Insn) → (IsSignedLoad insn → ⊥)
        → performs bytes state insn ≡ perform bytes state insn }
    ensures step { (program : Program) (bytes : SpanBytes) (state : State) → LendsBytes bytes → HoldsBytes state
        → steps program bytes state ≡ step program bytes state }
    ensures kept { (program : Program) (bytes : SpanBytes) (state : State) → HoldsBytes state
        → LeadsToBytes (step program bytes state) }
    ensures start { HoldsBytes start }
    ensures span { (profile : Profile) (bytes : SpanBytes) → IsSpanIn profile bytes → LendsBytes bytes }
{}

/// So runs have the same outcome, after any number of steps.
pub fn runs_agree()
    ensures any { (program : Program) (bytes : SpanBytes) (count : ℕ) (state : State) → LendsBytes bytes
        → HoldsBytes state → run_from program bytes count state ≡ outcome_from program bytes count state }
    ensures whole { (profile : Profile) (program : Program) (bytes : SpanBytes) → IsSpanIn profile bytes
        → run program bytes ≡ outcome program bytes }
{}
