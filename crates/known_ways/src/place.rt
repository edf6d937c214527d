//! Instructions by their slots.
ghost use Rattle.std.specs.Prelude.{◌≡◌, ◌<◌, ◌≤◌, length, slice_get, Some, None, IfSome};
ghost use Rattle.bpf_words.specs.Words.{program_of};

use bpf_words::instruction::Insn;
use bpf_words::words::Words;

/// The instruction of a slot, if one begins there.
pub fn insn_at(words: &Words<'_>, slot: usize) -> Option<Insn>
    ensures stands { slot < length (program_of words.now) → slice_get (program_of words.now) slot ≡ Some result }
    ensures past { length (program_of words.now) ≤ slot → result ≡ None }
    ensures within { IfSome result (λ _. slot < length (program_of words.now)) }
    ensures few { IfSome result (λ _. slot < 4096) }
{
    if slot < words.len() {
        words.insn(slot)
    } else {
        None
    }
}
