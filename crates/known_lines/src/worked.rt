//! Lines of a worked case.
ghost use Rattle.std.specs.Prelude.{◌≡◌, false, Some, codes};
ghost use Rattle.std.specs.Str.{bytes_eq};
ghost use Rattle.abstract_state.specs.Stacks.{Marked};
ghost use Rattle.known_lines.specs.KnownLines.{register_line, slot_line};
ghost use Rattle.known_lines.specs.Worked.{in_text, low_half};

/// What is printed of an address in the text and of eight bytes of the stack; a tail of the link is another line.
pub fn lines_are_worked()
    ensures address { register_line 2 (Some in_text) ≡ codes "r2 = text+0..=131071, tail 1" }
    ensures marks { slot_line 63 (Marked low_half) ≡ codes "[stack-8] = xxxx----" }
    ensures tail { bytes_eq (register_line 2 (Some in_text)) (codes "r2 = text+0..=131071, link tail 1") ≡ false }
{}
