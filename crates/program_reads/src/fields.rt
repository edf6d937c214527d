//! The fields of a context by their bytes.
ghost use Rattle.std.specs.Prelude.{◌≡◌, ◌↔◌, ℕ, ◌<◌, ◌≤◌, IsTrue};
ghost use Rattle.span_context.specs.ContextField.{bytes_of};
ghost use Rattle.program_reads.specs.Reads.{HasByte};
ghost use Rattle.program_reads.specs.Marks.{Takes};

use semantics::sizes::count;
use span_context::context_field::ContextField;

/// How many bytes a field has.
fn field_bytes(field: ContextField) -> u64
    ensures { result ≡ bytes_of field }
{
    count(field.size()) as u64
}

/// Whether some of the bytes from `first` up to `end` are the field's.
fn is_taken(field: ContextField, first: u64, end: u64) -> bool
    ensures { IsTrue result ↔ Takes field first end }
{
    let start = field.offset();
    start < end && first < start + field_bytes(field)
}

/// Marks the fields of which some of the bytes from `first` up to `end` are.
pub fn mark(fields: &mut [bool; 13], first: u64, end: u64)
    ensures kept { (k : ℕ) → HasByte fields.old k → HasByte fields.new k }
    ensures there { (k : ℕ) → first ≤ k → k < end → k < 72 → HasByte fields.new k }
{
    for i in 0..13 {
        if is_taken(ContextField::ALL[i], first, end) {
            fields[i] = true;
        }
    }
}
