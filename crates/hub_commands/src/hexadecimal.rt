ghost use Rattle.std.specs.Prelude.{◌≡◌, IfOk};
ghost use Rattle.std.specs.String.{string_bytes};
ghost use Rattle.hub_commands.specs.Hexadecimal.{is_blank, slot_lines};

use std::alloc::{AllocError, Global};

pub fn is_blank(byte: u8) -> bool
    ensures { result ≡ is_blank byte }
{
    matches!(byte, b' ' | b'\t' | b'\r' | b'\n')
}

/// The bytes as a line of 16 lower-case digits a slot.
pub fn slot_lines(alloc: Global, bytes: &[u8]) -> Result<String, AllocError>
    ensures { IfOk result (λ lines. string_bytes lines ≡ slot_lines bytes.now) }
{
    let mut lines = String::new(alloc);
    let (slots, _) = bytes.as_chunks::<8>();
    for slot in slots {
        let digits = hex::encode(alloc, slot)?;
        lines.push_str(digits.as_str())?;
        lines.push('\n')?;
    }
    Ok(lines)
}
