//! Escapes in the text of a case.
ghost use Rattle.std.specs.Prelude.{◌≡◌, ◌≤◌, IfSome, length};
ghost use Rattle.hex.specs.Hex.{hex_digit_value};
ghost use Rattle.filter_cases.specs.Escapes.{letter_byte, digits_at, escape_at};
ghost use Rattle.filter_cases.specs.Seen.{escaped};

/// The value of a hexadecimal digit of either case.
fn digit(byte: u8) -> Option<u8>
    ensures { result ≡ hex_digit_value byte }
{
    match byte {
        b'A'..=b'F' => Some(byte - b'A' + 10),
        b'a'..=b'f' => Some(byte - b'a' + 10),
        b'0'..=b'9' => Some(byte - b'0'),
        _ => None,
    }
}

/// The byte that a letter stands for behind a backslash.
fn letter(byte: u8) -> Option<u8>
    ensures { result ≡ letter_byte byte }
{
    match byte {
        b'n' => Some(b'\n'),
        b't' => Some(b'\t'),
        b'"' => Some(b'"'),
        b'\\' => Some(b'\\'),
        _ => None,
    }
}

/// The byte of two hexadecimal digits, and what stands after them.
fn digits(text: &[u8]) -> Option<(u8, &[u8])>
    ensures byte { escaped result ≡ digits_at text.now }
    ensures shorter { IfSome result (λ found. length found.1.now ≤ length text.now) }
{
    let [high, low, rest @ ..] = text else {
        return None;
    };
    let high = digit(*high)?;
    let low = digit(*low)?;
    Some((16 * high + low, rest))
}

/// The byte of an escape, behind its backslash, and what stands after it.
#[tactic(auto, unfolding(crate::specs::Escapes::escape_at))]
pub fn escape(text: &[u8]) -> Option<(u8, &[u8])>
    ensures byte { escaped result ≡ escape_at text.now }
    ensures shorter { IfSome result (λ found. length found.1.now ≤ length text.now) }
{
    let (first, rest) = text.split_first()?;
    if *first == b'x' {
        return digits(rest);
    }
    let byte = letter(*first)?;
    Some((byte, rest))
}
