//! Where bytes are split.
ghost use Rattle.std.specs.Prelude.{◌≡◌, ◌<◌, ◌==◌, IfSome, length, position};
ghost use Rattle.change_ops.specs.Words.{split, seen};
ghost use Rattle.filter_cases.specs.Cases.{first_line, is_left_out};

/// Where a byte is first.
fn place_of(mark: u8, bytes: &[u8]) -> Option<usize>
    ensures index { result ≡ position (λ b. b == mark) bytes.now }
    ensures bound { IfSome result (λ at. at < length bytes.now) }
{
    bytes.iter().position(|byte| *byte == mark)
}

/// What stands before the first of a byte, and what stands after it.
#[tactic(auto, using(crate::proofs::Splits::split_nowhere))]
pub fn split(mark: u8, bytes: &[u8]) -> Option<(&[u8], &[u8])>
    ensures parts { seen result ≡ split mark bytes.now }
    ensures shorter { IfSome result (λ parts. length parts.1.now < length bytes.now) }
{
    match place_of(mark, bytes) {
        Some(end) => Some((&bytes[..end], &bytes[end + 1..])),
        None => None,
    }
}

/// The first line, without its line feed, and what stands after that.
pub fn first_line(text: &[u8]) -> (&[u8], &[u8])
    ensures parts { (result.0.now, result.1.now) ≡ first_line text.now }
    ensures shorter { 0 < length text.now → length result.1.now < length text.now }
{
    match split(b'\n', text) {
        Some((line, rest)) => (line, rest),
        None => (text, &[]),
    }
}

/// Whether a line is empty or a comment.
pub fn is_left_out(line: &[u8]) -> bool
    ensures { result ≡ is_left_out line.now }
{
    match line.first() {
        Some(byte) => *byte == b'#',
        None => true,
    }
}
