//! The words of a line.
ghost use Rattle.std.specs.Prelude.{◌≡◌, ◌<◌, ◌==◌, IfSome, length, not, position};
ghost use Rattle.std.specs.List.{before_first, list_all};
ghost use Rattle.change_ops.specs.Words.{split, seen};
ghost use Rattle.session_lines.specs.Reading.{is_one_word};

/// Where a line's first space is.
fn space_in(line: &[u8]) -> Option<usize>
    ensures index { result ≡ position (λ b. b == 32) line.now }
    ensures bound { IfSome result (λ at. at < length line.now) }
{
    line.iter().position(|byte| *byte == b' ')
}

/// The word at the front of a line, and what follows the space after it.
#[tactic(auto, using(crate::proofs::Splits::split_nowhere))]
pub fn word_of(line: &[u8]) -> Option<(&[u8], &[u8])>
    ensures { seen result ≡ split 32 line.now }
{
    match space_in(line) {
        Some(end) => Some((&line[..end], &line[end + 1..])),
        None => None,
    }
}

/// The word at the front of a line, which may be the whole line.
#[tactic(auto, using(crate::proofs::Splits::before_at, crate::proofs::Splits::before_nowhere))]
pub fn first_word(line: &[u8]) -> &[u8]
    ensures { result.now ≡ before_first (λ b. b == 32) line.now }
{
    match space_in(line) {
        Some(end) => &line[..end],
        None => line,
    }
}

fn is_no_space(byte: u8) -> bool
    ensures { result ≡ not (byte == 32) }
{
    byte != b' '
}

fn has_no_space(word: &[u8]) -> bool
    ensures { result ≡ list_all (λ b. not (b == 32)) word.now }
{
    word.iter().all(|byte| is_no_space(*byte))
}

/// Whether a word has a byte and no space.
pub fn is_one_word(word: &[u8]) -> bool
    ensures { result ≡ is_one_word word.now }
{
    if word.is_empty() {
        return false;
    }
    has_no_space(word)
}
