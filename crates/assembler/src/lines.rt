ghost use Rattle.std.specs.Prelude.{◌≡◌, ◌<◌, ◌==◌, ◌∷◌, IfSome, length, position};
ghost use Rattle.assembler.specs.Lines.{lines_left};
ghost use Rattle.assembler_lines.specs.Slots.{lines_of};

/// Where the first LF is.
fn feed_in(text: &[u8]) -> Option<usize>
    ensures index { result ≡ position (λ b. b == 10) text.now }
    ensures bound { IfSome result (λ at. at < length text.now) }
{
    text.iter().position(|byte| *byte == b'\n')
}

/// The first line of a text, and the text behind its LF, where it has one.
pub(crate) fn first_line(text: &[u8]) -> (&[u8], Option<&[u8]>)
    ensures { lines_of text.now ≡ result.0.now ∷ lines_left result.1 }
{
    match feed_in(text) {
        Some(end) => (&text[..end], Some(&text[end + 1..])),
        None => (text, None),
    }
}
