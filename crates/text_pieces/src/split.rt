//! Texts by their characters.
ghost use Rattle.std.specs.Prelude.{◌≡◌, ◌≤◌, ◌++◌, chars, drop, length, slice_range, take};

/// The text's first characters, that many, and the others.
fn split_characters<'a>(text: &'a str, count: usize) -> (&'a str, &'a str)
    requires { count ≤ length (chars text.now) }
    ensures first { chars result.0.now ≡ take count (chars text.now) }
    ensures second { chars result.1.now ≡ drop count (chars text.now) }
{
    let mut rest = text.chars();
    for index in 0..count {
        rest.next();
    }
    let second = rest.as_str();
    let size = text.len();
    let left = second.len();
    let first = &text[..size - left];
    (first, second)
}

/// The same of a text of which it is known how many characters it has. Where each is one byte, none is looked at.
fn split_counted<'a>(text: &'a str, characters: usize, count: usize) -> (&'a str, &'a str)
    requires all { characters ≡ length (chars text.now) }
    requires within { count ≤ length (chars text.now) }
    ensures first { chars result.0.now ≡ take count (chars text.now) }
    ensures second { chars result.1.now ≡ drop count (chars text.now) }
{
    if characters == text.len() {
        if let Some((first, second)) = text.split_at_checked(count) {
            return (first, second);
        }
    }
    split_characters(text, count)
}

/// The characters from the one place up to the other of a text that has `characters` of them.
pub fn characters_between<'a>(text: &'a str, characters: usize, from: usize, to: usize) -> &'a str
    requires all { characters ≡ length (chars text.now) }
    requires order { from ≤ to }
    requires within { to ≤ length (chars text.now) }
    ensures { chars result.now ≡ slice_range (chars text.now) from to }
{
    let (_, rest) = split_counted(text, characters, from);
    let (middle, _) = split_counted(rest, characters - from, to - from);
    middle
}

/// How many characters the text has. Where each is one byte, which is tested for several bytes at once, none is
/// counted.
pub fn count_characters(text: &str) -> usize
    ensures { result ≡ length (chars text.now) }
{
    if text.is_ascii() {
        return text.len();
    }
    text.chars().count()
}
