//! What a line of the text is, where it isn't a paragraph.
ghost use Rattle.std.specs.Prelude.{◌≡◌, ◌<◌, Some, length, map, slice_get};
ghost use Rattle.change_ops.specs.Keys.{place_in};
ghost use Rattle.change_ops.specs.LineKinds.{word_of_kind, kind_at, bytes_in};

use std::marker::Model;

/// How many kinds of lines there are, but for paragraphs.
pub const KINDS: usize = 41;

/// The words of the kinds: headings of six levels; items of lists, by how far they are indented; quotes, preformatted
/// text and rules.
static WORDS: [&str; KINDS] = [
    "heading:1",
    "heading:2",
    "heading:3",
    "heading:4",
    "heading:5",
    "heading:6",
    "bullet:0",
    "bullet:1",
    "bullet:2",
    "bullet:3",
    "bullet:4",
    "bullet:5",
    "bullet:6",
    "bullet:7",
    "number:0",
    "number:1",
    "number:2",
    "number:3",
    "number:4",
    "number:5",
    "number:6",
    "number:7",
    "task:0:open",
    "task:1:open",
    "task:2:open",
    "task:3:open",
    "task:4:open",
    "task:5:open",
    "task:6:open",
    "task:7:open",
    "task:0:done",
    "task:1:done",
    "task:2:done",
    "task:3:done",
    "task:4:done",
    "task:5:done",
    "task:6:done",
    "task:7:done",
    "quote",
    "pre",
    "rule",
];

/// What a line is, by the place of its word among [`WORDS`].
#[derive(Clone, Copy, PartialEq, Eq)]
pub struct LineKind {
    place: u8,
}

impl Model for LineKind {
    ghost use Rattle.std.specs.Prelude.{ℕ, ◌<◌};
    ghost use Rattle.change_ops.specs.declared.line_kind.TheConstants.{KINDS};

    ghost Value = { ℕ };

    ghost view = { λ k. k.place };

    ghost invariant = { λ k. k.place < KINDS };

    ghost inverse = { λ n. record { place = n } };
}

/// One of the words.
fn word_in(words: &[&'static str], place: usize) -> &'static str
    requires { place < length words.now }
    ensures { slice_get (bytes_in words.now) place ≡ Some result.now }
{
    words[place]
}

/// Where the word first stands.
fn place_of(words: &[&'static str], word: &str) -> Option<usize>
    ensures { result ≡ place_in (bytes_in words.now) word.now }
{
    words.iter().position(|other| *other == word)
}

impl LineKind {
    /// The kind of a word.
    pub fn named(word: &str) -> Option<Self>
        ensures { result ≡ kind_at word.now }
    {
        let place = place_of(&WORDS, word)?;
        if place < KINDS {
            Some(LineKind { place: place as u8 })
        } else {
            None
        }
    }

    /// The kind's word.
    pub fn word(self) -> &'static str
        ensures { result.now ≡ word_of_kind self }
    {
        word_in(&WORDS, self.place() as usize)
    }

    /// The place of the kind's word among all.
    pub fn place(self) -> u8
        ensures value { result ≡ self }
        ensures limit { result < KINDS }
    {
        self.place
    }
}
