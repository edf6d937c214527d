//! A piece of a text, which versions share.
ghost use Rattle.std.specs.Prelude.{◌≡◌, ◌-◌, IfOk, chars, length};
ghost use Rattle.text_pieces.specs.Budgets.{piece_bytes};

use memory_budget::Budget;
use piece_tree::piece::{Measure, Piece};
use std::alloc::{AllocError, Global};
use std::marker::Model;
use std::sync::Arc;

/// The most bytes that a piece has.
pub const FULL: usize = 256;

/// The least that it has, if it isn't the last one.
pub const LEAST: usize = 64;

/// What a piece takes apart from its bytes: the counted value's allocation and the text's, each with what the allocator
/// adds to it.
const PIECE_BYTES: usize = 96;

/// A text, with how many characters it has. Contracts see the characters.
struct Content {
    text: String,
    characters: usize,
}

impl Drop for Content {
    fn drop(self) {
        let Content {
            text: _,
            characters: _,
        } = self;
    }
}

impl Model for Content {
    ghost use Rattle.std.specs.Prelude.{◌≡◌, ℕ, List, chars, length};
    ghost use Rattle.std.specs.String.{string_bytes};

    ghost Value = { List ℕ };

    ghost view = { λ c. chars (string_bytes c.text) };

    ghost invariant = { λ c. c.characters ≡ length (chars (string_bytes c.text)) };
}

/// A piece of a text. Contracts see its characters.
pub struct TextPiece {
    content: Arc<Content, Global>,
}

impl Drop for TextPiece {
    fn drop(self) {
        let TextPiece { content: _ } = self;
    }
}

impl Model for TextPiece {
    ghost use Rattle.std.specs.Prelude.{ℕ, List};
    ghost use Rattle.std.specs.Arc.{arc_value};

    ghost Value = { List ℕ };

    ghost view = { λ p. arc_value p.content };
}

impl Content {
    /// The text.
    fn text(&self) -> &str
        ensures { chars result.now ≡ self.now }
    {
        self.text.as_str()
    }

    /// How many characters it has.
    fn characters(&self) -> usize
        ensures { result ≡ length self.now }
    {
        self.characters
    }
}

impl TextPiece {
    /// The piece of this text. It is the one way to make a piece that others don't have already, and it is paid for.
    pub fn new(
        alloc: Global,
        text: &str,
        characters: usize,
        budget: &mut Budget,
    ) -> Result<TextPiece, AllocError>
        requires { characters ≡ length (chars text.now) }
        ensures piece { IfOk result (λ piece. piece ≡ chars text.now) }
        ensures paid { budget.new ≡ budget.old - piece_bytes (length text.now) }
    {
        budget.pay(PIECE_BYTES + text.len());
        let mut own = String::with_capacity(alloc, text.len())?;
        own.push_str(text)?;
        let content = Content {
            text: own,
            characters,
        };
        let content = Arc::new(alloc, content)?;
        Ok(TextPiece { content })
    }

    /// Its text.
    pub fn text(&self) -> &str
        ensures { chars result.now ≡ self.now }
    {
        self.content.text()
    }

    /// How many characters it has.
    pub fn characters(&self) -> usize
        ensures { result ≡ length self.now }
    {
        self.content.characters()
    }
}

impl Piece for TextPiece {
    ghost use Rattle.text_pieces.specs.Texts.{text_size};

    ghost size = { text_size };

    fn size(&self, measure: Measure) -> usize {
        match measure {
            Measure::Parts => self.text().len(),
            Measure::Characters => self.characters(),
        }
    }

    fn share(&self) -> Result<TextPiece, AllocError> {
        let content = Arc::try_clone(&self.content)?;
        Ok(TextPiece { content })
    }
}
