ghost use Rattle.std.specs.Prelude.{◌≡◌, IsTrue};
ghost use Rattle.change_ops.specs.Ids.{is_character, checked};

use std::marker::Model;

/// A character of a text: a Unicode scalar value other than U+0000.
#[derive(Clone, Copy)]
pub struct Character {
    value: char,
}

impl Model for Character {
    ghost use Rattle.std.specs.Prelude.{ℕ, IsTrue};
    ghost use Rattle.change_ops.specs.Ids.{is_character};

    ghost Value = { ℕ };

    ghost view = { λ c. c.value };

    ghost invariant = { λ c. IsTrue (is_character c.value) };

    ghost inverse = { λ c. record { value = c } };
}

impl Character {
    /// The character of a code, if it is one.
    pub fn new(code: u64) -> Option<Self>
        ensures { result ≡ checked is_character code }
    {
        if code == 0 || code > 0x10_ffff {
            return None;
        }
        match char::from_u32(code as u32) {
            Some(value) => Some(Character { value }),
            None => None,
        }
    }

    /// The character itself.
    pub fn value(self) -> char
        ensures value { result ≡ self }
        ensures valid { IsTrue (is_character self) }
    {
        self.value
    }
}
