/// A sign that is a token by itself.
#[derive(Clone, Copy)]
pub enum Sign {
    Comma,
    Open,
    Close,
    Plus,
    Minus,
    Colon,
}

/// A token of a line: a sign, a word by its bytes, or a character that is of no token.
#[derive(Clone, Copy)]
pub enum Token<'a> {
    Mark(Sign),
    Word(&'a [u8]),
    Stray,
}

/// What stands at the front of a line: a token and what follows it, or nothing more.
#[derive(Clone, Copy)]
pub enum Next<'a> {
    Found(Token<'a>, &'a [u8]),
    End,
}

/// A number as it is written. Its value is `None` from 2^64 on, which is out of every range.
#[derive(Clone, Copy)]
pub struct Numeral {
    pub hexadecimal: bool,
    pub value: Option<u64>,
}

/// A token of a line on which every token is right: a sign, a name, or a number.
#[derive(Clone, Copy)]
pub enum Term<'a> {
    Symbol(Sign),
    Name(&'a [u8]),
    Number(Numeral),
}

/// A number with its sign before it.
#[derive(Clone, Copy)]
pub struct SignedNumeral {
    pub negative: bool,
    pub numeral: Numeral,
}

impl Default for Term<'_> {
    /// A term that stands where none has been put yet.
    fn default() -> Self {
        Term::Symbol(Sign::Comma)
    }
}
