//! The keys of one value, a row of a table for each.
ghost use Rattle.std.specs.Prelude.{◌≡◌, ◌<◌, Some, length, map, slice_get};
ghost use Rattle.change_ops.specs.Keys.{word_in_row, type_in_row, form_in_row, word_of, type_of_row, form_of};
ghost use Rattle.change_ops.specs.Keys.{is_row, row_at, place_in};
ghost use Rattle.change_ops.specs.Ids.{checked};

use crate::line::Form;
use std::marker::Model;

/// What a mark of a key adds.
#[derive(Clone, Copy, PartialEq, Eq)]
pub enum ValueType {
    /// The key holds, and has no value besides.
    Nothing,
    Link,
    Color,
    LineKind,
}

/// What is said of a key: its word, the type of its value, and the form of changes from which on it is known.
#[derive(Clone, Copy)]
pub struct Row {
    word: &'static str,
    value: ValueType,
    form: Form,
}

/// How many keys have one value.
pub const KEYS: usize = 8;

/// The rows of the keys that the context of a program knows.
pub const STRONG: usize = 0;

pub const EM: usize = 1;

pub const CODE: usize = 2;

pub const LINK: usize = 3;

pub const COLOR: usize = 4;

/// The keys of one value, in the order in which they are printed.
static ROWS: [Row; KEYS] = [
    Row {
        word: "strong",
        value: ValueType::Nothing,
        form: Form::First,
    },
    Row {
        word: "em",
        value: ValueType::Nothing,
        form: Form::First,
    },
    Row {
        word: "code",
        value: ValueType::Nothing,
        form: Form::Second,
    },
    Row {
        word: "link",
        value: ValueType::Link,
        form: Form::First,
    },
    Row {
        word: "color",
        value: ValueType::Color,
        form: Form::First,
    },
    Row {
        word: "underline",
        value: ValueType::Nothing,
        form: Form::Third,
    },
    Row {
        word: "strike",
        value: ValueType::Nothing,
        form: Form::Third,
    },
    Row {
        word: "block",
        value: ValueType::LineKind,
        form: Form::Third,
    },
];

/// A key of one value, by its row.
#[derive(Clone, Copy, PartialEq, Eq)]
pub struct KeyRow {
    row: u8,
}

impl Model for KeyRow {
    ghost use Rattle.std.specs.Prelude.{ℕ, ◌<◌};
    ghost use Rattle.change_ops.specs.declared.keys.TheConstants.{KEYS};

    ghost Value = { ℕ };

    ghost view = { λ k. k.row };

    ghost invariant = { λ k. k.row < KEYS };

    ghost inverse = { λ n. record { row = n } };
}

/// The word of one of the rows.
fn word_in(rows: &[Row], row: usize) -> &'static str
    requires { row < length rows.now }
    ensures { slice_get (map word_in_row rows.now) row ≡ Some result.now }
{
    rows[row].word
}

/// The type of the value of one of the rows.
fn type_in(rows: &[Row], row: usize) -> ValueType
    requires { row < length rows.now }
    ensures { slice_get (map type_in_row rows.now) row ≡ Some result }
{
    rows[row].value
}

/// The form that knows one of the rows.
fn form_in(rows: &[Row], row: usize) -> Form
    requires { row < length rows.now }
    ensures { slice_get (map form_in_row rows.now) row ≡ Some result }
{
    rows[row].form
}

/// The first row with this word.
fn row_in(rows: &[Row], word: &str) -> Option<usize>
    ensures { result ≡ place_in (map word_in_row rows.now) word.now }
{
    rows.iter().position(|row| row.word == word)
}

impl KeyRow {
    /// The key of a row, if there is one.
    pub fn new(row: usize) -> Option<Self>
        ensures { result ≡ checked is_row row }
    {
        if row < KEYS {
            Some(KeyRow { row: row as u8 })
        } else {
            None
        }
    }

    /// The key of a word.
    pub fn named(word: &str) -> Option<Self>
        ensures { result ≡ row_at word.now }
    {
        let row = row_in(&ROWS, word)?;
        KeyRow::new(row)
    }

    /// The key's row.
    pub fn row(self) -> usize
        ensures value { result ≡ self }
        ensures limit { result < KEYS }
    {
        self.row as usize
    }

    /// The key's word.
    pub fn word(self) -> &'static str
        ensures { result.now ≡ word_of self }
    {
        word_in(&ROWS, self.row())
    }

    /// The type of the key's value.
    pub fn value_type(self) -> ValueType
        ensures { result ≡ type_of_row self }
    {
        type_in(&ROWS, self.row())
    }

    /// The first form of changes that knows the key.
    pub fn form(self) -> Form
        ensures { result ≡ form_of self }
    {
        form_in(&ROWS, self.row())
    }
}
