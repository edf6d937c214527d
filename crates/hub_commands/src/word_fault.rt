//! The word for which a line of assembler text is refused, said beside the refusal.
use crate::answer::Ending;
use assembler::assembly::assemble;
use assembler::fault::AsmError;
use assembler_lines::fault::LineFault;
use assembler_lines::reading::reading;
use assembler_lines::scanner::next;
use assembler_lines::token::{Next, Token};
use std::alloc::{AllocError, Global};

/// As many bytes of a word are said.
const SHOWN: usize = 40;

/// What has no meaning in a line where it stands.
#[derive(Clone, Copy)]
enum Wrong<'a> {
    /// A first word that is no instruction's.
    Instruction(&'a [u8]),
    /// A word that is no register's.
    Register(&'a [u8]),
    /// A word that begins with a digit and is no number.
    Number(&'a [u8]),
    /// A character that no line has.
    Character(char),
    /// What stands behind a first word.
    Behind(&'a [u8]),
    /// What stands in place of a first word.
    Front,
}

fn is_register(word: &[u8]) -> bool {
    matches!(word, [b'r', b'0'..=b'9'] | b"r10")
}

fn begins_with_digit(word: &[u8]) -> bool {
    word.first().is_some_and(|byte| byte.is_ascii_digit())
}

fn is_number(word: &[u8]) -> bool {
    if word.starts_with(b"0x") {
        let (_, digits) = word.split_at(2);
        !digits.is_empty() && digits.iter().all(|byte| byte.is_ascii_hexdigit())
    } else {
        word.iter().all(|byte| byte.is_ascii_digit())
    }
}

/// The character of a line before which the rest begins that a one-byte token left.
fn character_before(line: &str, rest: &[u8]) -> Option<char> {
    let at = line.len().checked_sub(rest.len())?.checked_sub(1)?;
    line.get(at..)?.chars().next()
}

/// The first character or number of a line that is of no token.
fn wrong_token(line: &str) -> Option<Wrong<'_>> {
    let mut rest = line.as_bytes();
    for _token in 0..line.len() {
        let Next::Found(token, behind) = next(rest) else {
            return None;
        };
        match token {
            Token::Stray => return Some(Wrong::Character(character_before(line, behind)?)),
            Token::Word(word) if begins_with_digit(word) && !is_number(word) => {
                return Some(Wrong::Number(word));
            }
            _ => rest = behind,
        }
    }
    None
}

/// The first name that is no register's.
fn wrong_register(line: &[u8]) -> Option<Wrong<'_>> {
    let mut rest = line;
    for _token in 0..line.len() {
        let Next::Found(token, behind) = next(rest) else {
            return None;
        };
        match token {
            Token::Word(word) if !begins_with_digit(word) && !is_register(word) => {
                return Some(Wrong::Register(word));
            }
            _ => rest = behind,
        }
    }
    None
}

/// What is wrong in a line that is refused as no instruction, or for a name.
fn wrong_in(line: &str, fault: LineFault) -> Option<Wrong<'_>> {
    let first = next(line.as_bytes());
    match (fault, first) {
        (LineFault::UnknownName, Next::Found(Token::Word(word), behind)) => {
            match reading(word) {
                Err(LineFault::UnknownName) => Some(Wrong::Instruction(word)),
                _ => wrong_register(behind),
            }
        }
        (LineFault::Syntax, Next::Found(token, _)) => wrong_token(line).or(match token {
            Token::Word(word) => Some(Wrong::Behind(word)),
            _ => Some(Wrong::Front),
        }),
        _ => None,
    }
}

/// Appends the begin of a word, which is of letters, digits and `_`.
fn push_word(text: &mut String, word: &[u8]) -> Result<(), AllocError> {
    for byte in word.iter().take(SHOWN) {
        text.push(char::from(*byte))?;
    }
    Ok(())
}

fn push_character(text: &mut String, character: char) -> Result<(), AllocError> {
    if character.is_ascii_graphic() {
        text.push(character)
    } else {
        write!(text, "U+{:04X}", u32::from(character))
    }
}

fn push_wrong(text: &mut String, wrong: Wrong<'_>) -> Result<(), AllocError> {
    match wrong {
        Wrong::Instruction(word) => {
            text.push_str("no instruction is called ")?;
            push_word(text, word)
        }
        Wrong::Register(word) => {
            text.push_str("no register is called ")?;
            push_word(text, word)
        }
        Wrong::Number(word) => {
            push_word(text, word)?;
            text.push_str(" is no number")
        }
        Wrong::Character(character) => {
            push_character(text, character)?;
            text.push_str(" has no meaning")
        }
        Wrong::Behind(word) => {
            text.push_str("what stands behind ")?;
            push_word(text, word)?;
            text.push_str(" isn't of its form")
        }
        Wrong::Front => text.push_str("it doesn't begin with a word"),
    }
}

/// What is said of the word for which a source is refused, with its line; none where it isn't refused for a word.
fn word_fault(alloc: Global, source: &str, error: AsmError) -> Result<Option<String>, AllocError> {
    let AsmError::Line { line, fault } = error else {
        return Ok(None);
    };
    for (index, content) in source.split('\n').enumerate() {
        if index.checked_add(1) == Some(line) {
            let Some(wrong) = wrong_in(content, fault) else {
                return Ok(None);
            };
            let mut text = format!(in alloc; "line {line}: ")?;
            push_wrong(&mut text, wrong)?;
            return Ok(Some(text));
        }
    }
    Ok(None)
}

/// What is said of the word for which `asm` refused an input: the input is assembled once more, for the fault.
pub fn refused_word(
    alloc: Global,
    input: &[u8],
    ending: Ending,
) -> Result<Option<String>, AllocError> {
    let (Ending::Failed, Ok(source)) = (ending, std::str::from_utf8(input)) else {
        return Ok(None);
    };
    match assemble(alloc, source) {
        Ok(_) => Ok(None),
        Err(error) => word_fault(alloc, source, error),
    }
}
