ghost use Rattle.std.specs.Prelude.{◌≡◌, ℕ, ◌+◌, ◌*◌, ◌≤◌, ◌<◌, [], take, option_map, Some, None, if◌then◌else◌};
ghost use Rattle.assembler_lines.specs.Scanning.{lexeme, term_seen, terms_seen};
ghost use Rattle.assembler_lines.specs.Terms.{bounded, numeral_in, numeral_of, term_of_word, term_of, terms_of};
ghost use Rattle.assembler_lines.specs.Tokens.{tokens_of};

use crate::scanner::next;
use crate::token::{Next, Numeral, Term, Token};
use arrayvec::ArrayVec;

/// As many terms as are kept of a line: one more than an instruction has, so that a line of more is
/// refused as one of that many is.
pub(crate) const MOST_TERMS: usize = 10;

/// The number that one digit more makes, where it is below 2^64.
fn extended(value: Option<u64>, base: u64, digit: u64) -> Option<u64>
    requires { 0 < base }
    ensures { (n : ℕ) → value ≡ bounded n → result ≡ bounded (n * base + digit) }
{
    value?.checked_mul(base)?.checked_add(digit)
}

/// The number that digits of a base spell.
#[tactic(auto, unfolding(crate::specs::Terms::are_digits))]
fn numeral_in_base(base: u32, hexadecimal: bool, digits: &[u8]) -> Option<Numeral>
    requires low { 2 ≤ base }
    requires high { base ≤ 16 }
    ensures { result ≡ numeral_in base hexadecimal digits.now }
{
    if digits.is_empty() {
        return None;
    }
    let mut value = Some(0);
    for &byte in digits {
        let digit = char::from(byte).to_digit(base)?;
        value = extended(value, u64::from(base), u64::from(digit));
    }
    Some(Numeral { hexadecimal, value })
}

/// The number that a word spells.
#[tactic(auto, unfolding(crate::specs::Terms::numeral_of))]
fn numeral(word: &[u8]) -> Option<Numeral>
    ensures { result ≡ numeral_of word.now }
{
    if word.starts_with(b"0x") {
        let (_, digits) = word.split_at(2);
        numeral_in_base(16, true, digits)
    } else {
        numeral_in_base(10, false, word)
    }
}

#[tactic(auto, unfolding(crate::specs::Terms::term_of_word))]
fn term_of(token: Token<'_>) -> Option<Term<'_>>
    ensures { option_map term_seen result ≡ term_of (lexeme token.entry) }
{
    match token {
        Token::Mark(sign) => Some(Term::Symbol(sign)),
        Token::Word(word) => {
            if word.first().is_some_and(|byte| byte.is_ascii_digit()) {
                Some(Term::Number(numeral(word)?))
            } else {
                Some(Term::Name(word))
            }
        }
        Token::Stray => None,
    }
}

/// Appends the first terms of a line: whether every token of it is right.
pub(crate) fn read_terms<'a>(line: &'a [u8], found: &mut ArrayVec<Term<'a>, MOST_TERMS>) -> bool
    requires { found.old.items ≡ [] }
    ensures { (if result then Some (terms_seen found.new.items) else None)
        ≡ option_map (take 10) (terms_of (tokens_of line.now)) }
{
    let mut rest = line;
    loop {
        match next(rest) {
            Next::End => return true,
            Next::Found(token, after) => {
                let Some(term) = term_of(token) else {
                    return false;
                };
                if !found.is_full() {
                    found.push(term);
                }
                rest = after;
            }
        }
    }
}
