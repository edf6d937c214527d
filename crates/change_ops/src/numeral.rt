//! The numbers that digits spell.
ghost use Rattle.std.specs.Prelude.{MatchOption, ℕ, ◌+◌, ◌*◌, ◌≡◌, ◌<◌, ◌≤◌};
ghost use Rattle.std.specs.Option.{option_map};
ghost use Rattle.change_ops.specs.Words.{digit_of as digit_value, digits_after, number_in, small_number, small};
ghost use Rattle.change_ops.specs.Words.{numeral_of};

/// The value of a digit of a base, in lower case.
fn digit_of(base: u64, byte: u8) -> Option<u64>
    requires { base ≤ 16 }
    ensures { MatchOption result (base ≤ digit_value byte) (λ digit. (digit ≡ digit_value byte) × (digit < base)) }
{
    let digit = match byte {
        b'0'..=b'9' => byte - b'0',
        b'a'..=b'f' => byte - b'a' + 10,
        _ => return None,
    };
    let digit = u64::from(digit);
    if digit < base { Some(digit) } else { None }
}

/// The number that digits spell: `None` where it is past 64 bits.
#[derive(Clone, Copy)]
pub(crate) struct Numeral {
    pub(crate) value: Option<u64>,
}

/// The number that one digit more makes, where it still has 64 bits.
fn extended(value: Option<u64>, base: u64, digit: u64) -> Option<u64>
    requires { 0 < base }
    ensures { (n : ℕ) → value ≡ small_number n → result ≡ small_number (n * base + digit) }
{
    value?.checked_mul(base)?.checked_add(digit)
}

/// The number that digits spell in a base, leading zeros or not; `None` where a byte is no digit.
pub(crate) fn numeral_in(base: u64, word: &[u8]) -> Option<Numeral>
    requires low { 2 ≤ base }
    requires high { base ≤ 16 }
    ensures { result ≡ option_map numeral_of (digits_after base 0 word.now) }
{
    let mut value = Some(0);
    for &byte in word {
        let digit = digit_of(base, byte)?;
        value = extended(value, base, digit);
    }
    Some(Numeral { value })
}

/// The number of 64 bits that a word spells in decimal, without leading zeros.
#[tactic(auto, unfolding(crate::specs::Words::number_in))]
pub fn decimal_number(word: &[u8]) -> Option<u64>
    ensures { result ≡ small (number_in 10 word.now) }
{
    match word {
        [] | [b'0', _, ..] => None,
        _ => numeral_in(10, word)?.value,
    }
}
