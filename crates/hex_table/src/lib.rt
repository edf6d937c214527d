//! Hexadecimal digits, read by a table: 16 digits, a program's slot, at once.
#![tactic(auto)]

ghost use Rattle.std.specs.Prelude.{◌≡◌, ◌+◌, ◌*◌, false, IfOk, Ok, Err, MatchOption};
ghost use Rattle.std.specs.List.{list_all};
ghost use Rattle.hex.specs.Hex.{decode_of, is_hex_digit};
ghost use Rattle.hex.specs.declared.error.FromHexError.{FromHexError};
ghost use Rattle.hex_table.specs.Table.{digit_value};

use std::alloc::{AllocError, Global};

/// What stands in the table for a byte that is no digit: more than any byte.
const NONE: u32 = 256;

/// The value of each byte as a digit. Each is as wide as a register, so that reading one is one instruction.
static VALUES: [u32; 256] = [
    NONE, NONE, NONE, NONE, NONE, NONE, NONE, NONE, NONE, NONE, NONE, NONE, NONE, NONE, NONE, NONE,
    NONE, NONE, NONE, NONE, NONE, NONE, NONE, NONE, NONE, NONE, NONE, NONE, NONE, NONE, NONE, NONE,
    NONE, NONE, NONE, NONE, NONE, NONE, NONE, NONE, NONE, NONE, NONE, NONE, NONE, NONE, NONE, NONE,
    0, 1, 2, 3, 4, 5, 6, 7, 8, 9, NONE, NONE, NONE, NONE, NONE, NONE, NONE, 10, 11, 12, 13, 14, 15,
    NONE, NONE, NONE, NONE, NONE, NONE, NONE, NONE, NONE, NONE, NONE, NONE, NONE, NONE, NONE, NONE,
    NONE, NONE, NONE, NONE, NONE, NONE, NONE, NONE, NONE, NONE, 10, 11, 12, 13, 14, 15, NONE, NONE,
    NONE, NONE, NONE, NONE, NONE, NONE, NONE, NONE, NONE, NONE, NONE, NONE, NONE, NONE, NONE, NONE,
    NONE, NONE, NONE, NONE, NONE, NONE, NONE, NONE, NONE, NONE, NONE, NONE, NONE, NONE, NONE, NONE,
    NONE, NONE, NONE, NONE, NONE, NONE, NONE, NONE, NONE, NONE, NONE, NONE, NONE, NONE, NONE, NONE,
    NONE, NONE, NONE, NONE, NONE, NONE, NONE, NONE, NONE, NONE, NONE, NONE, NONE, NONE, NONE, NONE,
    NONE, NONE, NONE, NONE, NONE, NONE, NONE, NONE, NONE, NONE, NONE, NONE, NONE, NONE, NONE, NONE,
    NONE, NONE, NONE, NONE, NONE, NONE, NONE, NONE, NONE, NONE, NONE, NONE, NONE, NONE, NONE, NONE,
    NONE, NONE, NONE, NONE, NONE, NONE, NONE, NONE, NONE, NONE, NONE, NONE, NONE, NONE, NONE, NONE,
    NONE, NONE, NONE, NONE, NONE, NONE, NONE, NONE, NONE, NONE, NONE, NONE, NONE, NONE, NONE, NONE,
    NONE, NONE, NONE, NONE, NONE, NONE, NONE, NONE, NONE, NONE, NONE, NONE, NONE, NONE, NONE, NONE,
    NONE, NONE, NONE, NONE, NONE, NONE, NONE,
];

fn value(byte: u8) -> u32
    ensures { result ≡ digit_value byte }
{
    VALUES[byte as usize]
}

/// The byte of two digits, below 256; or more, where one of them is none.
fn pair(high: u8, low: u8) -> u32
    ensures { result ≡ digit_value high * 16 + digit_value low }
{
    value(high) * 16 + value(low)
}

/// The bytes of 16 digits, where each is one. What isn't a digit is looked for once for all of them.
fn slot_bytes(digits: &[u8; 16]) -> Option<[u8; 8]>
    ensures { MatchOption result (list_all is_hex_digit digits.now ≡ false)
        (λ bytes. decode_of digits.now ≡ Ok bytes) }
{
    let mut bytes = [0u8; 8];
    let mut seen = 0;
    'bytes: for at in 0..8 {
        let value = pair(digits[2 * at], digits[2 * at + 1]);
        bytes[at] = (value % 256) as u8;
        seen |= value;
    }
    if seen < NONE { Some(bytes) } else { None }
}

/// The bytes of digits that are fewer than a slot's, where they are pairs of digits.
fn rest_bytes(alloc: Global, digits: &[u8]) -> Result<Option<Vec<u8>>, AllocError>
    ensures { IfOk result (λ answer. MatchOption answer
        ((error : FromHexError) × (decode_of digits.now ≡ Err error))
        (λ bytes. decode_of digits.now ≡ Ok bytes.items)) }
{
    match hex::decode(alloc, digits) {
        Ok(bytes) => Ok(Some(bytes)),
        Err(hex::FromHexError::OutOfMemory) => Err(AllocError),
        Err(_) => Ok(None),
    }
}

/// The bytes that pairs of hexadecimal digits stand for, where they do.
pub fn decode(alloc: Global, digits: &[u8]) -> Result<Option<Vec<u8>>, AllocError>
    ensures { IfOk result (λ answer. MatchOption answer
        ((error : FromHexError) × (decode_of digits.now ≡ Err error))
        (λ bytes. decode_of digits.now ≡ Ok bytes.items)) }
{
    let mut bytes = Vec::with_capacity(alloc, digits.len() / 2)?;
    let (slots, rest) = digits.as_chunks::<16>();
    for slot in slots {
        let Some(part) = slot_bytes(slot) else {
            return Ok(None);
        };
        bytes.extend_from_slice(&part)?;
    }
    let Some(part) = rest_bytes(alloc, rest)? else {
        return Ok(None);
    };
    bytes.extend_from_slice(&part)?;
    Ok(Some(bytes))
}
