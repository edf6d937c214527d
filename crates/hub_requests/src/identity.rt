//! Which hub it is.
ghost use Rattle.std.specs.Prelude.{◌≡◌, ◌↔◌, Ok, IfOk, IfSome, IsSome, length, string_bytes};
ghost use Rattle.std.specs.List.{AllPass};
ghost use Rattle.hex.specs.Hex.{decode_of, encode_lower, is_hex_digit};

use hex::FromHex;
use std::alloc::{AllocError, Global};

/// What tells a hub from all others: 16 bytes, which whoever makes the hub takes at random.
#[derive(Clone, Copy)]
pub struct HubId {
    pub bytes: [u8; 16],
}

/// The bytes that 32 hexadecimal digits stand for.
fn bytes_of(digits: &str) -> Option<[u8; 16]>
    ensures value { IfSome result (λ bytes. decode_of digits.now ≡ Ok bytes) }
    ensures found { IsSome result ↔ ((length digits.now ≡ 32) × AllPass is_hex_digit digits.now) }
{
    <[u8; 16] as FromHex>::from_hex(digits).ok()
}

impl HubId {
    /// The id that 32 hexadecimal digits stand for, of either case; None where they are no such digits or not so many.
    pub fn from_digits(digits: &str) -> Option<HubId>
        ensures value { IfSome result (λ id. decode_of digits.now ≡ Ok id.bytes) }
        ensures found { IsSome result ↔ ((length digits.now ≡ 32) × AllPass is_hex_digit digits.now) }
    {
        match bytes_of(digits) {
            Some(bytes) => Some(HubId { bytes }),
            None => None,
        }
    }

    /// Its 32 hexadecimal digits, in lower case.
    pub fn digits(&self, alloc: Global) -> Result<String, AllocError>
        ensures { IfOk result (λ digits. string_bytes digits ≡ encode_lower self.now.bytes) }
    {
        hex::encode(alloc, self.bytes)
    }
}
