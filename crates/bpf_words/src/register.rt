ghost use Rattle.std.specs.Prelude.{◌≡◌, ℕ, ◌≤◌, ◌<◌, ◌↔◌, IsSome, IfSome};

use std::marker::Model;

/// A register's number, 0 to 10.
#[derive(Clone, Copy)]
pub struct Register {
    number: u8,
}

impl Model for Register {
    ghost Value = { ℕ };

    ghost view = { λ r. r.number };

    ghost invariant = { λ r. r.number ≤ 10 };

    ghost inverse = { λ n. record { number = n } };
}

impl Register {
    /// The register that holds a run's number at its end (RFC 9669, section 4.3, EXIT).
    pub fn r0() -> Self
        ensures { result ≡ 0 }
    {
        Register { number: 0 }
    }

    /// The register of a number, where there is one.
    pub fn new(number: u8) -> Option<Self>
        ensures valid { IsSome result ↔ (number ≤ 10) }
        ensures value { IfSome result (λ r. r ≡ number) }
    {
        if number <= 10 {
            Some(Register { number })
        } else {
            None
        }
    }

    /// The number, 0 to 10.
    pub fn number(self) -> u8
        ensures value { result ≡ self }
        ensures small { result ≤ 10 }
    {
        self.number
    }

    /// The number as an index among the registers.
    pub fn index(self) -> usize
        ensures value { result ≡ self }
        ensures small { result < 11 }
    {
        usize::from(self.number)
    }
}
