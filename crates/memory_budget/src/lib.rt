//! How many bytes may still be taken for a document.
#![tactic(auto)]

ghost use Rattle.std.specs.Prelude.{◌≡◌, ◌-◌, ◌^◌};

use std::marker::Model;

/// How many bytes may still be taken for a document. What is made anew is paid for; where too little is left nothing is
/// refused here, and nothing is left.
#[derive(Drop)]
pub struct Budget {
    left: u64,
}

impl Model for Budget {
    ghost use Rattle.std.specs.Prelude.{ℕ};

    ghost Value = { ℕ };

    ghost view = { λ b. b.left };
}

impl Budget {
    /// So many bytes may be taken.
    pub fn new(left: u64) -> Budget
        ensures { result ≡ left }
    {
        Budget { left }
    }

    /// As many bytes may be taken as can be counted.
    pub fn unlimited() -> Budget
        ensures { result ≡ 2 ^ 64 - 1 }
    {
        Budget { left: u64::MAX }
    }

    /// How many bytes may still be taken.
    pub fn left(&self) -> u64
        ensures { result ≡ self.now }
    {
        self.left
    }

    /// Takes so many bytes, or all that is left where that is less.
    pub fn pay(&mut self, bytes: usize)
        ensures { self.new ≡ self.old - bytes }
    {
        self.left = self.left.saturating_sub(bytes as u64);
    }
}
