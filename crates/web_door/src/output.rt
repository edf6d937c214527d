ghost use Rattle.std.specs.Prelude.{◌≡◌, ◌++◌, [], OnOk, OnErr};

use std::alloc::{AllocError, Global};
use std::marker::Model;

/// Bytes that wait to be sent. Contracts see the bytes.
#[derive(Drop)]
pub struct Output {
    bytes: Vec<u8>,
}

impl Model for Output {
    ghost use Rattle.std.specs.Prelude.{ℕ, List};

    ghost Value = { List ℕ };

    ghost view = { λ o. o.bytes.items };
}

impl Output {
    /// None.
    pub fn new(alloc: Global) -> Output
        ensures { result ≡ [] }
    {
        Output {
            bytes: Vec::new(alloc),
        }
    }

    pub fn as_slice(&self) -> &[u8]
        ensures { result.now ≡ self.now }
    {
        self.bytes.as_slice()
    }

    /// Adds bytes.
    pub fn push(&mut self, more: &[u8]) -> Result<(), AllocError>
        ensures ok { OnOk result (self.new ≡ self.old ++ more.now) }
        ensures err { OnErr result (self.new ≡ self.old) }
    {
        self.bytes.extend_from_slice(more)
    }

    /// Takes all bytes away.
    pub fn clear(&mut self)
        ensures { self.new ≡ [] }
    {
        self.bytes.clear();
    }
}
