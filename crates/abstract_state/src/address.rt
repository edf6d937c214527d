//! Addresses of which the region is known.
ghost use Rattle.std.specs.Prelude.{◌≡◌, ℕ, ◌≤◌, ◌^◌};

use crate::quantity::Quantity;
use crate::region::Region;

/// An address in the context, or at its end: `offset` bytes from its begin.
#[derive(Clone, Copy)]
pub struct ContextAddress {
    pub offset: u64,
    ghost within: { offset ≤ 72 },
}

/// An address in the stack, or at its end: `offset` bytes from its lowest byte.
#[derive(Clone, Copy)]
pub struct StackAddress {
    pub offset: u64,
    ghost within: { offset ≤ 512 },
}

/// An address near a lent region: some number of bytes from its begin.
#[derive(Clone, Copy)]
pub struct LentAddress {
    pub region: Region,
    pub offset: Quantity,
    ghost near: { offset.range.high ≤ 2 ^ 20 },
}
