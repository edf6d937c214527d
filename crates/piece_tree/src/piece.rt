//! What versions share.
ghost use Rattle.std.specs.Prelude.{◌≡◌, ℕ, IfOk};

use std::alloc::AllocError;

/// By what a piece is measured: its parts, which are bytes or runs, or its characters.
#[derive(Clone, Copy)]
pub enum Measure {
    Parts,
    Characters,
}

/// A piece of a sequence, of which a second handle costs no copy.
pub trait Piece: Drop {
    ghost use Rattle.piece_tree.specs.declared.piece.Measure.{Measure};

    /// How large it is.
    ghost size: { Measure → Self → ℕ };

    /// How large it is.
    fn size(&self, measure: Measure) -> usize
        ensures { result ≡ size measure self.now };

    /// The same piece once more.
    fn share(&self) -> Result<Self, AllocError>
        ensures { IfOk result (λ again. again ≡ self.now) };
}
