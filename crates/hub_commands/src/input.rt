ghost use Rattle.std.specs.Prelude.{◌≡◌, ◌+◌, ◌<◌, ◌^◌, take, IfOk, IfSome};

use crate::failure::Failure;
use crate::pieces::{Gather, append, read_pieces};
use std::alloc::{AllocError, Global};
use std::io::Read;

/// All bytes of an input.
#[derive(Drop)]
struct Whole {
    bytes: Vec<u8>,
}

impl Gather for Whole {
    ghost use Rattle.std.specs.Prelude.{◌≡◌};

    ghost Terms = { Unit {0} };

    ghost keeps = { λ _ input whole. whole.bytes.items ≡ input };

    fn push_piece(&mut self, piece: &[u8]) -> Result<(), AllocError> {
        append(&mut self.bytes, piece)
    }
}

/// The whole input.
pub fn read_input<R: Read>(alloc: Global, reader: &mut R) -> Result<Vec<u8>, Failure>
    ensures { IfOk result (λ input. IfSome (R.remaining reader.old) (λ bytes. input.items ≡ bytes)) }
{
    let mut whole = Whole {
        bytes: Vec::new(alloc),
    };
    read_pieces(alloc, reader, &mut whole)?;
    Ok(whole.bytes)
}

/// The input up to one byte past a limit, so that more than the limit is seen and not kept.
pub fn read_past<R: Read>(alloc: Global, reader: &mut R, limit: u64) -> Result<Vec<u8>, Failure>
    requires { limit + 1 < 2 ^ 64 }
    ensures { IfOk result (λ input. IfSome (R.remaining reader.old) (λ bytes. input.items ≡ take (limit + 1) bytes)) }
{
    let mut input = Vec::new(alloc);
    reader
        .take(limit + 1)
        .read_to_end(&mut input)
        .map_err(Failure::of_read)?;
    Ok(input)
}
