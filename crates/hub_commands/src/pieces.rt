//! Reading an input to its end, piece by piece.
ghost use Rattle.std.specs.Prelude.{◌≡◌, ◌++◌, ◌<◌, List, ℕ, [], length, IfSome, OnOk};

use crate::failure::Failure;
use std::alloc::{AllocError, Global};
use std::io;
use std::io::Read;

/// As many bytes as are read at once.
const PIECE_BYTES: usize = 1 << 16;

/// What is kept of an input while it is read.
pub(crate) trait Gather {
    // What is settled before anything is read.
    ghost Terms: { Type 0 };

    // What is kept on these terms where these bytes were read.
    ghost keeps: { Terms → List ℕ → Self → Type 0 };

    /// Takes in the next bytes.
    fn push_piece(&mut self, piece: &[u8]) -> Result<(), AllocError>
        ensures { OnOk result ((terms : Terms) (input : List ℕ) → keeps terms input self.old
            → keeps terms (input ++ piece.now) self.new) };
}

/// Appends a piece. Room is made for a quarter more than is there, so that at most a quarter is held beside the bytes.
pub(crate) fn append(bytes: &mut Vec<u8>, piece: &[u8]) -> Result<(), AllocError>
    ensures { OnOk result (bytes.new.items ≡ bytes.old.items ++ piece.now) }
{
    if bytes.capacity() - bytes.len() < piece.len() {
        bytes.reserve_exact(piece.len().max(bytes.len() / 4))?;
    }
    bytes.extend_from_slice(piece)
}

/// Takes in all that a reader has, in pieces.
fn take_from<R: Read, G: Gather>(
    reader: &mut R,
    piece: &mut [u8],
    kept: &mut G,
) -> Result<(), Failure>
    requires { 0 < length piece.old }
    ensures { OnOk result ((terms : G.Terms) → G.keeps terms [] kept.old
        → IfSome (R.remaining reader.old) (λ input. G.keeps terms input kept.new)) }
{
    for _ in 0..u64::MAX {
        match reader.read(piece) {
            Ok(0) => return Ok(()),
            Ok(len) => kept.push_piece(&piece[..len])?,
            Err(error) => {
                if error.kind() != io::ErrorKind::Interrupted {
                    return Err(Failure::of_read(error));
                }
            }
        }
    }
    Err(Failure::Read(io::ErrorKind::Other.into()))
}

/// Takes in all that a reader has.
pub(crate) fn read_pieces<R: Read, G: Gather>(
    alloc: Global,
    reader: &mut R,
    kept: &mut G,
) -> Result<(), Failure>
    ensures { OnOk result ((terms : G.Terms) → G.keeps terms [] kept.old
        → IfSome (R.remaining reader.old) (λ input. G.keeps terms input kept.new)) }
{
    let mut piece = vec![in alloc; 0u8; PIECE_BYTES]?;
    take_from(reader, &mut piece, kept)
}
