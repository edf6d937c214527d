//! The header of an object.
ghost use Rattle.std.specs.Prelude.{◌≡◌, ◌↔◌, ◌≤◌, IsTrue, MatchResult, length};
ghost use Rattle.object_files.specs.Header.{number_at, IsWithinLimit, IsElf, IsElf64, IsRelocatable, IsBpf};
ghost use Rattle.object_files.specs.Object.{IsFirstFault};

use crate::fault::ObjectFault;
use crate::number::{u16_at, u32_at};

/// How many bytes an object may have: 16 MiB.
const BYTES_LIMIT: usize = 16_777_216;

/// How many bytes a header has.
pub(crate) const HEADER_BYTES: usize = 64;

/// 0x7f and "ELF", as a number.
const MAGIC: u32 = 0x464c_457f;

const RELOCATABLE: u16 = 1;

const BPF: u16 = 247;

fn is_elf(bytes: &[u8]) -> bool
    requires { IsWithinLimit bytes.now }
    ensures { IsTrue result ↔ IsElf bytes.now }
{
    bytes.len() >= HEADER_BYTES && u32_at(bytes, 0) == MAGIC
}

fn is_elf64(bytes: &[u8]) -> bool
    requires { IsElf bytes.now }
    ensures { IsTrue result ↔ IsElf64 bytes.now }
{
    bytes[4] == 2 && bytes[5] == 1 && bytes[6] == 1 && u32_at(bytes, 20) == 1
}

/// Looks at the header, but for its section table.
pub(crate) fn check_header(bytes: &[u8]) -> Result<(), ObjectFault>
    ensures { MatchResult result (λ _. IsBpf bytes.now) (IsFirstFault bytes.now) }
{
    if bytes.len() > BYTES_LIMIT {
        return Err(ObjectFault::TooLong);
    }
    if !is_elf(bytes) {
        return Err(ObjectFault::NotElf);
    }
    if !is_elf64(bytes) {
        return Err(ObjectFault::NotElf64);
    }
    if u16_at(bytes, 16) != RELOCATABLE {
        return Err(ObjectFault::NotRelocatable);
    }
    if u16_at(bytes, 18) != BPF {
        return Err(ObjectFault::NotBpf);
    }
    Ok(())
}
