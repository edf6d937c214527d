ghost use Rattle.std.specs.Prelude.{◌≡◌, ℕ, ◌+◌, ◌<◌, ◌≤◌, ◌^◌, ◌++◌, length, take, drop};
ghost use Rattle.byteorder.specs.Endian.{little_bytes, little_number};
ghost use Rattle.semantics.specs.Memory.{bytes_in};

use byteorder::{ByteOrder, LittleEndian};
use span_context::context::{FRAME, STACK_BYTES};
use span_context::size::Size;

/// The address at which the stack begins.
pub const STACK: u64 = FRAME - STACK_BYTES as u64;

/// The number in the bytes at an offset, the lowest first.
pub fn number(bytes: &[u8], offset: usize, size: Size) -> u64
    requires { offset + bytes_in size ≤ length bytes.now }
    ensures value { result ≡ little_number (bytes_in size) (drop offset bytes.now) }
    ensures small { result < 256 ^ bytes_in size }
{
    match size {
        Size::Byte => u64::from(bytes[offset]),
        Size::Half => u64::from(LittleEndian::read_u16(&bytes[offset..])),
        Size::Word => u64::from(LittleEndian::read_u32(&bytes[offset..])),
        Size::Double => LittleEndian::read_u64(&bytes[offset..]),
    }
}

/// Writes as many of a number's low bytes as the size says, the lowest first.
pub fn put_number(bytes: &mut [u8], offset: usize, size: Size, value: u64)
    requires { offset + bytes_in size ≤ length bytes.old }
    ensures { bytes.new ≡ take offset bytes.old ++ little_bytes (bytes_in size) value
        ++ drop (offset + bytes_in size) bytes.old }
{
    match size {
        Size::Byte => bytes[offset] = (value % 256) as u8,
        Size::Half => LittleEndian::write_u16(
            &mut bytes[offset..offset + 2],
            (value % (1 << 16)) as u16,
        ),
        Size::Word => LittleEndian::write_u32(
            &mut bytes[offset..offset + 4],
            (value % (1 << 32)) as u32,
        ),
        Size::Double => LittleEndian::write_u64(&mut bytes[offset..offset + 8], value),
    }
}
