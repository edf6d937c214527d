//! The bytes of a log's header and of its frames.
ghost use Rattle.std.specs.Prelude.{◌≡◌, ◌+◌, ◌*◌, ◌≤◌, length};
ghost use Rattle.sqlite_wal.specs.Format.{be32, stored_sum};
ghost use Rattle.log_frames.specs.Frames.{frame_bytes, frame_of, same, is_signed, is_emptied, follows};
ghost use Rattle.log_frames.specs.Frames.{mark_byte, is_mark, commits};

use sqlite_wal::checksum_of;

/// How many bytes the header of a log has, and that of a frame.
pub(crate) const HEADER_BYTES: usize = 32;

const FRAME_HEADER_BYTES: usize = 24;

/// Two words: a salt or a sum.
pub(crate) type Pair = (u32, u32);

/// Four bytes as a number, the highest first.
pub(crate) fn number(bytes: &[u8], at: usize) -> u32
    requires { at + 4 ≤ length bytes.now }
    ensures { result ≡ be32 bytes.now at }
{
    bytes[at] as u32 * 0x100_0000
        + bytes[at + 1] as u32 * 0x1_0000
        + bytes[at + 2] as u32 * 0x100
        + bytes[at + 3] as u32
}

/// Two such numbers.
pub(crate) fn pair(bytes: &[u8], at: usize) -> Pair
    requires { at + 8 ≤ length bytes.now }
    ensures { result ≡ stored_sum bytes.now at }
{
    (number(bytes, at), number(bytes, at + 4))
}

/// How many bytes a frame has.
pub(crate) fn frame_bytes(page_size: u32) -> usize
    ensures { result ≡ frame_bytes page_size }
{
    FRAME_HEADER_BYTES + page_size as usize
}

/// The frame of this index.
pub(crate) fn frame_of(log: &[u8], page_size: u32, index: usize) -> &[u8]
    requires { 32 + index * (24 + page_size) + (24 + page_size) ≤ length log.now }
    ensures value { result.now ≡ frame_of page_size log.now index }
    ensures len { length result.now ≡ 24 + page_size }
{
    let size = frame_bytes(page_size);
    let start = HEADER_BYTES + index * size;
    &log[start..start + size]
}

/// Whether two pairs of words are one.
fn same(one: Pair, other: Pair) -> bool
    ensures { result ≡ same one other }
{
    (one.0 == other.0) & (one.1 == other.1)
}

/// Whether a log begins with a header that its own sum fits.
#[tactic(auto, unfolding(crate::specs::Frames::is_signed))]
pub(crate) fn is_signed(log: &[u8]) -> bool
    requires { 32 ≤ length log.now }
    ensures { result ≡ is_signed log.now }
{
    let magic = number(log, 0);
    let sum = checksum_of(magic == 0x377f_0683, (0, 0), &log[0..24]);
    ((magic == 0x377f_0682) | (magic == 0x377f_0683)) & same(sum, pair(log, 24))
}

/// Whether a log begins as one that its writer emptied.
pub(crate) fn is_emptied(log: &[u8]) -> bool
    requires { 32 ≤ length log.now }
    ensures { result ≡ is_emptied log.now }
{
    let magic = number(log, 0);
    (magic == 0x007f_0682) | (magic == 0x007f_0683)
}

/// Whether a frame goes on from the sum that is stored before it.
#[tactic(auto, unfolding(crate::specs::Frames::follows))]
pub(crate) fn follows(is_big: bool, salts: Pair, before: Pair, frame: &[u8]) -> bool
    requires { 24 ≤ length frame.now }
    ensures { result ≡ follows is_big salts before frame.now }
{
    let front = checksum_of(is_big, before, &frame[0..8]);
    let sum = checksum_of(is_big, front, &frame[24..]);
    same(pair(frame, 8), salts) & (number(frame, 0) != 0) & same(sum, pair(frame, 16))
}

/// What the first byte of a frame's first salt is before the frame is committed.
fn mark_byte(salt: u32) -> u32
    ensures { result ≡ mark_byte salt }
{
    if salt / 0x100_0000 == 0 { 1 } else { 0 }
}

/// Whether a frame has the mark that its writer leaves where nothing is committed yet.
#[tactic(auto, unfolding(crate::specs::Frames::is_mark))]
pub(crate) fn is_mark(salts: Pair, frame: &[u8]) -> bool
    requires { 24 ≤ length frame.now }
    ensures { result ≡ is_mark salts frame.now }
{
    let own = pair(frame, 8);
    (own.0 / 0x100_0000 == mark_byte(salts.0))
        & (own.0 % 0x100_0000 == salts.0 % 0x100_0000)
        & (own.1 == salts.1)
}

/// Whether a frame commits.
pub(crate) fn commits(frame: &[u8]) -> bool
    requires { 24 ≤ length frame.now }
    ensures { result ≡ commits frame.now }
{
    number(frame, 4) != 0
}
