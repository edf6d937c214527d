ghost use Rattle.std.specs.Prelude.{◌≡◌, ◌≤◌, length};
ghost use Rattle.log_frames.specs.Frames.{told, lost_commits, second_salts};

use crate::format::{HEADER_BYTES, Pair, frame_bytes, is_emptied, is_signed, number, pair};
use crate::reading::{Reading, Terms, read};

/// How many commits are lost by what is found: none where a power cut may have left it.
fn told(reading: Reading) -> usize
    ensures { result ≡ told reading }
{
    match reading {
        Reading::Broken(count) if count > 1 => count,
        _ => 0,
    }
}

/// The salts of the second frame, for a header that is wrong; zeros where there is no such frame.
fn second_salts(log: &[u8], page_size: u32) -> Pair
    ensures { result ≡ second_salts page_size log.now }
{
    let start = HEADER_BYTES + frame_bytes(page_size);
    if log.len() < start + 16 {
        (0, 0)
    } else {
        pair(log, start + 8)
    }
}

/// How many commits of a log are lost behind a frame, or a header, that is wrong: those that go on from the sum stored
/// before them. None is where the log is whole, or as a power cut leaves it, which can tear the last commit alone.
/// Pages have this size where the header is wrong.
#[tactic(auto, unfolding(crate::specs::Frames::lost_commits))]
pub fn lost_commits(log: &[u8], page_size: u32) -> usize
    ensures { result ≡ lost_commits page_size log.now }
{
    if log.len() < HEADER_BYTES {
        return 0;
    }
    if is_signed(log) {
        let terms = Terms {
            is_big: number(log, 0) == 0x377f_0683,
            salts: pair(log, 16),
            page_size: number(log, 8),
        };
        return told(read(log, terms, Reading::Whole));
    }
    if is_emptied(log) {
        return 0;
    }
    let terms = Terms {
        is_big: false,
        salts: second_salts(log, page_size),
        page_size,
    };
    told(read(log, terms, Reading::Broken(0)))
}
