//! A log that is read frame by frame.
ghost use Rattle.std.specs.Prelude.{◌≡◌, ◌-◌, ◌<◌, ◌^◌, ◌≤◌, length};
ghost use Rattle.sqlite_wal.specs.Format.{stored_sum};
ghost use Rattle.log_frames.specs.Frames.{counted, after, frame_count, read_to};

use crate::format::{HEADER_BYTES, Pair, commits, follows, frame_bytes, frame_of, is_mark, pair};

/// What is found of a log's frames so far.
#[derive(Clone, Copy)]
pub(crate) enum Reading {
    /// Each is right.
    Whole,
    /// All before the mark of the writer are right; nothing behind it was committed.
    Ended,
    /// One is wrong, and so many behind it commit and go on from the sum stored before them.
    Broken(usize),
}

impl Reading {
    /// What is found with one frame more.
    fn after(self, follows: bool, is_mark: bool, commits: bool) -> Reading
        requires { counted self < 2 ^ 64 - 1 }
        ensures { result ≡ after self follows is_mark commits }
    {
        match self {
            Reading::Whole => {
                if follows {
                    Reading::Whole
                } else if is_mark {
                    Reading::Ended
                } else {
                    Reading::Broken(0)
                }
            }
            Reading::Ended => Reading::Ended,
            Reading::Broken(count) => {
                if follows && commits {
                    Reading::Broken(count + 1)
                } else {
                    Reading::Broken(count)
                }
            }
        }
    }
}

/// How a log's frames are read.
#[derive(Clone, Copy)]
pub(crate) struct Terms {
    /// Whether sums take words with the highest byte first.
    pub is_big: bool,
    pub salts: Pair,
    pub page_size: u32,
}

/// What is found of all whole frames, going on from what was found of the header.
#[tactic(auto, unfolding(crate::specs::Frames::read_to))]
pub(crate) fn read(log: &[u8], terms: Terms, begin: Reading) -> Reading
    requires long { 32 ≤ length log.now }
    requires none { counted begin ≡ 0 }
    ensures { result ≡ read_to terms begin log.now (frame_count terms.page_size log.now) }
{
    let mut reading = begin;
    let mut before = pair(log, 24);
    let count = (log.len() - HEADER_BYTES) / frame_bytes(terms.page_size);
    for index in 0..count {
        let frame = frame_of(log, terms.page_size, index);
        reading = reading.after(
            follows(terms.is_big, terms.salts, before, frame),
            is_mark(terms.salts, frame),
            commits(frame),
        );
        before = pair(frame, 16);
    }
    reading
}
