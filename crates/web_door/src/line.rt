ghost use Rattle.std.specs.Prelude.{◌≡◌, ◌==◌, [], ◌++◌, take, length, min, not};
ghost use Rattle.web_door.specs.Line.{line_of, ends_line};

use std::marker::Model;
use tungstenite::Utf8Bytes;

/// What is still to be given of a text message: its bytes, and a LF where they don't end with one. Contracts see these
/// bytes.
#[derive(Drop)]
pub struct Line {
    text: Utf8Bytes,
    start: usize,
    lacks_end: bool,
}

impl Model for Line {
    ghost use Rattle.std.specs.Prelude.{◌≤◌, ◌++◌, ℕ, List, length, drop};
    ghost use Rattle.web_door.specs.Line.{missing_end};

    ghost Value = { List ℕ };

    ghost view = { λ l. drop l.start l.text ++ missing_end l.lacks_end };

    ghost invariant = { λ l. l.start ≤ length l.text };
}

/// Whether a text doesn't end with a LF.
fn lacks_line_end(text: &[u8]) -> bool
    ensures { result ≡ not (ends_line text.now) }
{
    match text.last() {
        Some(byte) => *byte != b'\n',
        None => true,
    }
}

impl Line {
    /// Of no message.
    pub fn empty() -> Line
        ensures { result ≡ [] }
    {
        Line {
            text: Utf8Bytes::from_static(""),
            start: 0,
            lacks_end: false,
        }
    }

    /// Of this message.
    pub fn of(text: Utf8Bytes) -> Line
        ensures { result ≡ line_of text }
    {
        let lacks_end = lacks_line_end(text.as_str().as_bytes());
        Line {
            text,
            start: 0,
            lacks_end,
        }
    }

    pub fn is_empty(&self) -> bool
        ensures { result ≡ (length self.now == 0) }
    {
        self.start == self.text.len() && !self.lacks_end
    }

    /// Gives as many of the bytes as fit.
    pub fn give(&mut self, buf: &mut [u8]) -> usize
        ensures count { result ≡ min (length self.old) (length buf.old) }
        ensures given { self.old ≡ take result buf.new ++ self.new }
        ensures room { length buf.new ≡ length buf.old }
    {
        let rest = &self.text.as_str().as_bytes()[self.start..];
        let count = rest.len().min(buf.len());
        buf[..count].copy_from_slice(&rest[..count]);
        self.start += count;
        if self.lacks_end && count < buf.len() {
            buf[count] = b'\n';
            self.lacks_end = false;
            return count + 1;
        }
        count
    }
}
