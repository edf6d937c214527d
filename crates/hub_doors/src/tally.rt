//! How many requests of a session were answered, and how many were refused.
use std::cell::Cell;
use std::io;
use std::io::Write;

/// Counts of replies.
#[derive(Drop)]
pub(crate) struct Tally {
    is_kept: bool,
    replies: Cell<u64>,
    refusals: Cell<u64>,
}

impl Tally {
    /// No reply yet. Where it isn't kept none is counted.
    pub(crate) fn new(is_kept: bool) -> Tally {
        Tally {
            is_kept,
            replies: Cell::new(0),
            refusals: Cell::new(0),
        }
    }

    pub(crate) fn replies(&self) -> u64 {
        self.replies.get()
    }

    pub(crate) fn refusals(&self) -> u64 {
        self.refusals.get()
    }

    /// Counts a reply whose last line begins with this byte.
    fn count(&self, first: u8) {
        self.replies.set(self.replies.get().saturating_add(1));
        if first == b'n' {
            self.refusals.set(self.refusals.get().saturating_add(1));
        }
    }
}

/// How the last line of what was written begins.
#[derive(Clone, Copy)]
struct LastLine {
    /// Nothing stands behind the last LF.
    is_over: bool,
    first: u8,
}

impl LastLine {
    /// Takes in what was written next.
    fn note(&mut self, written: &[u8]) {
        for byte in written {
            if self.is_over {
                self.first = *byte;
            }
            self.is_over = *byte == b'\n';
        }
    }
}

/// A session's output, which is flushed once behind each reply. Its last line begins with `ok` or `no`.
#[derive(Drop)]
pub(crate) struct Tallied<'t, W> {
    pub output: W,
    tally: &'t Tally,
    line: LastLine,
}

impl<'t, W: Write> Tallied<'t, W> {
    pub(crate) fn new(output: W, tally: &'t Tally) -> Tallied<'t, W> {
        Tallied {
            output,
            tally,
            line: LastLine {
                is_over: true,
                first: 0,
            },
        }
    }
}

impl<W: Write> Write for Tallied<'_, W> {
    ghost contents = { λ w. W.contents w.output };

    fn write(&mut self, buf: &[u8]) -> io::Result<usize> {
        let count = self.output.write(buf)?;
        if self.tally.is_kept {
            self.line.note(&buf[..count]);
        }
        Ok(count)
    }

    fn flush(&mut self) -> io::Result<()> {
        self.output.flush()?;
        if self.tally.is_kept {
            self.tally.count(self.line.first);
        }
        Ok(())
    }
}
