//! Reading an input line by line.
ghost use Rattle.std.specs.Prelude.{◌≡◌, ◌≤◌, ◌<◌, ◌-◌, ◌==◌, IfOk, IfSome, OnErr, length, take, position};
ghost use Rattle.std.specs.Io.KnownBytes.{Keeps};
ghost use Rattle.change_ops.specs.Refusals.{IsUnended};
ghost use Rattle.session_lines.specs.Lines.{Arrives};
ghost use Rattle.session_lines.specs.Parts.{Appended, IsBegun, Stands};

use std::alloc::Global;
use std::io;
use std::io::{BufRead, BufReader, Read};
use std::marker::Model;

/// The most bytes of a line, its LF included.
const LINE_LIMIT: usize = 70_000;

/// What comes next of an input.
#[derive(Clone, Copy)]
pub enum Arrival {
    /// A line that ended with LF.
    Whole,
    /// The last line, which had no LF.
    Unended,
    /// A line of more than 70,000 bytes.
    TooLong,
    /// Nothing is left.
    End,
}

/// An input that is read line by line. It waits for no more of the input than a line needs, and keeps one line.
#[derive(Drop)]
pub struct LineReader<R: Read> {
    reader: BufReader<R>,
    line: Vec<u8>,
}

impl<R: Read> Model for LineReader<R> {
    ghost use Rattle.std.specs.Io.Buffered.{reader_remaining};
    ghost use Rattle.session_lines.specs.Lines.{LineReader as LineReaderValue};

    ghost Value = { LineReaderValue };

    ghost view = { λ r. record { line = r.line.items; left = reader_remaining R.remaining r.reader } };
}

/// Where the first LF is.
fn feed_in(bytes: &[u8]) -> Option<usize>
    ensures index { result ≡ position (λ b. b == 10) bytes.now }
    ensures bound { IfSome result (λ at. at < length bytes.now) }
{
    bytes.iter().position(|byte| *byte == b'\n')
}

/// The length of what a line takes of some bytes: to the first LF, or all, and no more than there is room for.
#[tactic(auto, using(crate::proofs::Unended::before_feed, crate::proofs::Unended::no_feed))]
fn part_len(bytes: &[u8], room: usize) -> usize
    ensures bound { result ≤ length bytes.now }
    ensures room { result ≤ room }
    ensures some { 0 < room → 0 < length bytes.now → 0 < result }
    ensures one { IsUnended (take (result - 1) bytes.now) }
{
    let most = bytes.len().min(room);
    match feed_in(&bytes[..most]) {
        Some(at) => at + 1,
        None => most,
    }
}

/// Appends what a reader shows next to a line, to the first LF and no more than there is room for: how many bytes.
fn append_part<B: BufRead>(reader: &mut B, room: usize, line: &mut Vec<u8>) -> io::Result<usize>
    requires { 0 < room }
    ensures ok { IfOk result (λ n. Appended (B.remaining reader.old) line.old.items room n (B.remaining reader.new)
        line.new.items) }
    ensures err { OnErr result (Keeps (B.remaining reader.old) (B.remaining reader.new)
        × (line.new.items ≡ line.old.items)) }
{
    let bytes = reader.fill_buf()?;
    let len = part_len(bytes, room);
    line.extend_from_slice(&bytes[..len])?;
    reader.consume(len);
    Ok(len)
}

#[tactic(auto, using(crate::proofs::Lining::remains, crate::proofs::Lining::a_line, crate::proofs::Lining::too_long))]
/// What comes of a line whose last part had `part` bytes, if it is read; its LF is then taken away.
fn arrival_of(line: &mut Vec<u8>, part: usize) -> Option<Arrival>
    requires { IsBegun part line.old.items }
    ensures { Stands part line.old.items result line.new.items }
{
    if part == 0 && line.is_empty() {
        return Some(Arrival::End);
    }
    if part == 0 {
        return Some(Arrival::Unended);
    }
    if line.len() > LINE_LIMIT {
        return Some(Arrival::TooLong);
    }
    let last = line.len() - 1;
    if line[last] != b'\n' {
        return None;
    }
    line.truncate(last);
    Some(Arrival::Whole)
}

/// Reads a line, which is kept without its LF.
fn read_line<B: BufRead>(reader: &mut B, line: &mut Vec<u8>) -> io::Result<Arrival>
    ensures { IfOk result (λ arrival. Arrives (B.remaining reader.old) arrival
        (record { line = line.new.items; left = B.remaining reader.new })) }
{
    line.clear();
    for _ in 0..u64::MAX {
        // One byte past the limit shows that a line is too long.
        let room = LINE_LIMIT + 1 - line.len();
        match append_part(reader, room, line) {
            Ok(part) => {
                match arrival_of(line, part) {
                    Some(arrival) => return Ok(arrival),
                    None => {}
                }
            }
            Err(error) => {
                if error.kind() != io::ErrorKind::Interrupted {
                    return Err(error);
                }
            }
        }
    }
    Err(io::ErrorKind::Other.into())
}

impl<R: Read> LineReader<R> {
    ghost use Rattle.session_lines.specs.Lines.{Arrives};

    /// The reader of the lines of an input; the error is want of memory.
    pub fn new(alloc: Global, reader: R) -> io::Result<LineReader<R>>
    where
        R: Drop,
        ensures { IfOk result (λ r. r.left ≡ R.remaining reader) }
    {
        let reader = BufReader::new(alloc, reader)?;
        let line = Vec::new(alloc);
        Ok(LineReader { reader, line })
    }

    /// The line that was read last, without its LF.
    pub fn line(&self) -> &[u8]
        ensures { result.now ≡ self.now.line }
    {
        self.line.as_slice()
    }

    /// Reads the next line. After an error the input may be left within a line.
    pub fn advance(&mut self) -> io::Result<Arrival>
        ensures { IfOk result (λ arrival. Arrives self.old.left arrival self.new) }
    {
        read_line(&mut self.reader, &mut self.line)
    }
}
