//! Runs the program's command on each case of the standard input, over readers and writers in memory, and prints each
//! case's name, its exit status, and what the command printed; plays each script of events (`test_scripts`), and prints
//! what the events answered; and then what clients of a server were told.
//!
//! Cases and scripts are separated by empty lines. A case is these lines, of which all but the first may be left out or
//! repeated:
//!
//! | line | what it says |
//! |---|---|
//! | `case NAME` | its name |
//! | `# TEXT` | nothing |
//! | `args WORD WORD ..` | further words of the command line, behind the program's name |
//! | `arg TEXT` | one further word, which may be empty or have spaces |
//! | `more N TEXT` | the text N times, at the end of the last word |
//! | `line TEXT` | further input: the text and a line feed |
//! | `text TEXT` | further input: the text alone |
//! | `times N TEXT` | further input: the text alone, N times |
//! | `count M N TEXT` | further input: a line for each number n from M to N, with n for `{n}` and n - 1 for `{n-1}` |
//!
//! In input `\hh` stands for the byte of these two hexadecimal digits, as `\5c` for a backslash and `\0a` for a line
//! feed. What the command printed is given line by line behind `> `, and what it said on standard error behind `! `,
//! but where the exit status is 2: the words of a usage error are the parser's.
#![tactic(auto)]

use anyhow::{Context, Result, bail};
use hub_program::command;
use hub_program::system::InMemory;
use std::alloc::Global;
use std::fs::Files;
use std::io;
use std::io::{Read, Write};
use std::net::{Net, TcpListener, TcpStream};
use std::rt::Clock;
use std::sync::Wait;
use std::thread::Threads;

#[derive(Drop)]
struct Case<'a> {
    name: &'a str,
    words: Vec<String>,
    input: Vec<u8>,
}

/// Appends the bytes that the text stands for.
fn push_input(input: &mut Vec<u8>, text: &str) -> Result<()> {
    let mut pieces = text.split('\\');
    if let Some(first) = pieces.next() {
        input.extend_from_slice(first.as_bytes())?;
    }
    for piece in pieces {
        let (digits, rest) = piece
            .split_at_checked(2)
            .context("two digits are missing behind a backslash")?;
        input.push(u8::from_str_radix(digits, 16)?)?;
        input.extend_from_slice(rest.as_bytes())?;
    }
    Ok(())
}

/// What stands before the first space, as a number, and what stands behind it.
fn counted(text: &str) -> Result<(u32, &str)> {
    let (count, rest) = text.split_once(' ').context("a number is missing")?;
    Ok((count.parse()?, rest))
}

impl<'a> Case<'a> {
    fn push_word(&mut self, alloc: Global, word: &str) -> Result<()> {
        self.words.push(String::from_str(alloc, word)?)?;
        Ok(())
    }

    fn push_line(&mut self, text: &str) -> Result<()> {
        push_input(&mut self.input, text)?;
        self.input.push(b'\n')?;
        Ok(())
    }

    /// Appends a line for each of the numbers.
    fn push_lines(&mut self, alloc: Global, text: &str) -> Result<()> {
        let (first, text) = counted(text)?;
        let (last, text) = counted(text)?;
        for number in first..=last {
            let before = format!(in alloc; "{}", number.saturating_sub(1))?;
            let number = format!(in alloc; "{number}")?;
            let line = text.replace(alloc, "{n-1}", before.as_str())?;
            let line = line.as_str().replace(alloc, "{n}", number.as_str())?;
            self.push_line(line.as_str())?;
        }
        Ok(())
    }

    /// Takes a line of the case in.
    fn read_line(&mut self, alloc: Global, line: &'a str) -> Result<()> {
        let (key, text) = line.split_once(' ').unwrap_or((line, ""));
        match key {
            "#" => {}
            "case" => self.name = text,
            "args" => {
                for word in text.split(' ') {
                    self.push_word(alloc, word)?;
                }
            }
            "arg" => self.push_word(alloc, text)?,
            "more" => {
                let (count, text) = counted(text)?;
                let word = self.words.last_mut().context("no word")?;
                for _ in 0..count {
                    word.push_str(text)?;
                }
            }
            "line" => self.push_line(text)?,
            "text" => push_input(&mut self.input, text)?,
            "times" => {
                let (count, text) = counted(text)?;
                for _ in 0..count {
                    push_input(&mut self.input, text)?;
                }
            }
            "count" => self.push_lines(alloc, text)?,
            _ => bail!("no line of a case: {line}"),
        }
        Ok(())
    }

    fn read(alloc: Global, text: &'a str) -> Result<Case<'a>> {
        let mut case = Case {
            name: "",
            words: Vec::new(alloc),
            input: Vec::new(alloc),
        };
        case.push_word(alloc, "hub")?;
        for line in text.lines() {
            case.read_line(alloc, line)?;
        }
        Ok(case)
    }

    /// Runs the command, and prints what it answers.
    fn answer<
        H: Threads
            + Wait
            + Net<Listener = TcpListener, Stream = TcpStream>
            + Files
            + Clock
            + Copy
            + Send
            + Sync,
        W: Write,
    >(&self, rt: &H, alloc: Global, writer: &mut W) -> Result<()> {
        let mut reader = self.input.as_slice();
        let mut printed = Vec::new(alloc);
        let mut said = Vec::new(alloc);
        let status = command(
            rt,
            alloc,
            &InMemory { alloc },
            &InMemory { alloc },
            &self.words,
            &mut reader,
            &mut printed,
            &mut said,
        );
        writeln!(writer, "{}: {status}", self.name)?;
        if status == 2 {
            return Ok(());
        }
        for line in std::str::from_utf8(&printed)?.split_inclusive('\n') {
            write!(writer, "> {line}")?;
        }
        if !printed.is_empty() && !printed.ends_with(b"\n") {
            writeln!(writer, "\n\\ no line feed at the end")?;
        }
        for line in std::str::from_utf8(&said)?.lines() {
            writeln!(writer, "! {line}")?;
        }
        Ok(())
    }
}

/// Whether a block of the input is a case of the command; else it is a script of events.
fn is_case(text: &str) -> bool {
    text.lines().any(|line| line.starts_with("case "))
}

fn main(rt: HostRuntime) -> Result<()> {
    let alloc = rt.alloc();
    let cases = io::read_to_string(alloc, rt.reader())?;
    let mut writer = io::BufWriter::new(alloc, io::writer(&rt))?;
    for text in cases.as_str().split("\n\n") {
        if is_case(text) {
            let case = Case::read(alloc, text)?;
            case.answer(&rt, alloc, &mut writer)?;
        } else {
            let mut told = String::new(alloc);
            test_scripts::play(rt, alloc, text, &mut told)?;
            writer.write_all(told.as_bytes())?;
        }
    }
    test_clients::trials(&rt, alloc, &mut writer)?;
    writer.flush()?;
    Ok(())
}
