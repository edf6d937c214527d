//! Writing long text in pieces.
ghost use Rattle.std.specs.Prelude.{◌≡◌, [], IfSome, OnOk};
ghost use Rattle.std.specs.Io.KnownBytes.{Appends, Keeps};
ghost use Rattle.span_lines.specs.Pieces.{given, Takes};

use arrayvec::ArrayString;
use std::fmt::Write as _;
use std::{fmt, io};

/// The most bytes that are gathered before they are written.
const PIECE: usize = 16_384;

/// A writer of text that gathers it in pieces.
#[derive(Drop)]
struct Pieces<'w, W: io::Write> {
    writer: &'w mut W,
    piece: ArrayString<PIECE>,
    /// Why the last piece was not written.
    fault: Option<io::Error>,
}

impl<W: io::Write> Pieces<'_, W> {
    /// Writes what was gathered.
    fn write_out(&mut self) -> io::Result<()>
        ensures written { OnOk result (Keeps (given W.contents self.old) (W.contents self.new.writer.now)) }
        ensures empty { OnOk result (self.new.piece.bytes ≡ []) }
        ensures given { OnOk result (Keeps (given W.contents self.old) (given W.contents self.new)) }
        ensures same { self.new.writer.ghost_name ≡ self.old.writer.ghost_name }
    {
        self.writer.write_all(self.piece.as_str().as_bytes())?;
        self.piece.clear();
        Ok(())
    }

    /// Gathers a text, or writes it as it is where it is too long for that.
    fn push(&mut self, text: &str) -> io::Result<()>
        ensures { OnOk result (Takes W.contents self.old text.now self.new) }
    {
        if self.piece.try_push_str(text).is_ok() {
            return Ok(());
        }
        self.write_out()?;
        if self.piece.try_push_str(text).is_ok() {
            return Ok(());
        }
        self.writer.write_all(text.as_bytes())
    }
}

impl<W: io::Write> fmt::Write for Pieces<'_, W> {
    ghost write_str_gives = { λ old text new. Takes W.contents old text new };

    fn write_str(&mut self, text: &str) -> fmt::Result {
        match self.push(text) {
            Ok(()) => Ok(()),
            Err(error) => {
                self.fault = Some(error);
                Err(fmt::Error)
            }
        }
    }
}

/// Writes what a value is displayed as, in pieces, which takes no memory.
pub fn write_displayed<W: io::Write, D: fmt::Display>(writer: &mut W, value: &D) -> io::Result<()>
    ensures { OnOk result (IfSome (D.output value.now) (Appends (W.contents writer.old) (W.contents writer.new))) }
{
    let mut pieces = Pieces {
        writer,
        piece: ArrayString::new(),
        fault: None,
    };
    match pieces.write(value) {
        Ok(()) => pieces.write_out(),
        Err(error) => Err(pieces.fault.unwrap_or(error.into())),
    }
}
