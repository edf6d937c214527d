//! Answers to requests that ask for no session. Each says that the connection is closed behind it.
use crate::head::Refusal;
use std::io;
use std::io::Write;

/// What the head of each answer says: its type is not to be guessed, a copy is asked for again before it is shown, and
/// no page shows it within itself.
const EACH: &str =
    "x-content-type-options: nosniff\r\ncache-control: no-cache\r\nx-frame-options: DENY\r\n\
    content-security-policy: frame-ancestors 'none'\r\nconnection: close\r\n\r\n";

/// Writes the begin of an answer whose body has so many bytes of this type.
fn write_begin<W: Write>(writer: &mut W, status: &str, kind: &str, length: u64) -> io::Result<()> {
    write!(
        writer,
        "HTTP/1.1 {status}\r\ncontent-type: {kind}\r\ncontent-length: {length}\r\n"
    )
}

/// Answers with a status, which the body repeats unless only a head is asked for.
pub fn write_status<W: Write>(writer: &mut W, status: &str, is_head: bool) -> io::Result<()> {
    write_begin(
        writer,
        status,
        "text/plain; charset=utf-8",
        status.len() as u64,
    )?;
    writer.write_all(EACH.as_bytes())?;
    if !is_head {
        writer.write_all(status.as_bytes())?;
    }
    writer.flush()
}

/// Answers a request that is refused.
pub fn write_refusal<W: Write>(writer: &mut W, refusal: Refusal, is_head: bool) -> io::Result<()> {
    let status = refusal.status();
    write_begin(
        writer,
        status,
        "text/plain; charset=utf-8",
        status.len() as u64,
    )?;
    if matches!(refusal, Refusal::MethodNotAllowed) {
        writer.write_all(b"allow: GET, HEAD\r\n")?;
    }
    writer.write_all(EACH.as_bytes())?;
    if !is_head {
        writer.write_all(status.as_bytes())?;
    }
    writer.flush()
}

/// Writes the head of an answer whose body is a file, which has this tag.
pub fn write_file_head<W: Write>(
    writer: &mut W,
    kind: &str,
    length: u64,
    tag: &str,
) -> io::Result<()> {
    write_begin(writer, "200 OK", kind, length)?;
    write!(writer, "etag: {tag}\r\n{EACH}")?;
    writer.flush()
}

/// Answers that the client has a file already.
pub fn write_unchanged<W: Write>(writer: &mut W, tag: &str) -> io::Result<()> {
    write!(writer, "HTTP/1.1 304 Not Modified\r\netag: {tag}\r\n{EACH}")?;
    writer.flush()
}
