//! Files for a browser.
use crate::deadline::{ANSWER_SECONDS, Hurried};
use crate::journal::{FoundFile, Surroundings};
use std::alloc::Global;
use std::fs::File;
use std::io;
use std::io::{ErrorKind, Read, Write};
use std::rt::Clock;
use web_door::answer::{write_file_head, write_status, write_unchanged};
use web_door::files::{kind_of, name_within};
use web_door::head::FileRequest;
use web_door::tags::is_known;

/// What is said of a file that isn't there, or isn't for the asker.
const NOT_FOUND: &str = "404 Not Found";

/// How many bytes of a file are read and sent at once.
const PIECE: usize = 16_384;

/// Sends so many bytes of a file, a piece at a time. The client may take as long for each as for a short answer.
fn send_file<R: Clock + Copy>(
    file: &mut File,
    length: u64,
    writer: &mut Hurried<'_, R>,
) -> io::Result<()> {
    let mut piece = [0u8; PIECE];
    let mut left = length;
    for _ in 0..u64::MAX {
        if left == 0 {
            break;
        }
        let most = usize::try_from(left).unwrap_or(PIECE).min(PIECE);
        let count = file.read(&mut piece[..most])?;
        if count == 0 {
            // The head promised more.
            return Err(io::Error::from(ErrorKind::UnexpectedEof));
        }
        writer.again(ANSWER_SECONDS);
        writer.write_all(&piece[..count])?;
        left = left.saturating_sub(count as u64);
    }
    Ok(())
}

/// Answers with a file, or that the client has it already.
fn answer_found<R: Clock + Copy>(
    found: FoundFile,
    name: &str,
    known: Option<&Vec<u8>>,
    is_head: bool,
    writer: &mut Hurried<'_, R>,
) -> io::Result<()> {
    let FoundFile {
        mut file,
        length,
        tag,
    } = found;
    if let Some(known) = known
        && is_known(known, tag.as_str().as_bytes())
    {
        return write_unchanged(writer, tag.as_str());
    }
    write_file_head(writer, kind_of(name), length, tag.as_str())?;
    if is_head {
        return Ok(());
    }
    send_file(&mut file, length, writer)
}

/// Answers a request for a file.
pub(crate) fn answer_file<J: Surroundings, R: Clock + Copy>(
    around: &J,
    alloc: Global,
    folder: Option<&String>,
    request: &FileRequest,
    is_head: bool,
    writer: &mut Hurried<'_, R>,
) -> io::Result<()> {
    let Some(folder) = folder else {
        return write_status(writer, NOT_FOUND, is_head);
    };
    let Some(name) = name_within(alloc, request.path.as_str())? else {
        return write_status(writer, NOT_FOUND, is_head);
    };
    match around.open(folder.as_str(), name.as_str()) {
        Ok(Some(found)) => {
            let known = request.known.as_ref();
            answer_found(found, name.as_str(), known, is_head, writer)
        }
        Ok(None) | Err(_) => write_status(writer, NOT_FOUND, is_head),
    }
}
