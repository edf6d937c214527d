ghost use Rattle.std.specs.Prelude.{◌≡◌, ◌↔◌, ◌⊎◌, ◌<◌, ℕ, List, length, codes, option_map};
ghost use Rattle.std.specs.Prelude.{None, Ok, All, IfOk, IfErr, IfSome, IsSome, IsTrue, OnOk};
ghost use Rattle.std.specs.Io.KnownBytes.{Consumes};
ghost use Rattle.httparse.specs.Grammar.{HasNoRequest};
ghost use Rattle.httparse.specs.Spans.{IsHeaderWithin, IsRequestWithin};
ghost use Rattle.websocket.specs.Headers.{eq_ignore_case, fields_of, header_value};
ghost use Rattle.web_door.specs.Request.{request_of, IsListed, IsWelcome, IsNameOf, IsAsked};
ghost use Rattle.web_door.specs.Request.{IsHeadAt, IsNoHead, IsOpenedBy, ReadsMore, IsOpening};

use httparse::Status;
use httparse::spans::{EMPTY_HEADER_SPAN, HeaderSpan, RequestSpans, parse_request};
use std::alloc::{AllocError, Global};
use std::convert::AsStr;
use std::io::{ErrorKind, Read, Write};
use std::{io, str};
use websocket::handshake::server::{check_request, write_response};

/// The most header lines of a request.
const MAX_HEADERS: usize = 64;

/// The most bytes of a request's head.
const HEAD_LIMIT: usize = 16_384;

/// The most reads that a head takes: what was read is looked at again behind each.
const HEAD_READS: u32 = 64;

/// Why a request is refused.
#[derive(Clone, Copy)]
pub enum Refusal {
    /// It is no request, no right handshake, or its path isn't UTF-8.
    BadRequest,
    /// A page of an origin that isn't one of those given asks for a session.
    Forbidden,
    /// A session is asked for at another path.
    NotFound,
    /// Its method is neither GET nor HEAD.
    MethodNotAllowed,
    /// Its head did not come in time.
    RequestTimeout,
    /// Its head is too long, or has too many lines.
    HeadTooLarge,
}

impl Refusal {
    /// The status and its reason, as an answer's first line has them.
    pub fn status(self) -> &'static str {
        match self {
            Refusal::BadRequest => "400 Bad Request",
            Refusal::Forbidden => "403 Forbidden",
            Refusal::NotFound => "404 Not Found",
            Refusal::MethodNotAllowed => "405 Method Not Allowed",
            Refusal::RequestTimeout => "408 Request Timeout",
            Refusal::HeadTooLarge => "431 Request Header Fields Too Large",
        }
    }
}

/// A file that is asked for.
#[derive(Drop)]
pub struct FileRequest {
    pub path: String,
    /// The tags of what the client has: the value of `If-None-Match`.
    pub known: Option<Vec<u8>>,
}

/// What a request asks for.
#[derive(Drop)]
pub enum Asked {
    /// To begin a session: the key that answers it.
    Session([u8; 28]),
    /// A file.
    File(FileRequest),
    /// It is refused.
    Refused(Refusal),
}

/// A request, and what was read behind its head.
#[derive(Drop)]
pub struct Opening {
    pub asked: Asked,
    /// Whether only the head of an answer is asked for.
    pub is_head: bool,
    pub rest: Vec<u8>,
}

/// Whether the names are equal but for the case of letters.
fn is_named(name: &[u8], wanted: &[u8]) -> bool
    ensures { result ≡ eq_ignore_case name.now wanted.now }
{
    name.eq_ignore_ascii_case(wanted)
}

/// The value of the first header with this name.
fn header<'b>(head: &'b [u8], lines: &[HeaderSpan], name: &[u8]) -> Option<&'b [u8]>
    requires { All (IsHeaderWithin (length head.now)) lines.now }
    ensures { option_map (λ v. v.now) result ≡ header_value (fields_of head.now lines.now) name.now }
{
    for line in lines {
        if is_named(line.name.of(head), name) {
            return Some(line.value.of(head));
        }
    }
    None
}

/// Whether an origin is one of those given.
fn is_listed<S: AsStr>(origin: &[u8], origins: &[S]) -> bool
    ensures { IsTrue result ↔ IsListed S.text origins.now origin.now }
{
    origins.iter().any(|one| one.as_str().as_bytes() == origin)
}

/// Whether the sender of these lines may begin a session: a page of a listed origin, or no page, since a browser always
/// sends an `Origin` with a handshake.
fn is_from_welcome<S: AsStr>(head: &[u8], lines: &[HeaderSpan], origins: &[S]) -> bool
    requires { All (IsHeaderWithin (length head.now)) lines.now }
    ensures { IsTrue result ↔
        IsWelcome S.text origins.now (header_value (fields_of head.now lines.now) (codes "Origin")) }
{
    match header(head, lines, b"Origin") {
        None => true,
        Some(origin) => is_listed(origin, origins),
    }
}

/// Whether the lines have the key of a handshake.
fn has_key(head: &[u8], lines: &[HeaderSpan]) -> bool
    requires { All (IsHeaderWithin (length head.now)) lines.now }
    ensures { IsTrue result ↔ IsSome (header_value (fields_of head.now lines.now) (codes "Sec-WebSocket-Key")) }
{
    match header(head, lines, b"Sec-WebSocket-Key") {
        Some(_) => true,
        None => false,
    }
}

/// A path as a text; None where it isn't UTF-8.
fn file_name(alloc: Global, path: &[u8]) -> Result<Option<String>, AllocError>
    ensures { IfOk result (IsNameOf path.now) }
{
    match str::from_utf8(path) {
        Ok(path) => Ok(Some(String::from_str(alloc, path)?)),
        Err(_) => Ok(None),
    }
}

/// The tags of what the client has.
fn known_tags(
    alloc: Global,
    head: &[u8],
    lines: &[HeaderSpan],
) -> Result<Option<Vec<u8>>, AllocError>
    requires { All (IsHeaderWithin (length head.now)) lines.now }
    ensures { IfOk result (λ tags. option_map (λ v. v.items) tags
        ≡ header_value (fields_of head.now lines.now) (codes "If-None-Match")) }
{
    match header(head, lines, b"If-None-Match") {
        Some(tags) => Ok(Some(Vec::from_slice(alloc, tags)?)),
        None => Ok(None),
    }
}

/// Whether a method is GET or HEAD.
fn is_taken(method: &[u8]) -> bool
    ensures { IsTrue result ↔ (method.now ≡ codes "GET") ⊎ (method.now ≡ codes "HEAD") }
{
    method == b"GET".as_slice() || method == b"HEAD".as_slice()
}

/// Whether a method asks for the head of an answer alone.
fn wants_head(method: &[u8]) -> bool
    ensures { IsTrue result ↔ (method.now ≡ codes "HEAD") }
{
    method == b"HEAD".as_slice()
}

/// What a whole head asks for.
fn asked_by<S: AsStr>(
    alloc: Global,
    head: &[u8],
    found: &RequestSpans,
    spans: &[HeaderSpan],
    origins: &[S],
) -> io::Result<Asked>
    requires { IsRequestWithin head.now spans.now found.now }
    ensures { IfOk result (IsAsked S.text origins.now (request_of head.now spans.now found.now)) }
{
    let path = found.path.of(head);
    let lines = &spans[..found.headers];
    if !is_taken(found.method.of(head)) {
        return Ok(Asked::Refused(Refusal::MethodNotAllowed));
    }
    if path == b"/session".as_slice() {
        if !is_from_welcome(head, lines, origins) {
            return Ok(Asked::Refused(Refusal::Forbidden));
        }
        return match check_request(head, found, spans) {
            Ok(accept) => Ok(Asked::Session(accept)),
            Err(_) => Ok(Asked::Refused(Refusal::BadRequest)),
        };
    }
    if has_key(head, lines) {
        return Ok(Asked::Refused(Refusal::NotFound));
    }
    match file_name(alloc, path)? {
        Some(path) => {
            let known = known_tags(alloc, head, lines)?;
            Ok(Asked::File(FileRequest { path, known }))
        }
        None => Ok(Asked::Refused(Refusal::BadRequest)),
    }
}

/// Finds the head at the front of the bytes that were read; None where its end is still to come.
fn find_head(read: &[u8], spans: &mut [HeaderSpan]) -> Result<Option<RequestSpans>, Refusal>
    requires { length spans.old ≡ 64 }
    ensures found { IfOk result (λ found. IfSome found (IsHeadAt read.now spans.new)) }
    ensures none { result ≡ Ok None → HasNoRequest read.now × (length read.now < 16384) }
    ensures refused { IfErr result (IsNoHead read.now) }
{
    match parse_request(read, spans) {
        Ok(Status::Complete(found)) if found.len <= HEAD_LIMIT => Ok(Some(found)),
        Ok(Status::Partial) if read.len() < HEAD_LIMIT => Ok(None),
        Ok(_) | Err(httparse::Error::TooManyHeaders) => Err(Refusal::HeadTooLarge),
        Err(_) => Err(Refusal::BadRequest),
    }
}

/// What the bytes that were read ask for; None where the end of the head is still to come.
fn opened_by<S: AsStr>(alloc: Global, read: &[u8], origins: &[S]) -> io::Result<Option<Opening>>
    ensures { IfOk result (IsOpenedBy S.text origins.now read.now) }
{
    let mut spans = [EMPTY_HEADER_SPAN; MAX_HEADERS];
    match find_head(read, &mut spans) {
        Ok(Some(found)) => {
            let asked = asked_by(alloc, read, &found, &spans, origins)?;
            let is_head = wants_head(found.method.of(read));
            let rest = Vec::from_slice(alloc, &read[found.len..])?;
            Ok(Some(Opening {
                asked,
                is_head,
                rest,
            }))
        }
        Ok(None) => Ok(None),
        Err(refusal) => Ok(Some(Opening {
            asked: Asked::Refused(refusal),
            is_head: false,
            rest: Vec::new(alloc),
        })),
    }
}

/// How a reading goes on.
#[derive(Clone, Copy)]
enum Progress {
    /// There may be more.
    Goes,
    /// The stream ended.
    Ended,
    /// The stream waited as long as it may.
    Late,
}

/// Adds the bytes that one read gives.
fn read_more<R: Read>(reader: &mut R, read: &mut Vec<u8>) -> io::Result<Progress>
    ensures { OnOk result (ReadsMore (R.remaining reader.old) (R.remaining reader.new) read.old.items read.new.items) }
{
    let mut chunk = [0u8; 2048];
    match reader.read(&mut chunk) {
        Ok(count) => {
            read.extend_from_slice(&chunk[..count])?;
            Ok(if count == 0 {
                Progress::Ended
            } else {
                Progress::Goes
            })
        }
        Err(error) => match error.kind() {
            ErrorKind::Interrupted => Ok(Progress::Goes),
            ErrorKind::WouldBlock | ErrorKind::TimedOut => Ok(Progress::Late),
            _ => Err(error),
        },
    }
}

/// Reads the head of a request, of at most 16 KiB and 64 lines and in at most 64 reads, and says what it asks for. None
/// where the stream ended before. Where a read gives up waiting, the request is refused.
pub fn read_opening<R: Read, S: AsStr>(
    alloc: Global,
    reader: &mut R,
    origins: &[S],
) -> io::Result<Option<Opening>>
    ensures { IfOk result (λ found. IfSome found (λ opening. (read : List ℕ)
        × Consumes (R.remaining reader.old) (R.remaining reader.new) read
        × IsOpening S.text origins.now read opening)) }
{
    let mut read = Vec::new(alloc);
    for _ in 0..HEAD_READS {
        match read_more(reader, &mut read)? {
            Progress::Goes => {}
            Progress::Ended => return Ok(None),
            Progress::Late => return Ok(Some(late(alloc))),
        }
        if let Some(opening) = opened_by(alloc, &read, origins)? {
            return Ok(Some(opening));
        }
    }
    Ok(Some(late(alloc)))
}

/// Of a request whose head did not come in time.
fn late(alloc: Global) -> Opening
    ensures { result.asked ≡ Asked.Refused Refusal.RequestTimeout }
{
    Opening {
        asked: Asked::Refused(Refusal::RequestTimeout),
        is_head: false,
        rest: Vec::new(alloc),
    }
}

/// Tells a client that its session begins.
pub fn write_accept<W: Write>(alloc: Global, writer: &mut W, accept: &[u8; 28]) -> io::Result<()> {
    let mut out = Vec::new(alloc);
    if write_response(accept, &[], &mut out).is_err() {
        return Err(io::Error::from(ErrorKind::OutOfMemory));
    }
    writer.write_all(&out)?;
    writer.flush()
}
