//! Lines of other protocols.
ghost use Rattle.std.specs.Prelude.{◌≡◌};
ghost use Rattle.session_lines.specs.Foreign.{is_http, is_tls, is_foreign};

/// What the lines of HTTP requests end in.
const HTTP_1_0: &[u8] = b" HTTP/1.0";

const HTTP_1_1: &[u8] = b" HTTP/1.1";

/// The same before a CR.
const HTTP_1_0_CR: &[u8] = b" HTTP/1.0\r";

const HTTP_1_1_CR: &[u8] = b" HTTP/1.1\r";

/// What TLS begins with: the type of a handshake's record, and the first byte of its version.
const HANDSHAKE: &[u8] = &[22, 3];

/// Whether a line is that of an HTTP request.
fn is_http(line: &[u8]) -> bool
    ensures { result ≡ is_http line.now }
{
    line.ends_with(HTTP_1_0)
        || line.ends_with(HTTP_1_1)
        || line.ends_with(HTTP_1_0_CR)
        || line.ends_with(HTTP_1_1_CR)
}

/// Whether a line begins as TLS does.
fn is_tls(line: &[u8]) -> bool
    ensures { result ≡ is_tls line.now }
{
    line.starts_with(HANDSHAKE)
}

/// Whether a line is of another protocol, so that no session can have begun with it.
pub fn is_foreign(line: &[u8]) -> bool
    ensures { result ≡ is_foreign line.now }
{
    is_http(line) || is_tls(line)
}
