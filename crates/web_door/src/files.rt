//! Which file of a folder a path names, and of which type it is.
ghost use Rattle.std.specs.Prelude.{◌≡◌, IfOk, IfSome};
ghost use Rattle.web_door.specs.Files.{may_follow, stays_within, IsWithin};

use percent_encoding::percent_decode;
use std::alloc::{AllocError, Global};
use std::str;

/// The types of files, by the endings of their names.
static KINDS: [(&str, &str); 11] = [
    (".html", "text/html; charset=utf-8"),
    (".js", "text/javascript; charset=utf-8"),
    (".mjs", "text/javascript; charset=utf-8"),
    (".css", "text/css; charset=utf-8"),
    (".svg", "image/svg+xml"),
    (".png", "image/png"),
    (".json", "application/json"),
    (".map", "application/json"),
    (".txt", "text/plain; charset=utf-8"),
    (".wasm", "application/wasm"),
    (".ico", "image/x-icon"),
];

/// The type of a file of this name.
pub fn kind_of(name: &str) -> &'static str {
    for (ending, kind) in KINDS {
        if name.ends_with(ending) {
            return kind;
        }
    }
    "application/octet-stream"
}

/// Whether a byte may stand behind another in a name that stays within its folder.
fn may_follow(before: u8, byte: u8) -> bool
    ensures { result ≡ may_follow before byte }
{
    byte != 0 && !(before == b'/' && (byte == b'/' || byte == b'.'))
}

/// Whether a name stays within the folder that it is taken from: no part of it is empty or begins with a dot, but for
/// an empty one at the end.
fn is_within(name: &[u8]) -> bool
    ensures { result ≡ stays_within 47 name.now }
{
    let mut before = b'/';
    for byte in name {
        if !may_follow(before, *byte) {
            return false;
        }
        before = *byte;
    }
    true
}

/// The path of a request without what asks more of it, and without the slash at its front.
fn trimmed(path: &str) -> Option<&str> {
    let path = match path.split_once('?') {
        Some((path, _)) => path,
        None => path,
    };
    path.strip_prefix('/')
}

/// The name that a path stands for, of the index of a folder where it ends with a slash; None where it isn't UTF-8.
fn decoded(alloc: Global, path: &str) -> Result<Option<String>, AllocError> {
    let mut bytes = Vec::new(alloc);
    percent_decode(path.as_bytes()).append_to(&mut bytes)?;
    let Ok(name) = str::from_utf8(&bytes) else {
        return Ok(None);
    };
    let mut name = String::from_str(alloc, name)?;
    if name.is_empty() || name.as_str().ends_with('/') {
        name.push_str("index.html")?;
    }
    Ok(Some(name))
}

/// The name in a folder that the path of a request stands for. None where it stands for none, or leads out of the
/// folder.
pub fn name_within(alloc: Global, path: &str) -> Result<Option<String>, AllocError>
    ensures { IfOk result (λ found. IfSome found IsWithin) }
{
    let Some(path) = trimmed(path) else {
        return Ok(None);
    };
    let Some(name) = decoded(alloc, path)? else {
        return Ok(None);
    };
    if is_within(name.as_str().as_bytes()) {
        Ok(Some(name))
    } else {
        Ok(None)
    }
}
