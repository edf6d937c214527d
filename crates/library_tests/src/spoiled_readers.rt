use bpf_words::words::Words;
use interpreter::run::{run, run_checked};
use semantics::Outcome;
use span_context::context::{Context, Facts};
use span_context::profile::Profile;
use std::alloc::Global;
use std::test::Fail;
use verifier::verify::{Verified, verify};

// Programs that read the text, or the link's text, within its bounds, with each byte in turn replaced by each value:
// where one is accepted both interpreters have one verdict.

/// The byte at the front of the text, and the byte at the color's lowest bits where the text has four bytes.
static TEXT_READERS: [&str; 2] = [
    "79120000000000007913080000000000bf240000000000000704000001000000b7000000000000002d3401000000000071200000000000009500000000000000",
    "7912000000000000611310000000000061141c0000000000b700000000000000a5030400080000005704000003000000a7040000040000000f4200000000000071200000000000009500000000000000",
];

/// The same of the link's text.
static LINK_READERS: [&str; 2] = [
    "79123800000000007913400000000000bf240000000000000704000001000000b7000000000000002d3401000000000071200000000000009500000000000000",
    "7912380000000000611320000000000061141c0000000000b700000000000000a5030400080000005704000003000000a7040000040000000f4200000000000071200000000000009500000000000000",
];

/// Texts and links' texts of 0, 1 and 8 bytes.
static TEXTS: [&str; 3] = ["", "a", "abcdefgh"];

/// Whether both interpreters have one verdict on a span.
fn is_one_verdict(words: &Words<'_>, verified: &Verified, text: &[u8], link: &[u8]) -> bool {
    if text.len() > 1024 || link.len() > 1024 {
        return false;
    }
    let context = Context::new(&Facts {
        text_len: text.len() as u32,
        characters: text.len() as u32,
        flags: 0,
        color: 2,
        link_len: link.len() as u32,
        comments: 0,
        index: 0,
        count: 1,
        version: 1,
    });
    let verdict = run(verified, &context, text, link);
    matches!(run_checked(words, &context, text, link), Outcome::Done(value) if value == verdict)
}

/// Whether they have one on all spans, if the program is accepted.
fn is_alike(alloc: Global, bytes: &[u8], profile: Profile) -> bool {
    let Ok(words) = Words::new(bytes) else {
        return true;
    };
    let Ok(verified) = verify(alloc, &words, profile) else {
        return true;
    };
    TEXTS.iter().all(|text| {
        TEXTS.iter().all(|link| is_one_verdict(&words, &verified, text.as_bytes(), link.as_bytes()))
    })
}

/// Whether that is so with the byte at an index replaced by each value; the byte is put back.
fn are_alike_at(alloc: Global, bytes: &mut [u8], index: usize, profile: Profile) -> bool {
    let Some(was) = bytes.get(index).copied() else {
        return false;
    };
    for value in 0..=u8::MAX {
        if let Some(byte) = bytes.get_mut(index) {
            *byte = value;
        }
        if !is_alike(alloc, bytes, profile) {
            return false;
        }
    }
    if let Some(byte) = bytes.get_mut(index) {
        *byte = was;
    }
    true
}

/// Whether the program is accepted, and all that differ from it in one byte have one verdict where they are.
fn is_spoiled_safely(alloc: Global, reader: &str, profile: Profile) -> Result<bool, Fail> {
    let mut bytes = hex::decode(alloc, reader)?;
    let is_accepted = match Words::new(&bytes) {
        Ok(words) => verify(alloc, &words, profile).is_ok(),
        Err(_) => false,
    };
    for index in 0..bytes.len() {
        if !are_alike_at(alloc, &mut bytes, index, profile) {
            return Ok(false);
        }
    }
    Ok(is_accepted)
}

#[test]
fn interpreters_agree_on_spoiled_readers_of_the_text(rt: HostRuntime) -> Result<(), Fail> {
    for reader in TEXT_READERS {
        let in_one = is_spoiled_safely(rt.alloc(), reader, Profile::One)?;
        let in_two = is_spoiled_safely(rt.alloc(), reader, Profile::Two)?;
        assert!(rt; in_one && in_two);
    }
    Ok(())
}

#[test]
fn interpreters_agree_on_spoiled_readers_of_the_link(rt: HostRuntime) -> Result<(), Fail> {
    for reader in LINK_READERS {
        let in_two = is_spoiled_safely(rt.alloc(), reader, Profile::Two)?;
        assert!(rt; in_two);
    }
    Ok(())
}
