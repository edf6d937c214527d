use change_history::history::History;
use change_ops::change::read_change;
use change_ops::id::OpId;
use change_ops::keys::STRONG;
use change_ops::size::Size;
use change_ops::writing::write_change;
use span_view::context::context;
use span_view::view::{SpanView, view};
use std::alloc::{AllocError, Global};
use std::test::Fail;
use test_inputs::lines::lines;
use version_pieces::version::PieceVersion;

/// `abc` with strong from before a to before c, and then strong taken off from before b on.
static CHANGES: [&str; 2] = [
    "change 1 4 / i 1@1 - 61 / i 2@1 1@1 62 / i 3@1 2@1 63 / m 4@1 strong - <1@1 <3@1",
    "change 2 1 / u 4@2 strong <2@1 $",
];

/// Takes the change of that text in.
fn accept(alloc: Global, history: &mut History, text: &str) -> Result<(), Fail> {
    let text = lines(alloc, text)?;
    let (change, _) = read_change(alloc, text.as_str())?;
    history.accept(change)?;
    Ok(())
}

/// The history that changes make.
fn history_of(alloc: Global, texts: &[&'static str]) -> Result<History, Fail> {
    let mut history = History::new(alloc, Size::Small);
    for text in texts {
        accept(alloc, &mut history, text)?;
    }
    Ok(history)
}

/// The version that `CHANGES` make.
fn version(alloc: Global) -> Result<PieceVersion, Fail> {
    let history = history_of(alloc, &CHANGES)?;
    let version = history.version(alloc)?;
    Ok(version)
}

#[test]
fn a_context_has_its_bytes(rt: HostRuntime) -> Result<(), Fail> {
    let alloc = rt.alloc();
    let version = version(alloc)?;
    let mut buffer = String::new(alloc);
    let span = view(&version, 0, &mut buffer)?.ok_or("there is no span")?;
    // Text start, text end, length and characters, flags and color, link and comments, index and count, version, link
    // start, link end.
    let want =
        "000000000400000001000000040000000100000001000000010000000000000000000000000000000000000002000000020000000000000000000000080000000000000008000000";
    let got = hex::encode(alloc, context(&span).bytes())?;
    assert_eq!(rt; got.as_str(), want);
    Ok(())
}

/// A span's text, whether it is strong, its index, how many there are, and the version's number.
fn parts(span: SpanView<'_>) -> (&str, bool, usize, usize, u64) {
    (
        span.text,
        span.format.has(STRONG),
        span.index,
        span.count,
        span.version,
    )
}

/// Whether the version of `CHANGES` has two spans, and no more.
fn has_two_spans(alloc: Global, version: &PieceVersion) -> Result<bool, AllocError> {
    let mut buffer = String::new(alloc);
    let first = view(version, 0, &mut buffer)?.map(parts) == Some(("a", true, 0, 2, 2));
    let last = view(version, 1, &mut buffer)?.map(parts) == Some(("bc", false, 1, 2, 2));
    Ok(first && last && view(version, 2, &mut buffer)?.is_none())
}

#[test]
fn a_version_lends_its_spans(rt: HostRuntime) -> Result<(), Fail> {
    let version = version(rt.alloc())?;
    let is_right = has_two_spans(rt.alloc(), &version)?;
    assert!(rt; is_right);
    Ok(())
}

/// Changes that are read and written again: each kind of operation, of anchor and of value.
static SPELLINGS: [&str; 4] = [
    "change 1 3 / i 1@1 - 61 / i 2@1 1@1 10ffff / d 3@1 2@1",
    "change 1 3 / m 4@1 link https://a.b <1@1 >2@1 / m 5@1 comment:7 - >1@1 $ / m 6@1 em - $ ^",
    "change 2 2 / m 3@2 strong - ^ <1@1 / m 4@2 color 0f0080 ^ $",
    "change 65535 2 / u 1@65535 comment:2 ^ <1@1 / u 281474976710655@65535 link ^ $",
];

/// Whether a change is written as it was read, with nothing behind it.
fn is_written_again(alloc: Global, text: &str) -> Result<bool, Fail> {
    let text = lines(alloc, text)?;
    let (change, rest) = read_change(alloc, text.as_str())?;
    let mut out = String::from_str(alloc, "before ")?;
    write_change(&change, &mut out)?;
    let written = out.as_str().strip_prefix("before ");
    Ok(rest.is_empty() && written == Some(text.as_str()))
}

/// The first of the changes that is written otherwise.
fn first_unlike(alloc: Global, texts: &[&'static str]) -> Result<Option<&'static str>, Fail> {
    for text in texts {
        if !is_written_again(alloc, text)? {
            return Ok(Some(*text));
        }
    }
    Ok(None)
}

#[test]
fn changes_are_written_as_they_were_read(rt: HostRuntime) -> Result<(), Fail> {
    assert_eq!(rt; first_unlike(rt.alloc(), &SPELLINGS)?, None);
    Ok(())
}

/// Whether a character of the first peer is strong, if it is there.
fn is_strong(alloc: Global, history: &History, counter: u64) -> Result<Option<bool>, Fail> {
    let id = OpId::new(counter, 1).ok_or("an id is out of its limits")?;
    let format = history.format_at(alloc, id)?;
    Ok(format.map(|format| format.has(STRONG)))
}

/// Whether the first character alone is strong, and there is no fourth.
fn is_first_strong(alloc: Global, history: &History) -> Result<bool, Fail> {
    let first = is_strong(alloc, history, 1)?;
    let second = is_strong(alloc, history, 2)?;
    let third = is_strong(alloc, history, 3)?;
    let fourth = is_strong(alloc, history, 4)?;
    let plain = second == Some(false) && third == Some(false);
    Ok(first == Some(true) && plain && fourth.is_none())
}

#[test]
fn a_history_says_the_format_of_a_character(rt: HostRuntime) -> Result<(), Fail> {
    let history = history_of(rt.alloc(), &CHANGES)?;
    let is_right = is_first_strong(rt.alloc(), &history)?;
    assert!(rt; is_right);
    Ok(())
}
