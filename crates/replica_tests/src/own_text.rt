//! A peer's own text, of messages in whatever order they came.
use change_ops::change::read_change;
use change_ops::size::Size;
use replica::message::Message;
use replica::replica::Replica;
use std::alloc::Global;
use std::test::Fail;
use version_pieces::iter::spans_from;

/// The text of the messages that are ready: each is the counter of its peer's last operation before it, and the text
/// of a change.
fn shown(alloc: Global, messages: &[(u64, &str)]) -> Result<String, Fail> {
    let mut replica = Replica::new(alloc, Size::Small);
    for (previous, text) in messages {
        let (change, _rest) = read_change(alloc, text)?; // 40 to 45: the first line at fault
        if let Some(message) = Message::new(*previous, change) {
            replica.deliver(message)?; // taken in, or covered by one that came before
        }
    }
    let version = replica.version(alloc)?; // its spans are Peritext's, of all that is ready
    let mut shown = String::new(alloc);
    for span in spans_from(&version, 0) {
        let mut rest = span.text;
        for _part in 0..span.characters {
            // A part has a character at least.
            let Some(part) = rest.next() else {
                break;
            };
            shown.push_str(part)?;
        }
    }
    Ok(shown)
}

#[test]
fn one_text_in_any_order(rt: HostRuntime) -> Result<(), Fail> {
    let alloc = rt.alloc();
    let first = (0, "change 1 1\ni 1@1 - 61\n");
    let second = (1, "change 1 1\ni 2@1 1@1 62\n");
    let other = (0, "change 2 1\ni 2@2 1@1 63\n");
    assert_eq!(rt; shown(alloc, &[first, second, other])?.as_str(), "acb");
    assert_eq!(rt;
        shown(alloc, &[other, second, first, second])?.as_str(),
        "acb"
    );
    // The second and the other wait for the first, which is lost.
    assert_eq!(rt; shown(alloc, &[second, other])?.as_str(), "");
    Ok(())
}
