use crate::peers::{Peers, Sent};
use change_ops::change::read_change;
use change_ops::size::Size;
use replica::message::Message;
use replica::replica::{Delivered, Replica};
use std::alloc::Global;
use std::test::Fail;
use test_inputs::random::Random;
use version_pieces::iter::spans_from;
use version_pieces::version::PieceVersion;

const MESSAGES: usize = 12;

/// Whether the versions have the same spans.
fn same_spans(one: &PieceVersion, other: &PieceVersion) -> bool {
    let mut rest = spans_from(other, 0);
    for span in spans_from(one, 0) {
        let Some(twin) = rest.next() else {
            return false;
        };
        if !span.text.is_same(twin.text) || *span.format != *twin.format {
            return false;
        }
    }
    rest.next().is_none()
}

/// The indices of all messages in a random order, some of them twice.
fn schedule(alloc: Global, random: &mut Random, count: usize) -> Result<Vec<usize>, Fail> {
    let mut order: Vec<usize> = Vec::new(alloc);
    for index in 0..count {
        let place = random.below(order.len().wrapping_add(1)).min(order.len());
        order.insert(place, index)?;
        if random.below(4) == 0 {
            order.push(index)?;
        }
    }
    Ok(order)
}

/// A replica that was handed the messages in this order.
fn handed(alloc: Global, sent: &[Sent], order: &[usize]) -> Result<Replica, Fail> {
    let mut replica = Replica::new(alloc, Size::Small);
    for index in order {
        if let Some(sent) = sent.get(*index) {
            if let Some(message) = message(alloc, sent.previous, sent.text.as_str())? {
                replica.deliver(message)?;
            }
        }
    }
    Ok(replica)
}

/// Whether each message that is held waits for an operation.
fn all_wait(replica: &Replica) -> Result<bool, Fail> {
    for index in 0..replica.held().len() {
        if replica.waiting_for(index)?.is_none() {
            return Ok(false);
        }
    }
    Ok(true)
}

/// A message of a change in text.
fn message(alloc: Global, previous: u64, text: &str) -> Result<Option<Message>, Fail> {
    let (change, _) = read_change(alloc, text)?;
    Ok(Message::new(previous, change))
}

#[test]
fn equal_sets_show_equal_spans(rt: HostRuntime) -> Result<(), Fail> {
    let alloc = rt.alloc();
    for seed in 0..8 {
        let mut peers = Peers::new(alloc, seed, 3)?;
        let mut sent: Vec<Sent> = Vec::new(alloc);
        for _message in 0..MESSAGES {
            sent.push(peers.send(alloc)?)?;
        }
        let mut random = Random::new(seed);
        // All messages, or all but the first few, so that some wait for what is lost.
        let lost = random.below(3);
        let left = sent.as_slice().get(lost..).unwrap_or(&[]);
        let first = schedule(alloc, &mut random, left.len())?;
        let second = schedule(alloc, &mut random, left.len())?;
        let one = handed(alloc, left, first.as_slice())?;
        let other = handed(alloc, left, second.as_slice())?;
        assert!(rt; one.stopped().is_none() && other.stopped().is_none());
        assert_eq!(rt; one.accepted_count(), other.accepted_count(), "seed {seed}");
        assert_eq!(rt; one.held().len(), other.held().len(), "seed {seed}");
        assert_eq!(rt;
            one.accepted_count().wrapping_add(one.held().len()),
            left.len(),
            "seed {seed}"
        );
        if lost == 0 {
            assert_eq!(rt; one.held().len(), 0, "seed {seed}");
        }
        assert!(rt; all_wait(&one)?, "seed {seed}");
        assert!(rt;
            same_spans(&one.version(alloc)?, &other.version(alloc)?),
            "seed {seed}"
        );
    }
    Ok(())
}

#[test]
fn an_earlier_change_is_waited_for(rt: HostRuntime) -> Result<(), Fail> {
    let alloc = rt.alloc();
    let mut replica = Replica::new(alloc, Size::Small);
    let late = message(alloc, 1, "change 1 1\ni 2@1 - 62\n")?;
    let early = message(alloc, 0, "change 1 1\ni 1@1 - 61\n")?;
    let again = message(alloc, 0, "change 1 1\ni 1@1 - 61\n")?;
    let (Some(late), Some(early), Some(again)) = (late, early, again) else {
        assert!(rt; false, "one is no message");
        return Ok(());
    };
    assert_eq!(rt; replica.deliver(late)?, Delivered::Taken);
    assert_eq!(rt; replica.accepted_count(), 0);
    assert_eq!(rt; replica.held().len(), 1);
    if !replica.held().is_empty() {
        let waits = replica.waiting_for(0)?;
        assert!(rt; waits.is_some_and(|id| id.counter() == 1 && id.node() == 1));
    }
    assert_eq!(rt; replica.deliver(early)?, Delivered::Taken);
    assert_eq!(rt; replica.accepted_count(), 2);
    assert_eq!(rt; replica.deliver(again)?, Delivered::Covered);
    assert_eq!(rt; replica.accepted_count(), 2);
    Ok(())
}

#[test]
fn a_change_that_no_history_accepts_makes_no_message(rt: HostRuntime) -> Result<(), Fail> {
    let alloc = rt.alloc();
    for (previous, text) in [
        (1, "change 1 1\ni 1@1 - 61\n"),
        (0, "change 1 1\ni 1@1 1@2 61\n"),
        (0, "change 1 2\ni 2@1 - 61\ni 1@1 - 61\n"),
        (0, "change 1 1\nd 1@1 1@1\n"),
    ] {
        assert!(rt; message(alloc, previous, text)?.is_none());
    }
    Ok(())
}
