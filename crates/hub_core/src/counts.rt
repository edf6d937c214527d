//! How much there is of a hub.
ghost use Rattle.std.specs.Prelude.{◌≡◌, ◌≤◌, false};
ghost use Rattle.hub_core.specs.Counting.{lag_of, greatest_lag};
ghost use Rattle.hub_core.specs.Opened.{open_ids};

use feeds::item::Item;
use feeds::sink::Sink;
use feeds::subscriber::Subscriber;
use version_history::published::Naming;

/// How much there is of a hub at a moment.
#[derive(Clone, Copy)]
pub struct Counts {
    /// The accepted changes. It is the number of the latest version.
    pub changes: u64,
    /// The characters that were inserted, removed ones too.
    pub inserted: u64,
    /// The mark operations.
    pub marks: u64,
    /// The subscribers that are open.
    pub subscribers: u64,
    /// The subscribers that were ever added, closed ones too.
    pub subscribed: u64,
    /// How many versions the slowest open subscriber was not sent whole.
    pub lag: u64,
}

/// How many versions, the latest of which has this number, an open subscriber was not sent whole.
fn lag_of<N: Naming, S: Sink<Item<N>>>(latest: u64, subscriber: &Subscriber<N, S>) -> u64
    requires few { latest ≤ 65536 }
    requires opened { subscriber.now.closed ≡ false }
    ensures { result ≡ lag_of latest subscriber.now }
{
    (latest + 1).saturating_sub(subscriber.cursor())
}

/// That of the slowest, where these are the ids of those that are open.
pub(crate) fn greatest_lag<N: Naming, S: Sink<Item<N>>>(
    latest: u64,
    subscribers: &[Subscriber<N, S>],
    ids: &[usize],
) -> u64
    requires few { latest ≤ 65536 }
    requires opened { ids.now ≡ open_ids 0 subscribers.now }
    ensures { result ≡ greatest_lag latest subscribers.now }
{
    let mut greatest = 0;
    for &id in ids {
        greatest = greatest.max(lag_of(latest, &subscribers[id]));
    }
    greatest
}
