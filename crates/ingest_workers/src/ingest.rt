ghost use Rattle.std.specs.Prelude.{◌≡◌, ◌+◌, ◌≤◌, sum, map, IfOk, IfErr, OnOk, OnErr};
ghost use Rattle.change_ops.specs.Sizes.{most_changes};
ghost use Rattle.core_history.specs.Runs.{Recorded};
ghost use Rattle.core_history.specs.Shares.{accepted_count};
ghost use Rattle.subscriber_queues.specs.Queue.{QueueSink};
ghost use Rattle.ingest_workers.specs.Holdings.{Ingests, Settles};
ghost use Rattle.ingest_workers.specs.Texts.{IsOneChange, IsNotOne, IngestsText};
ghost use Rattle.ingest_workers.specs.declared.ingest.HubError.TheVariants as hub_error;

use crate::hub::Hub;
use call_history::knowledge::HistoryNaming;
use change_history::refusal::SubmitError;
use change_ops::change::{Change, read_change};
use change_ops::refusal::ChangeError;
use core_history::share::Share;
use std::alloc::Global;
use std::sync::Wait;
use std::sync::ledger::Ledger;
use thiserror::Error;
use version_history::published::Naming;

/// Why a text was not ingested.
#[derive(Clone, Copy, Debug, PartialEq, Eq, Error)]
pub enum HubError {
    /// The text isn't that of one change.
    #[error("{0}")]
    Change(ChangeError),
    /// The change was not accepted.
    #[error("{0}")]
    Submit(SubmitError),
}

impl From<ChangeError> for HubError {
    ghost from_gives = { λ error e. e ≡ hub_error.Change error };

    fn from(error: ChangeError) -> HubError {
        HubError::Change(error)
    }
}

impl From<SubmitError> for HubError {
    ghost from_gives = { λ error e. e ≡ hub_error.Submit error };

    fn from(error: SubmitError) -> HubError {
        HubError::Submit(error)
    }
}

/// The change that a whole text is of. Text after it is a bad line, the one after the change's last.
fn one_change(alloc: Global, text: &str) -> Result<Change, ChangeError>
    ensures ok { IfOk result (λ change. IsOneChange text.now change) }
    ensures err { IfErr result (IsNotOne text.now) }
{
    let (change, rest) = read_change(alloc, text)?;
    if !rest.is_empty() {
        return Err(ChangeError::BadLine(change.lines().len() + 2));
    }
    Ok(change)
}

/// Submits a change, as a call of this share, and answers its version's number.
pub fn ingest_change<N: Naming + HistoryNaming + Ledger, R: Wait + Copy>(
    rt: &R,
    hub: &Hub<'_, N, R>,
    share: &mut Share<N>,
    change: Change,
) -> Result<u64, SubmitError>
    ensures call { Ingests N.size share.old change result share.new }
    ensures ok { OnOk result (accepted_count share.new ≡ accepted_count share.old + 1) }
    ensures err { OnErr result (accepted_count share.new ≡ accepted_count share.old) }
    ensures numbered { IfOk result (λ number. (accepted_count share.new ≤ number) × (number ≤ most_changes N.size)) }
{
    let token = hub.hold(rt).books.submit(rt, share, change)?;
    Ok(hub.published.look(&token).number())
}

/// Reads the change that a text is of, without the lock, and submits it, as a call of this share. It answers the number
/// of the change's version.
pub fn ingest<N: Naming + HistoryNaming + Ledger, R: Wait + Copy>(
    rt: &R,
    alloc: Global,
    hub: &Hub<'_, N, R>,
    share: &mut Share<N>,
    text: &str,
) -> Result<u64, HubError>
    ensures call { IngestsText N.size share.old text.now result share.new }
    ensures ok { OnOk result (accepted_count share.new ≡ accepted_count share.old + 1) }
    ensures err { OnErr result (accepted_count share.new ≡ accepted_count share.old) }
    ensures numbered { IfOk result (λ number. (accepted_count share.new ≤ number) × (number ≤ most_changes N.size)) }
{
    let change = one_change(alloc, text)?;
    let number = ingest_change(rt, hub, share, change)?;
    Ok(number)
}

/// Ends a hub, all shares of which are given back. It answers the number of accepted changes.
pub fn settle<N: Naming + HistoryNaming + Ledger, R: Wait + Copy>(
    hub: Hub<'_, N, R>,
    shares: Vec<Share<N>>,
) -> u64
    requires { sum (map (λ share. share.parts) shares.items) + 1 ≡ N.parts }
    ensures { (found : Recorded QueueSink) × Settles N.size found shares.items result }
{
    hub.into_books().settle(shares)
}
