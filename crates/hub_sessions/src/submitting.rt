//! The changes that a session submits.
ghost use Rattle.std.specs.Prelude.{◌≡◌, ◌≤◌, None, Some, Ok, IfOk, IfErr, OnOk, OnErr, false, length};
ghost use Rattle.change_ops.specs.declared.size.Size.{Size};
ghost use Rattle.change_ops.specs.Spelling.{change_text};
ghost use Rattle.core_history.specs.Shares.{accepted_count};
ghost use Rattle.core_history.specs.Hubs.{Seen};
ghost use Rattle.ingest_workers.specs.Holdings.{Ingests};
ghost use Rattle.hub_requests.specs.Limits.{takes_change, after_change};
ghost use Rattle.hub_requests.specs.declared.limits.SessionLimits.{SessionLimits as Limits};
ghost use Rattle.hub_requests.specs.declared.limits.SessionOptions.{SessionOptions as Options};
ghost use Rattle.refusals.specs.declared.reason.Reason.TheVariants as reason;
ghost use Rattle.change_keeping.specs.Kept.{IsKeptAs};
ghost use Rattle.hub_sessions.specs.Submitting.{IsInReach, IsAdmitted, IsNotAdmitted, IsNotAccepted, Submits};
ghost use Rattle.hub_sessions.specs.Submitting.{IsKeptIf, IsMisshown};

use call_history::knowledge::HistoryNaming;
use change_counters::first_jump;
use change_history::refusal::SubmitError;
use change_keeping::keeper::{KeepError, Keeper};
use change_ops::change::Change;
use change_ops::refusal::ChangeError;
use change_ops::writing::write_change;
use core_history::share::Share;
use hub_requests::limits::SessionLimits;
use ingest_workers::ingest::ingest_change;
use refusals::reason::Reason;
use session_lines::reply::Reply;
use session_subscribers::session_hub::SessionHub;
use std::alloc::{AllocError, Global};
use std::sync::Wait;
use std::sync::ledger::Ledger;
use version_history::published::Naming;

/// How many bytes the text of a change has, where the session's bytes are limited; else 0.
fn counted_bytes(alloc: Global, left: SessionLimits, change: &Change) -> Result<u64, AllocError>
    ensures takes { IfOk result (λ bytes. takes_change left bytes
        ≡ takes_change left (length (change_text change.now))) }
    ensures after { IfOk result (λ bytes. after_change left bytes
        ≡ after_change left (length (change_text change.now))) }
    ensures err { OnErr result (¬ (left.bytes ≡ None)) }
{
    match left.bytes {
        None => Ok(0),
        Some(_) => {
            let mut text = String::new(alloc);
            write_change(change, &mut text)?;
            Ok(text.len() as u64)
        }
    }
}

/// Refuses a change with a counter that is further above all accepted ones than this. The hub is asked once the whole
/// change was read, so the answer has all counters that its peer had seen. They only rise: it refuses no less than a
/// later one.
fn check_jump<N: Naming + HistoryNaming + Ledger, R: Wait + Copy>(
    hub: &SessionHub<'_, '_, N, R>,
    share: &mut Share<N>,
    jump: u64,
    change: &Change,
) -> Result<(), Reason>
    ensures ok { OnOk result (IsInReach N.size share.old share.new (Some jump) change.now) }
    ensures err { IfErr result (λ why. (options : Options) (left : Limits) → options.counter_jump ≡ Some jump
        → IsNotAdmitted N.size share.old share.new options change.now left why) }
{
    let greatest = hub.hub.greatest_counter(&hub.rt, share);
    match first_jump(change, greatest, jump) {
        None => Ok(()),
        Some(line) => Err(Reason::Unread(ChangeError::Limit(line))),
    }
}

/// Refuses a change with a counter that is further above all accepted ones than the session may go.
fn check_counters<N: Naming + HistoryNaming + Ledger, R: Wait + Copy>(
    hub: &SessionHub<'_, '_, N, R>,
    share: &mut Share<N>,
    change: &Change,
) -> Result<(), Reason>
    ensures ok { OnOk result (IsInReach N.size share.old share.new hub.now.options.counter_jump change.now) }
    ensures err { IfErr result (λ why. (left : Limits)
        → IsNotAdmitted N.size share.old share.new hub.now.options change.now left why) }
{
    match hub.options.counter_jump {
        None => Ok(()),
        Some(jump) => check_jump(hub, share, jump, change),
    }
}

/// Whether the document may take the memory of the session's change, which is counted, and of all others under way.
fn has_memory<N: Naming + HistoryNaming + Ledger, R: Wait + Copy>(
    hub: &SessionHub<'_, '_, N, R>,
) -> bool
    ensures { result ≡ false → ¬ (hub.now.options.memory ≡ None) }
{
    match hub.options.memory {
        None => true,
        Some(limit) => hub.hub.has_memory(&hub.rt, limit),
    }
}

/// Whether the session may submit a change: how many bytes of it are to be counted, or why it may not.
fn admit<N: Naming + HistoryNaming + Ledger, R: Wait + Copy>(
    hub: &SessionHub<'_, '_, N, R>,
    share: &mut Share<N>,
    left: SessionLimits,
    change: &Change,
) -> Result<u64, Reason>
    ensures admitted { OnOk result (IsAdmitted N.size share.old share.new hub.now.options.counter_jump change.now
        left) }
    ensures takes { IfOk result (λ bytes. takes_change left bytes
        ≡ takes_change left (length (change_text change.now))) }
    ensures after { IfOk result (λ bytes. after_change left bytes
        ≡ after_change left (length (change_text change.now))) }
    ensures err { IfErr result (IsNotAdmitted N.size share.old share.new hub.now.options change.now left) }
{
    check_counters(hub, share, change)?;
    let Ok(bytes) = counted_bytes(hub.alloc, left, change) else {
        return Err(Reason::OutOfMemory);
    };
    if !left.takes_change(bytes) {
        return Err(Reason::Unaccepted(SubmitError::HistoryFull));
    }
    if !has_memory(hub) {
        return Err(Reason::OutOfMemory);
    }
    Ok(bytes)
}

/// Has a change kept, where there is a store, before it is shown. It answers its number among all that are kept.
#[tactic(auto, using(crate::proofs::Keeping::refused_by))]
fn keep<K: Keeper>(keeper: &mut K, change: &Change) -> Result<Option<u64>, Reason>
    ensures ok { IfOk result (IsKeptAs K.kept (K.stores keeper.old) change.now) }
    ensures err { IfErr result (λ why. (size : Size) (v : Seen)
        → IsNotAccepted size v v K.kept (K.stores keeper.old) change.now why) }
    ensures same { K.stores keeper.new ≡ K.stores keeper.old }
{
    match keeper.keep(change) {
        Ok(number) => Ok(number),
        Err(KeepError::Refused(error)) => Err(Reason::Unaccepted(error)),
        Err(KeepError::Failed) => Err(Reason::StoreFailed),
    }
}

/// Shows a change that is kept. Where it isn't shown, or under another number, it is not to be acknowledged, and no
/// later one is.
fn show_kept<N: Naming + HistoryNaming + Ledger, R: Wait + Copy>(
    hub: &SessionHub<'_, '_, N, R>,
    share: &mut Share<N>,
    change: Change,
    kept: u64,
) -> Result<u64, Reason>
    ensures ok { IfOk result (λ number. (number ≡ kept) × (accepted_count share.new ≤ number)
        × Ingests N.size share.old change (Ok number) share.new) }
    ensures err { IfErr result (λ why. (why ≡ reason.StoreFailed) × IsMisshown N.size share.old share.new change) }
{
    match ingest_change(&hub.rt, hub.hub, share, change) {
        Ok(number) if number == kept => Ok(number),
        _ => Err(Reason::StoreFailed),
    }
}

/// Shows a change under the number that it is kept by, or one that isn't to be kept.
#[tactic(auto, using(crate::proofs::Keeping::shown_ok, crate::proofs::Keeping::shown_err, crate::proofs::Keeping::alone_ok, crate::proofs::Keeping::alone_err))]
fn show<N: Naming + HistoryNaming + Ledger, R: Wait + Copy, K: Keeper>(
    hub: &SessionHub<'_, '_, N, R>,
    keeper: &mut K,
    share: &mut Share<N>,
    change: Change,
    kept: Option<u64>,
) -> Result<u64, Reason>
    requires { IsKeptAs K.kept (K.stores keeper.old) change kept }
    ensures ok { IfOk result (λ number. (accepted_count share.new ≤ number)
        × Ingests N.size share.old change (Ok number) share.new
        × IsKeptIf K.kept (K.stores keeper.old) number change) }
    ensures err { IfErr result (IsNotAccepted N.size share.old share.new K.kept (K.stores keeper.old) change) }
    ensures same { K.stores keeper.new ≡ K.stores keeper.old }
{
    match kept {
        None => match ingest_change(&hub.rt, hub.hub, share, change) {
            Ok(number) => Ok(number),
            Err(error) => Err(Reason::Unaccepted(error)),
        },
        Some(kept) => {
            let shown = show_kept(hub, share, change, kept);
            keeper.settle(shown.is_ok());
            shown
        }
    }
}

/// Submits a change, and counts it where it is accepted.
#[tactic(auto, using(crate::proofs::Keeping::kept_still, crate::proofs::Keeping::turned_away, crate::proofs::Keeping::not_shown, crate::proofs::Keeping::shown))]
pub(crate) fn submit<N: Naming + HistoryNaming + Ledger, R: Wait + Copy, K: Keeper>(
    hub: &SessionHub<'_, '_, N, R>,
    keeper: &mut K,
    share: &mut Share<N>,
    left: &mut SessionLimits,
    change: Change,
) -> Reply
    ensures submits { Submits N.size share.old share.new K.kept (K.stores keeper.old) hub.now.options
        change left.old result left.new }
    ensures same { K.stores keeper.new ≡ K.stores keeper.old }
{
    // It is under way until it is shown or refused.
    let _counted = hub.hub.begin_change(&change);
    let bytes = match admit(hub, share, *left, &change) {
        Ok(bytes) => bytes,
        Err(why) => return Reply::Refused(why),
    };
    let kept = match keep(keeper, &change) {
        Ok(kept) => kept,
        Err(why) => return Reply::Refused(why),
    };
    match show(hub, keeper, share, change, kept) {
        Ok(number) => {
            left.spend_change(bytes);
            Reply::Version(number)
        }
        Err(why) => Reply::Refused(why),
    }
}
