ghost use Rattle.std.specs.Prelude.{◌≡◌};

use call_history::knowledge::HistoryNaming;
use core_history::share::Share;
use feeds::batch::Batch;
use ingest_workers::hub::Hub;
use std::sync::Wait;
use std::sync::ledger::Ledger;
use version_history::published::Naming;

/// A share of one part, for calls that are made while the others work. It stays one under a lock, so that it can be
/// given back at the hub's end.
pub struct Spare<N: Naming + HistoryNaming + Ledger> {
    share: Share<N>,
    ghost part: { share.parts ≡ 1 },
}

impl<N: Naming + HistoryNaming + Ledger> Drop for Spare<N> {
    fn drop(self) {
        let Spare { share: _ } = self;
    }
}

impl<N: Naming + HistoryNaming + Ledger> Spare<N> {
    pub fn new(share: Share<N>) -> Spare<N>
        requires { share.parts ≡ 1 }
    {
        Spare { share }
    }

    pub fn into_share(self) -> Share<N>
        ensures { result.parts ≡ 1 }
    {
        let Spare { share } = self;
        share
    }

    /// Commits a batch, if it is still waited for.
    #[tactic(auto, using(crate::proofs::Parts::call_keeps))]
    pub fn commit<R: Wait + Copy>(&mut self, rt: &R, hub: &Hub<'_, N, R>, batch: Batch<N>) {
        let _ = hub.commit(rt, &mut self.share, batch);
    }

    /// Closes a subscriber, if there is one.
    #[tactic(auto, using(crate::proofs::Parts::call_keeps))]
    pub fn close<R: Wait + Copy>(&mut self, rt: &R, hub: &Hub<'_, N, R>, id: usize) {
        let _ = hub.close(rt, &mut self.share, id);
    }
}
